//! The classes of the tokens of action texts: one for each word and symbol, and some for tokens whose bytes vary.
ghost use Rattle.std.specs.Prelude.{◌≡◌, nat_eq};
ghost use Rattle.action_text.specs.Numbers.{class_number};

/// The class of a token.
#[derive(Clone, Copy)]
pub enum Class {
    /// `or`
    Or,
    /// `and`
    And,
    /// `then`
    Then,
    /// `trap`
    Trap,
    /// `hence`
    Hence,
    /// `moreover`
    Moreover,
    /// `before`
    Before,
    /// `(`
    OpenParen,
    /// `)`
    CloseParen,
    /// `,`
    Comma,
    /// `#`
    Hash,
    /// `unfolding`
    Unfolding,
    /// `furthermore`
    Furthermore,
    /// `complete`
    Complete,
    /// `fail`
    Fail,
    /// `escape`
    Escape,
    /// `commit`
    Commit,
    /// `regive`
    Regive,
    /// `rebind`
    Rebind,
    /// `give`
    Give,
    /// `with`
    With,
    /// `check`
    Check,
    /// `bind`
    Bind,
    /// `to`
    To,
    /// `recursively`
    Recursively,
    /// `closure`
    Closure,
    /// `abstraction`
    Abstraction,
    /// `of`
    Of,
    /// `store`
    Store,
    /// `in`
    In,
    /// `allocate`
    Allocate,
    /// `a`
    A,
    /// `cell`
    Cell,
    /// `send`
    Send,
    /// `receive`
    Receive,
    /// `an`
    An,
    /// `integer`
    Integer,
    /// `enact`
    Enact,
    /// `application`
    Application,
    /// `unfold`
    Unfold,
    /// `them`
    Them,
    /// `true`
    True,
    /// `false`
    False,
    /// `the`
    The,
    /// `given`
    Given,
    /// `bound`
    Bound,
    /// `stored`
    Stored,
    /// `truth-value`
    TruthValue,
    /// `sum`
    Sum,
    /// `difference`
    Difference,
    /// `product`
    Product,
    /// `integer-quotient`
    IntegerQuotient,
    /// `integer-remainder`
    IntegerRemainder,
    /// `is`
    Is,
    /// `less`
    Less,
    /// `than`
    Than,
    /// `both`
    Both,
    /// `either`
    Either,
    /// `negation`
    Negation,
    /// `not`
    Not,
    /// A number of 64 signed bits that is no place.
    Number,
    /// A number from 1 to 64.
    Place,
    /// A quoted text.
    Quoted,
    /// A token that no text has.
    Other,
    /// `value`, in a template.
    Value,
    /// `token`, in a template.
    Token,
    /// A name of a function, in a template.
    Function,
    /// A variable, in a template.
    Variable,
}

impl Class {
    /// The number of the class, from 0.
    pub fn number(self) -> u32
        ensures { result ≡ class_number self }
    {
        self as u32
    }

    /// Whether both are the same class.
    pub fn is(self, other: Class) -> bool
        ensures { result ≡ nat_eq (class_number self) (class_number other) }
    {
        self.number() == other.number()
    }
}
