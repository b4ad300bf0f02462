//! The names of the grammar of action text, as its table has them.
ghost use Rattle.std.specs.Prelude.{◌≡◌, nat_eq};
ghost use Rattle.action_text.specs.Numbers.{name_number};

/// A name of the grammar.
#[derive(Clone, Copy)]
pub enum Name {
    /// An action: a chain of operands, or one.
    Action,
    /// What may follow the first operand of an action.
    Chain,
    /// What follows the first `and` of a chain.
    AndNext,
    /// What may follow an operand in a chain of `or`.
    MoreOr,
    /// What may follow an operand in a chain of `and`.
    MoreAnd,
    /// What may follow an operand in a chain of `and then`.
    MoreAndThen,
    /// What may follow an operand in a chain of `then`.
    MoreThen,
    /// What may follow an operand in a chain of `trap`.
    MoreTrap,
    /// What may follow an operand in a chain of `hence`.
    MoreHence,
    /// What may follow an operand in a chain of `moreover`.
    MoreMoreover,
    /// What may follow an operand in a chain of `before`.
    MoreBefore,
    /// An operand of a chain.
    Operand,
    /// What follows `enact`.
    Enacted,
    /// What follows `escape`.
    Escaped,
    /// Data of an action.
    Data,
    /// The items behind an opening parenthesis.
    Items,
    /// What follows the second item, or a later one.
    MoreItems,
    /// An item of data.
    Item,
    /// A yielder.
    Yielder,
    /// What follows `is`.
    IsRest,
    /// What follows `the`.
    The,
    /// What follows `the` and a sort.
    TheRest,
    /// What follows `the given` and a sort.
    AtPlace,
    /// A sort.
    Sort,
    /// A closure.
    Closure,
    /// What is bound or bound to: a quoted text, or in a template `token of V`.
    Token,
}

impl Name {
    /// The number of the name, from 0.
    pub fn number(self) -> u32
        ensures { result ≡ name_number self }
    {
        self as u32
    }

    /// Whether both are the same name.
    pub fn is(self, other: Name) -> bool
        ensures { result ≡ nat_eq (name_number self) (name_number other) }
    {
        self.number() == other.number()
    }
}
