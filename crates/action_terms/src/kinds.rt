//! The kinds of action nodes and of yielders.

/// The kind of an action node (Mosses 1992; the choice of kinds is this project's profile).
#[derive(Clone, Copy, Debug, PartialEq, Eq)]
pub enum Kind {
    /// `complete`
    Complete,
    /// `fail`
    Fail,
    /// `escape`
    Escape,
    /// `commit`
    Commit,
    /// `regive`
    Regive,
    /// `rebind`
    Rebind,
    /// `give Data`
    Give,
    /// `escape with Data`
    EscapeWith,
    /// `check Y`
    Check,
    /// `bind T to Y`
    Bind,
    /// `recursively bind T to closure abstraction of A`
    BindRec,
    /// `store Y in Y`
    Store,
    /// `allocate a cell`
    Allocate,
    /// `send Y`
    Send,
    /// `receive an integer`
    Receive,
    /// `enact Y`
    Enact,
    /// `enact application of Y to Data`
    Apply,
    /// `unfold`
    Unfold,
    /// `unfolding A`
    Unfolding,
    /// `furthermore A`
    Furthermore,
    /// `A or B`
    Or,
    /// `A and B`
    And,
    /// `A and then B`
    AndThen,
    /// `A then B`
    Then,
    /// `A trap B`
    Trap,
    /// `A hence B`
    Hence,
    /// `A moreover B`
    Moreover,
    /// `A before B`
    Before,
    /// `branch(Y, A, B)`, which no text spells; the laws make it.
    Branch,
}

/// The kind of a yielder.
#[derive(Clone, Copy, Debug, PartialEq, Eq)]
pub enum YKind {
    /// A number.
    Number(i64),
    /// `true` or `false`
    Truth(bool),
    /// `them`
    Them,
    /// `the given S`, with place 0, or `the given S # n`, with the place n from 1.
    Given {
        /// The sort that is wanted.
        sort: Sort,
        /// 0, or the place of the datum among the transients, from 1.
        place: u32,
    },
    /// `the S bound to T`
    Bound {
        /// The sort that is wanted.
        sort: Sort,
    },
    /// `the S stored in Y`
    Stored {
        /// The sort that is wanted.
        sort: Sort,
    },
    /// `sum(Y, Y)`
    Sum,
    /// `difference(Y, Y)`
    Difference,
    /// `product(Y, Y)`
    Product,
    /// `integer-quotient(Y, Y)`
    Quotient,
    /// `integer-remainder(Y, Y)`
    Remainder,
    /// `negation(Y)`
    Negation,
    /// `is(Y, Y)`
    Is,
    /// `is less than(Y, Y)`
    Less,
    /// `not(Y)`
    Not,
    /// `both(Y, Y)`
    Both,
    /// `either(Y, Y)`
    Either,
    /// `closure abstraction of A`
    Closure,
}

/// The sort of a datum, as a yielder names it.
#[derive(Clone, Copy, Debug, PartialEq, Eq)]
pub enum Sort {
    /// `integer`
    Integer,
    /// `truth-value`
    Truth,
    /// `cell`
    Cell,
    /// `abstraction`
    Abstraction,
}
