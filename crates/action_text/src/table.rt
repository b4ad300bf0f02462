//! The grammar of action text as a table in which one token chooses the line.
use crate::classes::Class;
use crate::names::Name;
use action_terms::kinds::{Kind, Sort, YKind};

/// What is noted or written where a part of a text has been read.
#[derive(Clone, Copy)]
pub enum Mark {
    /// An action node without data and token.
    Action(Kind),
    /// An action node with the items that were counted last.
    ActionWithItems(Kind),
    /// An action node with the token that was kept last.
    ActionWithToken(Kind),
    /// A yielder that its kind says whole.
    Yielder(YKind),
    /// The number that was kept last.
    Number,
    /// `the given S`, with the sort noted last.
    Given,
    /// `the given S # n`, with the sort noted last and the number that was kept last.
    GivenAt,
    /// `the S bound to T`, with the sort noted last and the token that was kept last.
    Bound,
    /// `the S stored in Y`, with the sort noted last.
    Stored,
    /// Data has no items.
    NoItems,
    /// Data has a first item.
    FirstItem,
    /// Data has one more item.
    NextItem,
    /// A sort.
    Sort(Sort),
    /// `f V`, with the two words that were kept last.
    Applied,
    /// `value of V`, with the word that was kept last.
    ValueOf,
}

/// What may stand on the right of a line.
#[derive(Clone, Copy)]
pub enum Symbol {
    /// A token of the class, read over.
    Read(Class),
    /// A token of the class, kept.
    Keep(Class),
    /// A mark, written.
    Emit(Mark),
    /// A name.
    Name(Name),
}

/// The name may be a token of the class, kept or not, and then the symbols.
#[derive(Clone, Copy)]
pub struct Row {
    /// The name.
    pub name: Name,
    /// The class.
    pub class: Class,
    /// Whether the token is kept.
    pub keeps: bool,
    /// What follows the token.
    pub right: &'static [Symbol],
}

/// The name may be the symbols.
#[derive(Clone, Copy)]
pub struct OtherRow {
    /// The name.
    pub name: Name,
    /// What it may be.
    pub right: &'static [Symbol],
}

/// The rows that a token chooses.
pub static ROWS: [Row; 74] = [
    Row {
        name: Name::Chain,
        class: Class::Or,
        keeps: false,
        right: &[
            Symbol::Name(Name::Operand),
            Symbol::Emit(Mark::Action(Kind::Or)),
            Symbol::Name(Name::MoreOr),
        ],
    },
    Row {
        name: Name::Chain,
        class: Class::Then,
        keeps: false,
        right: &[
            Symbol::Name(Name::Operand),
            Symbol::Emit(Mark::Action(Kind::Then)),
            Symbol::Name(Name::MoreThen),
        ],
    },
    Row {
        name: Name::Chain,
        class: Class::Trap,
        keeps: false,
        right: &[
            Symbol::Name(Name::Operand),
            Symbol::Emit(Mark::Action(Kind::Trap)),
            Symbol::Name(Name::MoreTrap),
        ],
    },
    Row {
        name: Name::Chain,
        class: Class::Hence,
        keeps: false,
        right: &[
            Symbol::Name(Name::Operand),
            Symbol::Emit(Mark::Action(Kind::Hence)),
            Symbol::Name(Name::MoreHence),
        ],
    },
    Row {
        name: Name::Chain,
        class: Class::Moreover,
        keeps: false,
        right: &[
            Symbol::Name(Name::Operand),
            Symbol::Emit(Mark::Action(Kind::Moreover)),
            Symbol::Name(Name::MoreMoreover),
        ],
    },
    Row {
        name: Name::Chain,
        class: Class::Before,
        keeps: false,
        right: &[
            Symbol::Name(Name::Operand),
            Symbol::Emit(Mark::Action(Kind::Before)),
            Symbol::Name(Name::MoreBefore),
        ],
    },
    Row {
        name: Name::Chain,
        class: Class::And,
        keeps: false,
        right: &[Symbol::Name(Name::AndNext)],
    },
    Row {
        name: Name::AndNext,
        class: Class::Then,
        keeps: false,
        right: &[
            Symbol::Name(Name::Operand),
            Symbol::Emit(Mark::Action(Kind::AndThen)),
            Symbol::Name(Name::MoreAndThen),
        ],
    },
    Row {
        name: Name::MoreOr,
        class: Class::Or,
        keeps: false,
        right: &[
            Symbol::Name(Name::Operand),
            Symbol::Emit(Mark::Action(Kind::Or)),
            Symbol::Name(Name::MoreOr),
        ],
    },
    Row {
        name: Name::MoreThen,
        class: Class::Then,
        keeps: false,
        right: &[
            Symbol::Name(Name::Operand),
            Symbol::Emit(Mark::Action(Kind::Then)),
            Symbol::Name(Name::MoreThen),
        ],
    },
    Row {
        name: Name::MoreTrap,
        class: Class::Trap,
        keeps: false,
        right: &[
            Symbol::Name(Name::Operand),
            Symbol::Emit(Mark::Action(Kind::Trap)),
            Symbol::Name(Name::MoreTrap),
        ],
    },
    Row {
        name: Name::MoreHence,
        class: Class::Hence,
        keeps: false,
        right: &[
            Symbol::Name(Name::Operand),
            Symbol::Emit(Mark::Action(Kind::Hence)),
            Symbol::Name(Name::MoreHence),
        ],
    },
    Row {
        name: Name::MoreMoreover,
        class: Class::Moreover,
        keeps: false,
        right: &[
            Symbol::Name(Name::Operand),
            Symbol::Emit(Mark::Action(Kind::Moreover)),
            Symbol::Name(Name::MoreMoreover),
        ],
    },
    Row {
        name: Name::MoreBefore,
        class: Class::Before,
        keeps: false,
        right: &[
            Symbol::Name(Name::Operand),
            Symbol::Emit(Mark::Action(Kind::Before)),
            Symbol::Name(Name::MoreBefore),
        ],
    },
    Row {
        name: Name::MoreAnd,
        class: Class::And,
        keeps: false,
        right: &[
            Symbol::Name(Name::Operand),
            Symbol::Emit(Mark::Action(Kind::And)),
            Symbol::Name(Name::MoreAnd),
        ],
    },
    Row {
        name: Name::MoreAndThen,
        class: Class::And,
        keeps: false,
        right: &[
            Symbol::Read(Class::Then),
            Symbol::Name(Name::Operand),
            Symbol::Emit(Mark::Action(Kind::AndThen)),
            Symbol::Name(Name::MoreAndThen),
        ],
    },
    Row {
        name: Name::Operand,
        class: Class::Complete,
        keeps: false,
        right: &[Symbol::Emit(Mark::Action(Kind::Complete))],
    },
    Row {
        name: Name::Operand,
        class: Class::Fail,
        keeps: false,
        right: &[Symbol::Emit(Mark::Action(Kind::Fail))],
    },
    Row {
        name: Name::Operand,
        class: Class::Commit,
        keeps: false,
        right: &[Symbol::Emit(Mark::Action(Kind::Commit))],
    },
    Row {
        name: Name::Operand,
        class: Class::Regive,
        keeps: false,
        right: &[Symbol::Emit(Mark::Action(Kind::Regive))],
    },
    Row {
        name: Name::Operand,
        class: Class::Rebind,
        keeps: false,
        right: &[Symbol::Emit(Mark::Action(Kind::Rebind))],
    },
    Row {
        name: Name::Operand,
        class: Class::Unfold,
        keeps: false,
        right: &[Symbol::Emit(Mark::Action(Kind::Unfold))],
    },
    Row {
        name: Name::Operand,
        class: Class::OpenParen,
        keeps: false,
        right: &[Symbol::Name(Name::Action), Symbol::Read(Class::CloseParen)],
    },
    Row {
        name: Name::Operand,
        class: Class::Unfolding,
        keeps: false,
        right: &[
            Symbol::Name(Name::Operand),
            Symbol::Emit(Mark::Action(Kind::Unfolding)),
        ],
    },
    Row {
        name: Name::Operand,
        class: Class::Furthermore,
        keeps: false,
        right: &[
            Symbol::Name(Name::Operand),
            Symbol::Emit(Mark::Action(Kind::Furthermore)),
        ],
    },
    Row {
        name: Name::Operand,
        class: Class::Escape,
        keeps: false,
        right: &[Symbol::Name(Name::Escaped)],
    },
    Row {
        name: Name::Operand,
        class: Class::Give,
        keeps: false,
        right: &[
            Symbol::Name(Name::Data),
            Symbol::Emit(Mark::ActionWithItems(Kind::Give)),
        ],
    },
    Row {
        name: Name::Operand,
        class: Class::Check,
        keeps: false,
        right: &[
            Symbol::Name(Name::Yielder),
            Symbol::Emit(Mark::Action(Kind::Check)),
        ],
    },
    Row {
        name: Name::Operand,
        class: Class::Bind,
        keeps: false,
        right: &[
            Symbol::Name(Name::Token),
            Symbol::Read(Class::To),
            Symbol::Name(Name::Yielder),
            Symbol::Emit(Mark::ActionWithToken(Kind::Bind)),
        ],
    },
    Row {
        name: Name::Operand,
        class: Class::Recursively,
        keeps: false,
        right: &[
            Symbol::Read(Class::Bind),
            Symbol::Name(Name::Token),
            Symbol::Read(Class::To),
            Symbol::Name(Name::Closure),
            Symbol::Emit(Mark::ActionWithToken(Kind::BindRec)),
        ],
    },
    Row {
        name: Name::Operand,
        class: Class::Store,
        keeps: false,
        right: &[
            Symbol::Name(Name::Yielder),
            Symbol::Read(Class::In),
            Symbol::Name(Name::Yielder),
            Symbol::Emit(Mark::Action(Kind::Store)),
        ],
    },
    Row {
        name: Name::Operand,
        class: Class::Allocate,
        keeps: false,
        right: &[
            Symbol::Read(Class::A),
            Symbol::Read(Class::Cell),
            Symbol::Emit(Mark::Action(Kind::Allocate)),
        ],
    },
    Row {
        name: Name::Operand,
        class: Class::Send,
        keeps: false,
        right: &[
            Symbol::Name(Name::Yielder),
            Symbol::Emit(Mark::Action(Kind::Send)),
        ],
    },
    Row {
        name: Name::Operand,
        class: Class::Receive,
        keeps: false,
        right: &[
            Symbol::Read(Class::An),
            Symbol::Read(Class::Integer),
            Symbol::Emit(Mark::Action(Kind::Receive)),
        ],
    },
    Row {
        name: Name::Operand,
        class: Class::Enact,
        keeps: false,
        right: &[Symbol::Name(Name::Enacted)],
    },
    Row {
        name: Name::Enacted,
        class: Class::Application,
        keeps: false,
        right: &[
            Symbol::Read(Class::Of),
            Symbol::Name(Name::Yielder),
            Symbol::Read(Class::To),
            Symbol::Name(Name::Data),
            Symbol::Emit(Mark::ActionWithItems(Kind::Apply)),
        ],
    },
    Row {
        name: Name::Escaped,
        class: Class::With,
        keeps: false,
        right: &[
            Symbol::Name(Name::Data),
            Symbol::Emit(Mark::ActionWithItems(Kind::EscapeWith)),
        ],
    },
    Row {
        name: Name::Data,
        class: Class::Them,
        keeps: false,
        right: &[
            Symbol::Emit(Mark::Yielder(YKind::Them)),
            Symbol::Emit(Mark::FirstItem),
        ],
    },
    Row {
        name: Name::Data,
        class: Class::OpenParen,
        keeps: false,
        right: &[Symbol::Name(Name::Items)],
    },
    Row {
        name: Name::Items,
        class: Class::CloseParen,
        keeps: false,
        right: &[Symbol::Emit(Mark::NoItems)],
    },
    Row {
        name: Name::MoreItems,
        class: Class::CloseParen,
        keeps: false,
        right: &[],
    },
    Row {
        name: Name::MoreItems,
        class: Class::Comma,
        keeps: false,
        right: &[
            Symbol::Name(Name::Item),
            Symbol::Emit(Mark::NextItem),
            Symbol::Name(Name::MoreItems),
        ],
    },
    Row {
        name: Name::Item,
        class: Class::Them,
        keeps: false,
        right: &[Symbol::Emit(Mark::Yielder(YKind::Them))],
    },
    Row {
        name: Name::Yielder,
        class: Class::Number,
        keeps: true,
        right: &[Symbol::Emit(Mark::Number)],
    },
    Row {
        name: Name::Yielder,
        class: Class::Place,
        keeps: true,
        right: &[Symbol::Emit(Mark::Number)],
    },
    Row {
        name: Name::Yielder,
        class: Class::True,
        keeps: false,
        right: &[Symbol::Emit(Mark::Yielder(YKind::Truth(true)))],
    },
    Row {
        name: Name::Yielder,
        class: Class::False,
        keeps: false,
        right: &[Symbol::Emit(Mark::Yielder(YKind::Truth(false)))],
    },
    Row {
        name: Name::Yielder,
        class: Class::The,
        keeps: false,
        right: &[Symbol::Name(Name::The)],
    },
    Row {
        name: Name::Yielder,
        class: Class::Sum,
        keeps: false,
        right: &[
            Symbol::Read(Class::OpenParen),
            Symbol::Name(Name::Yielder),
            Symbol::Read(Class::Comma),
            Symbol::Name(Name::Yielder),
            Symbol::Read(Class::CloseParen),
            Symbol::Emit(Mark::Yielder(YKind::Sum)),
        ],
    },
    Row {
        name: Name::Yielder,
        class: Class::Difference,
        keeps: false,
        right: &[
            Symbol::Read(Class::OpenParen),
            Symbol::Name(Name::Yielder),
            Symbol::Read(Class::Comma),
            Symbol::Name(Name::Yielder),
            Symbol::Read(Class::CloseParen),
            Symbol::Emit(Mark::Yielder(YKind::Difference)),
        ],
    },
    Row {
        name: Name::Yielder,
        class: Class::Product,
        keeps: false,
        right: &[
            Symbol::Read(Class::OpenParen),
            Symbol::Name(Name::Yielder),
            Symbol::Read(Class::Comma),
            Symbol::Name(Name::Yielder),
            Symbol::Read(Class::CloseParen),
            Symbol::Emit(Mark::Yielder(YKind::Product)),
        ],
    },
    Row {
        name: Name::Yielder,
        class: Class::IntegerQuotient,
        keeps: false,
        right: &[
            Symbol::Read(Class::OpenParen),
            Symbol::Name(Name::Yielder),
            Symbol::Read(Class::Comma),
            Symbol::Name(Name::Yielder),
            Symbol::Read(Class::CloseParen),
            Symbol::Emit(Mark::Yielder(YKind::Quotient)),
        ],
    },
    Row {
        name: Name::Yielder,
        class: Class::IntegerRemainder,
        keeps: false,
        right: &[
            Symbol::Read(Class::OpenParen),
            Symbol::Name(Name::Yielder),
            Symbol::Read(Class::Comma),
            Symbol::Name(Name::Yielder),
            Symbol::Read(Class::CloseParen),
            Symbol::Emit(Mark::Yielder(YKind::Remainder)),
        ],
    },
    Row {
        name: Name::Yielder,
        class: Class::Both,
        keeps: false,
        right: &[
            Symbol::Read(Class::OpenParen),
            Symbol::Name(Name::Yielder),
            Symbol::Read(Class::Comma),
            Symbol::Name(Name::Yielder),
            Symbol::Read(Class::CloseParen),
            Symbol::Emit(Mark::Yielder(YKind::Both)),
        ],
    },
    Row {
        name: Name::Yielder,
        class: Class::Either,
        keeps: false,
        right: &[
            Symbol::Read(Class::OpenParen),
            Symbol::Name(Name::Yielder),
            Symbol::Read(Class::Comma),
            Symbol::Name(Name::Yielder),
            Symbol::Read(Class::CloseParen),
            Symbol::Emit(Mark::Yielder(YKind::Either)),
        ],
    },
    Row {
        name: Name::Yielder,
        class: Class::Is,
        keeps: false,
        right: &[Symbol::Name(Name::IsRest)],
    },
    Row {
        name: Name::Yielder,
        class: Class::Negation,
        keeps: false,
        right: &[
            Symbol::Read(Class::OpenParen),
            Symbol::Name(Name::Yielder),
            Symbol::Read(Class::CloseParen),
            Symbol::Emit(Mark::Yielder(YKind::Negation)),
        ],
    },
    Row {
        name: Name::Yielder,
        class: Class::Not,
        keeps: false,
        right: &[
            Symbol::Read(Class::OpenParen),
            Symbol::Name(Name::Yielder),
            Symbol::Read(Class::CloseParen),
            Symbol::Emit(Mark::Yielder(YKind::Not)),
        ],
    },
    Row {
        name: Name::Yielder,
        class: Class::Closure,
        keeps: false,
        right: &[
            Symbol::Read(Class::Abstraction),
            Symbol::Read(Class::Of),
            Symbol::Name(Name::Operand),
            Symbol::Emit(Mark::Yielder(YKind::Closure)),
        ],
    },
    Row {
        name: Name::Closure,
        class: Class::Closure,
        keeps: false,
        right: &[
            Symbol::Read(Class::Abstraction),
            Symbol::Read(Class::Of),
            Symbol::Name(Name::Operand),
            Symbol::Emit(Mark::Yielder(YKind::Closure)),
        ],
    },
    Row {
        name: Name::IsRest,
        class: Class::Less,
        keeps: false,
        right: &[
            Symbol::Read(Class::Than),
            Symbol::Read(Class::OpenParen),
            Symbol::Name(Name::Yielder),
            Symbol::Read(Class::Comma),
            Symbol::Name(Name::Yielder),
            Symbol::Read(Class::CloseParen),
            Symbol::Emit(Mark::Yielder(YKind::Less)),
        ],
    },
    Row {
        name: Name::IsRest,
        class: Class::OpenParen,
        keeps: false,
        right: &[
            Symbol::Name(Name::Yielder),
            Symbol::Read(Class::Comma),
            Symbol::Name(Name::Yielder),
            Symbol::Read(Class::CloseParen),
            Symbol::Emit(Mark::Yielder(YKind::Is)),
        ],
    },
    Row {
        name: Name::The,
        class: Class::Given,
        keeps: false,
        right: &[Symbol::Name(Name::Sort), Symbol::Name(Name::AtPlace)],
    },
    Row {
        name: Name::TheRest,
        class: Class::Bound,
        keeps: false,
        right: &[
            Symbol::Read(Class::To),
            Symbol::Name(Name::Token),
            Symbol::Emit(Mark::Bound),
        ],
    },
    Row {
        name: Name::TheRest,
        class: Class::Stored,
        keeps: false,
        right: &[
            Symbol::Read(Class::In),
            Symbol::Name(Name::Yielder),
            Symbol::Emit(Mark::Stored),
        ],
    },
    Row {
        name: Name::AtPlace,
        class: Class::Hash,
        keeps: false,
        right: &[Symbol::Keep(Class::Place), Symbol::Emit(Mark::GivenAt)],
    },
    Row {
        name: Name::Sort,
        class: Class::Integer,
        keeps: false,
        right: &[Symbol::Emit(Mark::Sort(Sort::Integer))],
    },
    Row {
        name: Name::Sort,
        class: Class::TruthValue,
        keeps: false,
        right: &[Symbol::Emit(Mark::Sort(Sort::Truth))],
    },
    Row {
        name: Name::Sort,
        class: Class::Cell,
        keeps: false,
        right: &[Symbol::Emit(Mark::Sort(Sort::Cell))],
    },
    Row {
        name: Name::Sort,
        class: Class::Abstraction,
        keeps: false,
        right: &[Symbol::Emit(Mark::Sort(Sort::Abstraction))],
    },
    Row {
        name: Name::Token,
        class: Class::Quoted,
        keeps: true,
        right: &[],
    },
    Row {
        name: Name::Operand,
        class: Class::Function,
        keeps: true,
        right: &[Symbol::Keep(Class::Variable), Symbol::Emit(Mark::Applied)],
    },
    Row {
        name: Name::Yielder,
        class: Class::Value,
        keeps: false,
        right: &[
            Symbol::Read(Class::Of),
            Symbol::Keep(Class::Variable),
            Symbol::Emit(Mark::ValueOf),
        ],
    },
    Row {
        name: Name::Token,
        class: Class::Token,
        keeps: false,
        right: &[Symbol::Read(Class::Of), Symbol::Keep(Class::Variable)],
    },
];

/// The rows of what else a name may be.
pub static OTHER_ROWS: [OtherRow; 18] = [
    OtherRow {
        name: Name::Action,
        right: &[Symbol::Name(Name::Operand), Symbol::Name(Name::Chain)],
    },
    OtherRow {
        name: Name::Chain,
        right: &[],
    },
    OtherRow {
        name: Name::AndNext,
        right: &[
            Symbol::Name(Name::Operand),
            Symbol::Emit(Mark::Action(Kind::And)),
            Symbol::Name(Name::MoreAnd),
        ],
    },
    OtherRow {
        name: Name::MoreOr,
        right: &[],
    },
    OtherRow {
        name: Name::MoreAnd,
        right: &[],
    },
    OtherRow {
        name: Name::MoreAndThen,
        right: &[],
    },
    OtherRow {
        name: Name::MoreThen,
        right: &[],
    },
    OtherRow {
        name: Name::MoreTrap,
        right: &[],
    },
    OtherRow {
        name: Name::MoreHence,
        right: &[],
    },
    OtherRow {
        name: Name::MoreMoreover,
        right: &[],
    },
    OtherRow {
        name: Name::MoreBefore,
        right: &[],
    },
    OtherRow {
        name: Name::Enacted,
        right: &[
            Symbol::Name(Name::Yielder),
            Symbol::Emit(Mark::Action(Kind::Enact)),
        ],
    },
    OtherRow {
        name: Name::Escaped,
        right: &[Symbol::Emit(Mark::Action(Kind::Escape))],
    },
    OtherRow {
        name: Name::Data,
        right: &[Symbol::Name(Name::Yielder), Symbol::Emit(Mark::FirstItem)],
    },
    OtherRow {
        name: Name::Items,
        right: &[
            Symbol::Name(Name::Item),
            Symbol::Emit(Mark::FirstItem),
            Symbol::Read(Class::Comma),
            Symbol::Name(Name::Item),
            Symbol::Emit(Mark::NextItem),
            Symbol::Name(Name::MoreItems),
        ],
    },
    OtherRow {
        name: Name::Item,
        right: &[Symbol::Name(Name::Yielder)],
    },
    OtherRow {
        name: Name::The,
        right: &[Symbol::Name(Name::Sort), Symbol::Name(Name::TheRest)],
    },
    OtherRow {
        name: Name::AtPlace,
        right: &[Symbol::Emit(Mark::Given)],
    },
];
