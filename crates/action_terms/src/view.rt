//! Nodes and yielders by their forms: each with the parts and the operands that it has, by number.
ghost use Rattle.std.specs.Prelude.{◌≡◌, ℕ, ◌<◌, length, Some, slice_get, IfSome, IfNone};
ghost use Rattle.action_terms.specs.Nodes.{listed_node, listed_yielder};
ghost use Rattle.action_terms.specs.Numbering.{ListedYielder, Listed};
ghost use Rattle.action_terms.specs.Forms.{IsNodeView, IsYielderView};
ghost use Rattle.action_terms.specs.ByKind.{operand_at, number_at, part_at, body_at, HasOne, IsRead, IsCompound, argument_at, IsYielderRead};

use crate::graph::{Graph, Node, YNode};
use crate::kinds::{Kind, Sort, YKind};

/// How two parts that are interleaved are joined.
#[derive(Clone, Copy, Debug, PartialEq, Eq)]
pub enum Join {
    /// `A and B`
    And,
    /// `A moreover B`
    Moreover,
}

/// How one part comes after the other.
#[derive(Clone, Copy, Debug, PartialEq, Eq)]
pub enum Chain {
    /// `A and then B`
    AndThen,
    /// `A then B`
    Then,
    /// `A hence B`
    Hence,
    /// `A before B`
    Before,
}

/// A node that is done in one step. Yielders and bodies are given by their numbers.
#[derive(Clone, Copy, Debug)]
pub enum PrimitiveView<'a> {
    /// `complete`
    Complete,
    /// `fail`
    Failing,
    /// `escape`
    Escape,
    /// `commit`
    Commit,
    /// `regive`
    Regive,
    /// `rebind`
    Rebind,
    /// `give Data`
    Give {
        /// The items of the data.
        items: &'a [u32],
    },
    /// `escape with Data`
    EscapeWith {
        /// The items of the data.
        items: &'a [u32],
    },
    /// `check Y`
    Check {
        /// What is checked.
        yielder: u32,
    },
    /// `bind T to Y`
    Bind {
        /// The token.
        token: &'a [u8],
        /// What it is bound to.
        yielder: u32,
    },
    /// `recursively bind T to closure abstraction of A`
    BindRec {
        /// The token.
        token: &'a [u8],
        /// The root of the body of the closure.
        body: u32,
    },
    /// `store Y in Y`
    Store {
        /// What is stored.
        datum: u32,
        /// The cell.
        cell: u32,
    },
    /// `allocate a cell`
    Allocate,
    /// `receive an integer`
    Receive,
    /// `send Y`
    Send {
        /// What is sent.
        yielder: u32,
    },
}

/// An action node. Parts, bodies and yielders are given by their numbers.
#[derive(Clone, Copy, Debug)]
pub enum NodeView<'a> {
    /// It is done in one step.
    Simple(PrimitiveView<'a>),
    /// `enact Y`
    Enact {
        /// The closure.
        yielder: u32,
    },
    /// `enact application of Y to Data`
    Apply {
        /// The closure.
        yielder: u32,
        /// The items of the data.
        items: &'a [u32],
    },
    /// `unfolding A`
    Unfolding {
        /// The root of its body.
        body: u32,
    },
    /// `unfold`
    Unfold {
        /// The root of the body that is repeated.
        body: u32,
    },
    /// `furthermore A`
    Furthermore {
        /// Its part.
        part: u32,
    },
    /// Two parts that are interleaved.
    Both {
        /// How they are joined.
        join: Join,
        /// The left part.
        left: u32,
        /// The right part.
        right: u32,
    },
    /// One part after the other.
    Phases {
        /// What the second receives and what both give.
        chain: Chain,
        /// The first part.
        left: u32,
        /// The second part.
        right: u32,
    },
    /// `A or B`
    Either {
        /// The left arm.
        left: u32,
        /// The right arm.
        right: u32,
    },
    /// `A trap B`
    Trapping {
        /// The left part.
        left: u32,
        /// The handler.
        right: u32,
    },
    /// `branch(Y, A, B)`
    Branch {
        /// The truth-value that decides.
        yielder: u32,
        /// What is performed where it is true.
        left: u32,
        /// What is performed where it is false.
        right: u32,
    },
}

/// An operation on two data.
#[derive(Clone, Copy, Debug, PartialEq, Eq)]
pub enum Two {
    /// `sum(Y, Y)`
    Sum,
    /// `difference(Y, Y)`
    Difference,
    /// `product(Y, Y)`
    Product,
    /// `integer-quotient(Y, Y)`
    Quotient,
    /// `integer-remainder(Y, Y)`
    Remainder,
    /// `is(Y, Y)`
    Is,
    /// `is less than(Y, Y)`
    Less,
    /// `both(Y, Y)`
    BothOf,
    /// `either(Y, Y)`
    EitherOf,
}

/// An operation on one datum.
#[derive(Clone, Copy, Debug, PartialEq, Eq)]
pub enum One {
    /// `negation(Y)`
    Negation,
    /// `not(Y)`
    Not,
}

/// A yielder. Arguments and bodies are given by their numbers.
#[derive(Clone, Copy, Debug)]
pub enum YielderView<'a> {
    /// A number.
    Number(i64),
    /// `true` or `false`
    Truth(bool),
    /// `them`
    Them,
    /// `the given S`
    Given {
        /// The sort that is wanted.
        sort: Sort,
    },
    /// `the given S # n`
    GivenAt {
        /// The sort that is wanted.
        sort: Sort,
        /// The place of the datum among the transients, from 1.
        place: u32,
    },
    /// `the S bound to T`
    BoundTo {
        /// The sort that is wanted.
        sort: Sort,
        /// The token.
        token: &'a [u8],
    },
    /// `the S stored in Y`
    StoredIn {
        /// The sort that is wanted.
        sort: Sort,
        /// The cell.
        cell: u32,
    },
    /// An operation on two data.
    OnTwo {
        /// Which operation.
        operation: Two,
        /// The first argument.
        first: u32,
        /// The second argument.
        second: u32,
    },
    /// An operation on one datum.
    OnOne {
        /// Which operation.
        operation: One,
        /// The argument.
        argument: u32,
    },
    /// `closure abstraction of A`
    ClosureOf {
        /// The root of its body.
        body: u32,
    },
}

// the numbers of the items of an operand
fn operand<'a>(node: Node<'a>, place: usize) -> &'a [u32]
    requires { place < length node.operands.now }
    ensures { result.now ≡ operand_at (listed_node node.entry) place }
{
    node.operands[place]
}

// the number of the only item of an operand
fn only_item(node: Node<'_>, place: usize) -> u32
    requires { HasOne (listed_node node) place }
    ensures { result ≡ number_at (listed_node node.entry) place }
{
    node.operands[place][0]
}

// the number of a part
fn part(node: Node<'_>, place: usize) -> u32
    requires { place < length node.children.now }
    ensures { result ≡ part_at (listed_node node.entry) place }
{
    node.children[place]
}

fn both<'a>(join: Join, node: Node<'_>) -> NodeView<'a>
    requires { 1 < length node.children.now }
    ensures { result
        ≡ NodeView.Both join
        (part_at (listed_node node.entry) 0) (part_at (listed_node node.entry) 1) }
{
    let left = part(node, 0);
    let right = part(node, 1);
    NodeView::Both { join, left, right }
}

fn phases<'a>(chain: Chain, node: Node<'_>) -> NodeView<'a>
    requires { 1 < length node.children.now }
    ensures { result
        ≡ NodeView.Phases chain
        (part_at (listed_node node.entry) 0) (part_at (listed_node node.entry) 1) }
{
    let left = part(node, 0);
    let right = part(node, 1);
    NodeView::Phases { chain, left, right }
}

fn either<'a>(node: Node<'_>) -> NodeView<'a>
    requires { 1 < length node.children.now }
    ensures { result
        ≡ NodeView.Either
        (part_at (listed_node node.entry) 0) (part_at (listed_node node.entry) 1) }
{
    let left = part(node, 0);
    let right = part(node, 1);
    NodeView::Either { left, right }
}

fn trapping<'a>(node: Node<'_>) -> NodeView<'a>
    requires { 1 < length node.children.now }
    ensures { result
        ≡ NodeView.Trapping
        (part_at (listed_node node.entry) 0) (part_at (listed_node node.entry) 1) }
{
    let left = part(node, 0);
    let right = part(node, 1);
    NodeView::Trapping { left, right }
}

fn branch<'a>(node: Node<'_>) -> NodeView<'a>
    requires parts { 1 < length node.children.now }
    requires operand { HasOne (listed_node node) 0 }
    ensures { result
        ≡ NodeView.Branch (number_at (listed_node node.entry) 0)
        (part_at (listed_node node.entry) 0) (part_at (listed_node node.entry) 1) }
{
    let left = part(node, 0);
    let right = part(node, 1);
    NodeView::Branch {
        yielder: only_item(node, 0),
        left,
        right,
    }
}

impl<'a> Graph<'a> {
    // the body of the yielder of a number
    fn body_of(&self, yielder: u32) -> u32
        requires { yielder < length self.now.yielders }
        ensures { result ≡ body_at self.now.yielders yielder }
    {
        self.yielders()[yielder as usize].body
    }

    // the node of a number
    fn node_at(&self, number: usize) -> Node<'a>
        requires { number < length self.now.nodes }
        ensures listed { slice_get self.now.nodes number ≡ Some (listed_node result) }
        ensures read { IsRead self.now number result.kind (listed_node result) }
    {
        self.nodes()[number]
    }

    // what a node does that is done in one step, or `None` for another node
    fn primitive(&self, number: usize) -> Option<PrimitiveView<'a>>
        requires { number < length self.now.nodes }
        ensures primitive { IfSome result (λ p. IsNodeView self.now number (NodeView.Simple p)) }
        ensures other { IfNone result (IsCompound self.now number) }
    {
        let node = self.node_at(number);
        match node.kind {
            Kind::Complete => Some(PrimitiveView::Complete),
            Kind::Fail => Some(PrimitiveView::Failing),
            Kind::Escape => Some(PrimitiveView::Escape),
            Kind::Commit => Some(PrimitiveView::Commit),
            Kind::Regive => Some(PrimitiveView::Regive),
            Kind::Rebind => Some(PrimitiveView::Rebind),
            Kind::Allocate => Some(PrimitiveView::Allocate),
            Kind::Receive => Some(PrimitiveView::Receive),
            Kind::Give => Some(PrimitiveView::Give {
                items: operand(node, 0),
            }),
            Kind::EscapeWith => Some(PrimitiveView::EscapeWith {
                items: operand(node, 0),
            }),
            Kind::Check => Some(PrimitiveView::Check {
                yielder: only_item(node, 0),
            }),
            Kind::Bind => Some(PrimitiveView::Bind {
                token: node.token,
                yielder: only_item(node, 0),
            }),
            Kind::BindRec => Some(PrimitiveView::BindRec {
                token: node.token,
                body: self.body_of(only_item(node, 0)),
            }),
            Kind::Store => Some(PrimitiveView::Store {
                datum: only_item(node, 0),
                cell: only_item(node, 1),
            }),
            Kind::Send => Some(PrimitiveView::Send {
                yielder: only_item(node, 0),
            }),
            _ => None,
        }
    }

    // a node that isn't done in one step
    fn compound(&self, number: usize) -> NodeView<'a>
        requires there { number < length self.now.nodes }
        requires compound { IsCompound self.now number }
        ensures { IsNodeView self.now number result }
    {
        let node = self.node_at(number);
        match node.kind {
            Kind::Enact => NodeView::Enact {
                yielder: only_item(node, 0),
            },
            Kind::Apply => NodeView::Apply {
                yielder: only_item(node, 0),
                items: operand(node, 1),
            },
            Kind::Unfolding => NodeView::Unfolding { body: node.body },
            Kind::Unfold => NodeView::Unfold { body: node.body },
            Kind::Furthermore => NodeView::Furthermore {
                part: part(node, 0),
            },
            Kind::And => both(Join::And, node),
            Kind::Moreover => both(Join::Moreover, node),
            Kind::AndThen => phases(Chain::AndThen, node),
            Kind::Then => phases(Chain::Then, node),
            Kind::Hence => phases(Chain::Hence, node),
            Kind::Before => phases(Chain::Before, node),
            Kind::Or => either(node),
            Kind::Trap => trapping(node),
            Kind::Branch => branch(node),
            _ => unreachable!(),
        }
    }

    /// The node of this number, from 0, with its parts, bodies and yielders by number.
    pub fn view(&self, number: usize) -> NodeView<'a>
        requires { number < length self.now.nodes }
        ensures { IsNodeView self.now number result }
    {
        match self.primitive(number) {
            Some(primitive) => NodeView::Simple(primitive),
            None => self.compound(number),
        }
    }
}

// the number of an argument
fn argument(node: YNode<'_>, place: usize) -> u32
    requires { place < length node.children.now }
    ensures { result ≡ argument_at (listed_yielder node.entry) place }
{
    node.children[place]
}

fn on_two<'a>(operation: Two, node: YNode<'_>) -> YielderView<'a>
    requires { 1 < length node.children.now }
    ensures { result
        ≡ YielderView.OnTwo operation
        (argument_at (listed_yielder node.entry) 0) (argument_at (listed_yielder node.entry) 1) }
{
    let first = argument(node, 0);
    let second = argument(node, 1);
    YielderView::OnTwo {
        operation,
        first,
        second,
    }
}

fn on_one<'a>(operation: One, node: YNode<'_>) -> YielderView<'a>
    requires { 0 < length node.children.now }
    ensures { result
        ≡ YielderView.OnOne operation (argument_at (listed_yielder node.entry) 0) }
{
    let argument = argument(node, 0);
    YielderView::OnOne {
        operation,
        argument,
    }
}

fn given<'a>(sort: Sort, place: u32) -> YielderView<'a>
    ensures { (g : Listed) → (y : ℕ) → (l : ListedYielder)
        → IsYielderRead g y (YKind.Given sort place) l → IsYielderView g y result }
{
    if place == 0 {
        YielderView::Given { sort }
    } else {
        YielderView::GivenAt { sort, place }
    }
}

impl<'a> Graph<'a> {
    // the yielder of a number
    fn yielder_at(&self, number: usize) -> YNode<'a>
        requires { number < length self.now.yielders }
        ensures { IsYielderRead self.now number result.kind (listed_yielder result) }
    {
        self.yielders()[number]
    }

    /// The yielder of this number, from 0, with its arguments and its body by number.
    pub fn yielder_view(&self, number: usize) -> YielderView<'a>
        requires { number < length self.now.yielders }
        ensures { IsYielderView self.now number result }
    {
        let node = self.yielder_at(number);
        match node.kind {
            YKind::Number(value) => YielderView::Number(value),
            YKind::Truth(value) => YielderView::Truth(value),
            YKind::Them => YielderView::Them,
            YKind::Given { sort, place } => given(sort, place),
            YKind::Bound { sort } => YielderView::BoundTo {
                sort,
                token: node.token,
            },
            YKind::Stored { sort } => YielderView::StoredIn {
                sort,
                cell: argument(node, 0),
            },
            YKind::Sum => on_two(Two::Sum, node),
            YKind::Difference => on_two(Two::Difference, node),
            YKind::Product => on_two(Two::Product, node),
            YKind::Quotient => on_two(Two::Quotient, node),
            YKind::Remainder => on_two(Two::Remainder, node),
            YKind::Is => on_two(Two::Is, node),
            YKind::Less => on_two(Two::Less, node),
            YKind::Both => on_two(Two::BothOf, node),
            YKind::Either => on_two(Two::EitherOf, node),
            YKind::Negation => on_one(One::Negation, node),
            YKind::Not => on_one(One::Not, node),
            YKind::Closure => YielderView::ClosureOf { body: node.body },
        }
    }
}
