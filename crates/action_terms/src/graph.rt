//! A graph: the nodes of one action by number, in an arena.
ghost use Rattle.std.specs.Prelude.{◌≡◌, length, map, All};
ghost use Rattle.action_terms.specs.Nodes.{listed_node, listed_yielder, listed_graph};
ghost use Rattle.action_terms.specs.Numbering.{IsGraph, KindFits};
ghost use Rattle.action_terms.specs.Meaning.{action_of};
ghost use Rattle.action_terms.specs.Proper.{IsProper};
ghost use Rattle.action_terms.specs.Literals.{NumbersFit};
ghost use Rattle.action_terms.specs.declared.graph.GraphError.TheVariants.{Memory};

use crate::kinds::{Kind, YKind};
use std::alloc::{AllocError, AllocFailed};
use std::marker::Model;
use thiserror::Error;

/// An action node. Its number is its place in the list of a graph, from 0, in preorder.
#[derive(Clone, Copy, Debug, PartialEq, Eq)]
pub struct Node<'a> {
    /// What the node does.
    pub kind: Kind,
    /// The token of `bind` and `recursively bind`, else empty.
    pub token: &'a [u8],
    /// The numbers of its action parts in the order of the text. The body of an `unfolding` is
    /// not among them.
    pub children: &'a [u32],
    /// One list for each yielder or data of the node in the order of the text, with the numbers
    /// of its items: one for a yielder.
    pub operands: &'a [&'a [u32]],
    /// The root of the body of an `unfolding`, or of the one that an `unfold` repeats, else 0.
    pub body: u32,
}

/// A yielder. Its number is its place in the list of a graph, from 0, in preorder.
#[derive(Clone, Copy, Debug, PartialEq, Eq)]
pub struct YNode<'a> {
    /// What it yields.
    pub kind: YKind,
    /// The token of `bound to`, else empty.
    pub token: &'a [u8],
    /// The numbers of the yielders that are its arguments, in the order of the text.
    pub children: &'a [u32],
    /// The root of the body of a closure, else 0.
    pub body: u32,
}

/// One action: its nodes and its yielders, which lie in an arena.
#[derive(Drop)]
pub struct Graph<'a> {
    nodes: &'a [Node<'a>],
    yielders: &'a [YNode<'a>],
}

impl<'a> Model for Graph<'a> {
    ghost use Rattle.action_terms.specs.Nodes.{listed_graph};
    ghost use Rattle.action_terms.specs.Numbering.{Listed, IsKept};

    ghost Value = { Listed };

    ghost view = { λ g. listed_graph g.nodes.now g.yielders.now };

    ghost invariant = { λ g. IsKept (listed_graph g.nodes.now g.yielders.now) };
}

impl<'a> Graph<'a> {
    /// The graph of these nodes and yielders.
    pub(crate) fn of_lists(nodes: &'a [Node<'a>], yielders: &'a [YNode<'a>]) -> Graph<'a>
        requires of_an_action { IsGraph (listed_graph nodes.now yielders.now) }
        requires numbers { All (λ y. KindFits y.kind) (map listed_yielder yielders.now) }
        ensures { result ≡ listed_graph nodes.now yielders.now }
    {
        Graph { nodes, yielders }
    }

    /// The same graph once more. Its lists stay where they are.
    pub fn share(&self) -> Graph<'a>
        ensures same { result ≡ self.now }
        ensures of_an_action { IsGraph self.now }
        ensures proper { IsProper (action_of self.now) }
    {
        Graph::of_lists(self.nodes(), self.yielders())
    }

    /// How many action nodes it has.
    pub fn node_count(&self) -> usize
        ensures { result ≡ length self.now.nodes }
    {
        self.nodes.len()
    }

    /// How many yielders it has.
    pub fn yielder_count(&self) -> usize
        ensures { result ≡ length self.now.yielders }
    {
        self.yielders.len()
    }

    /// Its action nodes, in preorder. The root is the first.
    pub fn nodes(&self) -> &'a [Node<'a>]
        ensures nodes { map listed_node result.now ≡ self.now.nodes }
        ensures of_an_action { IsGraph self.now }
        ensures proper { IsProper (action_of self.now) }
        ensures numbers { NumbersFit (action_of self.now) }
    {
        self.nodes
    }

    /// Its yielders, in preorder.
    pub fn yielders(&self) -> &'a [YNode<'a>]
        ensures yielders { map listed_yielder result.now ≡ self.now.yielders }
        ensures of_an_action { IsGraph self.now }
        ensures numbers { All (λ y. KindFits y.kind) self.now.yielders }
    {
        self.yielders
    }
}

/// Why a graph isn't made.
#[derive(Clone, Copy, Debug, PartialEq, Eq, Drop, Error)]
pub enum GraphError {
    /// Want of memory.
    #[error("out of memory")]
    Memory,
    /// Actions and yielders together would be more than 65536.
    #[error("too many nodes")]
    Nodes,
    /// An `unfold` has no `unfolding` around it; the least such node.
    #[error("stray unfold at node {node}")]
    StrayUnfold {
        /// The number of the action node, from 0.
        node: u32,
    },
}

impl From<AllocError> for GraphError {
    ghost from_gives = { λ _ e. e ≡ Memory };

    fn from(_error: AllocError) -> GraphError {
        GraphError::Memory
    }
}

impl<T: Drop> From<AllocFailed<T>> for GraphError {
    ghost from_gives = { λ _ e. e ≡ Memory };

    fn from(_error: AllocFailed<T>) -> GraphError {
        GraphError::Memory
    }
}
