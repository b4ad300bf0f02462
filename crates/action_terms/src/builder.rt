//! Nodes pushed in the order of the text, which become a graph.
ghost use Rattle.std.specs.Prelude.{◌≡◌, ℕ, ◌+◌, ◌<◌, ◌≤◌, ◌↔◌, [], ◌∷◌, ◌++◌, length, IsTrue, IfOk, OnOk, OnErr, IsErrOf, Some, count_by, slice_get};
ghost use Rattle.action_terms.specs.Labels.{ActionNode, YielderNode};
ghost use Rattle.action_terms.specs.Trees.{Tree, IsAction, IsWhole, preorder};
ghost use Rattle.action_terms.specs.Numbering.{IsGraphOf, strays, node_limit};
ghost use Rattle.action_terms.specs.Pushed.{is_action_node, is_yielder_node};

use crate::bodies::enter_all;
use crate::graph::{Graph, GraphError};
use crate::linking::link_all;
use crate::places::Expected;
use crate::pushed::{NewAction, NewYielder, Pushed};
use acg_base::{LIMIT_NODES, Memory};
use bumpalo::Bump;
use std::alloc::Global;
use std::marker::Model;

/// The most action nodes and yielders of one graph, together.
const NODE_LIMIT: usize = LIMIT_NODES as usize;

/// Nodes in preorder: each node, then its yielders and its action parts in the order of the text.
#[derive(Drop)]
pub struct GraphBuilder<'a> {
    alloc: Global,
    arena: &'a Bump,
    pushed: Vec<Pushed<'a>>,
    expected: Expected,
    actions: u32,
    yielders: u32,
}

impl<'a> Model for GraphBuilder<'a> {
    ghost use Rattle.std.specs.Prelude.{List, map};
    ghost use Rattle.action_terms.specs.Labels.{Label};
    ghost use Rattle.action_terms.specs.Pushed.{label_of, Keeps};

    ghost Value = { List Label };

    ghost view = { λ b. map label_of b.pushed.items };

    ghost invariant = { λ b. Keeps (map label_of b.pushed.items) b.expected b.actions b.yielders };
}

impl<'a> GraphBuilder<'a> {
    /// A builder with no node.
    pub fn new(alloc: Global, arena: &'a Bump) -> Result<GraphBuilder<'a>, Memory>
        ensures { IfOk result (λ builder. builder ≡ []) }
    {
        Ok(GraphBuilder {
            alloc,
            arena,
            pushed: Vec::with_capacity(alloc, 8)?,
            expected: Expected::an_action(alloc)?,
            actions: 0,
            yielders: 0,
        })
    }

    /// Appends an action node, and answers its number among the action nodes. The token is copied.
    pub fn push_action(&mut self, new: NewAction<'_>) -> Result<u32, GraphError>
        ensures number { IfOk result (λ number. number ≡ count_by is_action_node self.old) }
        ensures pushed { OnOk result (self.new
            ≡ self.old ++ ActionNode new.entry.kind new.entry.items new.entry.token.now ∷ []) }
        ensures nodes { IsErrOf result GraphError.Nodes ↔ (node_limit ≤ length self.old) }
        ensures never_stray { (node : ℕ) → IsErrOf result (GraphError.StrayUnfold node) → ⊥ }
        ensures err { OnErr result (self.new ≡ self.old) }
    {
        if self.pushed.len() >= NODE_LIMIT {
            return Err(GraphError::Nodes);
        }
        let token = self.arena.try_alloc_slice_copy(new.token)?;
        let node = Pushed::Action(NewAction {
            kind: new.kind,
            items: new.items,
            token,
        });
        self.expected.reserve()?;
        self.pushed.push(node)?;
        self.expected.follow(node);
        let number = self.actions;
        self.actions += 1;
        Ok(number)
    }

    /// Appends a yielder, and answers its number among the yielders. The token is copied.
    pub fn push_yielder(&mut self, new: NewYielder<'_>) -> Result<u32, GraphError>
        ensures number { IfOk result (λ number. number ≡ count_by is_yielder_node self.old) }
        ensures pushed { OnOk result (self.new
            ≡ self.old ++ YielderNode new.entry.kind new.entry.token.now ∷ []) }
        ensures nodes { IsErrOf result GraphError.Nodes ↔ (node_limit ≤ length self.old) }
        ensures never_stray { (node : ℕ) → IsErrOf result (GraphError.StrayUnfold node) → ⊥ }
        ensures err { OnErr result (self.new ≡ self.old) }
    {
        if self.pushed.len() >= NODE_LIMIT {
            return Err(GraphError::Nodes);
        }
        let token = self.arena.try_alloc_slice_copy(new.token)?;
        let node = Pushed::Yielder(NewYielder {
            kind: new.kind,
            token,
        });
        self.expected.reserve()?;
        self.pushed.push(node)?;
        self.expected.follow(node);
        let number = self.yielders;
        self.yielders += 1;
        Ok(number)
    }

    /// The graph of the action whose preorder the pushed nodes are, or the least `unfold` that has
    /// no `unfolding` around it within its own closure, or within the action where it is in none.
    /// Its lists are placed in the arena.
    pub fn seal(self) -> Result<Graph<'a>, GraphError>
        requires { IsWhole self }
        ensures graph { IfOk result (λ g. (t : Tree) → IsAction t → preorder t ≡ self.entry
            → IsGraphOf g t) }
        ensures stray { (node : ℕ) → IsErrOf result (GraphError.StrayUnfold node)
            → (t : Tree) → IsAction t → preorder t ≡ self.entry
            → slice_get (strays t) 0 ≡ Some node }
        ensures never_nodes { IsErrOf result GraphError.Nodes → ⊥ }
    {
        let entered = enter_all(self.alloc, self.pushed.as_slice())?;
        let linker = link_all(self.alloc, self.arena, entered.as_slice())?;
        let (nodes, yielders) = linker.place()?;
        Ok(Graph::of_lists(nodes, yielders))
    }

    /// Whether the pushed nodes are the preorder of exactly one action.
    pub fn is_whole(&self) -> bool
        ensures exact { IsTrue result ↔ IsWhole self.now }
        ensures one_tree { (t : Tree) → (u : Tree) → IsAction t → IsAction u
            → preorder t ≡ self.now → preorder u ≡ self.now → t ≡ u }
    {
        self.expected.is_met()
    }
}
