//! The numbers of pushed nodes, the bodies that they name, and stray `unfold` nodes.
ghost use Rattle.std.specs.Prelude.{◌≡◌, ℕ, ◌+◌, ◌<◌, ◌≤◌, ◌^◌, List, [], ◌∷◌, ◌++◌, None, Some, IfOk, OnOk, OnErr, IsErrOf, IsTrue, ◌↔◌, length, map, drop, replicate, slice_get, sum, option_to_list, if◌then◌else◌};
ghost use Rattle.action_terms.specs.Numbering.{node_limit};
ghost use Rattle.action_terms.specs.Pushed.{label_of};
ghost use Rattle.action_terms.specs.Entries.{entry_of, next_entry, entries, strays_in, strays_at, innermost, number_at, next_action, next_yielder, body_at, around_under, around_next};

use crate::graph::GraphError;
use crate::kinds::{Kind, YKind};
use crate::pushed::Pushed;
use crate::under::parts_of;
use std::alloc::{AllocError, Global};
use std::collections::VecDeque;

/// A pushed node with its number among its own sort of node, and its body.
#[derive(Clone, Copy)]
pub struct Entered<'a> {
    /// The node.
    pub node: Pushed<'a>,
    /// Its number among the action nodes, or among the yielders.
    pub number: u32,
    /// The root of its body, or 0.
    pub body: u32,
}

// the innermost `unfolding` around the parts of a node, by the root of its body
fn around_under(node: Pushed<'_>, action: u32, around: Option<u32>) -> Option<u32>
    requires { action < node_limit }
    ensures { result ≡ around_under (label_of node.entry) action around }
{
    match node {
        Pushed::Action(new) => match new.kind {
            Kind::Unfolding => Some(action + 1),
            _ => around,
        },
        Pushed::Yielder(new) => match new.kind {
            YKind::Closure => None,
            _ => around,
        },
    }
}

// the body that a node names, or 0; an `unfold` names that of the `unfolding` around it
fn body_at(node: Pushed<'_>, action: u32, around: Option<u32>) -> u32
    requires { action < node_limit }
    ensures { result ≡ body_at (label_of node.entry) action around }
{
    match node {
        Pushed::Action(new) => match new.kind {
            Kind::Unfolding => action + 1,
            Kind::Unfold => around.unwrap_or(0),
            _ => 0,
        },
        Pushed::Yielder(new) => match new.kind {
            YKind::Closure => action,
            _ => 0,
        },
    }
}

fn is_stray(node: Pushed<'_>, around: Option<u32>) -> bool
    ensures { (action : ℕ) → strays_at (label_of node.entry) action around
        ≡ (if result then action ∷ [] else []) }
{
    match node {
        Pushed::Action(new) => matches!(new.kind, Kind::Unfold) && around.is_none(),
        Pushed::Yielder(_) => false,
    }
}

// takes what is around the next tree
fn take_around(contexts: &mut VecDeque<Option<u32>>) -> Option<u32>
    ensures first { result ≡ innermost contexts.old.items }
    ensures rest { contexts.new.items ≡ drop 1 contexts.old.items }
{
    contexts.pop_front().unwrap_or(None)
}

// puts the same around so many trees that come next
fn put_around(
    contexts: &mut VecDeque<Option<u32>>,
    around: Option<u32>,
    count: usize,
) -> Result<(), AllocError>
    ensures { OnOk result (contexts.new.items ≡ replicate count around ++ contexts.old.items) }
{
    for _ in 0..count {
        contexts.push_front(around)?;
    }
    Ok(())
}

/// How far the walk from the first node to the last has come.
#[derive(Drop)]
struct Walk {
    // the innermost `unfolding` around each tree that follows, the next first
    contexts: VecDeque<Option<u32>>,
    // the numbers of the next action node and of the next yielder
    action: u32,
    yielder: u32,
}

fn number_at(node: Pushed<'_>, action: u32, yielder: u32) -> u32
    ensures { result ≡ number_at (label_of node.entry) action yielder }
{
    match node {
        Pushed::Action(_) => action,
        Pushed::Yielder(_) => yielder,
    }
}

fn next_action(node: Pushed<'_>, action: u32) -> u32
    requires { action < node_limit }
    ensures { result ≡ next_action (label_of node.entry) action }
{
    match node {
        Pushed::Action(_) => action + 1,
        Pushed::Yielder(_) => action,
    }
}

fn next_yielder(node: Pushed<'_>, yielder: u32) -> u32
    requires { yielder < node_limit }
    ensures { result ≡ next_yielder (label_of node.entry) yielder }
{
    match node {
        Pushed::Action(_) => yielder,
        Pushed::Yielder(_) => yielder + 1,
    }
}

impl Walk {
    // the node is the next one
    fn enter<'a>(&mut self, node: Pushed<'a>) -> Result<Entered<'a>, GraphError>
        requires action { self.old.action < node_limit }
        requires yielder { self.old.yielder < node_limit }
        ensures entered { IfOk result (λ e. entry_of e ≡ next_entry
            (label_of node.entry) self.old.action self.old.yielder self.old.contexts.items) }
        ensures around { OnOk result (self.new.contexts.items
            ≡ around_next (label_of node.entry) self.old.action self.old.contexts.items) }
        ensures next_action { OnOk result
            (self.new.action ≡ next_action (label_of node.entry) self.old.action) }
        ensures next_yielder { OnOk result
            (self.new.yielder ≡ next_yielder (label_of node.entry) self.old.yielder) }
        ensures none_stray { OnOk result (strays_at
            (label_of node.entry) self.old.action (innermost self.old.contexts.items) ≡ []) }
        ensures stray { (n : ℕ) → IsErrOf result (GraphError.StrayUnfold n) → strays_at
            (label_of node.entry) self.old.action (innermost self.old.contexts.items) ≡ n ∷ [] }
        ensures never_nodes { IsErrOf result GraphError.Nodes → ⊥ }
    {
        let around = take_around(&mut self.contexts);
        if is_stray(node, around) {
            return Err(GraphError::StrayUnfold { node: self.action });
        }
        let entered = Entered {
            node,
            number: number_at(node, self.action, self.yielder),
            body: body_at(node, self.action, around),
        };
        let below = around_under(node, self.action, around);
        put_around(&mut self.contexts, below, parts_of(node).count())?;
        self.action = next_action(node, self.action);
        self.yielder = next_yielder(node, self.yielder);
        Ok(entered)
    }
}

/// Numbers the nodes and finds their bodies, or the first stray `unfold`.
pub fn enter_all<'a>(alloc: Global, pushed: &[Pushed<'a>]) -> Result<Vec<Entered<'a>>, GraphError>
    requires { length pushed.now ≤ node_limit }
    ensures entered { IfOk result (λ v. map entry_of v.items
        ≡ entries (None ∷ []) 0 0 (map label_of pushed.now)) }
    ensures none_stray { OnOk result (strays_in (None ∷ []) 0 (map label_of pushed.now) ≡ []) }
    ensures stray { (n : ℕ) → IsErrOf result (GraphError.StrayUnfold n)
        → slice_get (strays_in (None ∷ []) 0 (map label_of pushed.now)) 0 ≡ Some n }
    ensures never_nodes { IsErrOf result GraphError.Nodes → ⊥ }
{
    let mut contexts = VecDeque::new(alloc);
    contexts.push_front(None)?;
    let mut walk = Walk {
        contexts,
        action: 0,
        yielder: 0,
    };
    let mut entered = Vec::with_capacity(alloc, pushed.len())?;
    for node in pushed {
        entered.push(walk.enter(*node)?)?;
    }
    Ok(entered)
}
