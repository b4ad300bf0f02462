//! A performer: the performance of an action, a step at a time.
ghost use Rattle.std.specs.Prelude.{◌≡◌, ◌<◌, ◌≤◌, ◌↔◌, ◌+◌, ◌^◌, IfOk, OnOk, OnErr, length};
ghost use Rattle.action_terms.specs.Performances.{start};
ghost use Rattle.action_sos.specs.declared.branch.Branch.{out-Branch};
ghost use Rattle.action_sos.specs.Views.{end_of};
ghost use Rattle.action_sos.specs.Kept.{IsCounted};
ghost use Rattle.action_sos.specs.Branches.{grown};
ghost use Rattle.action_sos.specs.Performers.{steps_of, outcome_of, moved_to, IsEnd, Takes};

use crate::answers::{Moved, Outcome};
use crate::branch::{Branch, count_of};
use crate::ends::End;
use crate::grow::started;
use crate::moves::Received;
use crate::take::{ended, take_step};
use crate::world::World;
use acg_base::Memory;
use action_terms::Graph;
use bumpalo::Bump;
use std::alloc::Global;
use std::marker::Model;

// with more open steps than this, those after a step might be too many to be counted
const MOST: u64 = u64::MAX - 15;

/// The performance of an action over the integers of an input, and how far it has come.
///
/// Its acting tree is kept as the parts that run side by side, each within a stack of frames, in a tree of their own. A step costs about
/// the way from its root to the part and the data that the step moves: not as much as there are parts, nor as the acting tree is deep.
#[derive(Drop)]
pub struct Performer<'a> {
    alloc: Global,
    arena: &'a Bump,
    graph: Graph<'a>,
    // there is one, but while a step is taken
    root: Option<Box<Branch<'a>>>,
    world: World<'a>,
}

impl<'a> Model for Performer<'a> {
    ghost use Rattle.std.specs.Coded.{codes};
    ghost use Rattle.action_sos.specs.Codes.{datum_code, tree_code};
    ghost use Rattle.action_sos.specs.Performers.{Performing};
    ghost use Rattle.action_sos.specs.Performed.{performing_of, IsPerformer};

    ghost Value = { Performing };

    ghost coded = { Prim.hlevel (codes, datum_code, tree_code) };

    ghost view = { λ p. performing_of p.graph p.root p.world };

    ghost invariant = { λ p. IsPerformer p.graph p.root p.world };
}

// The outcome of an end.
fn outcome(end: End<'_>) -> Outcome
    ensures { result ≡ outcome_of (end_of end.entry) }
{
    match end {
        End::Done { .. } => Outcome::Completed,
        End::Escaped { .. } => Outcome::Escaped,
        End::Failed => Outcome::Failed,
    }
}

// Whether the whole is an end, and which.
fn moved(root: &Branch<'_>) -> Moved
    requires { IsCounted (out-Branch root.now).part }
    ensures { result ≡ moved_to (grown root.now) }
{
    match ended(root) {
        Some(end) => Moved::Ended(outcome(end)),
        None => Moved::Went,
    }
}

impl<'a> Performer<'a> {
    /// The performance of the graph's action over an input, before its first step.
    pub fn start(
        alloc: Global,
        arena: &'a Bump,
        graph: &Graph<'a>,
        input: &[i64],
    ) -> Result<Performer<'a>, Memory>
        ensures starts { IfOk result (λ p. p ≡ record { graph = graph.now; state = start input.now }) }
    {
        let graph = graph.share();
        let received = Received {
            given: &[],
            bound: &[],
        };
        let root = Box::new(alloc, started(&graph, 0, received))?;
        Ok(Performer {
            alloc,
            arena,
            graph,
            root: Some(root),
            world: World::new(alloc, input)?,
        })
    }

    /// How many steps stand open; 0 exactly at an end. Takes no memory.
    pub fn open_steps(&self) -> u64
        ensures count { result ≡ length (steps_of self.now) }
        ensures at_end { result ≡ 0 ↔ IsEnd self.now.state.tree }
    {
        count_of(&self.root)
    }

    /// Takes the open step with the index `choice`. After `Memory` the performer is as before.
    pub fn step(&mut self, choice: u64) -> Result<Moved, Memory>
        requires { choice < length (steps_of self.old) }
        ensures takes { OnOk result (Takes choice self.old self.new) }
        ensures moved { IfOk result (λ m. m ≡ moved_to self.new.state.tree) }
        ensures kept { OnErr result (self.new ≡ self.old) }
        ensures few { OnOk result (length (steps_of self.old) + 16 ≤ 2 ^ 64) }
    {
        let Some(root) = self.root.take() else {
            unreachable!();
        };
        if root.count > MOST {
            self.root = Some(root);
            return Err(Memory);
        }
        let (root, taken) = take_step(
            self.alloc,
            self.arena,
            &self.graph,
            &mut self.world,
            root,
            choice,
        );
        let moved = moved(&root);
        self.root = Some(root);
        taken?;
        Ok(moved)
    }

    /// The messages so far. Takes no memory.
    pub fn output(&self) -> &[i64]
        ensures { result.now ≡ self.now.state.world.output }
    {
        self.world.output.as_slice()
    }
}
