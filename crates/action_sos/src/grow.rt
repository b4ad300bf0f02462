//! What a step makes of the branch in which it is made, and of the one around it.
ghost use Rattle.std.specs.Prelude.{◌≡◌, ◌+◌, ◌^◌, ◌<◌, ◌≤◌, IfOk, Some, option_map, Box};
ghost use Rattle.std.specs.Global.{Global};
ghost use Rattle.action_sos.specs.declared.branch.Branch.{Branch, out-Branch};
ghost use Rattle.action_terms.specs.Actions.{Action};
ghost use Rattle.action_terms.specs.Acting.{Tree, Par};
ghost use Rattle.action_terms.specs.Steps.{commits};
ghost use Rattle.action_terms.specs.Meaning.{action_of};
ghost use Rattle.action_terms.specs.Proper.{IsProper};
ghost use Rattle.action_terms.specs.Sound.{IsSoundTree};
ghost use Rattle.action_sos.specs.Parts.{Leaf, inside, closes};
ghost use Rattle.action_sos.specs.Views.{part_of, end_of};
ghost use Rattle.action_sos.specs.Kept.{IsCounted};
ghost use Rattle.action_sos.specs.Moves.{effect_of, next_tree, running};
ghost use Rattle.action_sos.specs.Plans.{kept_frames};
ghost use Rattle.action_sos.specs.Branches.{grown, count_in, other_of, joined_of, IsGrown, IsGoingTree, IsOuter};

use crate::branch::Branch;
use crate::ends::End;
use crate::moves::{Change, Next, Received};
use crate::part::{Focus, Frame, Part, Side};
use crate::plan::{Plan, count_of_part};
use acg_base::Memory;
use action_terms::Graph;
use bumpalo::Bump;
use std::alloc::Global;

/// Whether a step with this change commits to the arms in which it is made.
pub fn does_commit(change: Change<'_>) -> bool
    ensures { result ≡ commits (effect_of change.entry) }
{
    !matches!(change, Change::Silent | Change::Misses)
}

// the part, its alternatives closed where a step with this change commits
fn committed<'a>(part: Part<'a>, change: Change<'a>) -> Part<'a>
    requires { IsCounted part }
    ensures part { part_of result ≡ closes (commits (effect_of change.entry)) (part_of part.entry) }
    ensures counted { IsCounted result }
    ensures broken { result.broken ≡ part.entry.broken }
{
    if does_commit(change) {
        part.with_all_closed()
    } else {
        part
    }
}

// a branch without parts
fn leaf<'a>(graph: &Graph<'a>, part: Part<'a>) -> Branch<'a>
    requires proper { IsProper (action_of graph.now) }
    requires counted { IsCounted part }
    requires leaf { (t : Tree) × ((part_of part).focus ≡ Leaf t)
        × IsSoundTree (action_of graph.now) (inside (part_of part).frames t) }
    requires small { part.broken + 2 < 2 ^ 64 }
    ensures grows { IsGrown (action_of graph.now) result }
    ensures tree { (t : Tree) → (part_of part.entry).focus ≡ Leaf t →
        grown result ≡ inside (part_of part.entry).frames t }
    ensures few { count_in result ≤ part.entry.broken + 2 }
{
    Branch {
        part,
        count: count_of_part(graph, part),
        went: Side::Left,
        left: None,
        right: None,
    }
}

/// A branch whose node is to be performed, with nothing around.
pub fn started<'a>(graph: &Graph<'a>, node: u32, received: Received<'a>) -> Branch<'a>
    requires proper { IsProper (action_of graph.now) }
    requires sound { IsSoundTree (action_of graph.now) (running node received) }
    ensures grows { IsGrown (action_of graph.now) result }
    ensures tree { grown result ≡ running node received.entry }
    ensures few { count_in result ≤ 2 }
{
    leaf(graph, Part::bare(Focus::run(node, received)))
}

/// The branch after the planned step of its part.
pub fn after_step<'a>(
    alloc: Global,
    arena: &'a Bump,
    graph: &Graph<'a>,
    plan: Plan<'a>,
) -> Result<Branch<'a>, Memory>
    requires proper { IsProper (action_of graph.now) }
    requires counted { IsCounted plan.part }
    requires sound { IsSoundTree (action_of graph.now)
        (inside (kept_frames plan) (next_tree plan.next)) }
    requires small { plan.part.broken + 8 < 2 ^ 64 }
    ensures grows { IfOk result (λ b. IsGrown (action_of graph.now) b) }
    ensures tree { IfOk result (λ b.
        grown b ≡ inside (kept_frames plan.entry) (next_tree plan.entry.next)) }
    ensures few { IfOk result (λ b. count_in b ≤ plan.entry.part.broken + 4) }
{
    let part = committed(plan.part, plan.change);
    match plan.next {
        Next::Ended(end) => {
            let focus = Focus::Ended(end);
            Ok(leaf(graph, Part { focus, ..part }))
        }
        Next::Run { node, received } => {
            let focus = Focus::run(node, received);
            Ok(leaf(graph, Part { focus, ..part }))
        }
        Next::Within {
            frame,
            node,
            received,
        } => {
            let part = part.within(arena, frame)?;
            Ok(leaf(
                graph,
                Part {
                    focus: Focus::run(node, received),
                    ..part
                },
            ))
        }
        Next::Fork {
            node,
            left,
            right,
            received,
        } => {
            let left = started(graph, left, received);
            let right = started(graph, right, received);
            let branch = fork(alloc, part, node, left, right)?;
            Ok(branch)
        }
    }
}

// a branch with two parts, both of which go on
fn fork<'a>(
    alloc: Global,
    part: Part<'a>,
    node: u32,
    left: Branch<'a>,
    right: Branch<'a>,
) -> Result<Branch<'a>, Memory>
    requires counted { IsCounted part }
    requires fits { part.broken + (count_in left + count_in right) < 2 ^ 64 }
    requires left_going { IsGoingTree (grown left) }
    requires right_going { IsGoingTree (grown right) }
    ensures grows { IfOk result (λ b. (a : Action) →
        IsGrown a left.entry → IsGrown a right.entry → IsGrown a b) }
    ensures tree { IfOk result (λ b. grown b
        ≡ inside (part_of part.entry).frames (Par node (grown left.entry) (grown right.entry))) }
    ensures counts { IfOk result (λ b. count_in b
        ≡ part.entry.broken + (count_in left.entry + count_in right.entry)) }
{
    let count = part.broken as u64 + (left.count + right.count);
    let left = Box::new(alloc, left)?;
    let right = Box::new(alloc, right)?;
    Ok(Branch {
        part: Part {
            focus: Focus::Parts { node },
            ..part
        },
        count,
        went: Side::Left,
        left: Some(left),
        right: Some(right),
    })
}

/// The part that the other part of `outer` becomes, where the one in which the step is made has ended: the frames of both, a frame for the
/// end, and its own.
pub fn joined_part<'a>(
    alloc: Global,
    arena: &'a Bump,
    outer: &Branch<'a>,
    end: End<'a>,
    change: Change<'a>,
) -> Result<Part<'a>, Memory>
    requires { IsOuter outer.now }
    ensures part { IfOk result (λ p. (y : Box Branch Global) → other_of outer.now ≡ Some y →
        part_of p ≡ joined_of (commits (effect_of change.entry)) outer.now (end_of end.entry)
        (out-Branch y.value).part) }
    ensures counted { IfOk result (λ p. IsCounted p) }
{
    let Focus::Parts { node } = outer.part.focus else {
        unreachable!();
    };
    let side = outer.went;
    let frame = Frame::Beside { node, side, end };
    let part = committed(outer.part, change);
    match other_part(outer) {
        Some(other) => {
            let joined = part.beside(alloc, arena, frame, other)?;
            Ok(joined)
        }
        None => unreachable!(),
    }
}

// the part on the other side of a branch
fn other_part<'a>(outer: &Branch<'a>) -> Option<Part<'a>>
    ensures { result ≡ option_map (λ y. (out-Branch y.value).part) (other_of outer.now) }
{
    let other = match outer.went {
        Side::Left => &outer.right,
        Side::Right => &outer.left,
    };
    match other {
        Some(other) => Some(other.part),
        None => None,
    }
}
