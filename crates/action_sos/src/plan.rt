//! Which step of which part is taken, and what it makes of the part.
ghost use Rattle.std.specs.Prelude.{◌≡◌, ◌+◌, ◌^◌, ◌<◌, ◌≤◌, length, IfOk};
ghost use Rattle.action_terms.specs.Information.{World};
ghost use Rattle.action_terms.specs.Meaning.{action_of};
ghost use Rattle.action_terms.specs.Numbering.{Listed};
ghost use Rattle.action_terms.specs.Proper.{IsProper};
ghost use Rattle.action_sos.specs.Parts.{frames_steps, part_steps};
ghost use Rattle.action_sos.specs.Views.{part_of};
ghost use Rattle.action_sos.specs.Kept.{IsCounted};
ghost use Rattle.action_sos.specs.Moves.{IsOutside};
ghost use Rattle.action_sos.specs.Plans.{IsSoundPart, IsPlan, IsKeptPart};

use crate::end_steps::{count_of_end, step_of_end};
use crate::ends::End;
use crate::moves::{Change, Next, Outside, Received};
use crate::node_steps::{count_of_node, step_of_node};
use crate::part::{Focus, Part};
use acg_base::Memory;
use action_terms::Graph;
use bumpalo::Bump;
use std::alloc::Global;

/// A step of a part.
#[derive(Clone, Copy)]
pub struct Plan<'a> {
    /// The part with the frames that the step keeps. What stands within it is left.
    pub part: Part<'a>,
    /// What the step does beside the tree.
    pub change: Change<'a>,
    /// What then stands within the frames.
    pub next: Next<'a>,
}

// The open steps where what is in the part has ended: those of its innermost frame, and those of the frames around that one.
fn count_of_ended(part: Part<'_>, end: End<'_>) -> u64
    requires counted { IsCounted part }
    requires focus { part.focus ≡ Focus.Ended end }
    requires small { part.broken + 2 < 2 ^ 64 }
    ensures count { (g : Listed) (w : World) → IsSoundPart (action_of g) (part_of part.entry) → result ≡ length (part_steps (action_of g) w (part_of part.entry)) }
    ensures bound { result ≤ part.entry.broken + 2 }
{
    match part.split_inmost() {
        None => 0,
        Some((frame, around)) => count_of_end(frame, end) + around.broken as u64,
    }
}

/// How many steps of its own a part has.
pub fn count_of_part(graph: &Graph<'_>, part: Part<'_>) -> u64
    requires proper { IsProper (action_of graph.now) }
    requires counted { IsCounted part }
    requires sound { IsSoundPart (action_of graph.now) (part_of part) }
    requires small { part.broken + 2 < 2 ^ 64 }
    ensures count { (w : World) → result ≡ length (part_steps (action_of graph.now) w (part_of part.entry)) }
    ensures bound { result ≤ part.entry.broken + 2 }
{
    match part.focus {
        Focus::Run { node, .. } => count_of_node(graph, node) + part.broken as u64,
        Focus::Ended(end) => count_of_ended(part, end),
        Focus::Parts { .. } => part.broken as u64,
    }
}

// The step of this index among those of the frames around a part, each of which takes the end of a part beside.
fn plan_of_break(part: Part<'_>, index: u64) -> Plan<'_>
    requires counted { IsCounted part }
    requires there { index < part.broken }
    ensures plan { IsPlan (frames_steps (part_of part.entry).frames) index result }
    ensures kept { IsKeptPart part.entry result.part }
{
    let (part, end) = part.break_off(index as usize);
    Plan {
        part,
        change: Change::Silent,
        next: Next::Ended(end),
    }
}

// The step of this index, of a part whose node runs.
fn plan_of_run<'a>(
    alloc: Global,
    arena: &'a Bump,
    graph: &Graph<'a>,
    part: Part<'a>,
    node: u32,
    received: Received<'a>,
    outside: Outside<'_, 'a>,
    index: u64,
) -> Result<Plan<'a>, Memory>
    requires proper { IsProper (action_of graph.now) }
    requires counted { IsCounted part }
    requires sound { IsSoundPart (action_of graph.now) (part_of part) }
    requires focus { part.focus ≡ Focus.Run node received.given received.bound }
    requires open { (w : World) → IsOutside outside w → index < length (part_steps (action_of graph.now) w (part_of part)) }
    ensures plan { IfOk result (λ plan. (w : World) → IsOutside outside.entry w →
        IsPlan (part_steps (action_of graph.now) w (part_of part.entry)) index plan) }
    ensures kept { IfOk result (λ plan. IsKeptPart part.entry plan.part) }
{
    let count = count_of_node(graph, node);
    if index < count {
        let step = step_of_node(alloc, arena, graph, node, received, outside, index)?;
        return Ok(Plan {
            part,
            change: step.change,
            next: step.next,
        });
    }
    Ok(plan_of_break(part, index - count))
}

// The step of this index, of a part in which everything has ended.
fn plan_of_ended<'a>(
    arena: &'a Bump,
    graph: &Graph<'a>,
    part: Part<'a>,
    end: End<'a>,
    index: u64,
) -> Result<Plan<'a>, Memory>
    requires proper { IsProper (action_of graph.now) }
    requires counted { IsCounted part }
    requires sound { IsSoundPart (action_of graph.now) (part_of part) }
    requires focus { part.focus ≡ Focus.Ended end }
    requires open { (w : World) → index < length (part_steps (action_of graph.now) w (part_of part)) }
    ensures plan { IfOk result (λ plan. (w : World) →
        IsPlan (part_steps (action_of graph.now) w (part_of part.entry)) index plan) }
    ensures kept { IfOk result (λ plan. IsKeptPart part.entry plan.part) }
{
    let Some((frame, around)) = part.split_inmost() else {
        unreachable!();
    };
    let count = count_of_end(frame, end);
    if index < count {
        return Ok(Plan {
            part: around,
            change: Change::Silent,
            next: step_of_end(arena, graph, frame, end, index)?,
        });
    }
    Ok(plan_of_break(around, index - count))
}

/// What the part's own step of this index makes of it.
pub fn plan_of_part<'a>(
    alloc: Global,
    arena: &'a Bump,
    graph: &Graph<'a>,
    part: Part<'a>,
    outside: Outside<'_, 'a>,
    index: u64,
) -> Result<Plan<'a>, Memory>
    requires proper { IsProper (action_of graph.now) }
    requires counted { IsCounted part }
    requires sound { IsSoundPart (action_of graph.now) (part_of part) }
    requires open { (w : World) → IsOutside outside w → index < length (part_steps (action_of graph.now) w (part_of part)) }
    ensures plan { IfOk result (λ plan. (w : World) → IsOutside outside.entry w →
        IsPlan (part_steps (action_of graph.now) w (part_of part.entry)) index plan) }
    ensures kept { IfOk result (λ plan. IsKeptPart part.entry plan.part) }
{
    match part.focus {
        Focus::Run { node, given, bound } => plan_of_run(
            alloc,
            arena,
            graph,
            part,
            node,
            Received { given, bound },
            outside,
            index,
        ),
        Focus::Ended(end) => plan_of_ended(arena, graph, part, end, index),
        Focus::Parts { .. } => Ok(plan_of_break(part, index)),
    }
}
