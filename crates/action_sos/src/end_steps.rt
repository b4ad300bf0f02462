//! The steps of a whole whose part has ended.
ghost use Rattle.std.specs.Prelude.{◌≡◌, ◌≢◌, ◌<◌, ◌≤◌, ℕ, ◌∷◌, [], Some, length, slice_get, IfOk, IsTrue, ◌↔◌};
ghost use Rattle.action_terms.specs.Information.{World};
ghost use Rattle.action_terms.specs.Acting.{Ended};
ghost use Rattle.action_terms.specs.Actions.{Stray, node_at};
ghost use Rattle.action_terms.specs.Steps.{Silent, second_part, after_first, after_second, after_or, after_trap, after_over};
ghost use Rattle.action_terms.specs.Meaning.{action_of};
ghost use Rattle.action_terms.specs.Proper.{IsProper};
ghost use Rattle.action_terms.specs.Sound.{IsBoth, IsPhases, IsTrapping, IsSoundTree};
ghost use Rattle.action_terms.specs.Frames.{wrap};
ghost use Rattle.action_values.specs.Values.{bindings_of};
ghost use Rattle.action_sos.specs.Views.{frame_of, end_of};
ghost use Rattle.action_sos.specs.Moves.{given_of, bound_of, next_tree, IsStepAt, ended_steps};
ghost use Rattle.action_terms.specs.Forms.{join_viewed, chain_viewed};
ghost use Rattle.action_sos.specs.Made.{IsJoinedBy, IsChainedBy, HasHandler};
ghost use Rattle.action_sos.specs.Ends.{both_trees};
ghost use Rattle.action_sos.specs.Parts.{IsBroken};
ghost use Rattle.action_terms.specs.Numbering.{Listed};

use crate::ends::End;
use crate::joins::{chained, handed, joined};
use crate::moves::{Next, Received};
use crate::part::{Frame, Side};
use acg_base::Memory;
use action_terms::{Chain, Graph, Join, NodeView};
use action_values::bindings::overlay;
use action_values::{Binding, Datum};
use bumpalo::Bump;

// it has escaped or failed
fn is_broken(end: End<'_>) -> bool
    ensures { IsTrue result ↔ IsBroken (end_of end.entry) }
{
    matches!(end, End::Escaped { .. } | End::Failed)
}

/// How many steps stand open where a part within the frame has ended so.
pub fn count_of_end(frame: Frame<'_>, end: End<'_>) -> u64
    ensures count { (g : Listed) (w : World) → IsSoundTree (action_of g) (wrap (frame_of frame.entry) (Ended (end_of end.entry))) →
        result ≡ length (ended_steps g frame.entry end.entry w) }
    ensures bound { result ≤ 2 }
{
    match frame {
        Frame::Beside { end: other, .. } if is_broken(other) && is_broken(end) => 2,
        _ => 1,
    }
}

// how the two parts of the node are joined
fn join_of(graph: &Graph<'_>, node: u32) -> Join
    requires { IsBoth (node_at (action_of graph.now) node) }
    ensures { IsJoinedBy (node_at (action_of graph.now) node) (join_viewed result) }
{
    match graph.view(node as usize) {
        NodeView::Both { join, .. } => join,
        _ => unreachable!(),
    }
}

// how the second part of the node comes after the first, and which it is
fn chain_of(graph: &Graph<'_>, node: u32) -> (Chain, u32)
    requires { IsPhases (node_at (action_of graph.now) node) }
    ensures { IsChainedBy (node_at (action_of graph.now) node) (chain_viewed result.0) result.1 }
{
    match graph.view(node as usize) {
        NodeView::Phases { chain, right, .. } => (chain, right),
        _ => unreachable!(),
    }
}

// the handler of the node
fn handler_of(graph: &Graph<'_>, node: u32) -> u32
    requires { IsTrapping (node_at (action_of graph.now) node) }
    ensures { HasHandler (node_at (action_of graph.now) node) result }
{
    match graph.view(node as usize) {
        NodeView::Trapping { right, .. } => right,
        _ => unreachable!(),
    }
}

// `and` and `moreover`: joined, where both parts have completed; else an end that is broken, the
// left one first
fn after_both<'a>(
    arena: &'a Bump,
    graph: &Graph<'a>,
    node: u32,
    left: End<'a>,
    right: End<'a>,
    choice: u64,
) -> Result<Next<'a>, Memory>
    requires sound { IsBoth (node_at (action_of graph.now) node) }
    requires open { choice < length (both_trees (node_at (action_of graph.now) node) (Ended (end_of left)) (Ended (end_of right))) }
    ensures { IfOk result (λ next.
        slice_get (both_trees (node_at (action_of graph.now) node) (Ended (end_of left.entry)) (Ended (end_of right.entry))) choice ≡ Some (next_tree next)) }
{
    match (left, right) {
        (
            End::Done { data, bound },
            End::Done {
                data: right_data,
                bound: right_bound,
            },
        ) => {
            let left = Received { given: data, bound };
            let right = Received {
                given: right_data,
                bound: right_bound,
            };
            let end = joined(arena, join_of(graph, node), left, right)?;
            Ok(Next::Ended(end))
        }
        (End::Done { .. }, _) => Ok(Next::Ended(right)),
        (_, End::Done { .. }) => Ok(Next::Ended(left)),
        _ => Ok(Next::Ended(if choice == 0 { left } else { right })),
    }
}

// the first part has completed: the second one is to be performed
fn second_part<'a>(
    arena: &'a Bump,
    graph: &Graph<'a>,
    node: u32,
    whole: Received<'a>,
    first: Received<'a>,
) -> Result<Next<'a>, Memory>
    requires { IsPhases (node_at (action_of graph.now) node) }
    ensures { IfOk result (λ next.
        second_part (node_at (action_of graph.now) node) node (given_of whole.entry) (bound_of whole.entry) (given_of first.entry) (bound_of first.entry) ≡ next_tree next ∷ []) }
{
    let (chain, second) = chain_of(graph, node);
    let received = handed(arena, chain, whole, first)?;
    let frame = Frame::Second {
        node,
        given: first.given,
        bound: first.bound,
    };
    Ok(Next::Within {
        frame,
        node: second,
        received,
    })
}

fn after_first<'a>(
    arena: &'a Bump,
    graph: &Graph<'a>,
    node: u32,
    whole: Received<'a>,
    end: End<'a>,
) -> Result<Next<'a>, Memory>
    requires { IsPhases (node_at (action_of graph.now) node) }
    ensures { IfOk result (λ next.
        after_first (node_at (action_of graph.now) node) node (given_of whole.entry) (bound_of whole.entry) (Ended (end_of end.entry)) ≡ next_tree next ∷ []) }
{
    match end {
        End::Done { data, bound } => {
            let first = Received { given: data, bound };
            second_part(arena, graph, node, whole, first)
        }
        End::Escaped { .. } | End::Failed => Ok(Next::Ended(end)),
    }
}

fn after_second<'a>(
    arena: &'a Bump,
    graph: &Graph<'a>,
    node: u32,
    first: Received<'a>,
    end: End<'a>,
) -> Result<Next<'a>, Memory>
    requires { IsPhases (node_at (action_of graph.now) node) }
    ensures { IfOk result (λ next.
        after_second (node_at (action_of graph.now) node) (given_of first.entry) (bound_of first.entry) (Ended (end_of end.entry)) ≡ next_tree next ∷ []) }
{
    match end {
        End::Done { data, bound } => {
            let second = Received { given: data, bound };
            let (chain, _) = chain_of(graph, node);
            let end = chained(arena, chain, first, second)?;
            Ok(Next::Ended(end))
        }
        End::Escaped { .. } | End::Failed => Ok(Next::Ended(end)),
    }
}

// the other arm is tried after a failure
fn after_or<'a>(other: u32, received: Received<'a>, end: End<'a>) -> Next<'a>
    ensures { after_or other (given_of received.entry) (bound_of received.entry) (Ended (end_of end.entry)) ≡ next_tree result ∷ [] }
{
    match end {
        End::Failed => Next::Run {
            node: other,
            received,
        },
        End::Done { .. } | End::Escaped { .. } => Next::Ended(end),
    }
}

// the handler is given what the left part escaped with
fn after_trap<'a>(graph: &Graph<'a>, node: u32, bound: &'a [Binding<'a>], end: End<'a>) -> Next<'a>
    requires { IsTrapping (node_at (action_of graph.now) node) }
    ensures { after_trap (node_at (action_of graph.now) node) (bindings_of bound.now) (Ended (end_of end.entry)) ≡ next_tree result ∷ [] }
{
    match end {
        End::Escaped { data } => Next::Run {
            node: handler_of(graph, node),
            received: Received { given: data, bound },
        },
        End::Done { .. } | End::Failed => Next::Ended(end),
    }
}

// `bound` is what the node received
fn after_over<'a>(
    arena: &'a Bump,
    bound: &'a [Binding<'a>],
    end: End<'a>,
) -> Result<Next<'a>, Memory>
    ensures { IfOk result (λ next. after_over (bindings_of bound.now) (Ended (end_of end.entry)) ≡ next_tree next ∷ []) }
{
    match end {
        End::Done { data, bound: over } => {
            let bound = overlay(arena, bound, over)?;
            Ok(Next::Ended(End::Done { data, bound }))
        }
        End::Escaped { .. } | End::Failed => Ok(Next::Ended(end)),
    }
}

/// The step of this index, where a part within the frame has ended so.
pub fn step_of_end<'a>(
    arena: &'a Bump,
    graph: &Graph<'a>,
    frame: Frame<'a>,
    end: End<'a>,
    choice: u64,
) -> Result<Next<'a>, Memory>
    requires proper { IsProper (action_of graph.now) }
    requires sound { IsSoundTree (action_of graph.now) (wrap (frame_of frame) (Ended (end_of end))) }
    requires open { (w : World) → choice < length (ended_steps graph.now frame end w) }
    ensures { IfOk result (λ next. (w : World) → IsStepAt (ended_steps graph.now frame.entry end.entry w) choice Silent (next_tree next)) }
{
    match frame {
        Frame::Called { .. } => Ok(Next::Ended(end)),
        Frame::Cut => Ok(Next::Ended(end)),
        Frame::First { node, given, bound } => {
            after_first(arena, graph, node, Received { given, bound }, end)
        }
        Frame::Second { node, given, bound } => {
            after_second(arena, graph, node, Received { given, bound }, end)
        }
        Frame::Or {
            other,
            given,
            bound,
        } => Ok(after_or(other, Received { given, bound }, end)),
        Frame::Trap { node, bound } => Ok(after_trap(graph, node, bound, end)),
        Frame::Over { bound } => after_over(arena, bound, end),
        Frame::Beside {
            node,
            side,
            end: other,
        } => match side {
            Side::Left => after_both(arena, graph, node, other, end, choice),
            Side::Right => after_both(arena, graph, node, end, other, choice),
        },
    }
}
