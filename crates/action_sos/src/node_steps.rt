//! The steps of a node that runs.
ghost use Rattle.std.specs.Prelude.{◌≡◌, ◌<◌, length, IfOk};
ghost use Rattle.action_terms.specs.Information.{World};
ghost use Rattle.action_terms.specs.Actions.{Give, EscapeWith, Check, Bind, BindRec, Store, Send, Enact, Apply, Branch};
ghost use Rattle.action_terms.specs.Meaning.{action_of};
ghost use Rattle.action_terms.specs.Forms.{yielder_at, items_at, IsDatum, primitive_viewed, node_viewed, HasPrimitiveOperands, HasOperands};
ghost use Rattle.action_terms.specs.Proper.{IsProper};
ghost use Rattle.action_sos.specs.Moves.{effect_of, next_tree, IsOutside, IsStepAt, node_steps};
ghost use Rattle.action_sos.specs.Running.{IsPerformed, IsMove, step_count};

use crate::compounds::{
    begins, branches, calls, chooses, enacts, forks, lays_over, own_closure, traps,
};
use crate::moves::{Move, Outside, Received};
use crate::primitives::{
    allocates, binds, checks, commits, completes, escapes, escapes_with, fails, gives, receives,
    sends, silent, stores,
};
use crate::running::Running;
use acg_base::Memory;
use action_terms::{Graph, NodeView, PrimitiveView};
use bumpalo::Bump;
use std::alloc::Global;

fn give<'a>(alloc: Global, running: &Running<'_, 'a>, items: &[u32]) -> Result<Move<'a>, Memory>
    ensures { IfOk result (IsPerformed running.now
        (Give (items_at running.now.graph.now.yielders items.now))) }
{
    Ok(silent(gives(running.yielded_items(alloc, items)?)))
}

fn escape_with<'a>(
    alloc: Global,
    running: &Running<'_, 'a>,
    items: &[u32],
) -> Result<Move<'a>, Memory>
    ensures { IfOk result (IsPerformed running.now
        (EscapeWith (items_at running.now.graph.now.yielders items.now))) }
{
    Ok(silent(escapes_with(running.yielded_items(alloc, items)?)))
}

fn check<'a>(alloc: Global, running: &Running<'_, 'a>, yielder: u32) -> Result<Move<'a>, Memory>
    requires { IsDatum running.now.graph.now.yielders yielder }
    ensures { IfOk result (IsPerformed running.now
        (Check (yielder_at running.now.graph.now.yielders yielder))) }
{
    Ok(silent(checks(running.yielded(alloc, yielder)?)))
}

fn bind<'a>(
    alloc: Global,
    running: &Running<'_, 'a>,
    token: &'a [u8],
    yielder: u32,
) -> Result<Move<'a>, Memory>
    requires { IsDatum running.now.graph.now.yielders yielder }
    ensures { IfOk result (IsPerformed running.now
        (Bind token.now (yielder_at running.now.graph.now.yielders yielder))) }
{
    let datum = running.yielded(alloc, yielder)?;
    Ok(silent(binds(running.arena, token, datum)?))
}

fn bind_recursively<'a>(
    running: &Running<'_, 'a>,
    token: &'a [u8],
    body: u32,
) -> Result<Move<'a>, Memory>
    ensures { IfOk result (IsPerformed running.now (BindRec token.now body)) }
{
    let closure = own_closure(body, running.received.bound, token);
    Ok(silent(binds(running.arena, token, Some(closure))?))
}

fn store<'a>(
    alloc: Global,
    running: &Running<'_, 'a>,
    datum: u32,
    cell: u32,
) -> Result<Move<'a>, Memory>
    requires datum { IsDatum running.now.graph.now.yielders datum }
    requires cell { IsDatum running.now.graph.now.yielders cell }
    ensures { IfOk result (IsPerformed running.now (Store
        (yielder_at running.now.graph.now.yielders datum)
        (yielder_at running.now.graph.now.yielders cell))) }
{
    let stored = running.yielded(alloc, datum)?;
    let place = running.yielded(alloc, cell)?;
    Ok(stores(stored, place))
}

fn send<'a>(alloc: Global, running: &Running<'_, 'a>, yielder: u32) -> Result<Move<'a>, Memory>
    requires { IsDatum running.now.graph.now.yielders yielder }
    ensures { IfOk result (IsPerformed running.now
        (Send (yielder_at running.now.graph.now.yielders yielder))) }
{
    Ok(sends(running.yielded(alloc, yielder)?))
}

// the step of a node that is done in one step
fn primitive_step<'a>(
    alloc: Global,
    running: &Running<'_, 'a>,
    primitive: PrimitiveView<'a>,
) -> Result<Move<'a>, Memory>
    requires { HasPrimitiveOperands running.now.graph.now.yielders primitive }
    ensures { IfOk result (IsPerformed running.now
        (primitive_viewed running.now.graph.now.yielders primitive.entry)) }
{
    let received = running.received;
    match primitive {
        PrimitiveView::Complete => Ok(silent(completes(&[], &[]))),
        PrimitiveView::Failing => Ok(silent(fails())),
        PrimitiveView::Escape => Ok(silent(escapes(received.given))),
        PrimitiveView::Commit => Ok(commits()),
        PrimitiveView::Regive => Ok(silent(completes(received.given, &[]))),
        PrimitiveView::Rebind => Ok(silent(completes(&[], received.bound))),
        PrimitiveView::Give { items } => give(alloc, running, items),
        PrimitiveView::EscapeWith { items } => escape_with(alloc, running, items),
        PrimitiveView::Check { yielder } => check(alloc, running, yielder),
        PrimitiveView::Bind { token, yielder } => bind(alloc, running, token, yielder),
        PrimitiveView::BindRec { token, body } => bind_recursively(running, token, body),
        PrimitiveView::Store { datum, cell } => store(alloc, running, datum, cell),
        PrimitiveView::Allocate => allocates(running.arena, running.outside.cells.len()),
        PrimitiveView::Receive => receives(running.arena, running.outside.input),
        PrimitiveView::Send { yielder } => send(alloc, running, yielder),
    }
}

fn enact<'a>(alloc: Global, running: &Running<'_, 'a>, yielder: u32) -> Result<Move<'a>, Memory>
    requires { IsDatum running.now.graph.now.yielders yielder }
    ensures { IfOk result (λ m. IsMove running.now
        (Enact (yielder_at running.now.graph.now.yielders yielder)) 0 m) }
{
    let closure = running.yielded(alloc, yielder)?;
    Ok(silent(enacts(running.arena, Some(&[]), closure)?))
}

fn enact_application<'a>(
    alloc: Global,
    running: &Running<'_, 'a>,
    yielder: u32,
    items: &[u32],
) -> Result<Move<'a>, Memory>
    requires { IsDatum running.now.graph.now.yielders yielder }
    ensures { IfOk result (λ m. IsMove running.now (Apply
        (yielder_at running.now.graph.now.yielders yielder)
        (items_at running.now.graph.now.yielders items.now)) 0 m) }
{
    let closure = running.yielded(alloc, yielder)?;
    let given = running.yielded_items(alloc, items)?;
    Ok(silent(enacts(running.arena, given, closure)?))
}

fn branch<'a>(
    alloc: Global,
    running: &Running<'_, 'a>,
    yielder: u32,
    left: u32,
    right: u32,
) -> Result<Move<'a>, Memory>
    requires { IsDatum running.now.graph.now.yielders yielder }
    ensures { IfOk result (λ m. IsMove running.now
        (Branch (yielder_at running.now.graph.now.yielders yielder) left right) 0 m) }
{
    let datum = running.yielded(alloc, yielder)?;
    Ok(silent(branches(datum, left, right, running.received)))
}

// the first of the steps of a node
fn first_step<'a>(
    alloc: Global,
    running: &Running<'_, 'a>,
    node: NodeView<'a>,
) -> Result<Move<'a>, Memory>
    requires { HasOperands running.now.graph.now.yielders node }
    ensures { IfOk result (λ m. IsMove running.now
        (node_viewed running.now.graph.now.yielders node.entry) 0 m) }
{
    let number = running.number;
    let received = running.received;
    match node {
        NodeView::Simple(primitive) => primitive_step(alloc, running, primitive),
        NodeView::Enact { yielder } => enact(alloc, running, yielder),
        NodeView::Apply { yielder, items } => enact_application(alloc, running, yielder, items),
        NodeView::Unfolding { body } => Ok(silent(calls(body, received))),
        NodeView::Unfold { body } => Ok(silent(calls(body, received))),
        NodeView::Furthermore { part } => Ok(silent(lays_over(part, received))),
        NodeView::Both { left, right, .. } => Ok(silent(forks(number, left, right, received))),
        NodeView::Phases { left, .. } => Ok(silent(begins(number, left, received))),
        NodeView::Either { left, right } => Ok(silent(chooses(left, right, received))),
        NodeView::Trapping { left, .. } => Ok(silent(traps(number, left, received))),
        NodeView::Branch {
            yielder,
            left,
            right,
        } => branch(alloc, running, yielder, left, right),
    }
}

// the second step of `or`, which alone has two
fn second_arm<'a>(running: &Running<'_, 'a>, node: NodeView<'a>) -> Move<'a>
    requires { 1 < step_count node }
    ensures { IsMove running.now
        (node_viewed running.now.graph.now.yielders node.entry) 1 result }
{
    match node {
        NodeView::Either { left, right } => silent(chooses(right, left, running.received)),
        _ => unreachable!(),
    }
}

fn count_of_view(node: NodeView<'_>) -> u64
    ensures { result ≡ step_count node.entry }
{
    match node {
        NodeView::Either { .. } => 2,
        _ => 1,
    }
}

/// How many steps of a node that runs stand open: two for `or`, one for all others.
pub fn count_of_node(graph: &Graph<'_>, node: u32) -> u64
    requires proper { IsProper (action_of graph.now) }
    requires there { node < length graph.now.nodes }
    ensures { (r : _) (w : World) → result ≡ length (node_steps graph.now node r w) }
{
    count_of_view(graph.view(node as usize))
}

/// The step of a node that runs, of this index among its open steps.
pub fn step_of_node<'a>(
    alloc: Global,
    arena: &'a Bump,
    graph: &Graph<'a>,
    node: u32,
    received: Received<'a>,
    outside: Outside<'_, 'a>,
    choice: u64,
) -> Result<Move<'a>, Memory>
    requires proper { IsProper (action_of graph.now) }
    requires there { node < length graph.now.nodes }
    requires open { (w : World) → IsOutside outside w
        → choice < length (node_steps graph.now node received w) }
    ensures { IfOk result (λ m. (w : World) → IsOutside outside.entry w →
        IsStepAt (node_steps graph.now node received.entry w) choice
        (effect_of m.change) (next_tree m.next)) }
{
    let running = Running {
        arena,
        graph,
        number: node,
        received,
        outside,
    };
    let view = graph.view(node as usize);
    if choice == 0 {
        first_step(alloc, &running, view)
    } else {
        Ok(second_arm(&running, view))
    }
}
