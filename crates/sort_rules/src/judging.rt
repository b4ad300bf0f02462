//! Whether a yielder of a graph fits, and what it may yield.
ghost use Rattle.std.specs.Prelude.{◌≡◌, ◌∷◌, ◌++◌, IfOk, OnOk, map, reverse};
ghost use Rattle.action_terms.specs.Forms.{IsDatum, yielder_at, one_viewed, two_viewed};
ghost use Rattle.action_terms.specs.Steps.{closures_in};
ghost use Rattle.sort_rules.specs.Sets.{closures_of_body};
ghost use Rattle.sort_rules.specs.Parts.{join};
ghost use Rattle.sort_rules.specs.Values.{all_contents, stored_value};
ghost use Rattle.sort_rules.specs.Judgements.{judgement, stored_judged, one_judged, two_judged};
ghost use Rattle.sort_rules.specs.Postorder.{judged_by, listed_closures, settled, on_one_judged, on_two_judged};
ghost use Rattle.sort_rules.specs.MarkedRows.{contents_in};
ghost use Rattle.sort_rules.specs.Views.{set_of, marked_tuple_of, marked_binds_of, value_part, judgement_of};

use crate::parts::{MarkedBinds, MarkedTuple};
use crate::postorder::listed;
use crate::rows::{MarkedRow, contents_of};
use crate::set::Set;
use crate::sets::{atoms, numbered, union};
use crate::values::{Judged, Value, bound_to, given, given_at, on_one, on_two, stored};
use acg_base::Memory;
use action_terms::{Graph, One, Sort, Two, YielderView};
use bumpalo::Bump;
use std::alloc::{AllocError, Global};

/// What yielders are judged with.
#[derive(Clone, Copy)]
pub struct Context<'t, 'a> {
    /// The table.
    pub rows: &'t [MarkedRow<'a>],
    /// The data that the node is given.
    pub g: MarkedTuple<'a>,
    /// The bindings that it receives.
    pub h: MarkedBinds<'a>,
}

/// The least value above both.
pub fn joined<'a>(arena: &'a Bump, x: Value<'a>, y: Value<'a>) -> Result<Value<'a>, AllocError>
    ensures { IfOk result (λ r. value_part r ≡ join (value_part x.entry) (value_part y.entry)) }
{
    match (x, y) {
        (Value::Unreached, _) => Ok(y),
        (_, Value::Unreached) => Ok(x),
        (Value::One(set), Value::One(other)) => Ok(Value::One(union(arena, set, other)?)),
        _ => Ok(Value::Clash),
    }
}

// what the cells of these nodes may hold
fn all_contents<'a>(
    arena: &'a Bump,
    rows: &[MarkedRow<'a>],
    nodes: &[u32],
) -> Result<Value<'a>, AllocError>
    ensures { IfOk result (λ r. value_part r ≡ all_contents (contents_in rows.now) nodes.now) }
{
    let mut value = Value::Unreached;
    for i in (0..nodes.len()).rev() {
        value = joined(arena, contents_of(rows, nodes[i]), value)?;
    }
    Ok(value)
}

// what the cells of a value may hold
fn content<'a>(
    arena: &'a Bump,
    rows: &[MarkedRow<'a>],
    cell: Value<'a>,
) -> Result<Value<'a>, AllocError>
    ensures { IfOk result (λ r. value_part r
        ≡ stored_value (contents_in rows.now) (value_part cell.entry)) }
{
    match cell {
        Value::Unreached => Ok(Value::Unreached),
        Value::One(set) => all_contents(arena, rows, set.cells),
        Value::Clash => Ok(Value::Clash),
    }
}

// what is always of one set
fn settled(set: Set<'_>) -> Judged<'_>
    ensures { judgement_of result ≡ settled (set_of set.entry) }
{
    Judged {
        value: Value::One(set),
        fits: true,
    }
}

// puts a judgement on the stack
fn push<'a>(stack: &mut Vec<Judged<'a>>, judged: Judged<'a>) -> Result<(), Memory>
    ensures { OnOk result (map judgement_of (reverse stack.new.items) ≡ judgement_of judged.entry
        ∷ map judgement_of (reverse stack.old.items)) }
{
    stack.push(judged)?;
    Ok(())
}

/// The closures of a body.
pub fn closures_of<'a>(arena: &'a Bump, body: u32) -> Result<Set<'a>, Memory>
    ensures { IfOk result (λ r. set_of r ≡ closures_of_body body) }
{
    let bodies = arena.try_alloc_slice_copy(&[body])?;
    Ok(numbered(&[], bodies))
}

// judges what is stored in a cell
fn judge_stored<'a>(
    arena: &'a Bump,
    rows: &[MarkedRow<'a>],
    sort: Sort,
    stack: &mut Vec<Judged<'a>>,
) -> Result<(), Memory>
    ensures { OnOk result (map judgement_of (reverse stack.new.items)
        ≡ on_one_judged (stored_judged (contents_in rows.now) sort)
        (map judgement_of (reverse stack.old.items))) }
{
    let Some(cell) = stack.pop() else {
        return Ok(());
    };
    let content = content(arena, rows, cell.value)?;
    push(stack, stored(sort, cell, content))
}

// judges an operation on one datum
fn judge_one<'a>(operation: One, stack: &mut Vec<Judged<'a>>) -> Result<(), Memory>
    ensures { OnOk result (map judgement_of (reverse stack.new.items)
        ≡ on_one_judged (one_judged (one_viewed operation))
        (map judgement_of (reverse stack.old.items))) }
{
    let Some(argument) = stack.pop() else {
        return Ok(());
    };
    push(stack, on_one(operation, argument))
}

// judges an operation on two data
fn judge_two<'a>(operation: Two, stack: &mut Vec<Judged<'a>>) -> Result<(), Memory>
    ensures { OnOk result (map judgement_of (reverse stack.new.items)
        ≡ on_two_judged (two_judged (two_viewed operation))
        (map judgement_of (reverse stack.old.items))) }
{
    let Some(second) = stack.pop() else {
        return Ok(());
    };
    let Some(first) = stack.pop() else {
        return Ok(());
    };
    push(stack, on_two(operation, first, second))
}

// judges a yielder, with the judgements of its arguments on the stack
fn judge_next<'a>(
    arena: &'a Bump,
    context: &Context<'_, 'a>,
    view: YielderView<'a>,
    stack: &mut Vec<Judged<'a>>,
) -> Result<(), Memory>
    ensures { OnOk result (map judgement_of (reverse stack.new.items)
        ≡ judged_by (contents_in context.now.rows.now) (marked_tuple_of context.now.g)
        (marked_binds_of context.now.h) view.entry (map judgement_of (reverse stack.old.items))) }
{
    match view {
        YielderView::Number(_) => push(stack, settled(atoms(true, false))),
        YielderView::Truth(_) => push(stack, settled(atoms(false, true))),
        YielderView::Them => Ok(()),
        YielderView::Given { sort } => push(stack, given(sort, context.g)),
        YielderView::GivenAt { sort, place } => push(stack, given_at(sort, place, context.g)),
        YielderView::BoundTo { sort, token } => push(stack, bound_to(sort, token, context.h)),
        YielderView::StoredIn { sort, .. } => judge_stored(arena, context.rows, sort, stack),
        YielderView::OnTwo { operation, .. } => judge_two(operation, stack),
        YielderView::OnOne { operation, .. } => judge_one(operation, stack),
        YielderView::ClosureOf { body } => push(stack, settled(closures_of(arena, body)?)),
    }
}

/// Puts the bodies of the closures among the yielders behind a list.
pub fn push_closures(closures: &mut Vec<u32>, views: &[YielderView<'_>]) -> Result<(), Memory>
    ensures { OnOk result (closures.new.items ≡ closures.old.items ++ listed_closures views.now) }
{
    for i in 0..views.len() {
        if let YielderView::ClosureOf { body } = views[i] {
            closures.push(body)?;
        }
    }
    Ok(())
}

/// What the yielder of this number may yield, and whether it fits. The bodies of the closures in it
/// are put behind a list, the last one first.
pub fn judge<'a>(
    alloc: Global,
    arena: &'a Bump,
    graph: &Graph<'a>,
    context: &Context<'_, 'a>,
    number: u32,
    closures: &mut Vec<u32>,
) -> Result<Judged<'a>, Memory>
    requires { IsDatum graph.now.yielders number }
    ensures judged { IfOk result (λ j. judgement_of j
        ≡ judgement (contents_in context.now.rows.now) (marked_tuple_of context.now.g)
        (marked_binds_of context.now.h) (yielder_at graph.now.yielders number)) }
    ensures closures { OnOk result (closures.new.items ≡ closures.old.items
        ++ reverse (closures_in (yielder_at graph.now.yielders number))) }
{
    let views = listed(alloc, graph, number)?;
    push_closures(closures, views.as_slice())?;
    let mut stack = Vec::new(alloc);
    for i in (0..views.len()).rev() {
        judge_next(arena, context, views[i], &mut stack)?;
    }
    match stack.pop() {
        Some(judged) => Ok(judged),
        None => unreachable!(),
    }
}
