//! The tokens that yielders and nodes name by `bound to`.
ghost use Rattle.std.specs.Prelude.{◌≡◌, ◌<◌, ◌++◌, ◌∷◌, [], length, OnOk};
ghost use Rattle.action_terms.specs.Forms.{IsDatum, AreItems, HasOperands, HasPrimitiveOperands, item_at, items_at as listed_items, node_viewed, primitive_viewed, yielder_at};
ghost use Rattle.sort_rules.specs.Measures.{named_at, named_by, named_in, named_in_items};
ghost use Rattle.binding_capture.specs.Asked.{arguments_first, own_named, tokens_of};

use acg_base::Memory;
use action_terms::{Graph, NodeView, PrimitiveView, YielderView};
use std::alloc::Global;

// puts the arguments of a yielder on a stack, the first one last
fn push_arguments(left: &mut Vec<u32>, view: YielderView<'_>) -> Result<(), Memory>
    ensures { OnOk result (left.new.items ≡ left.old.items ++ arguments_first view.entry) }
{
    match view {
        YielderView::StoredIn { cell, .. } => left.push(cell)?,
        YielderView::OnTwo { first, second, .. } => {
            left.push(second)?;
            left.push(first)?;
        }
        YielderView::OnOne { argument, .. } => left.push(argument)?,
        _ => {}
    }
    Ok(())
}

// puts the token that a yielder itself names behind a list
fn push_own<'a>(tokens: &mut Vec<&'a [u8]>, view: YielderView<'a>) -> Result<(), Memory>
    ensures { OnOk result (tokens_of tokens.new.items ≡ tokens_of tokens.old.items
        ++ own_named view.entry) }
{
    if let YielderView::BoundTo { token, .. } = view {
        tokens.push(token)?;
    }
    Ok(())
}

// puts the tokens that a yielder names behind a list
fn push_named_in<'a>(
    alloc: Global,
    graph: &Graph<'a>,
    number: u32,
    tokens: &mut Vec<&'a [u8]>,
) -> Result<(), Memory>
    requires { IsDatum graph.now.yielders number }
    ensures { OnOk result (tokens_of tokens.new.items ≡ tokens_of tokens.old.items
        ++ named_in (yielder_at graph.now.yielders number)) }
{
    let mut left = Vec::new(alloc);
    left.push(number)?;
    while let Some(next) = left.pop() {
        let view = graph.yielder_view(next as usize);
        push_arguments(&mut left, view)?;
        push_own(tokens, view)?;
    }
    Ok(())
}

// puts the tokens that an item names behind a list
fn push_named_in_item<'a>(
    alloc: Global,
    graph: &Graph<'a>,
    number: u32,
    tokens: &mut Vec<&'a [u8]>,
) -> Result<(), Memory>
    requires { number < length graph.now.yielders }
    ensures { OnOk result (tokens_of tokens.new.items ≡ tokens_of tokens.old.items
        ++ named_in_items (item_at graph.now.yielders number ∷ [])) }
{
    match graph.yielder_view(number as usize) {
        YielderView::Them => Ok(()),
        _ => push_named_in(alloc, graph, number, tokens),
    }
}

// puts the tokens that data name behind a list
fn push_named_in_data<'a>(
    alloc: Global,
    graph: &Graph<'a>,
    numbers: &[u32],
    tokens: &mut Vec<&'a [u8]>,
) -> Result<(), Memory>
    requires { AreItems graph.now.yielders numbers.now }
    ensures { OnOk result (tokens_of tokens.new.items ≡ tokens_of tokens.old.items
        ++ named_in_items (listed_items graph.now.yielders numbers.now)) }
{
    for i in 0..numbers.len() {
        push_named_in_item(alloc, graph, numbers[i], tokens)?;
    }
    Ok(())
}

// puts the tokens that a primitive names behind a list
fn push_named_by<'a>(
    alloc: Global,
    graph: &Graph<'a>,
    primitive: PrimitiveView<'_>,
    tokens: &mut Vec<&'a [u8]>,
) -> Result<(), Memory>
    requires { HasPrimitiveOperands graph.now.yielders primitive }
    ensures { OnOk result (tokens_of tokens.new.items ≡ tokens_of tokens.old.items
        ++ named_by (primitive_viewed graph.now.yielders primitive.entry)) }
{
    match primitive {
        PrimitiveView::Give { items } => push_named_in_data(alloc, graph, items, tokens),
        PrimitiveView::EscapeWith { items } => push_named_in_data(alloc, graph, items, tokens),
        PrimitiveView::Check { yielder } => push_named_in(alloc, graph, yielder, tokens),
        PrimitiveView::Bind { yielder, .. } => push_named_in(alloc, graph, yielder, tokens),
        PrimitiveView::Store { datum, cell } => {
            push_named_in(alloc, graph, datum, tokens)?;
            push_named_in(alloc, graph, cell, tokens)
        }
        PrimitiveView::Send { yielder } => push_named_in(alloc, graph, yielder, tokens),
        _ => Ok(()),
    }
}

/// Puts the tokens that the yielders of a node name by `bound to` behind a list, in the order of its
/// text; those in the body of a closure are the body's. An `Err` says want of memory.
pub fn push_named_at<'a>(
    alloc: Global,
    graph: &Graph<'a>,
    view: NodeView<'_>,
    tokens: &mut Vec<&'a [u8]>,
) -> Result<(), Memory>
    requires { HasOperands graph.now.yielders view }
    ensures named { OnOk result (tokens_of tokens.new.items ≡ tokens_of tokens.old.items
        ++ named_at (node_viewed graph.now.yielders view.entry)) }
{
    match view {
        NodeView::Simple(primitive) => push_named_by(alloc, graph, primitive, tokens),
        NodeView::Enact { yielder } => push_named_in(alloc, graph, yielder, tokens),
        NodeView::Apply { yielder, items } => {
            push_named_in(alloc, graph, yielder, tokens)?;
            push_named_in_data(alloc, graph, items, tokens)
        }
        NodeView::Branch { yielder, .. } => push_named_in(alloc, graph, yielder, tokens),
        _ => Ok(()),
    }
}
