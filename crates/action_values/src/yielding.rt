//! What yielders and items of data yield.
ghost use Rattle.std.specs.Prelude.{◌≡◌, Some, None, IfOk, option_map, if◌then◌else◌};
ghost use Rattle.action_terms.specs.Actions.{Yielder, Single};
ghost use Rattle.action_terms.specs.Yielding.{yields, item_yields, both_data, items_yield};
ghost use Rattle.action_terms.specs.Forms.{item_at, items_at};
ghost use Rattle.action_values.specs.Values.{meant, data_of, bindings_of, storage_of};

pub use crate::context::Context;
use crate::context::ItemValue;
use crate::datum::Datum;
use crate::walk::evaluate;
use acg_base::Memory;
use bumpalo::Bump;
use bumpalo::collections::into_bump_slice;
use std::alloc::Global;

/// What the yielder of this number yields.
pub fn yielded<'a>(
    alloc: Global,
    context: &Context<'a, '_>,
    number: u32,
) -> Result<Option<Datum<'a>>, Memory>
    ensures { IfOk result (λ r. (y : Yielder) →
        item_at context.now.graph.now.yielders number ≡ Single y →
        option_map meant r ≡ yields y (data_of context.now.given.now)
        (bindings_of context.now.bound.now) (storage_of context.now.cells.now)) }
{
    match evaluate(alloc, context, number)? {
        ItemValue::Datum(datum) => Ok(Some(datum)),
        ItemValue::Nothing | ItemValue::Them => Ok(None),
    }
}

// what the item of this number yields; `them` is the given data themselves
fn yielded_item<'a>(
    alloc: Global,
    arena: &'a Bump,
    context: &Context<'a, '_>,
    number: u32,
) -> Result<Option<&'a [Datum<'a>]>, Memory>
    ensures { IfOk result (λ r. option_map (λ d. data_of d.now) r
        ≡ item_yields (item_at context.now.graph.now.yielders number)
        (data_of context.now.given.now) (bindings_of context.now.bound.now)
        (storage_of context.now.cells.now)) }
{
    match evaluate(alloc, context, number)? {
        ItemValue::Datum(datum) => Ok(Some(arena.try_alloc_slice_copy(&[datum])?)),
        ItemValue::Nothing => Ok(None),
        ItemValue::Them => Ok(Some(context.given)),
    }
}

// adds the data of an item. It answers whether the item yields some
fn add_item<'a>(
    alloc: Global,
    context: &Context<'a, '_>,
    number: u32,
    items: &mut Vec<Datum<'a>, &'a Bump>,
) -> Result<bool, Memory>
    ensures { IfOk result (λ yields. (if yields then Some (data_of items.new.items) else None)
        ≡ both_data (Some (data_of items.old.items))
        (item_yields (item_at context.now.graph.now.yielders number)
        (data_of context.now.given.now) (bindings_of context.now.bound.now)
        (storage_of context.now.cells.now))) }
{
    match evaluate(alloc, context, number)? {
        ItemValue::Datum(datum) => items.push(datum)?,
        ItemValue::Nothing => return Ok(false),
        ItemValue::Them => items.extend_from_slice(context.given)?,
    }
    Ok(true)
}

/// What the items of these numbers yield, one after another. `them` alone is the given data
/// themselves.
pub fn yielded_items<'a>(
    alloc: Global,
    arena: &'a Bump,
    context: &Context<'a, '_>,
    numbers: &[u32],
) -> Result<Option<&'a [Datum<'a>]>, Memory>
    ensures { IfOk result (λ r. option_map (λ d. data_of d.now) r
        ≡ items_yield (items_at context.now.graph.now.yielders numbers.now)
        (data_of context.now.given.now) (bindings_of context.now.bound.now)
        (storage_of context.now.cells.now)) }
{
    if let [only] = numbers {
        return yielded_item(alloc, arena, context, *only);
    }
    let mut items = Vec::new(arena);
    for number in numbers {
        if !add_item(alloc, context, *number, &mut items)? {
            return Ok(None);
        }
    }
    Ok(Some(into_bump_slice(items)))
}
