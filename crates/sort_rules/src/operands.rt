//! The operands of a node: what they may yield, whether they fit, and the closures in them.
ghost use Rattle.std.specs.Prelude.{◌≡◌, ◌<◌, ◌++◌, ◌∷◌, [], length, IfOk, OnOk, reverse};
ghost use Rattle.action_terms.specs.Forms.{AreItems, item_at, items_at};
ghost use Rattle.action_terms.specs.Steps.{closures_in_items};
ghost use Rattle.sort_rules.specs.Parts.{join};
ghost use Rattle.sort_rules.specs.Values.{item_value, item_wrong, items_value, items_wrong};
ghost use Rattle.sort_rules.specs.Judgements.{misfit_unless};
ghost use Rattle.sort_rules.specs.MarkedRows.{contents_in};
ghost use Rattle.sort_rules.specs.Views.{marked_tuple_of, marked_binds_of, value_part};

use crate::judging::{Context, judge};
use crate::parts::MarkedTuple;
use crate::tuples;
use crate::values::{Value, is_no_clash};
use acg_base::Memory;
use action_terms::{Graph, YielderView};
use bumpalo::Bump;
use std::alloc::Global;

/// What data may be, and whether each item fits.
#[derive(Clone, Copy, Debug, PartialEq, Eq)]
pub struct JudgedData<'a> {
    /// What they may be.
    pub value: MarkedTuple<'a>,
    /// Whether each item fits, and is no clash.
    pub fits: bool,
}

/// The value as a tuple.
pub fn tuple_of_value<'a>(arena: &'a Bump, value: Value<'a>) -> Result<MarkedTuple<'a>, Memory>
    ensures { IfOk result (λ r. marked_tuple_of r ≡ value_part value.entry) }
{
    match value {
        Value::Unreached => Ok(MarkedTuple::Unreached),
        Value::One(set) => Ok(MarkedTuple::List(arena.try_alloc_slice_copy(&[set])?)),
        Value::Clash => Ok(MarkedTuple::Clash),
    }
}

// judges an item, and puts the closures in it behind a list, the last one first
fn judge_item<'a>(
    alloc: Global,
    arena: &'a Bump,
    graph: &Graph<'a>,
    context: &Context<'_, 'a>,
    number: u32,
    closures: &mut Vec<u32>,
) -> Result<JudgedData<'a>, Memory>
    requires { number < length graph.now.yielders }
    ensures value { IfOk result (λ r. marked_tuple_of r.value
        ≡ item_value (contents_in context.now.rows.now) (marked_tuple_of context.now.g)
        (marked_binds_of context.now.h) (item_at graph.now.yielders number)) }
    ensures wrong { IfOk result (λ r. misfit_unless r.fits
        ≡ item_wrong (contents_in context.now.rows.now) (marked_tuple_of context.now.g)
        (marked_binds_of context.now.h) (item_at graph.now.yielders number)) }
    ensures closures { OnOk result (closures.new.items ≡ closures.old.items
        ++ reverse (closures_in_items (item_at graph.now.yielders number ∷ []))) }
{
    match graph.yielder_view(number as usize) {
        YielderView::Them => Ok(JudgedData {
            value: context.g,
            fits: !matches!(context.g, MarkedTuple::Clash),
        }),
        _ => {
            let judged = judge(alloc, arena, graph, context, number, closures)?;
            Ok(JudgedData {
                value: tuple_of_value(arena, judged.value)?,
                fits: judged.fits && is_no_clash(judged.value),
            })
        }
    }
}

/// Whether both fit.
#[tactic(auto, using(crate::proofs::Misfits::misfits))]
pub fn both_fit(first: bool, second: bool) -> bool
    ensures { misfit_unless result ≡ join (misfit_unless first) (misfit_unless second) }
{
    first && second
}

/// Judges data, and puts the closures in them behind a list, the last one first.
pub fn judge_data<'a>(
    alloc: Global,
    arena: &'a Bump,
    graph: &Graph<'a>,
    context: &Context<'_, 'a>,
    numbers: &[u32],
    closures: &mut Vec<u32>,
) -> Result<JudgedData<'a>, Memory>
    requires { AreItems graph.now.yielders numbers.now }
    ensures value { IfOk result (λ r. marked_tuple_of r.value
        ≡ items_value (contents_in context.now.rows.now) (marked_tuple_of context.now.g)
        (marked_binds_of context.now.h) (items_at graph.now.yielders numbers.now)) }
    ensures wrong { IfOk result (λ r. misfit_unless r.fits
        ≡ items_wrong (contents_in context.now.rows.now) (marked_tuple_of context.now.g)
        (marked_binds_of context.now.h) (items_at graph.now.yielders numbers.now)) }
    ensures closures { OnOk result (closures.new.items ≡ closures.old.items
        ++ reverse (closures_in_items (items_at graph.now.yielders numbers.now))) }
{
    let mut value = MarkedTuple::List(&[]);
    let mut fits = true;
    for i in (0..numbers.len()).rev() {
        let item = judge_item(alloc, arena, graph, context, numbers[i], closures)?;
        value = tuples::concatenation(arena, item.value, value)?;
        fits = both_fit(item.fits, fits);
    }
    Ok(JudgedData { value, fits })
}
