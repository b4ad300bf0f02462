//! What yielders without arguments yield.
ghost use Rattle.std.specs.Prelude.{◌≡◌, None, Some, option_map, IfSome, IfNone, true};
ghost use Rattle.action_terms.specs.Information.{Closure};
ghost use Rattle.action_terms.specs.Yielding.{and_then, of_sort, only, nth};
ghost use Rattle.action_terms.specs.Forms.{item_viewed};
ghost use Rattle.action_values.specs.Values.{meant, data_of, bindings_of};
ghost use Rattle.action_values.specs.Evaluation.{value_meant, is_operation, value_in};

use crate::bindings::lookup;
use crate::context::{Context, ItemValue, single_value};
use crate::datum::{Binding, Datum};
use crate::operations::of_sort;
use action_terms::{Sort, YielderView};

// the datum of a tuple of one
#[tactic(auto, using(crate::proofs::DataLists::data_lists))]
fn only<'a>(given: &[Datum<'a>]) -> Option<Datum<'a>>
    ensures { option_map meant result ≡ only (data_of given.now) }
{
    match given {
        [datum] => Some(*datum),
        _ => None,
    }
}

// the datum of a place from 1
#[tactic(auto, using(crate::proofs::DataLists::data_lists))]
fn nth<'a>(given: &[Datum<'a>], place: u32) -> Option<Datum<'a>>
    ensures { option_map meant result ≡ nth (data_of given.now) place }
{
    if place == 0 {
        return None;
    }
    given.get(place as usize - 1).copied()
}

// a closure that isn't bound to a token of its own
fn closure<'a>(body: u32, bound: &'a [Binding<'a>]) -> Datum<'a>
    ensures { meant result ≡ Closure body (bindings_of bound.now) None }
{
    Datum::Closure {
        body,
        bound,
        own: None,
    }
}

// the datum, if there is one of the sort
fn sorted<'a>(sort: Sort, datum: Option<Datum<'a>>) -> Option<Datum<'a>>
    ensures { option_map meant result ≡ and_then (option_map meant datum.entry) (of_sort sort) }
{
    of_sort(sort, datum?)
}

/// What a yielder without arguments yields. An operation has no such value.
pub fn leaf_value<'a>(context: &Context<'a, '_>, view: YielderView<'a>) -> Option<ItemValue<'a>>
    ensures value { IfSome result (λ v. value_meant v
        ≡ value_in context.now (item_viewed context.now.graph.now.yielders view.entry)) }
    ensures operation { IfNone result (is_operation view.entry ≡ true) }
{
    let datum = match view {
        YielderView::Number(n) => Some(Datum::Number(n)),
        YielderView::Truth(b) => Some(Datum::Truth(b)),
        YielderView::Them => return Some(ItemValue::Them),
        YielderView::Given { sort } => sorted(sort, only(context.given)),
        YielderView::GivenAt { sort, place } => sorted(sort, nth(context.given, place)),
        YielderView::BoundTo { sort, token } => sorted(sort, lookup(context.bound, token)),
        YielderView::ClosureOf { body } => Some(closure(body, context.bound)),
        YielderView::StoredIn { .. } | YielderView::OnTwo { .. } | YielderView::OnOne { .. } => {
            return None;
        }
    };
    Some(single_value(datum))
}
