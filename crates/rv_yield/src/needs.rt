//! How many registers each yielder needs.

ghost use Rattle.std.specs.Prelude.{◌≡◌, ℕ, ◌<◌, ◌≤◌, ◌-◌, ◌+◌, ◌^◌, length, vec_len, slice_index, slice_index_or, IfOk, IfSome, IfNone, true, false};
ghost use Rattle.action_terms.specs.Forms.{yielder_at, two_viewed, IsDatum};
ghost use Rattle.rv_yield.specs.Registers.{AreNeeds, AreIntegral, need_of, both_needed, is_arithmetic, is_integral, is_built, registers_needed};

use acg_base::Memory;
use action_terms::{Graph, One, Two, YielderView};
use std::alloc::Global;

/// Whether an operation is one on integers that yields an integer.
fn is_arithmetic(operation: Two) -> bool
    ensures { result ≡ is_arithmetic (two_viewed operation) }
{
    matches!(
        operation,
        Two::Sum | Two::Difference | Two::Product | Two::Quotient | Two::Remainder
    )
}

/// What an operation needs whose operands need so many registers.
fn need_of_both(first: usize, second: usize) -> usize
    requires few { first < 2 ^ 63 }
    ensures { result ≡ both_needed first second }
{
    if first == 0 || second == 0 {
        return 0;
    }
    first.max(second).max(first.min(second) + 1)
}

/// What yielder k needs, by what the yielders behind it need.
fn need_at(graph: &Graph<'_>, needs: &[usize], k: usize) -> usize
    requires within { k < length graph.now.yielders }
    requires size { length needs.now ≡ length graph.now.yielders }
    requires behind { (j : ℕ) → k < j → IsDatum graph.now.yielders j → slice_index needs.now j
        ≡ need_of (yielder_at graph.now.yielders j) }
    requires few { (j : ℕ) → k < j → j < length graph.now.yielders → slice_index needs.now j +
        j ≤ length graph.now.yielders }
    ensures need { IsDatum graph.now.yielders k →
        result ≡ need_of (yielder_at graph.now.yielders k) }
    ensures few { result + k ≤ length graph.now.yielders }
{
    match graph.yielder_view(k) {
        YielderView::Number(_)
        | YielderView::Truth(_)
        | YielderView::Given { .. }
        | YielderView::GivenAt { .. } => 1,
        YielderView::StoredIn { cell, .. } => needs[cell as usize],
        YielderView::OnTwo { first, second, .. } => {
            need_of_both(needs[first as usize], needs[second as usize])
        }
        YielderView::OnOne { argument, .. } => needs[argument as usize],
        YielderView::Them => 0,
        _ => 0,
    }
}

/// How many registers the code of each yielder needs at once, by the yielder's number: 0 where
/// its code can't be made. An `Err` says want of memory.
pub fn registers_needed(alloc: Global, graph: &Graph<'_>) -> Result<Vec<usize>, Memory>
    ensures { IfOk result (λ needs. AreNeeds graph.now.yielders needs.items) }
{
    let count = graph.yielders().len();
    let mut needs = vec![in alloc; 0; count]?;
    for k in (0..count).rev() {
        needs[k] = need_at(graph, &needs, k);
    }
    Ok(needs)
}

/// How many registers the code of a yielder needs, by what is known of all: `None` where its code
/// can't be made.
pub fn registers_of(graph: &Graph<'_>, needs: &[usize], yielder: u32) -> Option<usize>
    requires datum { IsDatum graph.now.yielders yielder }
    requires needs { AreNeeds graph.now.yielders needs.now }
    ensures registers { IfSome result (λ n. n ≡ registers_needed (yielder_at graph.now.yielders
        yielder)) }
    ensures built { IfSome result (λ _n. is_built (yielder_at graph.now.yielders yielder) ≡ true) }
    ensures unbuilt { IfNone result (is_built (yielder_at graph.now.yielders yielder) ≡ false) }
{
    match needs[yielder as usize] {
        0 => None,
        registers => Some(registers),
    }
}

/// Whether yielder k is a number or an operation on integers, by what is known of the yielders
/// behind it.
fn is_integral_at(graph: &Graph<'_>, known: &[bool], k: usize) -> bool
    requires within { k < length graph.now.yielders }
    requires size { length known.now ≡ length graph.now.yielders }
    requires behind { (j : ℕ) → k < j → j < length graph.now.yielders →
        slice_index_or known.now j false ≡ is_integral (yielder_at graph.now.yielders j) }
    ensures { result ≡ is_integral (yielder_at graph.now.yielders k) }
{
    match graph.yielder_view(k) {
        YielderView::Number(_) => true,
        YielderView::OnTwo {
            operation,
            first,
            second,
        } => is_arithmetic(operation) && known[first as usize] && known[second as usize],
        YielderView::OnOne {
            operation: One::Negation,
            argument,
        } => known[argument as usize],
        _ => false,
    }
}

/// Which yielders are numbers or operations on integers alone, by the yielder's number. An `Err`
/// says want of memory.
pub fn integral_yielders(alloc: Global, graph: &Graph<'_>) -> Result<Vec<bool>, Memory>
    ensures { IfOk result (λ known. AreIntegral graph.now.yielders known.items) }
{
    let count = graph.yielders().len();
    let mut known = vec![in alloc; false; count]?;
    for k in (0..count).rev() {
        known[k] = is_integral_at(graph, &known, k);
    }
    Ok(known)
}
