//! Bindings: finite maps from tokens to data, as slices with their tokens ascending.
ghost use Rattle.std.specs.Prelude.{◌≡◌, suc, ◌<◌, ◌≤◌, length, take, drop, IfOk, IfErr, OnOk, IsTrue, option_map, is_some, true, []};
ghost use Rattle.action_terms.specs.Bindings.{bind, overlaid, lookup, meets};
ghost use Rattle.action_values.specs.Values.{meant, bindings_of};
ghost use Rattle.action_values.specs.TokenOrder.{token_order};
ghost use Rattle.action_values.specs.Ascending.{IsBelow, AreAscending};
ghost use Rattle.action_values.specs.Puts.{Puts, Lacks};

use crate::datum::{Binding, Datum};
use acg_base::Memory;
use bumpalo::Bump;
use bumpalo::collections::into_bump_slice;
use std::cmp::Ordering;

// the order of two tokens, by their bytes: a prefix comes first
#[tactic(auto, using(crate::proofs::TokenOrders::tokens))]
fn token_order(first: &[u8], second: &[u8]) -> Ordering
    ensures { result ≡ token_order first.now second.now }
{
    first.cmp(&second)
}

/// What the token is bound to.
#[tactic(auto, using(crate::proofs::BindingLists::binding_lists))]
pub fn lookup<'a>(bound: &[Binding<'a>], token: &[u8]) -> Option<Datum<'a>>
    ensures { option_map meant result ≡ lookup token.now (bindings_of bound.now) }
{
    for binding in bound {
        match token_order(token, binding.token) {
            Ordering::Less => return None,
            Ordering::Equal => return Some(binding.datum),
            Ordering::Greater => {}
        }
    }
    None
}

// the place where the token is bound, or else where it is to be put in
fn place(bound: &[Binding<'_>], token: &[u8]) -> Result<usize, usize>
    ensures bound_in { IfOk result (λ i. i < length bound.now) }
    ensures bound_at { IfOk result (λ i. Puts bound.now token.now (take i bound.now) (drop (suc i) bound.now)) }
    ensures in_range { IfErr result (λ i. i ≤ length bound.now) }
    ensures put_at { IfErr result (λ i. Puts bound.now token.now (take i bound.now) (drop i bound.now)) }
    ensures found { IfOk result (λ i. is_some (lookup token.now (bindings_of bound.now)) ≡ true) }
    ensures lacks { IfErr result (λ i. Lacks bound.now token.now (drop i bound.now)) }
{
    for (i, binding) in bound.iter().enumerate() {
        match token_order(token, binding.token) {
            Ordering::Less => return Err(i),
            Ordering::Equal => return Ok(i),
            Ordering::Greater => {}
        }
    }
    Err(bound.len())
}

// how many bindings come before the token, and where those behind it begin
fn gap(bound: &[Binding<'_>], token: &[u8]) -> (usize, usize)
    ensures before { result.0 ≤ length bound.now }
    ensures behind { result.1 ≤ length bound.now }
    ensures puts { Puts bound.now token.now (take result.0 bound.now) (drop result.1 bound.now) }
{
    match place(bound, token) {
        Ok(i) => (i, i + 1),
        Err(i) => (i, i),
    }
}

/// The bindings with the token bound to the datum, in place of what it was bound to.
pub fn bind<'a>(
    arena: &'a Bump,
    token: &'a [u8],
    datum: Datum<'a>,
    bound: &[Binding<'a>],
) -> Result<&'a [Binding<'a>], Memory>
    ensures { IfOk result (λ r. bindings_of r.now ≡ bind token.now (meant datum.entry) (bindings_of bound.now)) }
{
    let (end, start) = gap(bound, token);
    let mut list = Vec::with_capacity(arena, bound.len() + 1)?;
    list.extend_from_slice(&bound[..end])?;
    list.push(Binding { token, datum })?;
    list.extend_from_slice(&bound[start..])?;
    Ok(into_bump_slice(list))
}

// whether the token is less than that of the first binding
fn is_below(token: &[u8], bound: &[Binding<'_>]) -> bool
    ensures { IsTrue result → IsBelow token.now (bindings_of bound.now) }
{
    match bound {
        [first, ..] => token_order(token, first.token) == Ordering::Less,
        [] => true,
    }
}

// whether the tokens ascend
fn are_ascending(bound: &[Binding<'_>]) -> bool
    ensures { IsTrue result → AreAscending (bindings_of bound.now) }
{
    for i in (0..bound.len()).rev() {
        if !is_below(bound[i].token, &bound[i + 1..]) {
            return false;
        }
    }
    true
}

// whether some token is bound in both: one walk over the two
fn meet_ascending(first: &[Binding<'_>], second: &[Binding<'_>]) -> bool
    requires { AreAscending (bindings_of first.now) }
    ensures { result ≡ meets (bindings_of first.now) (bindings_of second.now) }
{
    let mut next = 0;
    for binding in first {
        match place(&second[next..], binding.token) {
            Ok(_) => return true,
            Err(i) => next += i,
        }
    }
    false
}

/// Whether some token is bound in both. Where the tokens of the first ascend, as those of all bindings of a performance do, it takes one
/// walk over the two.
#[tactic(auto, using(crate::proofs::BindingLists::binding_lists))]
pub fn meet(first: &[Binding<'_>], second: &[Binding<'_>]) -> bool
    ensures { result ≡ meets (bindings_of first.now) (bindings_of second.now) }
{
    if are_ascending(first) {
        return meet_ascending(first, second);
    }
    for binding in first {
        if lookup(second, binding.token).is_some() {
            return true;
        }
    }
    false
}

// binds a token in the list
fn put<'a>(list: &mut Vec<Binding<'a>, &'a Bump>, binding: Binding<'a>) -> Result<(), Memory>
    ensures { OnOk result (bindings_of list.new.items ≡ bind binding.entry.token.now (meant binding.entry.datum) (bindings_of list.old.items)) }
{
    match place(list.as_slice(), binding.token) {
        Ok(i) => list[i] = binding,
        Err(i) => list.insert(i, binding)?,
    }
    Ok(())
}

// lays bindings over those of the list, the last one first
#[tactic(auto, using(crate::proofs::BindingLists::binding_lists))]
fn put_all<'a>(list: &mut Vec<Binding<'a>, &'a Bump>, over: &[Binding<'a>]) -> Result<(), Memory>
    requires { 0 < length list.old.items }
    ensures { OnOk result (bindings_of list.new.items ≡ overlaid (bindings_of list.old.items) (bindings_of over.now)) }
{
    for i in (0..over.len()).rev() {
        put(list, over[i])?;
    }
    Ok(())
}

// lays bindings over others, all into the list: one walk over the two
fn merge<'a>(
    list: &mut Vec<Binding<'a>, &'a Bump>,
    under: &[Binding<'a>],
    over: &[Binding<'a>],
) -> Result<(), Memory>
    requires ascending { AreAscending (bindings_of over.now) }
    requires empty { list.old.items ≡ [] }
    ensures { OnOk result (bindings_of list.new.items ≡ overlaid (bindings_of under.now) (bindings_of over.now)) }
{
    let mut next = 0;
    for binding in over {
        let rest = &under[next..];
        let (end, start) = gap(rest, binding.token);
        list.extend_from_slice(&rest[..end])?;
        list.push(*binding)?;
        next += start;
    }
    list.extend_from_slice(&under[next..])?;
    Ok(())
}

/// The bindings `under` overlaid by `over`: where both bind a token, `over` counts. Where the tokens of `over` ascend, as those of all
/// bindings of a performance do, it takes one walk over the two.
pub fn overlay<'a>(
    arena: &'a Bump,
    under: &'a [Binding<'a>],
    over: &'a [Binding<'a>],
) -> Result<&'a [Binding<'a>], Memory>
    ensures { IfOk result (λ r. bindings_of r.now ≡ overlaid (bindings_of under.now) (bindings_of over.now)) }
{
    if under.is_empty() {
        return Ok(over);
    }
    if over.is_empty() {
        return Ok(under);
    }
    let mut list = Vec::with_capacity(arena, under.len() + over.len())?;
    if are_ascending(over) {
        merge(&mut list, under, over)?;
    } else {
        list.extend_from_slice(under)?;
        put_all(&mut list, over)?;
    }
    Ok(into_bump_slice(list))
}
