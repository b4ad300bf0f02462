//! The order of bindings of tokens to sets, and the operations on them.
ghost use Rattle.std.specs.Prelude.{◌≡◌, suc, ◌<◌, ◌≤◌, length, take, drop, map, IfOk, IfErr, OnOk, option_map};
ghost use Rattle.sort_rules.specs.Parts.{apart, bind_component, components_meet, join, joined_components, limited, lookup_set, overlaid_components, overlay, same_token, union};
ghost use Rattle.sort_rules.specs.Tests.{are_below, is_below};
ghost use Rattle.sort_rules.specs.TokenOrder.{token_order};
ghost use Rattle.sort_rules.specs.Puts.{Puts};
ghost use Rattle.sort_rules.specs.Views.{pair_of, set_of, marked_binds_of};

use crate::parts::{BoundSet, MOST_COMPONENTS, MarkedBinds};
use crate::set::Set;
use crate::sets;
use bumpalo::Bump;
use bumpalo::collections::into_bump_slice;
use std::alloc::AllocError;
use std::cmp::Ordering;

// the order of two tokens, by their bytes: a prefix comes first
#[tactic(auto, using(crate::proofs::TokenOrders::tokens))]
fn token_order(first: &[u8], second: &[u8]) -> Ordering
    ensures { result ≡ token_order first.now second.now }
{
    first.cmp(&second)
}

fn same_token(first: &[u8], second: &[u8]) -> bool
    ensures { result ≡ same_token first.now second.now }
{
    first == second
}

/// The set of a token.
pub fn lookup<'a>(pairs: &[BoundSet<'a>], token: &[u8]) -> Option<Set<'a>>
    ensures { option_map set_of result ≡ lookup_set token.now (map pair_of pairs.now) }
{
    for i in 0..pairs.len() {
        let pair = pairs[i];
        match token_order(token, pair.0) {
            Ordering::Less => return None,
            Ordering::Equal => return Some(pair.1),
            Ordering::Greater => {}
        }
    }
    None
}

// whether some token stands in both
fn meet(xs: &[BoundSet<'_>], ys: &[BoundSet<'_>]) -> bool
    ensures { result ≡ components_meet (map pair_of xs.now) (map pair_of ys.now) }
{
    for i in 0..xs.len() {
        let x = xs[i];
        if lookup(ys, x.0).is_some() {
            return true;
        }
    }
    false
}

// whether there are as many tokens, the same ones, and each set lies in that of its token
fn are_below(xs: &[BoundSet<'_>], ys: &[BoundSet<'_>]) -> bool
    ensures { result ≡ are_below (map pair_of xs.now) (map pair_of ys.now) }
{
    if xs.len() != ys.len() {
        return false;
    }
    for i in 0..xs.len() {
        let x = xs[i];
        let y = ys[i];
        if !same_token(x.0, y.0) || !sets::is_subset(x.1, y.1) {
            return false;
        }
    }
    true
}

/// Whether the first bindings lie below the second.
pub fn is_below(x: MarkedBinds<'_>, y: MarkedBinds<'_>) -> bool
    ensures { result ≡ is_below (marked_binds_of x.entry) (marked_binds_of y.entry) }
{
    match (x, y) {
        (MarkedBinds::Unreached, _) => true,
        (MarkedBinds::Map(xs), MarkedBinds::Map(ys)) => are_below(xs, ys),
        (_, MarkedBinds::Clash) => true,
        _ => false,
    }
}

// each set with that of its token, where the tokens are the same
fn joined<'a>(
    arena: &'a Bump,
    xs: &'a [BoundSet<'a>],
    ys: &'a [BoundSet<'a>],
) -> Result<MarkedBinds<'a>, AllocError>
    ensures { IfOk result (λ r. marked_binds_of r
        ≡ joined_components (map pair_of xs.now) (map pair_of ys.now)) }
{
    if xs.len() != ys.len() {
        return Ok(MarkedBinds::Clash);
    }
    let mut all = Vec::with_capacity(arena, xs.len())?;
    for i in 0..xs.len() {
        let x = xs[i];
        let y = ys[i];
        if !same_token(x.0, y.0) {
            return Ok(MarkedBinds::Clash);
        }
        let set = sets::union(arena, x.1, y.1)?;
        all.push((x.0, set))?;
    }
    Ok(MarkedBinds::Map(into_bump_slice(all)))
}

/// The least bindings above both.
pub fn join<'a>(
    arena: &'a Bump,
    x: MarkedBinds<'a>,
    y: MarkedBinds<'a>,
) -> Result<MarkedBinds<'a>, AllocError>
    ensures { IfOk result (λ r. marked_binds_of r
        ≡ join (marked_binds_of x.entry) (marked_binds_of y.entry)) }
{
    match (x, y) {
        (MarkedBinds::Unreached, _) => Ok(y),
        (_, MarkedBinds::Unreached) => Ok(x),
        (MarkedBinds::Map(xs), MarkedBinds::Map(ys)) => joined(arena, xs, ys),
        _ => Ok(MarkedBinds::Clash),
    }
}

// the place where the token stands, or else where it is to be put in
fn place(pairs: &[BoundSet<'_>], token: &[u8]) -> Result<usize, usize>
    ensures bound_in { IfOk result (λ i. i < length pairs.now) }
    ensures bound_at { IfOk result (λ i. Puts pairs.now token.now (take i pairs.now)
        (drop (suc i) pairs.now)) }
    ensures in_range { IfErr result (λ i. i ≤ length pairs.now) }
    ensures put_at { IfErr result (λ i. Puts pairs.now token.now (take i pairs.now)
        (drop i pairs.now)) }
{
    for i in 0..pairs.len() {
        let pair = pairs[i];
        match token_order(token, pair.0) {
            Ordering::Less => return Err(i),
            Ordering::Equal => return Ok(i),
            Ordering::Greater => {}
        }
    }
    Err(pairs.len())
}

// binds a token in the list
fn put<'a>(list: &mut Vec<BoundSet<'a>, &'a Bump>, pair: BoundSet<'a>) -> Result<(), AllocError>
    ensures { OnOk result (map pair_of list.new.items
        ≡ bind_component (pair_of pair.entry) (map pair_of list.old.items)) }
{
    match place(list.as_slice(), pair.0) {
        Ok(i) => list[i] = pair,
        Err(i) => list.insert(i, pair)?,
    }
    Ok(())
}

// bindings overlaid by others
fn overlaid<'a>(
    arena: &'a Bump,
    under: &'a [BoundSet<'a>],
    over: &'a [BoundSet<'a>],
) -> Result<&'a [BoundSet<'a>], AllocError>
    ensures { IfOk result (λ r. map pair_of r.now
        ≡ overlaid_components (map pair_of under.now) (map pair_of over.now)) }
{
    if under.is_empty() {
        return Ok(over);
    }
    if over.is_empty() {
        return Ok(under);
    }
    let mut list = Vec::with_capacity(arena, under.len() + over.len())?;
    list.extend_from_slice(under)?;
    for i in (0..over.len()).rev() {
        put(&mut list, over[i])?;
    }
    Ok(into_bump_slice(list))
}

// the bindings, where they are few enough
fn limited<'a>(pairs: &'a [BoundSet<'a>]) -> MarkedBinds<'a>
    ensures { marked_binds_of result ≡ limited (map pair_of pairs.now) }
{
    if pairs.len() > MOST_COMPONENTS {
        MarkedBinds::Clash
    } else {
        MarkedBinds::Map(pairs)
    }
}

/// The first bindings overlaid by the second: where both have a token, the second count.
pub fn overlay<'a>(
    arena: &'a Bump,
    x: MarkedBinds<'a>,
    y: MarkedBinds<'a>,
) -> Result<MarkedBinds<'a>, AllocError>
    ensures { IfOk result (λ r. marked_binds_of r
        ≡ overlay (marked_binds_of x.entry) (marked_binds_of y.entry)) }
{
    match (x, y) {
        (MarkedBinds::Unreached, _) | (_, MarkedBinds::Unreached) => Ok(MarkedBinds::Unreached),
        (MarkedBinds::Map(xs), MarkedBinds::Map(ys)) => {
            let pairs = overlaid(arena, xs, ys)?;
            Ok(limited(pairs))
        }
        _ => Ok(MarkedBinds::Clash),
    }
}

// the union of two lists, where no token stands in both
fn united<'a>(
    arena: &'a Bump,
    xs: &'a [BoundSet<'a>],
    ys: &'a [BoundSet<'a>],
) -> Result<MarkedBinds<'a>, AllocError>
    ensures { IfOk result (λ r. marked_binds_of r
        ≡ apart (map pair_of xs.now) (map pair_of ys.now)) }
{
    if meet(xs, ys) {
        return Ok(MarkedBinds::Clash);
    }
    let pairs = overlaid(arena, xs, ys)?;
    Ok(limited(pairs))
}

/// The union of bindings, a clash where a token stands in both.
pub fn union<'a>(
    arena: &'a Bump,
    x: MarkedBinds<'a>,
    y: MarkedBinds<'a>,
) -> Result<MarkedBinds<'a>, AllocError>
    ensures { IfOk result (λ r. marked_binds_of r
        ≡ union (marked_binds_of x.entry) (marked_binds_of y.entry)) }
{
    match (x, y) {
        (MarkedBinds::Unreached, _) | (_, MarkedBinds::Unreached) => Ok(MarkedBinds::Unreached),
        (MarkedBinds::Map(xs), MarkedBinds::Map(ys)) => united(arena, xs, ys),
        _ => Ok(MarkedBinds::Clash),
    }
}
