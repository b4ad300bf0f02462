//! The order of tuples of sets, and the operations on them.
ghost use Rattle.std.specs.Prelude.{◌≡◌, ◌++◌, IfOk, map};
ghost use Rattle.sort_rules.specs.Parts.{concatenation, join, joined_components, limited};
ghost use Rattle.sort_rules.specs.Tests.{are_below, is_below};
ghost use Rattle.sort_rules.specs.Views.{place_of, marked_tuple_of};

use crate::parts::{MOST_COMPONENTS, MarkedTuple};
use crate::set::Set;
use crate::sets::{is_subset, union};
use bumpalo::Bump;
use bumpalo::collections::into_bump_slice;
use std::alloc::AllocError;

// whether there are as many sets, and each lies in that of the same place
fn are_below(xs: &[Set<'_>], ys: &[Set<'_>]) -> bool
    ensures { result ≡ are_below (map place_of xs.now) (map place_of ys.now) }
{
    if xs.len() != ys.len() {
        return false;
    }
    for i in 0..xs.len() {
        if !is_subset(xs[i], ys[i]) {
            return false;
        }
    }
    true
}

/// Whether the first tuple lies below the second.
pub fn is_below(x: MarkedTuple<'_>, y: MarkedTuple<'_>) -> bool
    ensures { result ≡ is_below (marked_tuple_of x.entry) (marked_tuple_of y.entry) }
{
    match (x, y) {
        (MarkedTuple::Unreached, _) => true,
        (MarkedTuple::List(xs), MarkedTuple::List(ys)) => are_below(xs, ys),
        (_, MarkedTuple::Clash) => true,
        _ => false,
    }
}

// each set with that of the same place
fn joined<'a>(
    arena: &'a Bump,
    xs: &'a [Set<'a>],
    ys: &'a [Set<'a>],
) -> Result<MarkedTuple<'a>, AllocError>
    ensures { IfOk result (λ r. marked_tuple_of r
        ≡ joined_components (map place_of xs.now) (map place_of ys.now)) }
{
    if xs.len() != ys.len() {
        return Ok(MarkedTuple::Clash);
    }
    let mut all = Vec::with_capacity(arena, xs.len())?;
    for i in 0..xs.len() {
        let set = union(arena, xs[i], ys[i])?;
        all.push(set)?;
    }
    Ok(MarkedTuple::List(into_bump_slice(all)))
}

/// The least tuple above both.
pub fn join<'a>(
    arena: &'a Bump,
    x: MarkedTuple<'a>,
    y: MarkedTuple<'a>,
) -> Result<MarkedTuple<'a>, AllocError>
    ensures { IfOk result (λ r. marked_tuple_of r
        ≡ join (marked_tuple_of x.entry) (marked_tuple_of y.entry)) }
{
    match (x, y) {
        (MarkedTuple::Unreached, _) => Ok(y),
        (_, MarkedTuple::Unreached) => Ok(x),
        (MarkedTuple::List(xs), MarkedTuple::List(ys)) => joined(arena, xs, ys),
        _ => Ok(MarkedTuple::Clash),
    }
}

// one list of sets behind the other
fn appended<'a>(
    arena: &'a Bump,
    xs: &'a [Set<'a>],
    ys: &'a [Set<'a>],
) -> Result<MarkedTuple<'a>, AllocError>
    ensures { IfOk result (λ r. marked_tuple_of r
        ≡ limited (map place_of xs.now ++ map place_of ys.now)) }
{
    let count = xs.len() + ys.len();
    if count > MOST_COMPONENTS {
        return Ok(MarkedTuple::Clash);
    }
    if xs.is_empty() {
        return Ok(MarkedTuple::List(ys));
    }
    if ys.is_empty() {
        return Ok(MarkedTuple::List(xs));
    }
    let mut all = Vec::with_capacity(arena, count)?;
    all.extend_from_slice(xs)?;
    all.extend_from_slice(ys)?;
    Ok(MarkedTuple::List(into_bump_slice(all)))
}

/// The tuples one after the other.
pub fn concatenation<'a>(
    arena: &'a Bump,
    x: MarkedTuple<'a>,
    y: MarkedTuple<'a>,
) -> Result<MarkedTuple<'a>, AllocError>
    ensures { IfOk result (λ r. marked_tuple_of r
        ≡ concatenation (marked_tuple_of x.entry) (marked_tuple_of y.entry)) }
{
    match (x, y) {
        (MarkedTuple::Unreached, _) | (_, MarkedTuple::Unreached) => Ok(MarkedTuple::Unreached),
        (MarkedTuple::List(xs), MarkedTuple::List(ys)) => appended(arena, xs, ys),
        _ => Ok(MarkedTuple::Clash),
    }
}
