//! Operations on sets of data.
ghost use Rattle.std.specs.Prelude.{◌≡◌, [], false, IfOk, IsTrue};
ghost use Rattle.sort_rules.specs.Numbers.{ascends};
ghost use Rattle.sort_rules.specs.Sets.{set_union, is_empty, inside, lies_in};
ghost use Rattle.sort_rules.specs.Tests.{implies, is_subset};
ghost use Rattle.sort_rules.specs.Views.{set_of};

use crate::numbers::{is_within, merge};
use crate::set::Set;
use action_terms::Sort;
use bumpalo::Bump;
use std::alloc::AllocError;

// not the first without the second
fn implies(first: bool, second: bool) -> bool
    ensures { result ≡ implies first second }
{
    !first || second
}

/// Whether the first set lies in the second.
pub fn is_subset(x: Set<'_>, y: Set<'_>) -> bool
    ensures { result ≡ is_subset (set_of x.entry) (set_of y.entry) }
{
    implies(x.integer, y.integer)
        && implies(x.truth, y.truth)
        && is_within(x.cells, y.cells)
        && is_within(x.abstractions, y.abstractions)
}

/// The data of both sets.
pub fn union<'a>(arena: &'a Bump, x: Set<'a>, y: Set<'a>) -> Result<Set<'a>, AllocError>
    ensures { IfOk result (λ r. set_of r ≡ set_union (set_of x.entry) (set_of y.entry)) }
{
    let cells = merge(arena, x.cells, y.cells)?;
    let abstractions = merge(arena, x.abstractions, y.abstractions)?;
    Ok(Set {
        integer: x.integer || y.integer,
        truth: x.truth || y.truth,
        cells,
        abstractions,
    })
}

/// Whether nothing is in the set.
pub fn is_empty(x: Set<'_>) -> bool
    ensures { result ≡ is_empty (set_of x.entry) }
{
    !x.integer && !x.truth && x.cells.is_empty() && x.abstractions.is_empty()
}

/// The integers, the truth-values, or both.
pub fn atoms(integer: bool, truth: bool) -> Set<'static>
    ensures { set_of result ≡ record
        { integer = integer; truth = truth; cells = []; abstractions = [] } }
{
    Set {
        integer,
        truth,
        cells: &[],
        abstractions: &[],
    }
}

/// The cells of these `allocate` nodes, and the closures of these bodies.
pub fn numbered<'a>(cells: &'a [u32], abstractions: &'a [u32]) -> Set<'a>
    requires cells { IsTrue (ascends cells.now) }
    requires abstractions { IsTrue (ascends abstractions.now) }
    ensures { set_of result ≡ record
        { integer = false; truth = false; cells = cells.now; abstractions = abstractions.now } }
{
    Set {
        integer: false,
        truth: false,
        cells,
        abstractions,
    }
}

/// The data of the set that are of the sort.
pub fn inside<'a>(sort: Sort, x: Set<'a>) -> Set<'a>
    ensures { set_of result ≡ inside sort (set_of x.entry) }
{
    match sort {
        Sort::Integer => atoms(x.integer, false),
        Sort::Truth => atoms(false, x.truth),
        Sort::Cell => numbered(x.cells, &[]),
        Sort::Abstraction => numbered(&[], x.abstractions),
    }
}

/// Whether all data of the set are of the sort.
pub fn lies_in(sort: Sort, x: Set<'_>) -> bool
    ensures { result ≡ lies_in sort (set_of x.entry) }
{
    match sort {
        Sort::Integer => !x.truth && x.cells.is_empty() && x.abstractions.is_empty(),
        Sort::Truth => !x.integer && x.cells.is_empty() && x.abstractions.is_empty(),
        Sort::Cell => !x.integer && !x.truth && x.abstractions.is_empty(),
        Sort::Abstraction => !x.integer && !x.truth && x.cells.is_empty(),
    }
}
