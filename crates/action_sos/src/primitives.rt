//! The steps of primitives, from what their operands yield.
ghost use Rattle.std.specs.Prelude.{◌≡◌, ◌∷◌, [], IfOk, option_map};
ghost use Rattle.action_terms.specs.Acting.{Done, Esc, Ended};
ghost use Rattle.action_terms.specs.Information.{NoBinds, CellOf};
ghost use Rattle.action_terms.specs.Steps.{Allocates, Commits, silent, with_effect, failed, done, ends_with, checked, bound, sent, put, received};
ghost use Rattle.action_values.specs.Values.{meant, data_of, bindings_of};
ghost use Rattle.action_sos.specs.Moves.{next_tree};
ghost use Rattle.action_sos.specs.Running.{Does};

use crate::ends::End;
use crate::moves::{Change, Move, Next};
use acg_base::Memory;
use action_values::{Binding, Datum};
use bumpalo::Bump;

/// A move that does nothing beside the tree.
pub fn silent<'a>(next: Next<'a>) -> Move<'a>
    ensures { Does result (silent (next_tree next.entry)) }
{
    Move {
        change: Change::Silent,
        next,
    }
}

/// The node completes with these data and bindings.
pub fn completes<'a>(given: &'a [Datum<'a>], bound: &'a [Binding<'a>]) -> Next<'a>
    ensures { next_tree result ≡ Ended (Done (data_of given.now) (bindings_of bound.now)) }
{
    Next::Ended(End::Done { data: given, bound })
}

/// The node escapes with these data.
pub fn escapes<'a>(given: &'a [Datum<'a>]) -> Next<'a>
    ensures { next_tree result ≡ Ended (Esc (data_of given.now)) }
{
    Next::Ended(End::Escaped { data: given })
}

/// The node fails.
pub fn fails<'a>() -> Next<'a>
    ensures { next_tree result ≡ failed }
{
    Next::Ended(End::Failed)
}

/// `commit`.
pub fn commits<'a>() -> Move<'a>
    ensures { Does result (with_effect Commits done) }
{
    Move {
        change: Change::Commits,
        next: completes(&[], &[]),
    }
}

/// `give`, of what its data yield.
pub fn gives<'a>(given: Option<&'a [Datum<'a>]>) -> Next<'a>
    ensures { next_tree result ≡ ends_with (λ d. Done d NoBinds) (option_map (λ d. data_of d.now) given.entry) }
{
    match given {
        Some(given) => completes(given, &[]),
        None => fails(),
    }
}

/// `escape with`, of what its data yield.
pub fn escapes_with<'a>(given: Option<&'a [Datum<'a>]>) -> Next<'a>
    ensures { next_tree result ≡ ends_with Esc (option_map (λ d. data_of d.now) given.entry) }
{
    match given {
        Some(given) => escapes(given),
        None => fails(),
    }
}

/// `check`, of what its operand yields.
pub fn checks<'a>(datum: Option<Datum<'_>>) -> Next<'a>
    ensures { next_tree result ≡ checked (option_map meant datum.entry) }
{
    match datum {
        Some(Datum::Truth(true)) => completes(&[], &[]),
        _ => fails(),
    }
}

/// `bind`, of what its operand yields.
pub fn binds<'a>(
    arena: &'a Bump,
    token: &'a [u8],
    datum: Option<Datum<'a>>,
) -> Result<Next<'a>, Memory>
    ensures { IfOk result (λ next. next_tree next ≡ bound token.now (option_map meant datum.entry)) }
{
    match datum {
        Some(datum) => {
            let bound = arena.try_alloc_slice_copy(&[Binding { token, datum }])?;
            Ok(completes(&[], bound))
        }
        None => Ok(fails()),
    }
}

/// `store`, of what its two operands yield.
pub fn stores<'a>(datum: Option<Datum<'a>>, cell: Option<Datum<'_>>) -> Move<'a>
    ensures { Does result (put (option_map meant datum.entry) (option_map meant cell.entry)) }
{
    match (datum, cell) {
        (Some(datum), Some(Datum::Cell(cell))) => Move {
            change: Change::Puts { cell, datum },
            next: completes(&[], &[]),
        },
        _ => silent(fails()),
    }
}

/// `send`, of what its operand yields.
pub fn sends<'a>(datum: Option<Datum<'_>>) -> Move<'a>
    ensures { Does result (sent (option_map meant datum.entry)) }
{
    match datum {
        Some(Datum::Number(number)) => Move {
            change: Change::Sends(number),
            next: completes(&[], &[]),
        },
        _ => silent(fails()),
    }
}

// the node completes with one datum and no bindings
fn gives_one<'a>(arena: &'a Bump, datum: Datum<'a>) -> Result<Next<'a>, Memory>
    ensures { IfOk result (λ next. next_tree next ≡ Ended (Done (meant datum.entry ∷ []) NoBinds)) }
{
    let given = arena.try_alloc_slice_copy(&[datum])?;
    Ok(completes(given, &[]))
}

/// `receive`, of the integers that are left.
pub fn receives<'a>(arena: &'a Bump, input: &[i64]) -> Result<Move<'a>, Memory>
    ensures { IfOk result (λ m. Does m (received input.now)) }
{
    match input.first() {
        Some(number) => Ok(Move {
            change: Change::Takes,
            next: gives_one(arena, Datum::Number(*number))?,
        }),
        None => Ok(Move {
            change: Change::Misses,
            next: fails(),
        }),
    }
}

/// `allocate`, after so many cells.
pub fn allocates<'a>(arena: &'a Bump, cells: usize) -> Result<Move<'a>, Memory>
    ensures { IfOk result (λ m. Does m (with_effect Allocates (Ended (Done (CellOf cells ∷ []) NoBinds)))) }
{
    Ok(Move {
        change: Change::Allocates,
        next: gives_one(arena, Datum::Cell(cells))?,
    })
}

#[cfg(test)]
mod tests {
    use super::{allocates, binds, receives};
    use crate::moves::Change;
    use action_values::Datum;
    use bumpalo::Bump;
    use std::test::Fail;

    #[test]
    fn primitives_that_place_data_succeed(rt: HostRuntime) -> Result<(), Fail> {
        let arena = Bump::new(rt.alloc());
        let taken = receives(&arena, &[5])?;
        assert!(rt; matches!(taken.change, Change::Takes));
        let cell = allocates(&arena, 0)?;
        assert!(rt; matches!(cell.change, Change::Allocates));
        let _bound = binds(&arena, b"x", Some(Datum::Number(1)))?;
        Ok(())
    }
}
