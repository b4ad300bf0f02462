//! What two parts of a node give together, and what the second of two in order is handed.
ghost use Rattle.std.specs.Prelude.{◌≡◌, Some, IfOk};
ghost use Rattle.action_terms.specs.Steps.{united, joined, handed_data, handed_binds, chained};
ghost use Rattle.action_values.specs.Values.{data_of, bindings_of};
ghost use Rattle.action_sos.specs.Views.{end_of};
ghost use Rattle.action_sos.specs.Moves.{given_of, bound_of};
ghost use Rattle.action_terms.specs.Forms.{join_viewed, chain_viewed};

use crate::ends::End;
use crate::moves::Received;
use acg_base::Memory;
use action_terms::{Chain, Join};
use action_values::bindings::{meet, overlay};
use action_values::data::append;
use action_values::{Binding, Datum};
use bumpalo::Bump;

// completed with the union of two bindings, or failed where both bind some token
fn united<'a>(
    arena: &'a Bump,
    data: &'a [Datum<'a>],
    first: &'a [Binding<'a>],
    second: &'a [Binding<'a>],
) -> Result<End<'a>, Memory>
    ensures { IfOk result (λ z. end_of z ≡ united (data_of «data».now) (bindings_of first.now) (bindings_of second.now)) }
{
    if meet(first, second) {
        return Ok(End::Failed);
    }
    let bound = overlay(arena, first, second)?;
    Ok(End::Done { data, bound })
}

/// What two completed parts give that are interleaved and joined so.
pub fn joined<'a>(
    arena: &'a Bump,
    join: Join,
    left: Received<'a>,
    right: Received<'a>,
) -> Result<End<'a>, Memory>
    ensures { IfOk result (λ z. end_of z ≡ joined (join_viewed join)
        (given_of left.entry) (bound_of left.entry)
        (given_of right.entry) (bound_of right.entry)) }
{
    let data = append(arena, left.given, right.given)?;
    match join {
        Join::Moreover => {
            let bound = overlay(arena, left.bound, right.bound)?;
            Ok(End::Done { data, bound })
        }
        Join::And => united(arena, data, left.bound, right.bound),
    }
}

/// What the second of two parts in such an order is handed: `whole` is what their node received,
/// `first` what its first part gave.
pub fn handed<'a>(
    arena: &'a Bump,
    chain: Chain,
    whole: Received<'a>,
    first: Received<'a>,
) -> Result<Received<'a>, Memory>
    ensures { IfOk result (λ r.
        (given_of r ≡ handed_data (chain_viewed chain)
        (given_of whole.entry) (given_of first.entry))
        × (bound_of r ≡ handed_binds (chain_viewed chain)
        (bound_of whole.entry) (bound_of first.entry))) }
{
    match chain {
        Chain::Then => Ok(Received {
            given: first.given,
            bound: whole.bound,
        }),
        Chain::Hence => Ok(Received {
            given: whole.given,
            bound: first.bound,
        }),
        Chain::Before => {
            let bound = overlay(arena, whole.bound, first.bound)?;
            Ok(Received {
                given: whole.given,
                bound,
            })
        }
        Chain::AndThen => Ok(whole),
    }
}

/// What two completed parts give that came one after the other in such an order.
pub fn chained<'a>(
    arena: &'a Bump,
    chain: Chain,
    first: Received<'a>,
    second: Received<'a>,
) -> Result<End<'a>, Memory>
    ensures { IfOk result (λ z. end_of z ≡ chained (chain_viewed chain)
        (given_of first.entry) (bound_of first.entry)
        (given_of second.entry) (bound_of second.entry)) }
{
    if chain == Chain::Then {
        return united(arena, second.given, first.bound, second.bound);
    }
    let data = append(arena, first.given, second.given)?;
    match chain {
        Chain::Hence => Ok(End::Done {
            data,
            bound: second.bound,
        }),
        Chain::Before => {
            let bound = overlay(arena, first.bound, second.bound)?;
            Ok(End::Done { data, bound })
        }
        _ => united(arena, data, first.bound, second.bound),
    }
}
