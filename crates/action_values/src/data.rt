//! Data in an arena.
ghost use Rattle.std.specs.Prelude.{◌≡◌, ◌++◌, IfOk};

use crate::datum::Datum;
use acg_base::Memory;
use bumpalo::Bump;
use bumpalo::collections::into_bump_slice;

/// The first data, and the second ones behind them.
pub fn append<'a>(
    arena: &'a Bump,
    first: &'a [Datum<'a>],
    second: &'a [Datum<'a>],
) -> Result<&'a [Datum<'a>], Memory>
    ensures { IfOk result (λ r. r.now ≡ first.now ++ second.now) }
{
    if first.is_empty() {
        return Ok(second);
    }
    if second.is_empty() {
        return Ok(first);
    }
    let mut list = Vec::with_capacity(arena, first.len() + second.len())?;
    list.extend_from_slice(first)?;
    list.extend_from_slice(second)?;
    Ok(into_bump_slice(list))
}
