//! Integers as bytes: 8 for each, the lowest first.

ghost use Rattle.std.specs.Prelude.{◌≡◌, ◌+◌, [], ◌∷◌, length, IfOk, IfSome, IfNone};
ghost use Rattle.action_terms.specs.Performances.{records};

use acg_base::Memory;
use std::alloc::Global;

/// The first integer of the bytes, and the bytes behind it; nothing where fewer than 8 are left.
pub fn split_message(bytes: &[u8]) -> Option<(i64, &[u8])>
    ensures first { IfSome result (λ split. records bytes.now ≡ split.0 ∷ records split.1.now) }
    ensures behind { IfSome result (λ split. length bytes.now ≡ 8 + length split.1.now) }
    ensures none { IfNone result (records bytes.now ≡ []) }
{
    match bytes {
        [b0, b1, b2, b3, b4, b5, b6, b7, behind @ ..] => {
            let message = i64::from_le_bytes([*b0, *b1, *b2, *b3, *b4, *b5, *b6, *b7]);
            Some((message, behind))
        }
        _ => None,
    }
}

/// The integers of the bytes. Fewer than 8 bytes at the end have none.
pub fn integers(alloc: Global, bytes: &[u8]) -> Result<Vec<i64>, Memory>
    ensures { IfOk result (λ list. list.items ≡ records bytes.now) }
{
    let mut list = Vec::new(alloc);
    let mut rest = bytes;
    while let Some((integer, behind)) = split_message(rest) {
        list.push(integer)?;
        rest = behind;
    }
    Ok(list)
}
