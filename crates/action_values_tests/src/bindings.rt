//! Bindings laid over others.

use action_values::bindings::{bind, lookup, meet, overlay};
use action_values::{Binding, Datum};
use bumpalo::Bump;
use std::test::Fail;

fn bound_number(bound: &[Binding<'_>], token: &[u8]) -> Option<i64> {
    match lookup(bound, token) {
        Some(Datum::Number(n)) => Some(n),
        _ => None,
    }
}

#[test]
fn the_bindings_above_count(rt: HostRuntime) -> Result<(), Fail> {
    let arena = Bump::new(rt.alloc());
    let under = bind(&arena, b"x", Datum::Number(1), &[])?;
    let under = bind(&arena, b"f", Datum::Number(2), under)?;
    let over = bind(&arena, b"x", Datum::Number(3), &[])?;
    let over = bind(&arena, b"xy", Datum::Number(4), over)?;
    let both = overlay(&arena, under, over)?;
    assert_eq!(rt; both.len(), 3);
    assert_eq!(rt; bound_number(both, b"f"), Some(2));
    assert_eq!(rt; bound_number(both, b"x"), Some(3));
    assert_eq!(rt; bound_number(both, b"xy"), Some(4));
    assert_eq!(rt; bound_number(both, b"a"), None);
    assert!(rt; meet(under, over));
    assert!(rt; !meet(under, &[]));
    Ok(())
}
