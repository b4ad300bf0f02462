//! Operations on tuples and bindings of sets, on small parts.
use bumpalo::Bump;
use sort_rules::parts::{MarkedBinds, MarkedTuple};
use sort_rules::set::Set;
use sort_rules::sets::{atoms, numbered};
use sort_rules::{maps, tuples};
use std::test::Fail;

#[test]
fn tuples_one_after_the_other(rt: HostRuntime) -> Result<(), Fail> {
    let arena = Bump::new(rt.alloc());
    let one: [Set<'_>; 1] = [atoms(true, false)];
    let two: [Set<'_>; 2] = [atoms(false, true), numbered(&[3], &[])];
    let all: [Set<'_>; 3] = [atoms(true, false), atoms(false, true), numbered(&[3], &[])];
    let joined = tuples::concatenation(&arena, MarkedTuple::List(&one), MarkedTuple::List(&two))?;
    assert_eq!(rt; joined, MarkedTuple::List(&all));
    let none = tuples::concatenation(&arena, MarkedTuple::Clash, MarkedTuple::Unreached)?;
    assert_eq!(rt; none, MarkedTuple::Unreached);
    Ok(())
}

#[test]
fn joins_are_above_both(rt: HostRuntime) -> Result<(), Fail> {
    let arena = Bump::new(rt.alloc());
    let first: [Set<'_>; 1] = [numbered(&[1, 4], &[])];
    let second: [Set<'_>; 1] = [numbered(&[2, 4], &[7])];
    let both: [Set<'_>; 1] = [numbered(&[1, 2, 4], &[7])];
    let x = MarkedTuple::List(&first);
    let y = MarkedTuple::List(&second);
    let z = tuples::join(&arena, x, y)?;
    assert_eq!(rt; z, MarkedTuple::List(&both));
    assert!(rt; tuples::is_below(x, z));
    assert!(rt; !tuples::is_below(z, x));
    assert!(rt; tuples::is_below(z, MarkedTuple::Clash));
    let other = tuples::join(&arena, x, MarkedTuple::List(&[]))?;
    assert_eq!(rt; other, MarkedTuple::Clash);
    Ok(())
}

#[test]
fn bindings_meet_or_overlay(rt: HostRuntime) -> Result<(), Fail> {
    let arena = Bump::new(rt.alloc());
    let integer = atoms(true, false);
    let truth = atoms(false, true);
    let under: [(&[u8], Set<'_>); 2] = [(b"f", truth), (b"x", truth)];
    let over: [(&[u8], Set<'_>); 1] = [(b"x", integer)];
    let both: [(&[u8], Set<'_>); 2] = [(b"f", truth), (b"x", integer)];
    let x = MarkedBinds::Map(&under);
    let y = MarkedBinds::Map(&over);
    assert_eq!(rt; maps::overlay(&arena, x, y)?, MarkedBinds::Map(&both));
    assert_eq!(rt; maps::union(&arena, x, y)?, MarkedBinds::Clash);
    assert_eq!(rt; maps::join(&arena, x, y)?, MarkedBinds::Clash);
    assert_eq!(rt; maps::union(&arena, y, MarkedBinds::Map(&[]))?, y);
    assert!(rt; !maps::is_below(x, y));
    Ok(())
}
