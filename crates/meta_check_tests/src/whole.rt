//! Whole descriptions, and those that are cut off.
use crate::imp::IMP;
use crate::texts::{SUMS, sums_with};
use crate::verdicts::{Verdict, verdict_on};
use std::test::Fail;

#[test]
fn an_imperative_language_meets_the_rules(rt: HostRuntime) {
    assert_eq!(rt; verdict_on(rt.alloc(), &IMP), Verdict::Holds(9, 9, 25));
}

#[test]
fn what_is_cut_off_is_no_description(rt: HostRuntime) {
    let alloc = rt.alloc();
    let (whole, _) = SUMS.split_at(341);
    assert_eq!(rt; verdict_on(alloc, whole), Verdict::Holds(2, 2, 3));
    for end in 0..341 {
        let (front, _) = SUMS.split_at(end);
        let refused = matches!(verdict_on(alloc, front), Verdict::Byte(_) | Verdict::Run(_));
        assert!(rt; refused);
    }
}

#[test]
fn bytes_and_runs_come_before_rules(rt: HostRuntime) -> Result<(), Fail> {
    let alloc = rt.alloc();
    let (unfinished, _) = SUMS.split_at(340);
    assert_eq!(rt; verdict_on(alloc, unfinished), Verdict::Run(7));
    let marked = sums_with(alloc, b"grammar", b"?grammar")?;
    assert_eq!(rt; verdict_on(alloc, marked.as_slice()), Verdict::Byte(0));
    Ok(())
}
