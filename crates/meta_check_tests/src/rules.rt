//! The rules of descriptions, each broken.
use crate::texts::{SUMS, sums_with};
use crate::verdicts::{Verdict, verdict_on};
use std::alloc::Global;
use std::test::Fail;

// The verdict on the description of sums, with another text in place of one there.
fn verdict_with(alloc: Global, old: &[u8], new: &[u8]) -> Result<Verdict, Fail> {
    let text = sums_with(alloc, old, new)?;
    Ok(verdict_on(alloc, text.as_slice()))
}

#[test]
fn names_the_rule_that_an_edit_breaks(rt: HostRuntime) -> Result<(), Fail> {
    let alloc = rt.alloc();
    let edits: [(&[u8], &[u8], Verdict); 9] = [
        (
            b"numeral ]] .\nsemantics",
            b"numeral ]] .\n  P = [[ E ]] .\nsemantics",
            Verdict::Breaks(1, 2),
        ),
        (b"\"+\" E", b"\"+\" F", Verdict::Breaks(2, 1)),
        (b"  evaluate _ : E .\n", b"", Verdict::Breaks(3, 3)),
        (
            b"run _ : P .",
            b"run _ : P . run _ : P .",
            Verdict::Breaks(4, 3),
        ),
        (
            b"run [[ X:E ]]",
            b"run [[ X:E \"!\" ]]",
            Verdict::Breaks(5, 4),
        ),
        (
            b"end .",
            b"evaluate [[ N:numeral ]] = give value of N .\nend .",
            Verdict::Breaks(6, 7),
        ),
        (b"value of N", b"value of M", Verdict::Breaks(7, 6)),
        (
            b"evaluate X then send the given integer",
            b"give value of X",
            Verdict::Breaks(8, 4),
        ),
        (
            b"run _ : P .\n  evaluate _ : E .",
            b"evaluate _ : E .\n  run _ : P .",
            Verdict::Breaks(9, 2),
        ),
    ];
    for (old, new, verdict) in edits {
        assert_eq!(rt; verdict_with(alloc, old, new)?, verdict);
    }
    Ok(())
}

// The other ways to break the rules that have more than one.
#[test]
fn names_the_rule_that_another_edit_breaks(rt: HostRuntime) -> Result<(), Fail> {
    let alloc = rt.alloc();
    let edits: [(&[u8], &[u8], Verdict); 6] = [
        (b"evaluate _ : E", b"evaluate _ : F", Verdict::Breaks(2, 3)),
        (b"run [[ X:E ]]", b"run [[ X:F ]]", Verdict::Breaks(2, 4)),
        (
            b"evaluate [[ N:numeral ]]",
            b"count [[ N:numeral ]]",
            Verdict::Breaks(3, 6),
        ),
        (b"\"+\" Y:E", b"\"+\" X:E", Verdict::Breaks(7, 5)),
        (b"give value of N", b"evaluate N", Verdict::Breaks(8, 6)),
        (
            b"give value of N",
            b"bind token of N to 1",
            Verdict::Breaks(8, 6),
        ),
    ];
    for (old, new, verdict) in edits {
        assert_eq!(rt; verdict_with(alloc, old, new)?, verdict);
    }
    Ok(())
}

#[test]
fn keeps_what_meets_the_rules(rt: HostRuntime) {
    assert_eq!(rt; verdict_on(rt.alloc(), &SUMS), Verdict::Holds(2, 2, 3));
}

// Rules of names.
#[test]
fn names_a_name_that_is_there_twice_or_not(rt: HostRuntime) {
    let alloc = rt.alloc();
    let rows: [(&[u8], Verdict); 7] = [
        (
            b"grammar P = [[ ]] . P = [[ \"a\" ]] . semantics f _ : P . end .",
            Verdict::Breaks(1, 1),
        ),
        (
            b"grammar P = [[ Q ]] . semantics f _ : P . end .",
            Verdict::Breaks(2, 0),
        ),
        (
            b"grammar P = [[ ]] . semantics f _ : Q . end .",
            Verdict::Breaks(2, 1),
        ),
        (
            b"grammar P = [[ ]] . semantics f _ : P . f [[ X:Q ]] = fail . end .",
            Verdict::Breaks(2, 2),
        ),
        (
            b"grammar P = [[ ]] . semantics f _ : P . g [[ ]] = fail . end .",
            Verdict::Breaks(3, 2),
        ),
        (
            b"grammar P = [[ P ]] . semantics f _ : P . f [[ X:P ]] = g X . end .",
            Verdict::Breaks(3, 2),
        ),
        (
            b"grammar P = [[ ]] . semantics f _ : P . f _ : P . end .",
            Verdict::Breaks(4, 2),
        ),
    ];
    for (text, verdict) in rows {
        assert_eq!(rt; verdict_on(alloc, text), verdict);
    }
}

// Rules of equations.
#[test]
fn names_an_equation_that_breaks_a_rule(rt: HostRuntime) {
    let alloc = rt.alloc();
    let rows: [(&[u8], Verdict); 8] = [
        (
            b"grammar P = [[ ]] . semantics f _ : P . f [[ \"a\" ]] = fail . end .",
            Verdict::Breaks(5, 2),
        ),
        (
            b"grammar P = [[ ]] . semantics f _ : P . f [[ ]] = fail . f [[ ]] = complete . end .",
            Verdict::Breaks(6, 3),
        ),
        (
            b"grammar P = [[ P P ]] . semantics f _ : P . f [[ X:P X:P ]] = fail . end .",
            Verdict::Breaks(7, 2),
        ),
        (
            b"grammar P = [[ P ]] . semantics f _ : P . f [[ X:P ]] = f Y . end .",
            Verdict::Breaks(7, 2),
        ),
        (
            b"grammar P = [[ P ]] . semantics f _ : P . f [[ X:P ]] = give value of X . end .",
            Verdict::Breaks(8, 2),
        ),
        (
            b"grammar P = [[ numeral ]] . semantics f _ : P . f [[ X:numeral ]] = f X . end .",
            Verdict::Breaks(8, 2),
        ),
        (
            b"grammar P = [[ numeral ]] . semantics f _ : P .
f [[ X:numeral ]] = bind token of X to 1 . end .",
            Verdict::Breaks(8, 2),
        ),
        (
            b"grammar P = [[ ]] . Q = [[ ]] . semantics f _ : Q . end .",
            Verdict::Breaks(9, 2),
        ),
    ];
    for (text, verdict) in rows {
        assert_eq!(rt; verdict_on(alloc, text), verdict);
    }
}

// The least rule comes first, wherever its item stands, and then the first item.
#[test]
fn names_the_least_rule_and_then_the_first_item(rt: HostRuntime) {
    let alloc = rt.alloc();
    let rows: [(&[u8], Verdict); 4] = [
        (
            b"grammar P = [[ ]] . Q = [[ ]] . semantics f _ : Q . f [[ ]] = f X . end .",
            Verdict::Breaks(7, 3),
        ),
        (
            b"grammar P = [[ Q ]] . P = [[ R ]] . semantics f _ : P . end .",
            Verdict::Breaks(1, 1),
        ),
        (
            b"grammar P = [[ ]] . semantics f _ : P . f [[ \"a\" ]] = f X .
f [[ \"b\" ]] = f X . end .",
            Verdict::Breaks(5, 2),
        ),
        (
            b"grammar P = [[ ]] | [[ ]] . semantics f _ : P . f [[ ]] = fail .
f [[ ]] = fail . end .",
            Verdict::Breaks(6, 3),
        ),
    ];
    for (text, verdict) in rows {
        assert_eq!(rt; verdict_on(alloc, text), verdict);
    }
}
