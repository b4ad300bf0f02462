//! Yielders that look up what is given, truth-values, and conditions, by their code.

use crate::programs::{Placed, truth_of, value_of};
use action_terms::{Sort, YKind};
use std::alloc::Global;
use std::process::Abort;
use std::test::Fail;

const LEAST: i64 = -9223372036854775808;

const GREATEST: i64 = 9223372036854775807;

const VALUES: [i64; 5] = [LEAST, -1, 0, 1, GREATEST];

// The datum of a place, from 1, or the only one, by place 0.
fn given(sort: Sort, place: u32) -> YKind {
    YKind::Given { sort, place }
}

#[test]
fn what_is_given(rt: HostRuntime) -> Result<(), Fail> {
    let near: [Placed; 3] = [(5, -7), (6, 8), (700, GREATEST)];
    let first = [given(Sort::Integer, 1)];
    let second = [given(Sort::Integer, 2)];
    let third = [given(Sort::Integer, 3)];
    let fourth = [given(Sort::Integer, 4)];
    let only = [given(Sort::Integer, 0)];
    assert_eq!(rt; value_of(&rt, rt.alloc(), &first, &near, 9)?, Some(-7));
    assert_eq!(rt; value_of(&rt, rt.alloc(), &second, &near, 900)?, Some(8));
    assert_eq!(rt;
        value_of(&rt, rt.alloc(), &third, &near, 9)?,
        Some(GREATEST)
    );
    assert_eq!(rt; value_of(&rt, rt.alloc(), &fourth, &near, 9)?, None);
    assert_eq!(rt; value_of(&rt, rt.alloc(), &only, &near, 9)?, None);
    assert_eq!(rt;
        value_of(&rt, rt.alloc(), &only, &near[2..], 9)?,
        Some(GREATEST)
    );
    assert_eq!(rt; value_of(&rt, rt.alloc(), &only, &[], 9)?, None);
    Ok(())
}

// The datum of place 1 is looked up while a value stands in a register, and far from the frame.
#[test]
fn given_operands(rt: HostRuntime) -> Result<(), Fail> {
    let data: [Placed; 2] = [(300, 40), (2, 2)];
    let kinds = [
        YKind::Difference,
        given(Sort::Integer, 2),
        YKind::Product,
        YKind::Number(100000),
        YKind::Sum,
        given(Sort::Integer, 1),
        YKind::Number(1),
    ];
    // 2 - 100000 * (40 + 1)
    assert_eq!(rt;
        value_of(&rt, rt.alloc(), &kinds, &data, 3)?,
        Some(-4099998)
    );
    Ok(())
}

// A truth-value by its word.
fn word_of(value: bool) -> i64 {
    i64::from(value)
}

// An operation on two given data whose words are these: its value, and where it leads, also under
// a negation.
fn try_truth(
    rt: &impl Abort,
    alloc: Global,
    kinds: [YKind; 3],
    words: (i64, i64),
    expected: bool,
) -> Result<(), Fail> {
    let data: [Placed; 2] = [(1, words.0), (400, words.1)];
    let [operation, first, second] = kinds;
    let negated = [YKind::Not, operation, first, second];
    let twice = [YKind::Not, YKind::Not, operation, first, second];
    assert_eq!(rt;
        value_of(rt, alloc, &kinds, &data, 2)?,
        Some(word_of(expected))
    );
    assert_eq!(rt;
        value_of(rt, alloc, &negated, &data, 2)?,
        Some(word_of(!expected))
    );
    assert_eq!(rt; truth_of(rt, alloc, &kinds, &data)?, Some(expected));
    assert_eq!(rt; truth_of(rt, alloc, &negated, &data)?, Some(!expected));
    assert_eq!(rt; truth_of(rt, alloc, &twice, &data)?, Some(expected));
    Ok(())
}

#[test]
fn comparisons_of_integers(rt: HostRuntime) -> Result<(), Fail> {
    let first = given(Sort::Integer, 1);
    let second = given(Sort::Integer, 2);
    for x in VALUES {
        for y in VALUES {
            try_truth(&rt, rt.alloc(), [YKind::Is, first, second], (x, y), x == y)?;
            try_truth(&rt, rt.alloc(), [YKind::Less, first, second], (x, y), x < y)?;
            try_truth(&rt, rt.alloc(), [YKind::Less, second, first], (x, y), y < x)?;
        }
    }
    Ok(())
}

#[test]
fn operations_on_truth_values(rt: HostRuntime) -> Result<(), Fail> {
    let first = given(Sort::Truth, 1);
    let second = given(Sort::Truth, 2);
    for x in [false, true] {
        for y in [false, true] {
            let words = (word_of(x), word_of(y));
            try_truth(&rt, rt.alloc(), [YKind::Is, first, second], words, x == y)?;
            try_truth(&rt, rt.alloc(), [YKind::Both, first, second], words, x && y)?;
            try_truth(
                &rt,
                rt.alloc(),
                [YKind::Either, first, second],
                words,
                x || y,
            )?;
        }
    }
    Ok(())
}

#[test]
fn conditions(rt: HostRuntime) -> Result<(), Fail> {
    let yes = [YKind::Truth(true)];
    let no = [YKind::Truth(false)];
    let not_yes = [YKind::Not, YKind::Truth(true)];
    assert_eq!(rt; truth_of(&rt, rt.alloc(), &yes, &[])?, Some(true));
    assert_eq!(rt; truth_of(&rt, rt.alloc(), &no, &[])?, Some(false));
    assert_eq!(rt; truth_of(&rt, rt.alloc(), &not_yes, &[])?, Some(false));
    assert_eq!(rt; value_of(&rt, rt.alloc(), &yes, &[], 1)?, Some(1));
    assert_eq!(rt; value_of(&rt, rt.alloc(), &no, &[], 1)?, Some(0));
    Ok(())
}

// The second operand needs more registers, or yields nothing.
#[test]
fn operands_of_conditions(rt: HostRuntime) -> Result<(), Fail> {
    let later = [
        YKind::Less,
        YKind::Number(5000),
        YKind::Product,
        YKind::Number(5000),
        YKind::Number(5000),
    ];
    let nothing = [
        YKind::Is,
        YKind::Number(1),
        YKind::Quotient,
        YKind::Number(1),
        YKind::Number(0),
    ];
    assert_eq!(rt; truth_of(&rt, rt.alloc(), &later, &[])?, Some(true));
    assert_eq!(rt; truth_of(&rt, rt.alloc(), &nothing, &[])?, None);
    Ok(())
}
