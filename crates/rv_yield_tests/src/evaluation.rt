//! Operations on integers, by their code, and by reference code in integers of 128 bits.

use crate::programs::value_of;
use action_terms::YKind;
use std::alloc::Global;
use std::process::Abort;
use std::test::Fail;

const LEAST: i64 = -9223372036854775808;

const GREATEST: i64 = 9223372036854775807;

const VALUES: [i64; 13] = [
    LEAST,
    LEAST + 1,
    -2,
    -1,
    0,
    1,
    2,
    GREATEST - 1,
    GREATEST,
    4294967296,
    -4294967296,
    3037000499,
    3037000500,
];

// An integer of 128 bits, where it is one of 64.
fn within(value: i128) -> Option<i64> {
    if i128::from(LEAST) <= value && value <= i128::from(GREATEST) {
        Some(value as i64)
    } else {
        None
    }
}

// What an operation yields, by division and multiplication in 128 bits.
fn expected(kind: YKind, x: i64, y: i64) -> Option<i64> {
    let wide_x = i128::from(x);
    let wide_y = i128::from(y);
    match kind {
        YKind::Sum => within(wide_x + wide_y),
        YKind::Difference => within(wide_x - wide_y),
        YKind::Product => within(wide_x * wide_y),
        YKind::Quotient if y != 0 => within(wide_x / wide_y),
        YKind::Remainder if y != 0 => within(wide_x % wide_y),
        _ => None,
    }
}

// An operation on two literals, and on two products, whose values aren't known when the code is
// made.
fn try_pair(rt: &impl Abort, alloc: Global, kind: YKind, x: i64, y: i64) -> Result<(), Fail> {
    let value = expected(kind, x, y);
    let literals = [kind, YKind::Number(x), YKind::Number(y)];
    assert_eq!(rt; value_of(rt, alloc, &literals, &[], 7)?, value);
    let products = [
        kind,
        YKind::Product,
        YKind::Number(x),
        YKind::Number(1),
        YKind::Product,
        YKind::Number(1),
        YKind::Number(y),
    ];
    assert_eq!(rt; value_of(rt, alloc, &products, &[], 300)?, value);
    Ok(())
}

#[test]
fn operations_at_all_pairs(rt: HostRuntime) -> Result<(), Fail> {
    for x in VALUES {
        for y in VALUES {
            try_pair(&rt, rt.alloc(), YKind::Sum, x, y)?;
            try_pair(&rt, rt.alloc(), YKind::Difference, x, y)?;
            try_pair(&rt, rt.alloc(), YKind::Product, x, y)?;
            try_pair(&rt, rt.alloc(), YKind::Quotient, x, y)?;
            try_pair(&rt, rt.alloc(), YKind::Remainder, x, y)?;
        }
    }
    Ok(())
}

#[test]
fn negations(rt: HostRuntime) -> Result<(), Fail> {
    for x in VALUES {
        let kinds = [YKind::Negation, YKind::Number(x)];
        assert_eq!(rt;
            value_of(&rt, rt.alloc(), &kinds, &[], 0)?,
            within(-i128::from(x))
        );
    }
    Ok(())
}

// The operand that needs more registers comes first: here the second of each difference.
#[test]
fn operands_keep_their_sides(rt: HostRuntime) -> Result<(), Fail> {
    let kinds = [
        YKind::Difference,
        YKind::Number(5000),
        YKind::Difference,
        YKind::Number(70000),
        YKind::Quotient,
        YKind::Number(900000),
        YKind::Difference,
        YKind::Number(3),
        YKind::Number(10),
    ];
    // 5000 - (70000 - 900000 / (3 - 10))
    assert_eq!(rt;
        value_of(&rt, rt.alloc(), &kinds, &[], 0)?,
        Some(5000 - (70000 - -128571))
    );
    Ok(())
}

const FAR: YKind = YKind::Number(4096);

#[test]
fn a_deep_left_operand(rt: HostRuntime) -> Result<(), Fail> {
    let mut kinds = vec![in rt.alloc(); YKind::Sum; 29999]?;
    for _node in 0..30000 {
        kinds.push(FAR)?;
    }
    assert_eq!(rt;
        value_of(&rt, rt.alloc(), kinds.as_slice(), &[], 0)?,
        Some(30000 * 4096)
    );
    Ok(())
}

#[test]
fn a_deep_right_operand(rt: HostRuntime) -> Result<(), Fail> {
    let mut kinds = Vec::new(rt.alloc());
    for _node in 0..29999 {
        kinds.push(YKind::Sum)?;
        kinds.push(FAR)?;
    }
    kinds.push(FAR)?;
    assert_eq!(rt;
        value_of(&rt, rt.alloc(), kinds.as_slice(), &[], 0)?,
        Some(30000 * 4096)
    );
    Ok(())
}

// As many yielders as an action can have, and so deep that 16 values stand at once.
#[test]
fn balanced_operands(rt: HostRuntime) -> Result<(), Fail> {
    let mut kinds = Vec::new(rt.alloc());
    let mut levels = Vec::new(rt.alloc());
    levels.push(15_u32)?;
    for _node in 0..65535 {
        let level = levels.pop().ok_or("no level")?;
        if level == 0 {
            kinds.push(FAR)?;
        } else {
            kinds.push(YKind::Sum)?;
            levels.push(level - 1)?;
            levels.push(level - 1)?;
        }
    }
    assert_eq!(rt;
        value_of(&rt, rt.alloc(), kinds.as_slice(), &[], 0)?,
        Some(32768 * 4096)
    );
    Ok(())
}
