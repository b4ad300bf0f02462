//! `send` of operations on integers under `act`: each operation at the ends of 64 bits, and yielders as long as an action
//! can have.

use crate::tools::answers;
use acg_base::Status;
use std::alloc::Global;
use std::process::Abort;
use std::test::Fail;

const LEAST: i64 = -9223372036854775808;

const GREATEST: i64 = 9223372036854775807;

const VALUES: [i64; 13] = [
    LEAST,
    LEAST + 1,
    -2,
    -1,
    0,
    1,
    2,
    GREATEST - 1,
    GREATEST,
    4294967296,
    -4294967296,
    3037000499,
    3037000500,
];

// Whether `act` prints the integer for the action, or that it has failed where there is none, behind the factor.
fn sends(alloc: Global, action: &str, factor: u64, value: Option<i64>) -> Result<bool, Fail> {
    let (end, status) = match value {
        Some(integer) => (format!(in alloc; "{integer}\ncompleted\n")?, Status::Done),
        None => (format!(in alloc; "failed\n")?, Status::Failed),
    };
    let printed = format!(in alloc; "stack 1048576 units 262144 factor {factor}\n{end}")?;
    answers(
        alloc,
        &["act", "a"],
        action.as_bytes(),
        b"",
        printed.as_bytes(),
        status,
    )
}

// An integer of 128 bits, where it is one of 64.
fn within(value: i128) -> Option<i64> {
    if i128::from(LEAST) <= value && value <= i128::from(GREATEST) {
        Some(value as i64)
    } else {
        None
    }
}

#[test]
fn worked_rows(rt: HostRuntime) -> Result<(), Fail> {
    let alloc = rt.alloc();
    assert!(rt;
        sends(
            alloc,
            "send product(-4294967296, 2147483648)",
            496,
            Some(LEAST)
        )?
    );
    assert!(rt; sends(alloc, "send product(3037000500, 3037000500)", 496, None)?);
    assert!(rt; sends(alloc, "send negation(-9223372036854775808)", 472, None)?);
    assert!(rt; sends(alloc, "send sum(9223372036854775807, 1)", 496, None)?);
    assert!(rt; sends(alloc, "send integer-quotient(7, 0)", 496, None)?);
    assert!(rt;
        sends(
            alloc,
            "send integer-quotient(-9223372036854775808, -1)",
            496,
            None
        )?
    );
    assert!(rt;
        sends(
            alloc,
            "send integer-remainder(-9223372036854775808, -1)",
            496,
            Some(0)
        )?
    );
    let nested = "send difference(sum(1, 2), product(negation(3), integer-quotient(-7, 2)))";
    assert!(rt; sends(alloc, nested, 664, Some(-6))?);
    Ok(())
}

// An operation on two integers yields what 128 bits give.
fn try_operation(
    rt: &impl Abort,
    alloc: Global,
    name: &str,
    x: i64,
    y: i64,
    value: Option<i64>,
) -> Result<(), Fail> {
    let action = format!(in alloc; "send {name}({x}, {y})")?;
    assert!(rt; sends(alloc, &action, 496, value)?);
    Ok(())
}

#[test]
fn operations_at_all_pairs(rt: HostRuntime) -> Result<(), Fail> {
    for x in VALUES {
        for y in VALUES {
            let wide_x = i128::from(x);
            let wide_y = i128::from(y);
            let (quotient, remainder) = if y == 0 {
                (None, None)
            } else {
                (within(wide_x / wide_y), within(wide_x % wide_y))
            };
            try_operation(&rt, rt.alloc(), "sum", x, y, within(wide_x + wide_y))?;
            try_operation(&rt, rt.alloc(), "difference", x, y, within(wide_x - wide_y))?;
            try_operation(&rt, rt.alloc(), "product", x, y, within(wide_x * wide_y))?;
            try_operation(&rt, rt.alloc(), "integer-quotient", x, y, quotient)?;
            try_operation(&rt, rt.alloc(), "integer-remainder", x, y, remainder)?;
        }
    }
    Ok(())
}

#[test]
fn negations(rt: HostRuntime) -> Result<(), Fail> {
    for x in VALUES {
        let action = format!(in rt.alloc(); "send negation({x})")?;
        assert!(rt; sends(rt.alloc(), &action, 472, within(-i128::from(x)))?);
    }
    Ok(())
}

#[test]
fn a_deep_left_operand(rt: HostRuntime) -> Result<(), Fail> {
    let mut action = String::from_str(rt.alloc(), "send ")?;
    for _sum in 0..29999 {
        action.push_str("sum(")?;
    }
    action.push_str("4096")?;
    for _sum in 0..29999 {
        action.push_str(", 4096)")?;
    }
    assert!(rt; sends(rt.alloc(), &action, 1440400, Some(122880000))?);
    Ok(())
}

#[test]
fn a_deep_right_operand(rt: HostRuntime) -> Result<(), Fail> {
    let mut action = String::from_str(rt.alloc(), "send ")?;
    for _sum in 0..29999 {
        action.push_str("sum(4096, ")?;
    }
    action.push_str("4096")?;
    for _sum in 0..29999 {
        action.push_str(")")?;
    }
    assert!(rt; sends(rt.alloc(), &action, 1440400, Some(122880000))?);
    Ok(())
}

// 32,768 numbers in a tree 15 levels high, in which 16 values stand at once, are as many as an action can have.
#[test]
fn balanced_operands(rt: HostRuntime) -> Result<(), Fail> {
    let mut yielder = String::from_str(rt.alloc(), "4096")?;
    for _level in 0..15 {
        yielder = format!(in rt.alloc(); "sum({yielder}, {yielder})")?;
    }
    let action = format!(in rt.alloc(); "send {yielder}")?;
    assert!(rt; sends(rt.alloc(), &action, 1573264, Some(134217728))?);
    Ok(())
}
