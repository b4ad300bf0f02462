//! Ends, messages, input and units.

use crate::programs::Step::{Add, Call, Go, Load, OpenAlternative, Set, Take};
use crate::programs::{Program, REGION, Step, To, try_program};
use std::alloc::Global;
use std::process::Abort;
use std::test::Fail;

// The other arm of an alternative sends 7.
fn try_outside(
    rt: &impl Abort,
    alloc: Global,
    units: u64,
    first: &[Step],
    input: &[u8],
    sent: &[u64],
    code: u8,
) -> Result<(), Fail> {
    let program = Program {
        first,
        arm: &[Set(10, 7), Call(To::Send), Go(To::Completed)],
        handler: &[],
    };
    try_program(rt, alloc, units, program, input, sent, code)
}

#[test]
fn ends(rt: HostRuntime) -> Result<(), Fail> {
    let alloc = rt.alloc();
    try_outside(&rt, alloc, 1, &[Go(To::Completed)], b"", &[], 0)?;
    try_outside(&rt, alloc, 1, &[Go(To::Failed)], b"", &[], 1)?;
    try_outside(&rt, alloc, 1, &[Go(To::Escaped)], b"", &[], 2)?;
    try_outside(&rt, alloc, 1, &[Go(To::Full)], b"", &[], 3)
}

// The registers at the start, and the ends of 100 words of stack and of 2 units.
#[test]
fn start(rt: HostRuntime) -> Result<(), Fail> {
    let first = [
        Add(10, 3, 0),
        Call(To::Send),
        Add(10, 2, 0),
        Call(To::Send),
        Load(10, 3, 5),
        Call(To::Send),
        Load(10, 3, 6),
        Call(To::Send),
        Load(10, 3, 7),
        Call(To::Send),
        Go(To::Completed),
    ];
    let stack = REGION + 4096;
    let end = stack + 800;
    let sent = [REGION, stack, end, end, end + 32];
    try_outside(&rt, rt.alloc(), 2, &first, b"", &sent, 0)
}

// An integer is eight bytes, the lowest first.
#[test]
fn integers_of_the_input(rt: HostRuntime) -> Result<(), Fail> {
    let alloc = rt.alloc();
    let once = [Call(To::Receive), Call(To::Send), Go(To::Completed)];
    let bytes = b"\x2a\x00\x00\x00\x00\x00\x00\x00";
    try_outside(&rt, alloc, 1, &once, bytes, &[42], 0)?;
    try_outside(
        &rt,
        alloc,
        1,
        &once,
        b"\xff\xff\xff\xff\xff\xff\xff\xff",
        &[u64::MAX],
        0,
    )?;
    try_outside(
        &rt,
        alloc,
        1,
        &once,
        b"\x01\x02\x03\x04\x05\x06\x07\x88",
        &[0x8807060504030201],
        0,
    )?;
    try_outside(&rt, alloc, 1, &once, b"", &[], 1)?;
    try_outside(
        &rt,
        alloc,
        1,
        &once,
        b"\x2a\x00\x00\x00\x00\x00\x00",
        &[],
        1,
    )
}

// What is left behind the first integer is too short for a second.
#[test]
fn second_integer(rt: HostRuntime) -> Result<(), Fail> {
    let alloc = rt.alloc();
    let twice = [
        Call(To::Receive),
        Call(To::Send),
        Call(To::Receive),
        Call(To::Send),
        Go(To::Completed),
    ];
    let two = b"\x01\x00\x00\x00\x00\x00\x00\x00\x02\x00\x00\x00\x00\x00\x00\x00";
    try_outside(&rt, alloc, 1, &twice, two, &[1, 2], 0)?;
    let short = b"\x01\x00\x00\x00\x00\x00\x00\x00\x02\x00\x00\x00\x00\x00\x00";
    try_outside(&rt, alloc, 1, &twice, short, &[1], 1)
}

// A `receive` commits where it has taken an integer, and only there.
#[test]
fn commitment_by_input(rt: HostRuntime) -> Result<(), Fail> {
    let alloc = rt.alloc();
    let first = [OpenAlternative(32), Call(To::Receive), Go(To::Fail)];
    let bytes = b"\x01\x00\x00\x00\x00\x00\x00\x00";
    try_outside(&rt, alloc, 1, &first, bytes, &[], 1)?;
    try_outside(
        &rt,
        alloc,
        1,
        &first,
        b"\x01\x00\x00\x00\x00\x00\x00",
        &[7],
        0,
    )?;
    try_outside(&rt, alloc, 1, &first, b"", &[7], 0)
}

// Cells have units of their own, one behind another, until there is none.
#[test]
fn cells(rt: HostRuntime) -> Result<(), Fail> {
    let alloc = rt.alloc();
    let first = [
        Call(To::Allocate),
        Call(To::Send),
        Call(To::Allocate),
        Call(To::Send),
        Go(To::Completed),
    ];
    let unit = REGION + 4096 + 800;
    try_outside(&rt, alloc, 2, &first, b"", &[unit, unit + 16], 0)?;
    try_outside(&rt, alloc, 1, &first, b"", &[unit], 3)?;
    let unset = [
        Call(To::Allocate),
        Load(10, 10, 0),
        Call(To::Send),
        Go(To::Completed),
    ];
    try_outside(&rt, alloc, 1, &unset, b"", &[0], 0)?;
    let committed = [OpenAlternative(32), Call(To::Allocate), Go(To::Fail)];
    try_outside(&rt, alloc, 1, &committed, b"", &[], 1)
}

// Several units are taken at once, and none where some of them would pass.
#[test]
fn several_units(rt: HostRuntime) -> Result<(), Fail> {
    let alloc = rt.alloc();
    let first = [
        Take(2),
        Add(10, 8, 0),
        Call(To::Send),
        Take(1),
        Add(10, 8, 0),
        Call(To::Send),
        Go(To::Completed),
    ];
    let unit = REGION + 4096 + 800;
    try_outside(&rt, alloc, 3, &first, b"", &[unit, unit + 32], 0)?;
    try_outside(&rt, alloc, 2, &first, b"", &[unit], 3)?;
    try_outside(&rt, alloc, 1, &first, b"", &[], 3)
}
