//! Alternatives, traps and commitments.

use crate::programs::Step::{
    Add, Call, CloseAlternative, CloseTrap, Commits, Go, OpenAlternative, OpenTrap, Set,
};
use crate::programs::{Program, REGION, Step, To, try_program};
use std::alloc::Global;
use std::process::Abort;
use std::test::Fail;

// The other arm sends 7, and the handler fails.
fn try_chains(
    rt: &impl Abort,
    alloc: Global,
    first: &[Step],
    sent: &[u64],
    code: u8,
) -> Result<(), Fail> {
    let program = Program {
        first,
        arm: &[Set(10, 7), Call(To::Send), Go(To::Completed)],
        handler: &[Go(To::Fail)],
    };
    try_program(rt, alloc, 1, program, b"", sent, code)
}

// Failures go to the innermost alternative that is open.
#[test]
fn failures(rt: HostRuntime) -> Result<(), Fail> {
    let alloc = rt.alloc();
    try_chains(&rt, alloc, &[Go(To::Fail)], &[], 1)?;
    try_chains(&rt, alloc, &[OpenAlternative(32), Go(To::Fail)], &[7], 0)?;
    let outer_first = [
        OpenAlternative(32),
        OpenAlternative(40),
        CloseAlternative(40),
        Go(To::Fail),
    ];
    try_chains(&rt, alloc, &outer_first, &[7], 0)?;
    let closed = [OpenAlternative(32), CloseAlternative(32), Go(To::Fail)];
    try_chains(&rt, alloc, &closed, &[], 1)?;
    let both_closed = [
        OpenAlternative(32),
        OpenAlternative(40),
        CloseAlternative(40),
        CloseAlternative(32),
        Go(To::Fail),
    ];
    try_chains(&rt, alloc, &both_closed, &[], 1)
}

// A record is found from a later frame, and the frame in which it was opened is the frame again.
#[test]
fn failure_in_a_later_frame(rt: HostRuntime) -> Result<(), Fail> {
    let program = Program {
        first: &[OpenAlternative(40), Add(2, 2, 240), Go(To::Fail)],
        arm: &[Add(10, 2, 0), Call(To::Send), Go(To::Completed)],
        handler: &[],
    };
    try_program(&rt, rt.alloc(), 1, program, b"", &[REGION + 4096], 0)
}

// A commitment closes every alternative that is open, and none that is opened behind it.
#[test]
fn commitments(rt: HostRuntime) -> Result<(), Fail> {
    let alloc = rt.alloc();
    let sends = [
        OpenAlternative(32),
        Set(10, 5),
        Call(To::Send),
        Go(To::Fail),
    ];
    try_chains(&rt, alloc, &sends, &[5], 1)?;
    let two = [
        OpenAlternative(32),
        OpenAlternative(40),
        Commits,
        Go(To::Fail),
    ];
    try_chains(&rt, alloc, &two, &[], 1)?;
    let by_entry = [
        OpenAlternative(32),
        OpenAlternative(40),
        Call(To::Commit),
        Go(To::Fail),
    ];
    try_chains(&rt, alloc, &by_entry, &[], 1)?;
    let left = [
        OpenAlternative(32),
        Commits,
        CloseAlternative(32),
        Go(To::Fail),
    ];
    try_chains(&rt, alloc, &left, &[], 1)?;
    let later = [
        OpenAlternative(32),
        Commits,
        OpenAlternative(40),
        Go(To::Fail),
    ];
    try_chains(&rt, alloc, &later, &[7], 0)
}

// An escape goes to the innermost trap, whose handler here fails.
#[test]
fn escapes(rt: HostRuntime) -> Result<(), Fail> {
    let alloc = rt.alloc();
    try_chains(&rt, alloc, &[Go(To::Escape)], &[], 2)?;
    let open = [OpenAlternative(32), OpenTrap(40), Go(To::Escape)];
    try_chains(&rt, alloc, &open, &[7], 0)?;
    let within = [OpenTrap(32), OpenAlternative(40), Go(To::Escape)];
    try_chains(&rt, alloc, &within, &[], 1)?;
    let committed = [OpenAlternative(32), OpenTrap(40), Commits, Go(To::Escape)];
    try_chains(&rt, alloc, &committed, &[], 1)?;
    let closed = [OpenTrap(32), CloseTrap(32), Go(To::Escape)];
    try_chains(&rt, alloc, &closed, &[], 2)?;
    let failed = [OpenAlternative(32), OpenTrap(40), Go(To::Fail)];
    try_chains(&rt, alloc, &failed, &[7], 0)
}

// A commitment within an inner trap is one within the outer.
#[test]
fn commitments_within_traps(rt: HostRuntime) -> Result<(), Fail> {
    let alloc = rt.alloc();
    let committed = [
        OpenAlternative(32),
        OpenTrap(40),
        OpenTrap(48),
        Commits,
        CloseTrap(48),
        Go(To::Escape),
    ];
    try_chains(&rt, alloc, &committed, &[], 1)?;
    let open = [
        OpenAlternative(32),
        OpenTrap(40),
        OpenTrap(48),
        CloseTrap(48),
        Go(To::Escape),
    ];
    try_chains(&rt, alloc, &open, &[7], 0)?;
    let before = [
        OpenAlternative(32),
        OpenTrap(40),
        Commits,
        OpenTrap(48),
        CloseTrap(48),
        Go(To::Escape),
    ];
    try_chains(&rt, alloc, &before, &[], 1)
}

// The handler finds what register 10 has, and the trap's own frame.
#[test]
fn data_of_an_escape(rt: HostRuntime) -> Result<(), Fail> {
    let program = Program {
        first: &[OpenTrap(32), Add(2, 2, 240), Set(10, 99), Go(To::Escape)],
        arm: &[],
        handler: &[
            Call(To::Send),
            Add(10, 2, 0),
            Call(To::Send),
            Go(To::Completed),
        ],
    };
    try_program(&rt, rt.alloc(), 1, program, b"", &[99, REGION + 4096], 0)
}

// Records behind the first 255 words of a frame.
#[test]
fn records_far_from_the_frame(rt: HostRuntime) -> Result<(), Fail> {
    let alloc = rt.alloc();
    let program = Program {
        first: &[OpenAlternative(256), OpenTrap(290), Go(To::Escape)],
        arm: &[Set(10, 7), Call(To::Send), Go(To::Completed)],
        handler: &[CloseAlternative(256), Go(To::Fail)],
    };
    try_program(&rt, alloc, 200, program, b"", &[], 1)
}
