//! How many instructions small programs take, against counts by hand.

use crate::tools::{STACK, action, action_of, code_of, graph_of, yielder};
use acg_base::ListSink;
use action_terms::pushed::Pushed;
use action_terms::{Kind, Sort, YKind};
use bumpalo::Bump;
use rv_machine::{Image, Input, Machine, Run, Segment};
use std::alloc::Global;
use std::process::Abort;
use std::test::Fail;

/// What comes before the root.
const TO_ROOT: u64 = 19;

/// A send of the integer in register 10: the address to return to, the jump to the entry, and the entry.
const SENDING: u64 = 2 + 2 + 10;

/// The end of what has completed: the way to the exit, and the exit, but for its call, which doesn't return.
const COMPLETED: u64 = 2 + 2;

/// The end of what has failed: the entry finds no open alternative, which is a branch that is taken, and the exit.
const FAILED: u64 = 1 + 3 + 2;

fn given(place: u32) -> Pushed<'static> {
    yielder(YKind::Given {
        sort: Sort::Integer,
        place,
    })
}

// The image of code, in a region for the stack and one unit.
fn image_of(rt: &impl Abort, alloc: Global, words: &[u32]) -> Result<Image, Fail> {
    let mut bytes = Vec::new(alloc);
    for word in words {
        bytes.extend_from_slice(&word.to_le_bytes())?;
    }
    let size = bytes.len() as u64;
    assert!(rt; size <= 4096);
    let mut segments = Vec::new(alloc);
    segments.push(Segment {
        address: 65536,
        flags: 1,
        bytes,
        size,
    })?;
    segments.push(Segment {
        address: 69632,
        flags: 6,
        bytes: Vec::new(alloc),
        size: 4096 + 8 * STACK + 16,
    })?;
    Ok(Image {
        entry: 65536,
        segments,
    })
}

// Whether the action of these nodes exits with the code, after these messages, and how many instructions it takes.
fn instructions(
    rt: &impl Abort,
    alloc: Global,
    nodes: &[Pushed<'_>],
    code: u8,
    messages: &[i64],
) -> Result<u64, Fail> {
    let arena = Bump::new(alloc);
    let graph = graph_of(rt, alloc, &arena, nodes)?;
    let words = code_of(rt, alloc, &arena, &graph)?.words;
    let image = image_of(rt, alloc, words.as_slice())?;
    let mut machine = Machine::load(alloc, image).ok().ok_or("memory")?;
    let mut input = Input { bytes: b"", at: 0 };
    let mut sink = ListSink::new(alloc, 64, Vec::new(alloc))
        .ok()
        .ok_or("memory")?;
    assert_eq!(rt;
        machine.run(1000, &mut input, &mut sink),
        Run::Exited { code }
    );
    let mut wanted = Vec::new(alloc);
    for message in messages {
        wanted.extend_from_slice(&message.to_le_bytes())?;
    }
    assert_eq!(rt; sink.bytes(), wanted.as_slice());
    Ok(machine.taken())
}

// send 1 and then (send 2 and then send 3): a number takes one, and nothing is done between the sends:
// 19 + 45 + 4 = 68
#[test]
fn instructions_of_three_sends(rt: HostRuntime) -> Result<(), Fail> {
    let nodes = [
        action(Kind::AndThen),
        action(Kind::Send),
        yielder(YKind::Number(1)),
        action(Kind::AndThen),
        action(Kind::Send),
        yielder(YKind::Number(2)),
        action(Kind::Send),
        yielder(YKind::Number(3)),
    ];
    assert_eq!(rt;
        instructions(&rt, rt.alloc(), &nodes, 0, &[1, 2, 3])?,
        TO_ROOT + 3 * (1 + SENDING) + COMPLETED
    );
    Ok(())
}

// (give 1 and give 2) then send sum(the given integer # 1, the given integer # 2): a datum that is given takes
// one for the number and one for its word. Each is read by one, and a sum takes three and the branch for what doesn't
// fit, which isn't taken: 19 + 4 + 6 + 14 + 4 = 47
#[test]
fn instructions_of_a_sum_of_what_is_given(rt: HostRuntime) -> Result<(), Fail> {
    let nodes = [
        action(Kind::Then),
        action(Kind::And),
        action_of(Kind::Give, 1),
        yielder(YKind::Number(1)),
        action_of(Kind::Give, 1),
        yielder(YKind::Number(2)),
        action(Kind::Send),
        yielder(YKind::Sum),
        given(1),
        given(2),
    ];
    assert_eq!(rt;
        instructions(&rt, rt.alloc(), &nodes, 0, &[3])?,
        TO_ROOT + 2 * (1 + 1) + (2 + 4) + SENDING + COMPLETED
    );
    Ok(())
}

// give (1, 2) then (give (them, 3) then send difference(the given integer # 2, the given integer # 3)): of `them` a word
// takes two, and a difference as many as a sum: 19 + 4 + 6 + 6 + 14 + 4 = 53
#[test]
fn instructions_of_data_handed_on(rt: HostRuntime) -> Result<(), Fail> {
    let nodes = [
        action(Kind::Then),
        action_of(Kind::Give, 2),
        yielder(YKind::Number(1)),
        yielder(YKind::Number(2)),
        action(Kind::Then),
        action_of(Kind::Give, 2),
        yielder(YKind::Them),
        yielder(YKind::Number(3)),
        action(Kind::Send),
        yielder(YKind::Difference),
        given(2),
        given(3),
    ];
    assert_eq!(rt;
        instructions(&rt, rt.alloc(), &nodes, 0, &[-1])?,
        TO_ROOT + 2 * (1 + 1) + (2 * 2 + (1 + 1)) + (2 + 4) + SENDING + COMPLETED
    );
    Ok(())
}

// check is less than(1, 2) and then send 1: a comparison is a branch, which isn't taken: 19 + 3 + 15 + 4 = 41
#[test]
fn instructions_of_a_check(rt: HostRuntime) -> Result<(), Fail> {
    let nodes = [
        action(Kind::AndThen),
        action(Kind::Check),
        yielder(YKind::Less),
        yielder(YKind::Number(1)),
        yielder(YKind::Number(2)),
        action(Kind::Send),
        yielder(YKind::Number(1)),
    ];
    assert_eq!(rt;
        instructions(&rt, rt.alloc(), &nodes, 0, &[1])?,
        TO_ROOT + (2 + 1) + (1 + SENDING) + COMPLETED
    );
    Ok(())
}

// check is(1, 2) and then send 1: the branch is taken, which takes three, to the entry for failures:
// 19 + 5 + 6 = 30
#[test]
fn instructions_of_a_check_that_fails(rt: HostRuntime) -> Result<(), Fail> {
    let nodes = [
        action(Kind::AndThen),
        action(Kind::Check),
        yielder(YKind::Is),
        yielder(YKind::Number(1)),
        yielder(YKind::Number(2)),
        action(Kind::Send),
        yielder(YKind::Number(1)),
    ];
    assert_eq!(rt;
        instructions(&rt, rt.alloc(), &nodes, 1, &[])?,
        TO_ROOT + (2 + 3) + FAILED
    );
    Ok(())
}

/// A call without data: where the new frame begins and ends, two each; the end of the stack; the branch to `full`, which
/// isn't taken; the address to return to; the frame's first two words; the address of what is given; the frame; the jump
/// to the body.
const CALL: u64 = 2 + 2 + 1 + 1 + 2 + 2 + 1 + 1 + 2;

/// The end of its body: the way to the way back, the way back, and behind the call the address of what was left and the
/// caller's frame.
const RETURN: u64 = 2 + 2 + (1 + 1);

// unfolding send 1: the way to the exit is a jump over the body, 19 + 14 + 15 + 6 + 2 + 4 = 60
#[test]
fn instructions_of_a_call(rt: HostRuntime) -> Result<(), Fail> {
    let nodes = [
        action(Kind::Unfolding),
        action(Kind::Send),
        yielder(YKind::Number(1)),
    ];
    assert_eq!(rt;
        instructions(&rt, rt.alloc(), &nodes, 0, &[1])?,
        TO_ROOT + CALL + (1 + SENDING) + RETURN + 2 + COMPLETED
    );
    Ok(())
}

// (give (1, 2) then unfolding regive) then send sum(the given integer # 1, the given integer # 2): of what is given, of
// what `regive` gives and of what comes back a word takes two: 19 + 4 + (14 + 4) + 4 + (6 + 4) + 2 + 6 + 14 + 4 = 81
#[test]
fn instructions_of_a_call_with_data(rt: HostRuntime) -> Result<(), Fail> {
    let nodes = [
        action(Kind::Then),
        action(Kind::Then),
        action_of(Kind::Give, 2),
        yielder(YKind::Number(1)),
        yielder(YKind::Number(2)),
        action(Kind::Unfolding),
        action(Kind::Regive),
        action(Kind::Send),
        yielder(YKind::Sum),
        given(1),
        given(2),
    ];
    assert_eq!(rt;
        instructions(&rt, rt.alloc(), &nodes, 0, &[3])?,
        TO_ROOT
            + 2 * (1 + 1)
            + (CALL + 2 * 2)
            + 2 * 2
            + (RETURN + 2 * 2)
            + 2
            + (2 + 4)
            + SENDING
            + COMPLETED
    );
    Ok(())
}
