//! Cells and the input, through the machine: what runs exit with, and what they send.

use crate::tools::{STACK, action, code_for, graph_of, yielder};
use acg_base::{Capacity, ListSink};
use action_terms::pushed::Pushed;
use action_terms::{Kind, Sort, YKind};
use bumpalo::Bump;
use rv_machine::{Image, Input, Machine, Run, Segment};
use std::alloc::Global;
use std::process::Abort;
use std::test::Fail;

/// The exit codes of runs that completed, failed, and passed the capacity.
const COMPLETED: u8 = 0;

const FAILED: u8 = 1;

const FULL: u8 = 3;

// The n-th of what is given, from 1, or the only datum for 0.
fn given(sort: Sort, place: u32) -> Pushed<'static> {
    yielder(YKind::Given { sort, place })
}

// The image of code, in a region for the stack and so many units.
fn image_of(rt: &impl Abort, alloc: Global, words: &[u32], units: u64) -> Result<Image, Fail> {
    let mut bytes = Vec::new(alloc);
    for word in words {
        bytes.extend_from_slice(&word.to_le_bytes())?;
    }
    let size = bytes.len() as u64;
    assert!(rt; size <= 4096);
    assert!(rt; units <= 65536);
    let mut segments = Vec::new(alloc);
    segments.push(Segment {
        address: 65536,
        flags: 1,
        bytes,
        size,
    })?;
    segments.push(Segment {
        address: 69632,
        flags: 6,
        bytes: Vec::new(alloc),
        size: 4096 + 8 * STACK + 16 * units,
    })?;
    Ok(Image {
        entry: 65536,
        segments,
    })
}

// Whether the action of these nodes, with so many units, on an input, exits with a code after these messages.
fn exits(
    rt: &impl Abort,
    alloc: Global,
    nodes: &[Pushed<'_>],
    units: u64,
    bytes: &[u8],
    code: u8,
    messages: &[i64],
) -> Result<(), Fail> {
    let arena = Bump::new(alloc);
    let graph = graph_of(rt, alloc, &arena, nodes)?;
    let capacity = Capacity {
        stack: STACK,
        units,
    };
    let words = code_for(rt, alloc, &arena, &graph, capacity)?.words;
    let image = image_of(rt, alloc, words.as_slice(), units)?;
    let mut machine = Machine::load(alloc, image).ok().ok_or("memory")?;
    let mut input = Input { bytes, at: 0 };
    let mut sink = ListSink::new(alloc, 64, Vec::new(alloc))
        .ok()
        .ok_or("memory")?;
    assert_eq!(rt;
        machine.run(1000, &mut input, &mut sink),
        Run::Exited { code }
    );
    let mut wanted = Vec::new(alloc);
    for message in messages {
        wanted.extend_from_slice(&message.to_le_bytes())?;
    }
    assert_eq!(rt; sink.bytes(), wanted.as_slice());
    Ok(())
}

// receive an integer then send the given integer
fn echo() -> [Pushed<'static>; 4] {
    [
        action(Kind::Then),
        action(Kind::Receive),
        action(Kind::Send),
        given(Sort::Integer, 0),
    ]
}

#[test]
fn an_integer_is_received(rt: HostRuntime) -> Result<(), Fail> {
    let alloc = rt.alloc();
    let nodes = echo();
    let bytes = [42, 0, 0, 0, 0, 0, 0, 0];
    exits(&rt, alloc, &nodes, 1, &bytes, COMPLETED, &[42])?;
    // all eight bytes count, and a ninth isn't read
    let low = (i64::MIN + 5).to_le_bytes();
    exits(&rt, alloc, &nodes, 1, &low, COMPLETED, &[i64::MIN + 5])?;
    let nine = [1, 0, 0, 0, 1, 0, 0, 0, 9];
    exits(&rt, alloc, &nodes, 1, &nine, COMPLETED, &[4294967297])
}

#[test]
fn no_whole_integer_is_left(rt: HostRuntime) -> Result<(), Fail> {
    let alloc = rt.alloc();
    let nodes = echo();
    exits(&rt, alloc, &nodes, 1, b"", FAILED, &[])?;
    exits(&rt, alloc, &nodes, 1, &[42, 0, 0, 0, 0, 0, 0], FAILED, &[])
}

// (receive an integer and then receive an integer) then send difference(the given integer # 1, the given integer # 2)
#[test]
fn integers_in_their_order(rt: HostRuntime) -> Result<(), Fail> {
    let nodes = [
        action(Kind::Then),
        action(Kind::AndThen),
        action(Kind::Receive),
        action(Kind::Receive),
        action(Kind::Send),
        yielder(YKind::Difference),
        given(Sort::Integer, 1),
        given(Sort::Integer, 2),
    ];
    let bytes = [9, 0, 0, 0, 0, 0, 0, 0, 2, 0, 0, 0, 0, 0, 0, 0];
    exits(&rt, rt.alloc(), &nodes, 1, &bytes, COMPLETED, &[7])
}

// (receive an integer then check false) or send 2: an integer that was received commits, and the end of the input
// doesn't
#[test]
fn only_an_integer_commits(rt: HostRuntime) -> Result<(), Fail> {
    let alloc = rt.alloc();
    let nodes = [
        action(Kind::Or),
        action(Kind::Then),
        action(Kind::Receive),
        action(Kind::Check),
        yielder(YKind::Truth(false)),
        action(Kind::Send),
        yielder(YKind::Number(2)),
    ];
    let bytes = [1, 0, 0, 0, 0, 0, 0, 0];
    exits(&rt, alloc, &nodes, 1, &bytes, FAILED, &[])?;
    exits(&rt, alloc, &nodes, 1, b"", COMPLETED, &[2])
}

// allocate a cell then (store 5 in the given cell and then send 1)
#[test]
fn a_datum_is_stored(rt: HostRuntime) -> Result<(), Fail> {
    let nodes = [
        action(Kind::Then),
        action(Kind::Allocate),
        action(Kind::AndThen),
        action(Kind::Store),
        yielder(YKind::Number(5)),
        given(Sort::Cell, 0),
        action(Kind::Send),
        yielder(YKind::Number(1)),
    ];
    exits(&rt, rt.alloc(), &nodes, 1, b"", COMPLETED, &[1])
}

// allocate a cell then ((store 5 in the given cell and then fail) or send 2): a store commits
#[test]
fn a_store_commits(rt: HostRuntime) -> Result<(), Fail> {
    let nodes = [
        action(Kind::Then),
        action(Kind::Allocate),
        action(Kind::Or),
        action(Kind::AndThen),
        action(Kind::Store),
        yielder(YKind::Number(5)),
        given(Sort::Cell, 0),
        action(Kind::Fail),
        action(Kind::Send),
        yielder(YKind::Number(2)),
    ];
    exits(&rt, rt.alloc(), &nodes, 1, b"", FAILED, &[])
}

// allocate a cell then ((store integer-quotient(1, 0) in the given cell and then fail) or send 2): where the operand
// yields nothing, nothing commits
#[test]
fn a_store_of_nothing_fails(rt: HostRuntime) -> Result<(), Fail> {
    let nodes = [
        action(Kind::Then),
        action(Kind::Allocate),
        action(Kind::Or),
        action(Kind::AndThen),
        action(Kind::Store),
        yielder(YKind::Quotient),
        yielder(YKind::Number(1)),
        yielder(YKind::Number(0)),
        given(Sort::Cell, 0),
        action(Kind::Fail),
        action(Kind::Send),
        yielder(YKind::Number(2)),
    ];
    exits(&rt, rt.alloc(), &nodes, 1, b"", COMPLETED, &[2])
}

// (allocate a cell and then fail) or send 2: an allocation commits
#[test]
fn an_allocation_commits(rt: HostRuntime) -> Result<(), Fail> {
    let nodes = [
        action(Kind::Or),
        action(Kind::AndThen),
        action(Kind::Allocate),
        action(Kind::Fail),
        action(Kind::Send),
        yielder(YKind::Number(2)),
    ];
    exits(&rt, rt.alloc(), &nodes, 1, b"", FAILED, &[])
}

// (allocate a cell and allocate a cell) then check is(the given cell # 1, the given cell # n)
fn two_cells(second: u32) -> [Pushed<'static>; 8] {
    [
        action(Kind::Then),
        action(Kind::And),
        action(Kind::Allocate),
        action(Kind::Allocate),
        action(Kind::Check),
        yielder(YKind::Is),
        given(Sort::Cell, 1),
        given(Sort::Cell, second),
    ]
}

#[test]
fn two_cells_are_two(rt: HostRuntime) -> Result<(), Fail> {
    let alloc = rt.alloc();
    exits(&rt, alloc, &two_cells(1), 2, b"", COMPLETED, &[])?;
    exits(&rt, alloc, &two_cells(2), 2, b"", FAILED, &[])?;
    // the second one finds no unit
    exits(&rt, alloc, &two_cells(1), 1, b"", FULL, &[])
}

// The integer stored in the n-th of the given cells, or in the only one for 0.
fn stored(place: u32) -> [Pushed<'static>; 2] {
    [
        yielder(YKind::Stored {
            sort: Sort::Integer,
        }),
        given(Sort::Cell, place),
    ]
}

// allocate a cell then (store 5 in the given cell and then send the integer stored in the given cell)
#[test]
fn what_was_stored_is_read(rt: HostRuntime) -> Result<(), Fail> {
    let [content, cell] = stored(0);
    let nodes = [
        action(Kind::Then),
        action(Kind::Allocate),
        action(Kind::AndThen),
        action(Kind::Store),
        yielder(YKind::Number(5)),
        given(Sort::Cell, 0),
        action(Kind::Send),
        content,
        cell,
    ];
    exits(&rt, rt.alloc(), &nodes, 1, b"", COMPLETED, &[5])
}

// allocate a cell then ((check false and then store 0 in the given cell) or send the integer stored in the given cell):
// the cell is still unset
#[test]
fn an_unset_cell_yields_nothing(rt: HostRuntime) -> Result<(), Fail> {
    let [content, cell] = stored(0);
    let nodes = [
        action(Kind::Then),
        action(Kind::Allocate),
        action(Kind::Or),
        action(Kind::AndThen),
        action(Kind::Check),
        yielder(YKind::Truth(false)),
        action(Kind::Store),
        yielder(YKind::Number(0)),
        given(Sort::Cell, 0),
        action(Kind::Send),
        content,
        cell,
    ];
    exits(&rt, rt.alloc(), &nodes, 1, b"", FAILED, &[])
}

// (allocate a cell and allocate a cell) then (store 1 in the given cell # 1 and then (store 2 in the given cell # 2
// and then (store sum(10, the integer stored in the given cell # 1) in the given cell # 1 and then
// (send the integer stored in the given cell # 1 and then send the integer stored in the given cell # 2))))
#[test]
fn two_cells_do_not_mix(rt: HostRuntime) -> Result<(), Fail> {
    let [content, first] = stored(1);
    let second = given(Sort::Cell, 2);
    let nodes = [
        action(Kind::Then),
        action(Kind::And),
        action(Kind::Allocate),
        action(Kind::Allocate),
        action(Kind::AndThen),
        action(Kind::Store),
        yielder(YKind::Number(1)),
        first,
        action(Kind::AndThen),
        action(Kind::Store),
        yielder(YKind::Number(2)),
        second,
        action(Kind::AndThen),
        action(Kind::Store),
        yielder(YKind::Sum),
        yielder(YKind::Number(10)),
        content,
        first,
        first,
        action(Kind::AndThen),
        action(Kind::Send),
        content,
        first,
        action(Kind::Send),
        content,
        second,
    ];
    exits(&rt, rt.alloc(), &nodes, 2, b"", COMPLETED, &[11, 2])
}
