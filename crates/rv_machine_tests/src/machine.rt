//! Programs whose ends are known from outside, and calls at concrete types.

mod operations;

use acg_base::ListSink;
use operations::{IMMEDIATES, OPERATIONS, SHIFTS};
use rv_code::{Inst, Reg, encode};
use rv_machine::{Cause, Image, Input, Machine, Quiet, QuietEnd, Run, Segment, Step};
use std::alloc::Global;
use std::process::Abort;
use std::test::Fail;

// The bytes of words, the lowest byte of each first.
fn bytes_of(alloc: Global, words: &[u32]) -> Result<Vec<u8>, Fail> {
    let mut bytes = Vec::new(alloc);
    for word in words {
        bytes.extend_from_slice(&word.to_le_bytes())?;
    }
    Ok(bytes)
}

// The image of one segment at 65536 that may be run and read.
fn code_image(rt: &impl Abort, alloc: Global, entry: u64, words: &[u32]) -> Result<Image, Fail> {
    let bytes = bytes_of(alloc, words)?;
    let size = bytes.len() as u64;
    assert!(rt; size <= 4096);
    let mut segments = Vec::new(alloc);
    segments.push(Segment {
        address: 65536,
        flags: 5,
        bytes,
        size,
    })?;
    Ok(Image { entry, segments })
}

// The same with 64 bytes at 131072 that may be read and written, the first of them given.
fn data_image(rt: &impl Abort, alloc: Global, words: &[u32], data: &[u8]) -> Result<Image, Fail> {
    let code = bytes_of(alloc, words)?;
    let size = code.len() as u64;
    let data = Vec::from_slice(alloc, data)?;
    assert!(rt; size <= 4096 && data.len() <= 64);
    let mut segments = Vec::new(alloc);
    segments.push(Segment {
        address: 65536,
        flags: 5,
        bytes: code,
        size,
    })?;
    segments.push(Segment {
        address: 131072,
        flags: 6,
        bytes: data,
        size: 64,
    })?;
    Ok(Image {
        entry: 65536,
        segments,
    })
}

// Entries, the words at 65536, and how runs of 10 instructions end.
#[rattlefmt::skip]
const PROGRAMS: [(u64, &[u32], Run); 7] = [
    (65536, &[0x05d0_0893, 0x0070_0513, 0x0000_0073], Run::Exited { code: 7 }),
    (65536, &[0x0010_0073], Run::Trapped { cause: Cause::Ebreak, pc: 65536 }),
    (65536, &[0x0000_006f], Run::Budget),
    (65536, &[0x0000_0000], Run::Trapped { cause: Cause::Undefined, pc: 65536 }),
    (65536, &[0x0001_02b7, 0x0002_b023], Run::Trapped { cause: Cause::Store, pc: 65540 }),
    (65536, &[0x0010_0893, 0x0000_0073], Run::Trapped { cause: Cause::Call, pc: 65540 }),
    (65538, &[0x0000_006f], Run::Trapped { cause: Cause::Fetch, pc: 65538 }),
];

#[test]
fn programs_end_as_stated(rt: HostRuntime) -> Result<(), Fail> {
    for (entry, words, end) in PROGRAMS {
        let image = code_image(&rt, rt.alloc(), entry, words)?;
        let mut machine = Machine::load(rt.alloc(), image).ok().ok_or("memory")?;
        let mut input = Input { bytes: b"", at: 0 };
        let mut sink = ListSink::new(rt.alloc(), 0, Vec::new(rt.alloc()))
            .ok()
            .ok_or("memory")?;
        assert_eq!(rt; machine.run(10, &mut input, &mut sink), end);
    }
    Ok(())
}

// Reads up to 5 bytes to 131072, sends those that came, and exits with 0.
const ECHO: [u32; 12] = [
    0x03f0_0893, // addi x17, x0, 63
    0x0000_0513, // addi x10, x0, 0
    0x0002_05b7, // lui x11, 32
    0x0050_0613, // addi x12, x0, 5
    0x0000_0073, // ecall
    0x0005_0613, // addi x12, x10, 0
    0x0400_0893, // addi x17, x0, 64
    0x0010_0513, // addi x10, x0, 1
    0x0000_0073, // ecall
    0x05d0_0893, // addi x17, x0, 93
    0x0000_0513, // addi x10, x0, 0
    0x0000_0073, // ecall
];

#[test]
fn bytes_are_read_and_sent(rt: HostRuntime) -> Result<(), Fail> {
    let image = data_image(&rt, rt.alloc(), &ECHO, b"")?;
    let mut machine = Machine::load(rt.alloc(), image).ok().ok_or("memory")?;
    let mut input = Input {
        bytes: b"xabc",
        at: 1,
    };
    let mut sink = ListSink::new(rt.alloc(), 8, vec![in rt.alloc(); 0]?)
        .ok()
        .ok_or("memory")?;
    assert_eq!(rt; machine.run(8, &mut input, &mut sink), Run::Budget);
    assert_eq!(rt; input.at, 4);
    assert_eq!(rt; machine.step(&mut input, &mut sink), Step::SinkFault);
    assert_eq!(rt; machine.taken(), 8);
    assert_eq!(rt;
        machine.run(100, &mut input, &mut sink),
        Run::Exited { code: 0 }
    );
    assert_eq!(rt;
        machine.step(&mut input, &mut sink),
        Step::Exited { code: 0 }
    );
    assert_eq!(rt; machine.taken(), 11);
    assert_eq!(rt; sink.bytes(), b"abc".as_slice());
    Ok(())
}

#[test]
fn a_quiet_run_stops_before_what_it_sends(rt: HostRuntime) -> Result<(), Fail> {
    let image = data_image(&rt, rt.alloc(), &ECHO, b"")?;
    let mut machine = Machine::load(rt.alloc(), image).ok().ok_or("memory")?;
    let mut input = Input {
        bytes: b"abc",
        at: 0,
    };
    let end = QuietEnd::Sends;
    assert_eq!(rt; machine.run_quietly(100, &mut input), Quiet { end, ran: 8 });
    assert_eq!(rt; machine.run_quietly(100, &mut input), Quiet { end, ran: 0 });
    assert_eq!(rt; machine.sending(), b"abc".as_slice());
    machine.pass_over();
    assert_eq!(rt; machine.sending(), b"".as_slice());
    assert_eq!(rt; machine.taken(), 9);
    let end = QuietEnd::Budget;
    assert_eq!(rt; machine.run_quietly(1, &mut input), Quiet { end, ran: 1 });
    let end = QuietEnd::Exited { code: 0 };
    assert_eq!(rt; machine.run_quietly(100, &mut input), Quiet { end, ran: 1 });
    assert_eq!(rt; machine.taken(), 11);
    Ok(())
}

// Loads two numbers from 131072 into x5 and x6, does an operation on them, and sends the 8 bytes that it leaves in x28.
fn operation_words(operation: Inst) -> Result<[u32; 11], Fail> {
    let operation = encode(operation).ok_or("no word")?;
    Ok([
        0x0002_03b7, // lui x7, 32
        0x0003_b283, // ld x5, 0(x7)
        0x0083_b303, // ld x6, 8(x7)
        operation,
        0x01c3_b823, // sd x28, 16(x7)
        0x0400_0893, // addi x17, x0, 64
        0x0010_0513, // addi x10, x0, 1
        0x0103_8593, // addi x11, x7, 16
        0x0080_0613, // addi x12, x0, 8
        0x0000_0073, // ecall
        0x0010_0073, // ebreak
    ])
}

// Checks that a machine that does the operation on the two numbers sends the 8 bytes of its result.
fn check_operation(
    rt: &impl Abort,
    alloc: Global,
    operation: Inst,
    numbers: (u64, u64),
    left: u64,
) -> Result<(), Fail> {
    let mut data = Vec::from_slice(alloc, &u64::to_le_bytes(numbers.0))?;
    data.extend_from_slice(&u64::to_le_bytes(numbers.1))?;
    let image = data_image(rt, alloc, &operation_words(operation)?, data.as_slice())?;
    let mut machine = Machine::load(alloc, image).ok().ok_or("memory")?;
    let mut input = Input { bytes: b"", at: 0 };
    let mut sink = ListSink::new(alloc, 8, Vec::new(alloc))
        .ok()
        .ok_or("memory")?;
    let end = Run::Trapped {
        cause: Cause::Ebreak,
        pc: 65576,
    };
    assert_eq!(rt; machine.run(100, &mut input, &mut sink), end);
    assert_eq!(rt; sink.bytes(), u64::to_le_bytes(left).as_slice());
    Ok(())
}

#[test]
fn operations_give_what_a_processor_gives(rt: HostRuntime) -> Result<(), Fail> {
    for (op, a, b, result) in &OPERATIONS {
        let operation = Inst::Op {
            op: *op,
            rd: Reg(28),
            rs1: Reg(5),
            rs2: Reg(6),
        };
        check_operation(&rt, rt.alloc(), operation, (*a, *b), *result)?;
    }
    Ok(())
}

#[test]
fn immediates_give_what_a_processor_gives(rt: HostRuntime) -> Result<(), Fail> {
    for (op, a, imm, result) in &IMMEDIATES {
        let operation = Inst::OpImm {
            op: *op,
            rd: Reg(28),
            rs1: Reg(5),
            imm: *imm,
        };
        check_operation(&rt, rt.alloc(), operation, (*a, 0), *result)?;
    }
    Ok(())
}

#[test]
fn shifts_give_what_a_processor_gives(rt: HostRuntime) -> Result<(), Fail> {
    for (op, a, amount, result) in &SHIFTS {
        let operation = Inst::Shift {
            op: *op,
            rd: Reg(28),
            rs1: Reg(5),
            amount: *amount,
        };
        check_operation(&rt, rt.alloc(), operation, (*a, 0), *result)?;
    }
    Ok(())
}
