//! Programs behind the prelude, and what they do on the machine.

ghost use Rattle.std.specs.Prelude.{◌≡◌, ℕ, ◌<◌, ◌≤◌, ◌+◌, ◌*◌, length, OnOk};
ghost use Rattle.rv_asm.specs.Assembly.{total, is_placed};
ghost use Rattle.rv_prelude.specs.Items.{entries_from};

use acg_base::{Capacity, ListSink, Memory};
use rv_asm::pieces::load_constant;
use rv_asm::{Asm, Code, Label};
use rv_code::{Inst, LoadOp, OpImmOp, Reg, UpperOp};
use rv_machine::{Image, Input, Machine, Run, Segment};
use rv_prelude::pieces::{
    close_alternative, close_trap, commit, open_alternative, open_trap, take_units,
};
use rv_prelude::{Entries, prelude};
use std::alloc::Global;
use std::process::Abort;
use std::test::Fail;

/// The address of the region: the code of each program is short.
pub(crate) const REGION: u64 = 69632;

/// What the machine reads, and how it is to end.
#[derive(Clone, Copy)]
pub(crate) enum To {
    Completed,
    Failed,
    Escaped,
    Full,
    Fail,
    Escape,
    Commit,
    Send,
    Receive,
    Allocate,
}

/// A step of a program.
#[derive(Clone, Copy)]
pub(crate) enum Step {
    /// A number is put into a register.
    Set(u8, u64),
    /// The sum of a register and a small number.
    Add(u8, u8, u8),
    /// The word so many words behind the address in a register.
    Load(u8, u8, u8),
    /// A jump to an entry.
    Go(To),
    /// A call of an entry that returns.
    Call(To),
    /// A commitment without a call.
    Commits,
    /// The record of an alternative is opened at an offset of the frame.
    OpenAlternative(u16),
    /// It is closed.
    CloseAlternative(u16),
    /// The record of a trap is opened at an offset of the frame.
    OpenTrap(u16),
    /// It is closed.
    CloseTrap(u16),
    /// Units are taken.
    Take(u8),
}

/// A program: what it begins with, the other arm of each alternative, and the handler of each trap.
#[derive(Clone, Copy)]
pub(crate) struct Program<'a> {
    pub(crate) first: &'a [Step],
    pub(crate) arm: &'a [Step],
    pub(crate) handler: &'a [Step],
}

/// The labels of a program.
#[derive(Clone, Copy)]
struct Places {
    entries: Entries,
    arm: Label,
    handler: Label,
}

fn label_of(to: To, entries: &Entries) -> Label
    requires { entries.now ≡ entries_from 0 }
    ensures { result < 12 }
{
    match to {
        To::Completed => entries.completed,
        To::Failed => entries.failed,
        To::Escaped => entries.escaped,
        To::Full => entries.full,
        To::Fail => entries.fail,
        To::Escape => entries.escape,
        To::Commit => entries.commit,
        To::Send => entries.send,
        To::Receive => entries.receive,
        To::Allocate => entries.allocate,
    }
}

// The sum of a register and a small number.
fn append_add(asm: &mut Asm, rd: u8, rs1: u8, imm: u8) -> Result<(), Memory>
    ensures labels { OnOk result (asm.new.labels ≡ asm.old.labels) }
    ensures short { OnOk result (total asm.new.items ≤ total asm.old.items + 1) }
    ensures placed { OnOk result ((l : ℕ) → is_placed asm.new.items l ≡ is_placed asm.old.items l) }
{
    asm.emit(Inst::OpImm {
        op: OpImmOp::Addi,
        rd: Reg(rd % 32),
        rs1: Reg(rs1 % 32),
        imm: imm as i32,
    })
}

// The word so many words behind the address in a register.
fn append_load(asm: &mut Asm, rd: u8, address: u8, word: u8) -> Result<(), Memory>
    ensures labels { OnOk result (asm.new.labels ≡ asm.old.labels) }
    ensures short { OnOk result (total asm.new.items ≤ total asm.old.items + 1) }
    ensures placed { OnOk result ((l : ℕ) → is_placed asm.new.items l ≡ is_placed asm.old.items l) }
{
    asm.emit(Inst::Load {
        op: LoadOp::Ld,
        rd: Reg(rd % 32),
        rs1: Reg(address % 32),
        imm: 8 * word as i32,
    })
}

// A call: register 1 has the address of the instruction behind the jump.
fn append_call(asm: &mut Asm, to: Label) -> Result<(), Memory>
    requires { to < asm.old.labels }
    ensures labels { OnOk result (asm.new.labels ≡ asm.old.labels) }
    ensures short { OnOk result (total asm.new.items ≤ total asm.old.items + 4) }
    ensures placed { OnOk result ((l : ℕ) → is_placed asm.new.items l ≡ is_placed asm.old.items l) }
{
    asm.emit(Inst::Upper {
        op: UpperOp::Auipc,
        rd: Reg(1),
        imm: 0,
    })?;
    append_add(asm, 1, 1, 16)?;
    asm.jump(to)
}

fn append_step(asm: &mut Asm, step: Step, places: &Places) -> Result<(), Memory>
    requires entries { places.now.entries ≡ entries_from 0 }
    requires made { asm.old.labels ≡ 14 }
    requires arm { places.now.arm < 14 }
    requires handler { places.now.handler < 14 }
    ensures labels { OnOk result (asm.new.labels ≡ asm.old.labels) }
    ensures short { OnOk result (total asm.new.items ≤ total asm.old.items + 21) }
    ensures placed { OnOk result ((l : ℕ) → is_placed asm.new.items l ≡ is_placed asm.old.items l) }
{
    match step {
        Step::Set(rd, number) => load_constant(asm, Reg(rd % 32), number),
        Step::Add(rd, rs1, imm) => append_add(asm, rd, rs1, imm),
        Step::Load(rd, address, word) => append_load(asm, rd, address, word),
        Step::Go(to) => asm.jump(label_of(to, &places.entries)),
        Step::Call(to) => append_call(asm, label_of(to, &places.entries)),
        Step::Commits => commit(asm),
        Step::OpenAlternative(keep) => open_alternative(asm, u32::from(keep), places.arm),
        Step::CloseAlternative(keep) => close_alternative(asm, u32::from(keep)),
        Step::OpenTrap(keep) => open_trap(asm, u32::from(keep), places.handler),
        Step::CloseTrap(keep) => close_trap(asm, u32::from(keep)),
        Step::Take(n) => take_units(asm, n % 128, places.entries.full),
    }
}

fn append_steps(asm: &mut Asm, steps: &[Step], places: &Places) -> Result<(), Memory>
    requires few { length steps.now ≤ 1000 }
    requires entries { places.now.entries ≡ entries_from 0 }
    requires made { asm.old.labels ≡ 14 }
    requires arm { places.now.arm < 14 }
    requires handler { places.now.handler < 14 }
    ensures labels { OnOk result (asm.new.labels ≡ asm.old.labels) }
    ensures short { OnOk result
        (total asm.new.items ≤ total asm.old.items + 21 * length steps.now) }
    ensures placed { OnOk result ((l : ℕ) → is_placed asm.new.items l ≡ is_placed asm.old.items l) }
{
    for step in steps {
        append_step(asm, *step, places)?;
    }
    Ok(())
}

// The code of a program, for a stack of 100 words.
fn assembled(alloc: Global, units: u64, program: Program<'_>) -> Result<Code, Memory>
    requires some { 1 ≤ units }
    requires few { units ≤ 4194304 }
    requires first { length program.first.now ≤ 1000 }
    requires arm { length program.arm.now ≤ 1000 }
    requires handler { length program.handler.now ≤ 1000 }
{
    let mut asm = Asm::new(alloc)?;
    let entries = prelude(&mut asm, Capacity { stack: 100, units })?;
    let start = entries.start;
    let code_end = entries.code_end;
    let arm = asm.label()?;
    let handler = asm.label()?;
    let places = Places {
        entries,
        arm,
        handler,
    };
    asm.place(start);
    append_steps(&mut asm, program.first, &places)?;
    asm.place(arm);
    append_steps(&mut asm, program.arm, &places)?;
    asm.place(handler);
    append_steps(&mut asm, program.handler, &places)?;
    asm.place(code_end);
    asm.finish()
}

// The image of code, with its region behind it.
fn image_of(rt: &impl Abort, alloc: Global, words: &[u32], units: u64) -> Result<Image, Fail> {
    let mut bytes = Vec::new(alloc);
    for word in words {
        bytes.extend_from_slice(&word.to_le_bytes())?;
    }
    let size = bytes.len() as u64;
    assert!(rt; size <= 4096);
    assert!(rt; units <= 1000);
    let mut segments = Vec::new(alloc);
    segments.push(Segment {
        address: 65536,
        flags: 1,
        bytes,
        size,
    })?;
    segments.push(Segment {
        address: REGION,
        flags: 6,
        bytes: Vec::new(alloc),
        size: 4096 + 800 + 16 * units,
    })?;
    Ok(Image {
        entry: 65536,
        segments,
    })
}

/// Runs a program on an input: it exits with the code, and has sent these words.
pub(crate) fn try_program(
    rt: &impl Abort,
    alloc: Global,
    units: u64,
    program: Program<'_>,
    bytes: &[u8],
    sent: &[u64],
    code: u8,
) -> Result<(), Fail> {
    assert!(rt; 1 <= units && units <= 1000);
    assert!(rt; program.first.len() <= 1000);
    assert!(rt; program.arm.len() <= 1000);
    assert!(rt; program.handler.len() <= 1000);
    let assembled = assembled(alloc, units, program)?;
    let image = image_of(rt, alloc, assembled.words.as_slice(), units)?;
    let mut machine = Machine::load(alloc, image).ok().ok_or("memory")?;
    let mut input = Input { bytes, at: 0 };
    let mut sink = ListSink::new(alloc, 64, Vec::new(alloc))
        .ok()
        .ok_or("memory")?;
    assert_eq!(rt;
        machine.run(100000, &mut input, &mut sink),
        Run::Exited { code }
    );
    let mut expected = Vec::new(alloc);
    for word in sent {
        expected.extend_from_slice(&word.to_le_bytes())?;
    }
    assert_eq!(rt; sink.bytes(), expected.as_slice());
    Ok(())
}
