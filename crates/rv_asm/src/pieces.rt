//! Short pieces of code that generated code is made of: constants, copies of words, messages and exits. An `Err` says
//! want of memory, and the assembler then holds a front of the piece.

ghost use Rattle.std.specs.Prelude.{◌≡◌, ℕ, ◌+◌, ◌-◌, ◌*◌, ◌^◌, ◌<◌, ◌≤◌, ◌++◌, ◌∷◌, [], List, OnOk, OnErr, pos};
ghost use Rattle.rv_code.specs.declared.instruction.Inst.TheVariants.{OpImm, Upper, Shift, Load, Store, Ecall};
ghost use Rattle.rv_code.specs.declared.instruction.OpImmOp.TheVariants.{Addi};
ghost use Rattle.rv_asm.specs.Assembly.{Listing};
ghost use Rattle.rv_asm.specs.PieceRuns.{LoadsConstant, CopiesWords, SendsWord, ExitsWith};
ghost use Rattle.rv_asm.specs.Pieces.{appended, AppendsFrontOf, fits_immediate, low_part, high_part, parts_of, load_parts, load_constant, copy_words, send_word, exit_with};

use crate::asm::Asm;
use acg_base::Memory;
use rv_code::{Inst, LoadOp, OpImmOp, Reg, ShiftOp, StoreOp, UpperOp};

// Appends `rd = rs1 + imm`.
fn add(asm: &mut Asm, rd: Reg, rs1: Reg, imm: i32) -> Result<(), Memory>
    requires { fits_immediate imm }
    ensures ok { OnOk result (asm.new ≡ appended asm.old (OpImm Addi rd rs1 imm ∷ [])) }
    ensures err { OnErr result (asm.new ≡ asm.old) }
{
    asm.emit(Inst::OpImm {
        op: OpImmOp::Addi,
        rd,
        rs1,
        imm,
    })
}

// The low 12 bits of a value, as a signed immediate.
fn low_part_of(value: u64) -> i32
    ensures is { result ≡ low_part value }
{
    let low = (value % 4096) as i32;
    if low < 2048 { low } else { low - 4096 }
}

// How many parts of 12 bits a value needs behind its first part of 28.
fn parts(value: u64) -> u8
    ensures is { result ≡ parts_of value }
{
    if value <= 1 << 28 {
        0
    } else if value <= 1 << 40 {
        1
    } else if value <= 1 << 52 {
        2
    } else {
        3
    }
}

// Appends a value by its first part and so many parts of 12 bits behind it.
fn parts_into(asm: &mut Asm, rd: Reg, value: u64, parts: u8) -> Result<(), Memory>
    requires few { parts ≤ 3 }
    requires below { value ≤ 2 ^ (28 + 12 * parts) }
    requires room { value < 2 ^ 64 - 2048 }
    ensures ok { OnOk result (asm.new ≡ appended asm.old (load_parts parts rd value)) }
    ensures err { OnErr result (AppendsFrontOf (load_parts parts rd value) asm.old asm.new) }
{
    let high = (value + 2048) / 4096;
    if parts == 0 {
        asm.emit(Inst::Upper {
            op: UpperOp::Lui,
            rd,
            imm: (high * 4096) as i32,
        })?;
        return add(asm, rd, rd, low_part_of(value));
    }
    parts_into(asm, rd, high, parts - 1)?;
    asm.emit(Inst::Shift {
        op: ShiftOp::Slli,
        rd,
        rs1: rd,
        amount: 12,
    })?;
    add(asm, rd, rd, low_part_of(value))
}

/// Appends at most 8 instructions that put a number into a register, and change no other.
pub fn load_constant(asm: &mut Asm, rd: Reg, value: u64) -> Result<(), Memory>
    ensures ok { OnOk result (asm.new ≡ appended asm.old (load_constant rd value)) }
    ensures loads { OnOk result (LoadsConstant rd value asm.old asm.new) }
    ensures err { OnErr result (AppendsFrontOf (load_constant rd value) asm.old asm.new) }
{
    if value < 2048 {
        add(asm, rd, Reg(0), value as i32)
    } else if value >= u64::MAX - 2047 {
        add(asm, rd, Reg(0), -1 - (u64::MAX - value) as i32)
    } else {
        parts_into(asm, rd, value, parts(value))
    }
}

// The offset in bytes of the word `more` words behind another.
fn offset(words: u8, more: u8) -> i32
    ensures is { result ≡ pos (8 * (words + more)) }
{
    8 * (words as i32 + more as i32)
}

/// Appends two instructions for each of `n` words: the first is `from` words behind the address in `source`, and goes
/// to `to` words behind the address in `target`, by way of the register `scratch`.
pub fn copy_words(
    asm: &mut Asm,
    n: u8,
    scratch: Reg,
    source: Reg,
    from: u8,
    target: Reg,
    to: u8,
) -> Result<(), Memory>
    requires from { from + n ≤ 256 }
    requires to { to + n ≤ 256 }
    ensures ok { OnOk result
        (asm.new ≡ appended asm.old (copy_words n scratch source from target to)) }
    ensures copies { OnOk result (CopiesWords n scratch source from target to asm.old asm.new) }
    ensures err { OnErr result
        (AppendsFrontOf (copy_words n scratch source from target to) asm.old asm.new) }
{
    for i in 0..n {
        asm.emit(Inst::Load {
            op: LoadOp::Ld,
            rd: scratch,
            rs1: source,
            imm: offset(from, i),
        })?;
        asm.emit(Inst::Store {
            op: StoreOp::Sd,
            rs1: target,
            rs2: scratch,
            imm: offset(to, i),
        })?;
    }
    Ok(())
}

/// Appends 6 instructions that send the word in a register as a message, by way of word `place` of the region. They
/// change registers 10, 11, 12 and 17, and that word.
pub fn send_word(asm: &mut Asm, register: Reg, place: u8) -> Result<(), Memory>
    ensures ok { OnOk result (asm.new ≡ appended asm.old (send_word register place)) }
    ensures sends { OnOk result (SendsWord register place asm.old asm.new) }
    ensures err { OnErr result (AppendsFrontOf (send_word register place) asm.old asm.new) }
{
    let offset = 8 * place as i32;
    asm.emit(Inst::Store {
        op: StoreOp::Sd,
        rs1: Reg(3),
        rs2: register,
        imm: offset,
    })?;
    add(asm, Reg(11), Reg(3), offset)?;
    add(asm, Reg(12), Reg(0), 8)?;
    add(asm, Reg(17), Reg(0), 64)?;
    add(asm, Reg(10), Reg(0), 1)?;
    asm.emit(Inst::Ecall)
}

/// Appends 3 instructions that exit with a code.
pub fn exit_with(asm: &mut Asm, code: u8) -> Result<(), Memory>
    ensures ok { OnOk result (asm.new ≡ appended asm.old (exit_with code)) }
    ensures exits { OnOk result (ExitsWith code asm.old asm.new) }
    ensures err { OnErr result (AppendsFrontOf (exit_with code) asm.old asm.new) }
{
    add(asm, Reg(10), Reg(0), code as i32)?;
    add(asm, Reg(17), Reg(0), 93)?;
    asm.emit(Inst::Ecall)
}
