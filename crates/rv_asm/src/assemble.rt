//! Words of instructions.

ghost use Rattle.std.specs.Prelude.{◌≡◌, ℕ, ◌+◌, ◌*◌, ◌<◌, ◌≤◌, ◌^◌, [], ◌∷◌, ◌++◌, OnOk, IfOk, IsTrue, All, Some, map, vec_len, slice_index, length, pos};
ghost use Rattle.rv_code.specs.Encode.{is_in_format, encode};
ghost use Rattle.rv_asm.specs.Assembly.{instructions, code_of, far_jump, far_address, size, total, spot, opposite, NamesBelow, IsSound};
ghost use Rattle.rv_code.specs.declared.instruction.Inst.TheVariants.{OpImm, Branch, Upper, Jalr};
ghost use Rattle.rv_code.specs.declared.instruction.OpImmOp.TheVariants.{Addi};
ghost use Rattle.rv_code.specs.declared.instruction.UpperOp.TheVariants.{Auipc};

use crate::far::distance;
use crate::item::Item;
use rv_code::{BranchOp, Inst, OpImmOp, Reg, UpperOp, encode};
use std::alloc::{AllocError, Global};

const ZERO: Reg = Reg(0);

const SCRATCH: Reg = Reg(31);

// The comparison that holds exactly where another doesn't.
fn opposite_of(op: BranchOp) -> BranchOp
    ensures { result ≡ opposite op }
{
    match op {
        BranchOp::Beq => BranchOp::Bne,
        BranchOp::Bne => BranchOp::Beq,
        BranchOp::Blt => BranchOp::Bge,
        BranchOp::Bge => BranchOp::Blt,
        BranchOp::Bltu => BranchOp::Bgeu,
        BranchOp::Bgeu => BranchOp::Bltu,
    }
}

// AUIPC: the address of the instruction plus a multiple of 4096.
fn add_to_pc(rd: Reg, imm: i32) -> Inst
    ensures { result ≡ Upper Auipc rd imm }
{
    Inst::Upper {
        op: UpperOp::Auipc,
        rd,
        imm,
    }
}

fn add_immediate(rd: Reg, imm: i32) -> Inst
    ensures { result ≡ OpImm Addi rd rd imm }
{
    Inst::OpImm {
        op: OpImmOp::Addi,
        rd,
        rs1: rd,
        imm,
    }
}

fn jump_register(rs1: Reg, imm: i32) -> Inst
    ensures { result ≡ Jalr 0 rs1 imm }
{
    Inst::Jalr { rd: ZERO, rs1, imm }
}

// A branch over two instructions, for where the comparison doesn't hold.
fn branch_over(op: BranchOp, rs1: Reg, rs2: Reg) -> Inst
    ensures { result ≡ Branch (opposite op) rs1 rs2 (pos 12) }
{
    Inst::Branch {
        op: opposite_of(op),
        rs1,
        rs2,
        imm: 12,
    }
}

// Appends the word of an instruction.
fn append(words: &mut Vec<u32>, instruction: Inst) -> Result<(), AllocError>
    requires { IsTrue (is_in_format instruction) }
    ensures words { OnOk result (map Some words.new.items
        ≡ map Some words.old.items ++ encode instruction ∷ []) }
    ensures len { OnOk result (vec_len words.new ≡ vec_len words.old + 1) }
{
    match encode(instruction) {
        Some(word) => {
            words.push(word)?;
            Ok(())
        }
        None => unreachable!(),
    }
}

// Appends a jump from here to a place in the code.
#[tactic(auto, using(crate::proofs::Distances::distances))]
fn append_jump(words: &mut Vec<u32>, to: u32) -> Result<(), AllocError>
    requires from { vec_len words.old + 2 ≤ 2 ^ 28 }
    requires to { to < 2 ^ 28 }
    ensures words { OnOk result (map Some words.new.items
        ≡ map Some words.old.items ++ map encode (far_jump (vec_len words.old) to)) }
    ensures len { OnOk result (vec_len words.new ≡ vec_len words.old + 2) }
{
    let far = distance(words.len() as u32, to);
    append(words, add_to_pc(SCRATCH, far.high))?;
    append(words, jump_register(SCRATCH, far.low))
}

// Appends what puts the address of a place in the code into a register.
#[tactic(auto, using(crate::proofs::Distances::distances))]
fn append_address(words: &mut Vec<u32>, rd: Reg, to: u32) -> Result<(), AllocError>
    requires from { vec_len words.old + 2 ≤ 2 ^ 28 }
    requires to { to < 2 ^ 28 }
    ensures words { OnOk result (map Some words.new.items
        ≡ map Some words.old.items ++ map encode (far_address rd (vec_len words.old) to)) }
    ensures len { OnOk result (vec_len words.new ≡ vec_len words.old + 2) }
{
    let far = distance(words.len() as u32, to);
    append(words, add_to_pc(rd, far.high))?;
    append(words, add_immediate(rd, far.low))
}

// Appends the words of an item.
#[tactic(auto, using(crate::proofs::Distances::distances))]
fn append_item(words: &mut Vec<u32>, spots: &[u32], item: Item) -> Result<(), AllocError>
    requires sound { IsSound item }
    requires labels { NamesBelow (length spots.now) item }
    requires room { vec_len words.old + size item < 2 ^ 28 }
    requires spots { (l : ℕ) → l < length spots.now → slice_index spots.now l < 2 ^ 28 }
    ensures words { OnOk result (map Some words.new.items
        ≡ map Some words.old.items
        ++ map encode (instructions (slice_index spots.now) (vec_len words.old) item)) }
    ensures len { OnOk result (vec_len words.new ≡ vec_len words.old + size item) }
{
    match item {
        Item::Plain(instruction) => append(words, instruction),
        Item::Mark(_) => Ok(()),
        Item::Jump(label) => append_jump(words, spots[label.number]),
        Item::BranchTo(op, rs1, rs2, label) => {
            append(words, branch_over(op, rs1, rs2))?;
            append_jump(words, spots[label.number])
        }
        Item::Address(rd, label) => append_address(words, rd, spots[label.number]),
    }
}

/// The words of the items, whose labels stand behind as many instructions as `spots` says.
#[tactic(auto, using(crate::proofs::Labels::item_steps))]
pub(crate) fn words_of_items(
    alloc: Global,
    items: &[Item],
    spots: &[u32],
) -> Result<Vec<u32>, AllocError>
    requires sound { All IsSound items.now }
    requires labels { All (NamesBelow (length spots.now)) items.now }
    requires room { total items.now < 2 ^ 28 }
    requires spots { (l : ℕ) → l < length spots.now → slice_index spots.now l ≡ spot items.now l }
    ensures words { IfOk result (λ words. map Some words.items ≡ map encode (code_of items.now)) }
    ensures len { IfOk result (λ words. vec_len words ≡ total items.now) }
{
    let mut words = Vec::new(alloc);
    for item in items {
        append_item(&mut words, spots, *item)?;
    }
    Ok(words)
}
