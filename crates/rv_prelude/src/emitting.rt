//! Instructions that are appended one by one. After an `Err` the assembler is given up.

ghost use Rattle.std.specs.Prelude.{◌≡◌, ◌+◌, ◌*◌, ◌≤◌, ◌<◌, ◌⊎◌, [], ◌∷◌, ◌++◌, OnOk, pos};
ghost use Rattle.rv_code.specs.declared.instruction.Inst.TheVariants.{Op, OpImm, Load, Store, Branch};
ghost use Rattle.rv_code.specs.declared.instruction.OpOp.TheVariants.{Add};
ghost use Rattle.rv_code.specs.declared.instruction.OpImmOp.TheVariants.{Addi};
ghost use Rattle.rv_code.specs.declared.instruction.LoadOp.TheVariants.{Ld};
ghost use Rattle.rv_code.specs.declared.instruction.StoreOp.TheVariants.{Sd};
ghost use Rattle.rv_code.specs.declared.instruction.BranchOp.TheVariants.{Bne};
ghost use Rattle.rv_asm.specs.Pieces.{appended};

use acg_base::Memory;
use rv_asm::Asm;
use rv_code::{BranchOp, Inst, LoadOp, OpImmOp, OpOp, Reg, StoreOp};

/// Reads as 0.
pub(crate) const ZERO: Reg = Reg(0);

/// Holds the address to return to.
pub(crate) const RETURN: Reg = Reg(1);

/// Holds the address of the frame.
pub(crate) const FRAME: Reg = Reg(2);

/// Holds the address of the region.
pub(crate) const REGION: Reg = Reg(3);

/// Holds what a call takes, and what it leaves.
pub(crate) const ARGUMENT: Reg = Reg(10);

/// Loads the word so many words behind an address.
pub(crate) fn load(asm: &mut Asm, rd: Reg, address: Reg, word: u8) -> Result<(), Memory>
    ensures { OnOk result
        (asm.new ≡ appended asm.old (Load Ld rd address (pos (8 * word)) ∷ [])) }
{
    asm.emit(Inst::Load {
        op: LoadOp::Ld,
        rd,
        rs1: address,
        imm: 8 * word as i32,
    })
}

/// Stores a word so many words behind an address.
pub(crate) fn store(asm: &mut Asm, address: Reg, value: Reg, word: u8) -> Result<(), Memory>
    ensures { OnOk result
        (asm.new ≡ appended asm.old (Store Sd address value (pos (8 * word)) ∷ [])) }
{
    asm.emit(Inst::Store {
        op: StoreOp::Sd,
        rs1: address,
        rs2: value,
        imm: 8 * word as i32,
    })
}

/// Adds a small number to a register.
pub(crate) fn add_small(asm: &mut Asm, rd: Reg, rs1: Reg, imm: u16) -> Result<(), Memory>
    requires { imm < 2048 }
    ensures { OnOk result (asm.new ≡ appended asm.old (OpImm Addi rd rs1 (pos imm) ∷ [])) }
{
    asm.emit(Inst::OpImm {
        op: OpImmOp::Addi,
        rd,
        rs1,
        imm: imm as i32,
    })
}

/// Adds a register to another.
pub(crate) fn add(asm: &mut Asm, rd: Reg, rs1: Reg, rs2: Reg) -> Result<(), Memory>
    ensures { OnOk result (asm.new ≡ appended asm.old (Op Add rd rs1 rs2 ∷ [])) }
{
    asm.emit(Inst::Op {
        op: OpOp::Add,
        rd,
        rs1,
        rs2,
    })
}

/// Passes over one instruction, for 8, or over two, for 12, where two registers differ.
pub(crate) fn pass_where_other(asm: &mut Asm, rs1: Reg, rs2: Reg, imm: u8) -> Result<(), Memory>
    requires { imm ≡ 8 ⊎ imm ≡ 12 }
    ensures { OnOk result (asm.new ≡ appended asm.old (Branch Bne rs1 rs2 (pos imm) ∷ [])) }
{
    asm.emit(Inst::Branch {
        op: BranchOp::Bne,
        rs1,
        rs2,
        imm: imm as i32,
    })
}
