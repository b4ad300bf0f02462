//! Registers and instructions, named as in the RISC-V unprivileged manual.

ghost use Rattle.std.specs.Prelude.{◌≡◌, ◌<◌};

use std::marker::Model;

/// A register, by its number from 0 to 31. Contracts see it as that number.
#[derive(Clone, Copy, Debug, PartialEq, Eq)]
pub struct Reg(pub u8);

impl Model for Reg {
    ghost use Rattle.std.specs.Prelude.{ℕ, ◌<◌};

    ghost Value = { ℕ };

    ghost view = { λ r. r.0 };

    ghost invariant = { λ r. r.0 < 32 };

    ghost inverse = { λ n. record { 0 = n } };
}

/// An operation on two registers. Those that end in `w` are on the low 32 bits.
#[derive(Clone, Copy, Debug, PartialEq, Eq)]
pub enum OpOp {
    Add,
    Sub,
    Sll,
    Slt,
    Sltu,
    Xor,
    Srl,
    Sra,
    Or,
    And,
    Addw,
    Subw,
    Sllw,
    Srlw,
    Sraw,
    Mul,
    Mulh,
    Mulhsu,
    Mulhu,
    Div,
    Divu,
    Rem,
    Remu,
    Mulw,
    Divw,
    Divuw,
    Remw,
    Remuw,
}

/// An operation on a register and a signed immediate.
#[derive(Clone, Copy, Debug, PartialEq, Eq)]
pub enum OpImmOp {
    Addi,
    Slti,
    Sltiu,
    Xori,
    Ori,
    Andi,
    Addiw,
}

/// A shift by a constant amount.
#[derive(Clone, Copy, Debug, PartialEq, Eq)]
pub enum ShiftOp {
    Slli,
    Srli,
    Srai,
    Slliw,
    Srliw,
    Sraiw,
}

/// A load of 1, 2, 4 or 8 bytes. Those that end in `u` fill with zeros, the others with the sign.
#[derive(Clone, Copy, Debug, PartialEq, Eq)]
pub enum LoadOp {
    Lb,
    Lh,
    Lw,
    Ld,
    Lbu,
    Lhu,
    Lwu,
}

/// A store of 1, 2, 4 or 8 bytes.
#[derive(Clone, Copy, Debug, PartialEq, Eq)]
pub enum StoreOp {
    Sb,
    Sh,
    Sw,
    Sd,
}

/// The condition of a branch.
#[derive(Clone, Copy, Debug, PartialEq, Eq)]
pub enum BranchOp {
    Beq,
    Bne,
    Blt,
    Bge,
    Bltu,
    Bgeu,
}

/// An instruction whose immediate stands in the upper 20 bits.
#[derive(Clone, Copy, Debug, PartialEq, Eq)]
pub enum UpperOp {
    Lui,
    Auipc,
}

/// An instruction of RV64I with M. Immediates are the signed values that the manual's formats spell, in bytes
/// where they are offsets; an `Upper` immediate is the whole value, a multiple of 4096.
#[derive(Clone, Copy, Debug, PartialEq, Eq)]
pub enum Inst {
    /// An operation on two registers.
    Op {
        op: OpOp,
        rd: Reg,
        rs1: Reg,
        rs2: Reg,
    },
    /// An operation on a register and an immediate from -2048 to 2047.
    OpImm {
        op: OpImmOp,
        rd: Reg,
        rs1: Reg,
        imm: i32,
    },
    /// A shift, by an amount below 64, or below 32 for those on the low 32 bits.
    Shift {
        op: ShiftOp,
        rd: Reg,
        rs1: Reg,
        amount: u8,
    },
    /// A load at `rs1` plus an offset from -2048 to 2047.
    Load {
        op: LoadOp,
        rd: Reg,
        rs1: Reg,
        imm: i32,
    },
    /// A store of `rs2` at `rs1` plus an offset from -2048 to 2047.
    Store {
        op: StoreOp,
        rs1: Reg,
        rs2: Reg,
        imm: i32,
    },
    /// A branch to the pc plus an even offset from -4096 to 4094.
    Branch {
        op: BranchOp,
        rs1: Reg,
        rs2: Reg,
        imm: i32,
    },
    /// An immediate that is a multiple of 4096, or the pc plus it.
    Upper {
        op: UpperOp,
        rd: Reg,
        imm: i32,
    },
    /// A jump to the pc plus an even offset from -1048576 to 1048574.
    Jal {
        rd: Reg,
        imm: i32,
    },
    /// A jump to `rs1` plus an offset from -2048 to 2047, with bit 0 cleared.
    Jalr {
        rd: Reg,
        rs1: Reg,
        imm: i32,
    },
    /// No effect. The fields are the bits that the table leaves free.
    Fence {
        rd: Reg,
        rs1: Reg,
        imm: i32,
    },
    /// A call of the environment.
    Ecall,
    /// A trap.
    Ebreak,
}

impl Reg {
    /// The number of the register, from 0 to 31.
    pub fn number(self) -> u8
        ensures value { result ≡ self }
        ensures below { result < 32 }
    {
        self.0
    }
}
