//! Words from outside, read and written.

mod vectors;

use rv_code::{
    BranchOp, Inst, LoadOp, OpImmOp, OpOp, Reg, ShiftOp, StoreOp, UpperOp, decode, encode,
};
use vectors::{UNDEFINED, WORDS};

/// An instruction with the numbers of its registers.
#[derive(Clone, Copy, Debug)]
pub enum Row {
    Op(OpOp, u8, u8, u8),
    OpImm(OpImmOp, u8, u8, i32),
    Shift(ShiftOp, u8, u8, u8),
    Load(LoadOp, u8, u8, i32),
    Store(StoreOp, u8, u8, i32),
    Branch(BranchOp, u8, u8, i32),
    Upper(UpperOp, u8, i32),
    Jal(u8, i32),
    Jalr(u8, u8, i32),
    Fence(u8, u8, i32),
    Ecall,
    Ebreak,
}

fn register(number: u8) -> Reg {
    Reg(number % 32)
}

#[rattlefmt::skip]
fn instruction(row: Row) -> Inst {
    match row {
        Row::Op(op, rd, rs1, rs2) => Inst::Op { op, rd: register(rd), rs1: register(rs1), rs2: register(rs2) },
        Row::OpImm(op, rd, rs1, imm) => Inst::OpImm { op, rd: register(rd), rs1: register(rs1), imm },
        Row::Shift(op, rd, rs1, amount) => Inst::Shift { op, rd: register(rd), rs1: register(rs1), amount },
        Row::Load(op, rd, rs1, imm) => Inst::Load { op, rd: register(rd), rs1: register(rs1), imm },
        Row::Store(op, rs1, rs2, imm) => Inst::Store { op, rs1: register(rs1), rs2: register(rs2), imm },
        Row::Branch(op, rs1, rs2, imm) => Inst::Branch { op, rs1: register(rs1), rs2: register(rs2), imm },
        Row::Upper(op, rd, imm) => Inst::Upper { op, rd: register(rd), imm },
        Row::Jal(rd, imm) => Inst::Jal { rd: register(rd), imm },
        Row::Jalr(rd, rs1, imm) => Inst::Jalr { rd: register(rd), rs1: register(rs1), imm },
        Row::Fence(rd, rs1, imm) => Inst::Fence { rd: register(rd), rs1: register(rs1), imm },
        Row::Ecall => Inst::Ecall,
        Row::Ebreak => Inst::Ebreak,
    }
}

#[test]
fn words_are_read_and_written(rt: HostRuntime) {
    for (word, row) in &WORDS {
        assert_eq!(rt; decode(*word), Some(instruction(*row)));
        assert_eq!(rt; encode(instruction(*row)), Some(*word));
    }
}

#[test]
fn words_outside_the_table_are_refused(rt: HostRuntime) {
    for word in &UNDEFINED {
        assert_eq!(rt; decode(*word), None);
    }
}

#[test]
fn immediates_outside_their_formats_are_refused(rt: HostRuntime) {
    let refused = [
        Row::OpImm(OpImmOp::Addi, 10, 0, 2048),
        Row::Load(LoadOp::Lh, 10, 11, -2049),
        Row::Store(StoreOp::Sb, 10, 11, -2049),
        Row::Shift(ShiftOp::Srai, 10, 11, 64),
        Row::Shift(ShiftOp::Sraiw, 10, 11, 32),
        Row::Branch(BranchOp::Bltu, 10, 11, 4096),
        Row::Branch(BranchOp::Bge, 10, 11, -4097),
        Row::Upper(UpperOp::Lui, 10, -4095),
        Row::Jal(10, 1048576),
        Row::Jal(10, 1),
        Row::Jalr(10, 11, -2147483648),
        Row::Fence(0, 0, 4095),
    ];
    for row in refused {
        assert_eq!(rt; encode(instruction(row)), None);
    }
}

#[test]
fn funct7_is_read(rt: HostRuntime) {
    let product = instruction(Row::Op(OpOp::Mul, 10, 11, 12));
    assert_eq!(rt; decode(0x02c5_8533), Some(product));
    assert_eq!(rt; decode(0x04c5_8533), None);
}
