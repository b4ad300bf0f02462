//! The words of instructions.

ghost use Rattle.std.specs.Prelude.{◌≡◌, ◌+◌, ◌*◌, ◌^◌, ◌<◌, ◌≤◌, ◌↔◌, true, [], ◌∷◌, Some, IsTrue, IsFalse, IsNone, IfSome, None, if◌then◌else◌, nat_lt, ◌&&◌};
ghost use Rattle.rv_code.specs.Table.{op_code, shift_code, amount_bits, op_imm_code, load_code, store_code, branch_code, jalr_code, fence_code, upper_opcode, jal_opcode, code, decode};
ghost use Rattle.rv_code.specs.Encode.{joined, bits_of_integer, has_bits, is_multiple, i_word, s_word, b_word, u_word, j_word, is_in_format, encode};

use crate::instruction::{BranchOp, Inst, LoadOp, OpImmOp, OpOp, Reg, ShiftOp, StoreOp, UpperOp};

// The numbers of an instruction: funct3 in bits 14 to 12, and the opcode in bits 6 to 0.
#[derive(Clone, Copy)]
struct ShortCode {
    funct3: u32,
    opcode: u32,
    ghost funct3_fits: { funct3 < 8 },
    ghost opcode_fits: { opcode < 128 },
}

// These, and the bits from 31 down to rs2 or to the amount of a shift.
#[derive(Clone, Copy)]
struct FullCode {
    upper: u32,
    funct3: u32,
    opcode: u32,
    ghost upper_fits: { upper < 128 },
    ghost funct3_fits: { funct3 < 8 },
    ghost opcode_fits: { opcode < 128 },
}

fn code(funct3: u32, opcode: u32) -> ShortCode
    requires funct3 { funct3 < 8 }
    requires opcode { opcode < 128 }
    ensures funct3 { result.funct3 ≡ funct3 }
    ensures opcode { result.opcode ≡ opcode }
{
    ShortCode { funct3, opcode }
}

fn full_code(upper: u32, funct3: u32, opcode: u32) -> FullCode
    requires upper { upper < 128 }
    requires funct3 { funct3 < 8 }
    requires opcode { opcode < 128 }
    ensures upper { result.upper ≡ upper }
    ensures funct3 { result.funct3 ≡ funct3 }
    ensures opcode { result.opcode ≡ opcode }
{
    FullCode {
        upper,
        funct3,
        opcode,
    }
}

fn op_code(op: OpOp) -> FullCode
    ensures upper { result.upper ≡ (op_code op).upper }
    ensures funct3 { result.funct3 ≡ (op_code op).funct3 }
    ensures opcode { result.opcode ≡ (op_code op).opcode }
{
    match op {
        OpOp::Add => full_code(0b0000000, 0b000, 0b0110011),
        OpOp::Sub => full_code(0b0100000, 0b000, 0b0110011),
        OpOp::Sll => full_code(0b0000000, 0b001, 0b0110011),
        OpOp::Slt => full_code(0b0000000, 0b010, 0b0110011),
        OpOp::Sltu => full_code(0b0000000, 0b011, 0b0110011),
        OpOp::Xor => full_code(0b0000000, 0b100, 0b0110011),
        OpOp::Srl => full_code(0b0000000, 0b101, 0b0110011),
        OpOp::Sra => full_code(0b0100000, 0b101, 0b0110011),
        OpOp::Or => full_code(0b0000000, 0b110, 0b0110011),
        OpOp::And => full_code(0b0000000, 0b111, 0b0110011),
        OpOp::Addw => full_code(0b0000000, 0b000, 0b0111011),
        OpOp::Subw => full_code(0b0100000, 0b000, 0b0111011),
        OpOp::Sllw => full_code(0b0000000, 0b001, 0b0111011),
        OpOp::Srlw => full_code(0b0000000, 0b101, 0b0111011),
        OpOp::Sraw => full_code(0b0100000, 0b101, 0b0111011),
        OpOp::Mul => full_code(0b0000001, 0b000, 0b0110011),
        OpOp::Mulh => full_code(0b0000001, 0b001, 0b0110011),
        OpOp::Mulhsu => full_code(0b0000001, 0b010, 0b0110011),
        OpOp::Mulhu => full_code(0b0000001, 0b011, 0b0110011),
        OpOp::Div => full_code(0b0000001, 0b100, 0b0110011),
        OpOp::Divu => full_code(0b0000001, 0b101, 0b0110011),
        OpOp::Rem => full_code(0b0000001, 0b110, 0b0110011),
        OpOp::Remu => full_code(0b0000001, 0b111, 0b0110011),
        OpOp::Mulw => full_code(0b0000001, 0b000, 0b0111011),
        OpOp::Divw => full_code(0b0000001, 0b100, 0b0111011),
        OpOp::Divuw => full_code(0b0000001, 0b101, 0b0111011),
        OpOp::Remw => full_code(0b0000001, 0b110, 0b0111011),
        OpOp::Remuw => full_code(0b0000001, 0b111, 0b0111011),
    }
}

fn shift_code(op: ShiftOp) -> FullCode
    ensures upper { result.upper ≡ (shift_code op).upper }
    ensures funct3 { result.funct3 ≡ (shift_code op).funct3 }
    ensures opcode { result.opcode ≡ (shift_code op).opcode }
{
    match op {
        ShiftOp::Slli => full_code(0b000000, 0b001, 0b0010011),
        ShiftOp::Srli => full_code(0b000000, 0b101, 0b0010011),
        ShiftOp::Srai => full_code(0b010000, 0b101, 0b0010011),
        ShiftOp::Slliw => full_code(0b0000000, 0b001, 0b0011011),
        ShiftOp::Srliw => full_code(0b0000000, 0b101, 0b0011011),
        ShiftOp::Sraiw => full_code(0b0100000, 0b101, 0b0011011),
    }
}

fn op_imm_code(op: OpImmOp) -> ShortCode
    ensures funct3 { result.funct3 ≡ (op_imm_code op).funct3 }
    ensures opcode { result.opcode ≡ (op_imm_code op).opcode }
{
    match op {
        OpImmOp::Addi => code(0b000, 0b0010011),
        OpImmOp::Slti => code(0b010, 0b0010011),
        OpImmOp::Sltiu => code(0b011, 0b0010011),
        OpImmOp::Xori => code(0b100, 0b0010011),
        OpImmOp::Ori => code(0b110, 0b0010011),
        OpImmOp::Andi => code(0b111, 0b0010011),
        OpImmOp::Addiw => code(0b000, 0b0011011),
    }
}

fn load_code(op: LoadOp) -> ShortCode
    ensures funct3 { result.funct3 ≡ (load_code op).funct3 }
    ensures opcode { result.opcode ≡ (load_code op).opcode }
{
    match op {
        LoadOp::Lb => code(0b000, 0b0000011),
        LoadOp::Lh => code(0b001, 0b0000011),
        LoadOp::Lw => code(0b010, 0b0000011),
        LoadOp::Ld => code(0b011, 0b0000011),
        LoadOp::Lbu => code(0b100, 0b0000011),
        LoadOp::Lhu => code(0b101, 0b0000011),
        LoadOp::Lwu => code(0b110, 0b0000011),
    }
}

fn store_code(op: StoreOp) -> ShortCode
    ensures funct3 { result.funct3 ≡ (store_code op).funct3 }
    ensures opcode { result.opcode ≡ (store_code op).opcode }
{
    match op {
        StoreOp::Sb => code(0b000, 0b0100011),
        StoreOp::Sh => code(0b001, 0b0100011),
        StoreOp::Sw => code(0b010, 0b0100011),
        StoreOp::Sd => code(0b011, 0b0100011),
    }
}

fn branch_code(op: BranchOp) -> ShortCode
    ensures funct3 { result.funct3 ≡ (branch_code op).funct3 }
    ensures opcode { result.opcode ≡ (branch_code op).opcode }
{
    match op {
        BranchOp::Beq => code(0b000, 0b1100011),
        BranchOp::Bne => code(0b001, 0b1100011),
        BranchOp::Blt => code(0b100, 0b1100011),
        BranchOp::Bge => code(0b101, 0b1100011),
        BranchOp::Bltu => code(0b110, 0b1100011),
        BranchOp::Bgeu => code(0b111, 0b1100011),
    }
}

// How many bits the amount of a shift has.
fn amount_bits(op: ShiftOp) -> u32
    ensures value { result ≡ amount_bits op }
    ensures few { result ≤ 6 }
{
    match op {
        ShiftOp::Slli | ShiftOp::Srli | ShiftOp::Srai => 6,
        ShiftOp::Slliw | ShiftOp::Srliw | ShiftOp::Sraiw => 5,
    }
}

fn upper_opcode(op: UpperOp) -> u32
    ensures value { result ≡ upper_opcode op }
    ensures below { result < 128 }
{
    match op {
        UpperOp::Lui => 0b0110111,
        UpperOp::Auipc => 0b0010111,
    }
}

// The bits of an immediate that has so many.
fn low_bits(width: u32, imm: i32) -> Option<u32>
    requires low { 1 ≤ width }
    requires high { width ≤ 31 }
    ensures { result ≡ (if has_bits width imm then Some (bits_of_integer width imm) else None) }
{
    let half = 1u32 << (width - 1);
    let size = imm.unsigned_abs();
    if imm >= 0 {
        if size < half { Some(size) } else { None }
    } else if size <= half {
        Some(2 * half - size)
    } else {
        None
    }
}

// imm[11:0] rs1 funct3 rd opcode
fn i_word(imm: i32, rs1: Reg, numbers: ShortCode, rd: Reg) -> Option<u32>
    ensures { result ≡ (if (nat_lt rd 32 && nat_lt rs1 32) && has_bits 12 imm then Some (i_word (bits_of_integer 12 imm) rs1 (code numbers.funct3 numbers.opcode) rd) else None) }
{
    let bits = low_bits(12, imm)?;
    Some(
        bits * 0x10_0000
            + u32::from(rs1.number()) * 0x8000
            + numbers.funct3 * 0x1000
            + u32::from(rd.number()) * 0x80
            + numbers.opcode,
    )
}

// imm[11:5] rs2 rs1 funct3 imm[4:0] opcode
fn s_word(imm: i32, rs2: Reg, rs1: Reg, numbers: ShortCode) -> Option<u32>
    ensures { result ≡ (if (nat_lt rs1 32 && nat_lt rs2 32) && has_bits 12 imm then Some (s_word (bits_of_integer 12 imm) rs2 rs1 (code numbers.funct3 numbers.opcode)) else None) }
{
    let bits = low_bits(12, imm)?;
    Some(
        (bits >> 5) * 0x200_0000
            + u32::from(rs2.number()) * 0x10_0000
            + u32::from(rs1.number()) * 0x8000
            + numbers.funct3 * 0x1000
            + (bits & 0x1f) * 0x80
            + numbers.opcode,
    )
}

// imm[12|10:5] rs2 rs1 funct3 imm[4:1|11] opcode
fn b_word(imm: i32, rs2: Reg, rs1: Reg, numbers: ShortCode) -> Option<u32>
    ensures { result ≡ (if (nat_lt rs1 32 && nat_lt rs2 32) && (has_bits 13 imm && is_multiple 2 imm) then Some (b_word (bits_of_integer 13 imm) rs2 rs1 (code numbers.funct3 numbers.opcode)) else None) }
{
    let bits = low_bits(13, imm)?;
    if imm % 2 != 0 {
        return None;
    }
    Some(
        (bits >> 12) * 0x8000_0000
            + (bits >> 5 & 0x3f) * 0x200_0000
            + u32::from(rs2.number()) * 0x10_0000
            + u32::from(rs1.number()) * 0x8000
            + numbers.funct3 * 0x1000
            + (bits >> 1 & 0xf) * 0x100
            + (bits >> 11 & 1) * 0x80
            + numbers.opcode,
    )
}

// imm[31:12] rd opcode
fn u_word(imm: i32, rd: Reg, opcode: u32) -> Option<u32>
    requires { opcode < 128 }
    ensures { result ≡ (if nat_lt rd 32 && (has_bits 32 imm && is_multiple 4096 imm) then Some (u_word (bits_of_integer 32 imm) rd opcode) else None) }
{
    if imm % 4096 != 0 {
        return None;
    }
    Some((imm.cast_unsigned() >> 12) * 0x1000 + u32::from(rd.number()) * 0x80 + opcode)
}

// imm[20|10:1|11|19:12] rd opcode
fn j_word(imm: i32, rd: Reg, opcode: u32) -> Option<u32>
    requires { opcode < 128 }
    ensures { result ≡ (if nat_lt rd 32 && (has_bits 21 imm && is_multiple 2 imm) then Some (j_word (bits_of_integer 21 imm) rd opcode) else None) }
{
    let bits = low_bits(21, imm)?;
    if imm % 2 != 0 {
        return None;
    }
    Some(
        (bits >> 20) * 0x8000_0000
            + (bits >> 1 & 0x3ff) * 0x20_0000
            + (bits >> 11 & 1) * 0x10_0000
            + (bits >> 12 & 0xff) * 0x1000
            + u32::from(rd.number()) * 0x80
            + opcode,
    )
}

// funct7 rs2 rs1 funct3 rd opcode
fn r_word(rs2: Reg, rs1: Reg, numbers: FullCode, rd: Reg) -> u32
    ensures word { result ≡ joined (7 ∷ 5 ∷ 5 ∷ 3 ∷ 5 ∷ 7 ∷ []) (numbers.upper ∷ rs2 ∷ rs1 ∷ numbers.funct3 ∷ rd ∷ numbers.opcode ∷ []) }
    ensures registers { nat_lt rd 32 && (nat_lt rs1 32 && nat_lt rs2 32) ≡ true }
{
    numbers.upper * 0x200_0000
        + u32::from(rs2.number()) * 0x10_0000
        + u32::from(rs1.number()) * 0x8000
        + numbers.funct3 * 0x1000
        + u32::from(rd.number()) * 0x80
        + numbers.opcode
}

// upper amount rs1 funct3 rd opcode
fn shift_word(op: ShiftOp, amount: u8, rs1: Reg, rd: Reg) -> Option<u32>
    ensures { result ≡ encode (Inst.Shift op rd rs1 amount) }
{
    let bits = amount_bits(op);
    let amount = u32::from(amount);
    if amount >= 1 << bits {
        return None;
    }
    let numbers = shift_code(op);
    Some(
        (numbers.upper << bits) * 0x10_0000
            + amount * 0x10_0000
            + u32::from(rs1.number()) * 0x8000
            + numbers.funct3 * 0x1000
            + u32::from(rd.number()) * 0x80
            + numbers.opcode,
    )
}

// The word of an instruction in its format.
fn word_in_format(inst: Inst) -> Option<u32>
    ensures is { result ≡ encode inst }
    ensures none { IsNone result ↔ IsFalse (is_in_format inst) }
{
    match inst {
        Inst::Op { op, rd, rs1, rs2 } => Some(r_word(rs2, rs1, op_code(op), rd)),
        Inst::OpImm { op, rd, rs1, imm } => i_word(imm, rs1, op_imm_code(op), rd),
        Inst::Shift {
            op,
            rd,
            rs1,
            amount,
        } => shift_word(op, amount, rs1, rd),
        Inst::Load { op, rd, rs1, imm } => i_word(imm, rs1, load_code(op), rd),
        Inst::Store { op, rs1, rs2, imm } => s_word(imm, rs2, rs1, store_code(op)),
        Inst::Branch { op, rs1, rs2, imm } => b_word(imm, rs2, rs1, branch_code(op)),
        Inst::Upper { op, rd, imm } => u_word(imm, rd, upper_opcode(op)),
        Inst::Jal { rd, imm } => j_word(imm, rd, 0b1101111),
        Inst::Jalr { rd, rs1, imm } => i_word(imm, rs1, code(0b000, 0b1100111), rd),
        Inst::Fence { rd, rs1, imm } => i_word(imm, rs1, code(0b000, 0b0001111), rd),
        Inst::Ecall => Some(0x0000_0073),
        Inst::Ebreak => Some(0x0010_0073),
    }
}

/// The word of an instruction, by the formats of the RISC-V unprivileged manual. `None` where an immediate or the
/// amount of a shift is outside its format.
pub fn encode(inst: Inst) -> Option<u32>
    ensures is { result ≡ encode inst }
    ensures none { IsNone result ↔ IsFalse (is_in_format inst) }
    ensures decoded { IfSome result (λ word. decode word ≡ Some inst) }
{
    word_in_format(inst)
}
