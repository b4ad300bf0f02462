//! The code of operations on values in registers. It goes to a label where there is no result.

ghost use Rattle.std.specs.Prelude.{◌≡◌, ◌<◌, ◌∷◌, [], IsTrue, OnOk, OnErr, pos};
ghost use Rattle.rv_code.specs.Encode.{has_bits};
ghost use Rattle.rv_asm.specs.declared.item.Item.TheVariants.{BranchTo};
ghost use Rattle.action_terms.specs.Actions.{Is};
ghost use Rattle.action_terms.specs.Forms.{two_viewed, one_viewed};
ghost use Rattle.rv_yield.specs.Fronts.{extended, AppendsFrontOf};
ghost use Rattle.rv_yield.specs.YielderCode.{sum_items, difference_items, product_items, quotient_items, remainder_items, addition_items, operation_items, one_items, content_items};

use crate::emitting::append_all;
use acg_base::Memory;
use action_terms::{One, Two};
use rv_asm::{Asm, Label};
use rv_code::{BranchOp, Inst, LoadOp, OpImmOp, OpOp, Reg, ShiftOp};

const ZERO: Reg = Reg(0);

/// The registers of checks.
const CHECK: Reg = Reg(29);

const OTHER_CHECK: Reg = Reg(28);

fn on_registers(op: OpOp, rd: Reg, rs1: Reg, rs2: Reg) -> Inst
    ensures { result ≡ Inst.Op op rd rs1 rs2 }
{
    Inst::Op { op, rd, rs1, rs2 }
}

fn on_immediate(op: OpImmOp, rd: Reg, rs1: Reg, imm: i32) -> Inst
    ensures { result ≡ Inst.OpImm op rd rs1 imm }
{
    Inst::OpImm { op, rd, rs1, imm }
}

/// Whether a register holds a negative integer.
fn is_negative(rd: Reg, rs1: Reg) -> Inst
    ensures { result ≡ Inst.OpImm OpImmOp.Slti rd rs1 (pos 0) }
{
    on_immediate(OpImmOp::Slti, rd, rs1, 0)
}

/// Appends a sum. It doesn't go to the register of its second part.
fn append_sum(asm: &mut Asm, to: Reg, a: Reg, b: Reg, nothing: Label) -> Result<(), Memory>
    requires { nothing < asm.old.labels }
    ensures ok { OnOk result (asm.new ≡ extended asm.old (sum_items to a b nothing)) }
    ensures err { OnErr result (AppendsFrontOf (sum_items to a b nothing) asm.old asm.new) }
{
    append_all(
        asm,
        &[
            is_negative(OTHER_CHECK, a),
            on_registers(OpOp::Add, to, a, b),
            on_registers(OpOp::Slt, CHECK, to, b),
        ],
    )?;
    asm.branch(BranchOp::Bne, OTHER_CHECK, CHECK, nothing)
}

/// Appends a difference.
fn append_difference(asm: &mut Asm, to: Reg, a: Reg, b: Reg, nothing: Label) -> Result<(), Memory>
    requires { nothing < asm.old.labels }
    ensures ok { OnOk result (asm.new ≡ extended asm.old (difference_items to a b nothing)) }
    ensures err { OnErr result (AppendsFrontOf (difference_items to a b nothing) asm.old asm.new) }
{
    append_all(
        asm,
        &[
            on_registers(OpOp::Slt, OTHER_CHECK, a, b),
            on_registers(OpOp::Sub, to, a, b),
            is_negative(CHECK, to),
        ],
    )?;
    asm.branch(BranchOp::Bne, OTHER_CHECK, CHECK, nothing)
}

/// Appends a product.
fn append_product(asm: &mut Asm, to: Reg, a: Reg, b: Reg, nothing: Label) -> Result<(), Memory>
    requires { nothing < asm.old.labels }
    ensures ok { OnOk result (asm.new ≡ extended asm.old (product_items to a b nothing)) }
    ensures err { OnErr result (AppendsFrontOf (product_items to a b nothing) asm.old asm.new) }
{
    append_all(
        asm,
        &[
            on_registers(OpOp::Mulh, CHECK, a, b),
            on_registers(OpOp::Mul, to, a, b),
            Inst::Shift {
                op: ShiftOp::Srai,
                rd: OTHER_CHECK,
                rs1: to,
                amount: 63,
            },
        ],
    )?;
    asm.branch(BranchOp::Bne, OTHER_CHECK, CHECK, nothing)
}

/// Appends the way to a label for where a divisor is 0.
fn append_divisor_test(asm: &mut Asm, b: Reg, nothing: Label) -> Result<(), Memory>
    requires { nothing < asm.old.labels }
    ensures ok { OnOk result (asm.new ≡ extended asm.old (BranchTo BranchOp.Beq b 0 nothing ∷ [])) }
    ensures err { OnErr result (asm.new ≡ asm.old) }
{
    asm.branch(BranchOp::Beq, b, ZERO, nothing)
}

/// Appends a quotient, cut toward 0.
fn append_quotient(asm: &mut Asm, to: Reg, a: Reg, b: Reg, nothing: Label) -> Result<(), Memory>
    requires { nothing < asm.old.labels }
    ensures ok { OnOk result (asm.new ≡ extended asm.old (quotient_items to a b nothing)) }
    ensures err { OnErr result (AppendsFrontOf (quotient_items to a b nothing) asm.old asm.new) }
{
    append_divisor_test(asm, b, nothing)?;
    append_all(
        asm,
        &[
            is_negative(CHECK, a),
            is_negative(OTHER_CHECK, b),
            on_registers(OpOp::And, CHECK, CHECK, OTHER_CHECK),
            on_registers(OpOp::Div, to, a, b),
            is_negative(OTHER_CHECK, to),
            on_registers(OpOp::And, CHECK, CHECK, OTHER_CHECK),
        ],
    )?;
    asm.branch(BranchOp::Bne, CHECK, ZERO, nothing)
}

/// Appends a remainder, with the sign of the dividend.
fn append_remainder(asm: &mut Asm, to: Reg, a: Reg, b: Reg, nothing: Label) -> Result<(), Memory>
    requires { nothing < asm.old.labels }
    ensures ok { OnOk result (asm.new ≡ extended asm.old (remainder_items to a b nothing)) }
    ensures err { OnErr result (AppendsFrontOf (remainder_items to a b nothing) asm.old asm.new) }
{
    append_divisor_test(asm, b, nothing)?;
    asm.emit(on_registers(OpOp::Rem, to, a, b))
}

/// Appends a comparison of two words: whether they are the same.
fn append_sameness(asm: &mut Asm, to: Reg, a: Reg, b: Reg, nothing: Label) -> Result<(), Memory>
    ensures ok { OnOk result (asm.new ≡ extended asm.old (operation_items Is to a b nothing)) }
    ensures err { OnErr result
        (AppendsFrontOf (operation_items Is to a b nothing) asm.old asm.new) }
{
    append_all(
        asm,
        &[
            on_registers(OpOp::Sub, to, a, b),
            on_immediate(OpImmOp::Sltiu, to, to, 1),
        ],
    )
}

/// Appends an operation on the values in two registers.
pub(crate) fn append_operation(
    asm: &mut Asm,
    operation: Two,
    to: Reg,
    a: Reg,
    b: Reg,
    nothing: Label,
) -> Result<(), Memory>
    requires { nothing < asm.old.labels }
    ensures ok { OnOk result (asm.new ≡ extended asm.old (operation_items (two_viewed operation)
        to a b nothing)) }
    ensures err { OnErr result (AppendsFrontOf (operation_items (two_viewed operation)
        to a b nothing) asm.old asm.new) }
{
    match operation {
        Two::Sum if a.0 < b.0 => append_sum(asm, to, a, b, nothing),
        Two::Sum => append_sum(asm, to, b, a, nothing),
        Two::Difference => append_difference(asm, to, a, b, nothing),
        Two::Product => append_product(asm, to, a, b, nothing),
        Two::Quotient => append_quotient(asm, to, a, b, nothing),
        Two::Remainder => append_remainder(asm, to, a, b, nothing),
        Two::Is => append_sameness(asm, to, a, b, nothing),
        Two::Less => asm.emit(on_registers(OpOp::Slt, to, a, b)),
        Two::BothOf => asm.emit(on_registers(OpOp::And, to, a, b)),
        Two::EitherOf => asm.emit(on_registers(OpOp::Or, to, a, b)),
    }
}

/// Appends an operation on the value in a register.
pub(crate) fn append_one(
    asm: &mut Asm,
    operation: One,
    to: Reg,
    a: Reg,
    nothing: Label,
) -> Result<(), Memory>
    requires { nothing < asm.old.labels }
    ensures ok { OnOk result
        (asm.new ≡ extended asm.old (one_items (one_viewed operation) to a nothing)) }
    ensures err { OnErr result
        (AppendsFrontOf (one_items (one_viewed operation) to a nothing) asm.old asm.new) }
{
    match operation {
        One::Negation => append_difference(asm, to, ZERO, a, nothing),
        One::Not => asm.emit(on_immediate(OpImmOp::Xori, to, a, 1)),
    }
}

/// Appends a sum with a constant of 12 bits. It doesn't go to the register of its other part.
pub(crate) fn append_addition(
    asm: &mut Asm,
    to: Reg,
    a: Reg,
    constant: i32,
    nothing: Label,
) -> Result<(), Memory>
    requires label { nothing < asm.old.labels }
    requires small { IsTrue (has_bits 12 constant) }
    ensures ok { OnOk result (asm.new ≡ extended asm.old (addition_items to a constant nothing)) }
    ensures err { OnErr result
        (AppendsFrontOf (addition_items to a constant nothing) asm.old asm.new) }
{
    asm.emit(on_immediate(OpImmOp::Addi, to, a, constant))?;
    if constant < 0 {
        asm.branch(BranchOp::Bge, to, a, nothing)
    } else {
        asm.branch(BranchOp::Blt, to, a, nothing)
    }
}

/// A load of the word at a distance of bytes from the address in a register.
fn load(rd: Reg, rs1: Reg, imm: i32) -> Inst
    ensures { result ≡ Inst.Load LoadOp.Ld rd rs1 imm }
{
    Inst::Load {
        op: LoadOp::Ld,
        rd,
        rs1,
        imm,
    }
}

/// Appends what loads the word of what a cell holds, by the cell's address in a register, and goes
/// to the label where the cell is unset.
pub(crate) fn append_content(asm: &mut Asm, to: Reg, a: Reg, nothing: Label) -> Result<(), Memory>
    requires { nothing < asm.old.labels }
    ensures ok { OnOk result (asm.new ≡ extended asm.old (content_items to a nothing)) }
    ensures err { OnErr result (AppendsFrontOf (content_items to a nothing) asm.old asm.new) }
{
    asm.emit(load(CHECK, a, 0))?;
    asm.branch(BranchOp::Beq, CHECK, ZERO, nothing)?;
    asm.emit(load(to, a, 8))
}
