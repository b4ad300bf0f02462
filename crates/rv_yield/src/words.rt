//! Words of the frame: loaded into a register, and stored.

ghost use Rattle.std.specs.Prelude.{◌≡◌, ℕ, ◌≢◌, ◌<◌, Option, OnOk, OnErr, map, Some, None};
ghost use Rattle.rv_asm.specs.declared.item.Item.TheVariants.{Plain};
ghost use Rattle.rv_yield.specs.Fronts.{extended, AppendsFrontOf};
ghost use Rattle.rv_yield.specs.YielderCode.{load_items, placed_items, store_items};

use crate::emitting::append_all;
use acg_base::Memory;
use rv_asm::pieces::load_constant;
use rv_asm::{Asm, Label};
use rv_code::{Inst, LoadOp, OpOp, Reg, StoreOp};

/// Holds the address of the frame.
const FRAME: Reg = Reg(2);

/// Holds a value that is stored, and, where it is stored far from the frame's address, its own
/// address.
const VALUE: Reg = Reg(10);

const FAR: Reg = Reg(11);

/// Adds the frame's address to a distance from it.
fn add_frame(rd: Reg) -> Inst
    ensures { result ≡ Inst.Op OpOp.Add rd rd 2 }
{
    Inst::Op {
        op: OpOp::Add,
        rd,
        rs1: rd,
        rs2: FRAME,
    }
}

/// Appends what loads the word at an offset of the frame, in words.
pub fn append_load(asm: &mut Asm, to: Reg, offset: u32) -> Result<(), Memory>
    requires { offset < 33554432 }
    ensures ok { OnOk result (asm.new ≡ extended asm.old (map Plain (load_items to offset))) }
    ensures err { OnErr result
        (AppendsFrontOf (map Plain (load_items to offset)) asm.old asm.new) }
{
    if offset < 256 {
        return asm.emit(Inst::Load {
            op: LoadOp::Ld,
            rd: to,
            rs1: FRAME,
            imm: 8 * offset as i32,
        });
    }
    load_constant(asm, to, 8 * u64::from(offset))?;
    append_all(
        asm,
        &[
            add_frame(to),
            Inst::Load {
                op: LoadOp::Ld,
                rd: to,
                rs1: to,
                imm: 0,
            },
        ],
    )
}

/// Appends what loads the word at an offset of the frame, in words, or goes to a label where there
/// is none.
pub(crate) fn append_placed(
    asm: &mut Asm,
    offset: Option<u32>,
    to: Reg,
    nothing: Label,
) -> Result<(), Memory>
    requires label { nothing < asm.old.labels }
    requires near { (n : ℕ) → offset ≡ Some n → n < 33554432 }
    ensures ok { OnOk result (asm.new ≡ extended asm.old (placed_items offset to nothing)) }
    ensures err { OnErr result (AppendsFrontOf (placed_items offset to nothing) asm.old asm.new) }
{
    match offset {
        Some(offset) => append_load(asm, to, offset),
        None => asm.jump(nothing),
    }
}

/// Appends what stores the value at an offset of the frame, in words.
pub fn append_store(asm: &mut Asm, offset: u32) -> Result<(), Memory>
    requires { offset < 33554432 }
    ensures ok { OnOk result (asm.new ≡ extended asm.old (map Plain (store_items offset))) }
    ensures err { OnErr result (AppendsFrontOf (map Plain (store_items offset)) asm.old asm.new) }
{
    if offset < 256 {
        return asm.emit(Inst::Store {
            op: StoreOp::Sd,
            rs1: FRAME,
            rs2: VALUE,
            imm: 8 * offset as i32,
        });
    }
    load_constant(asm, FAR, 8 * u64::from(offset))?;
    append_all(
        asm,
        &[
            add_frame(FAR),
            Inst::Store {
                op: StoreOp::Sd,
                rs1: FAR,
                rs2: VALUE,
                imm: 0,
            },
        ],
    )
}
