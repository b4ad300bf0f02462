//! The first instructions: registers and the ends of stack and units.

ghost use Rattle.std.specs.Prelude.{◌≡◌, ◌+◌, ◌*◌, ◌<◌, ◌≤◌, [], ◌++◌, ◌∷◌, OnOk, map};
ghost use Rattle.rv_asm.specs.Pieces.{appended};
ghost use Rattle.rv_prelude.specs.Items.{extended, first_items};
ghost use Rattle.rv_prelude.specs.Pieces.{round_up, store_ends, store_stack_end, store_units_end};

use crate::emitting::{FRAME, REGION, add, add_small, store};
use crate::entries::Entries;
use acg_base::{Capacity, Memory};
use rv_asm::Asm;
use rv_asm::pieces::load_constant;
use rv_code::{Inst, Reg, ShiftOp, UpperOp};

/// Holds the address of the stack's end, and of the first unit.
const STACK_END: Reg = Reg(5);

/// Holds the address of the units' end.
const UNITS_END: Reg = Reg(6);

/// Appends what rounds the address of the code's end up to that of the region, and finds the stack.
fn append_round_up(asm: &mut Asm) -> Result<(), Memory>
    ensures { OnOk result (asm.new ≡ appended asm.old round_up) }
{
    add_small(asm, REGION, REGION, 2047)?;
    add_small(asm, REGION, REGION, 2047)?;
    add_small(asm, REGION, REGION, 1)?;
    asm.emit(Inst::Shift {
        op: ShiftOp::Srli,
        rd: REGION,
        rs1: REGION,
        amount: 12,
    })?;
    asm.emit(Inst::Shift {
        op: ShiftOp::Slli,
        rd: REGION,
        rs1: REGION,
        amount: 12,
    })?;
    asm.emit(Inst::Upper {
        op: UpperOp::Lui,
        rd: FRAME,
        imm: 4096,
    })?;
    add(asm, FRAME, FRAME, REGION)
}

/// Appends what stores the address of the stack's end, which is that of the first unit too.
fn append_stack_end(asm: &mut Asm) -> Result<(), Memory>
    ensures { OnOk result (asm.new ≡ appended asm.old store_stack_end) }
{
    add(asm, STACK_END, STACK_END, REGION)?;
    store(asm, REGION, STACK_END, 5)?;
    store(asm, REGION, STACK_END, 6)
}

/// Appends what stores the address of the units' end.
fn append_units_end(asm: &mut Asm) -> Result<(), Memory>
    ensures { OnOk result (asm.new ≡ appended asm.old store_units_end) }
{
    add(asm, UNITS_END, UNITS_END, STACK_END)?;
    store(asm, REGION, UNITS_END, 7)
}

/// Appends what stores the ends of stack and units.
fn append_ends(asm: &mut Asm, capacity: Capacity) -> Result<(), Memory>
    requires stack { capacity.stack ≤ 16777216 }
    requires units { capacity.units ≤ 4194304 }
    ensures { OnOk result (asm.new ≡ appended asm.old (store_ends capacity.stack capacity.units)) }
{
    load_constant(asm, STACK_END, 4096 + 8 * capacity.stack)?;
    append_stack_end(asm)?;
    load_constant(asm, UNITS_END, 16 * capacity.units)?;
    append_units_end(asm)
}

/// Appends the first instructions, which set the registers of the region and of the frame, and go
/// to the start.
pub(crate) fn append_first(
    asm: &mut Asm,
    entries: &Entries,
    capacity: Capacity,
) -> Result<(), Memory>
    requires stack { capacity.stack ≤ 16777216 }
    requires units { capacity.units ≤ 4194304 }
    requires end { entries.now.code_end < asm.old.labels }
    requires start { entries.now.start < asm.old.labels }
    ensures { OnOk result
        (asm.new ≡ extended asm.old (first_items entries.now capacity.stack capacity.units)) }
{
    asm.address(REGION, entries.code_end)?;
    append_round_up(asm)?;
    append_ends(asm, capacity)?;
    asm.jump(entries.start)
}
