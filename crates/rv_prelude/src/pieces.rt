//! Pieces that stand in the code of nodes: commitments, records of alternatives and traps, and
//! units. After an `Err`, which says want of memory, the assembler is to be given up.

ghost use Rattle.std.specs.Prelude.{◌≡◌, ℕ, ◌+◌, ◌*◌, ◌<◌, ◌≤◌, [], ◌++◌, ◌∷◌, OnOk, map};
ghost use Rattle.rv_asm.specs.Assembly.{total, is_placed};
ghost use Rattle.rv_asm.specs.Pieces.{appended};
ghost use Rattle.rv_prelude.specs.Items.{extended};
ghost use Rattle.rv_prelude.specs.PieceRuns.{Commits, OpensAlternative, OpensTrap, ClosesAlternative, LeavesAlternative, ClosesTrap, TakesUnits, PassesUnits};
ghost use Rattle.rv_prelude.specs.Pieces.{commit, record_address, keep_record, head_alternative, head_trap, open_alternative_items, open_trap_items, close_alternative, unlink_alternative, close_trap, unlink_trap, find_units, count_units, take_items};

use crate::emitting::{FRAME, REGION, ZERO, add, add_small, load, pass_where_other, store};
use acg_base::Memory;
use rv_asm::pieces::load_constant;
use rv_asm::{Asm, Label};
use rv_code::{BranchOp, Inst, Reg, ShiftOp};

/// Holds a word on its way, or the count of spent units.
const WORD: Reg = Reg(5);

/// Holds the address at which a record goes on, the head of a chain, or the end of units.
const OTHER: Reg = Reg(6);

/// Holds the address of a record, or the end of all units.
const RECORD: Reg = Reg(7);

/// Holds the address of units that were taken.
const UNIT: Reg = Reg(8);

/// Appends three instructions that commit: no alternative is open behind them, and the mark is set.
/// They change register 5.
pub fn commit(asm: &mut Asm) -> Result<(), Memory>
    ensures ok { OnOk result (asm.new ≡ appended asm.old commit) }
    ensures commits { OnOk result (Commits asm.old asm.new) }
    ensures short { OnOk result (total asm.new.items ≤ total asm.old.items + 3) }
    ensures placed { OnOk result ((l : ℕ) → is_placed asm.new.items l ≡ is_placed asm.old.items l) }
{
    store(asm, REGION, ZERO, 1)?;
    add_small(asm, WORD, ZERO, 1)?;
    store(asm, REGION, WORD, 3)
}

/// Appends what finds the address of the word at an offset of the frame.
fn append_record_address(asm: &mut Asm, keep: u32) -> Result<(), Memory>
    requires { keep < 33554432 }
    ensures { OnOk result (asm.new ≡ appended asm.old (record_address keep)) }
{
    if keep < 256 {
        return add_small(asm, RECORD, FRAME, 8 * keep as u16);
    }
    load_constant(asm, RECORD, 8 * u64::from(keep))?;
    add(asm, RECORD, RECORD, FRAME)
}

/// Appends what writes a record.
fn append_keep_record(asm: &mut Asm) -> Result<(), Memory>
    ensures { OnOk result (asm.new ≡ appended asm.old keep_record) }
{
    load(asm, WORD, REGION, 1)?;
    store(asm, RECORD, WORD, 0)?;
    store(asm, RECORD, OTHER, 1)?;
    load(asm, WORD, REGION, 2)?;
    store(asm, RECORD, WORD, 2)?;
    load(asm, WORD, REGION, 3)?;
    store(asm, RECORD, WORD, 3)?;
    store(asm, RECORD, FRAME, 4)
}

/// Appends what makes a record that of the innermost trap.
fn append_head_trap(asm: &mut Asm) -> Result<(), Memory>
    ensures { OnOk result (asm.new ≡ appended asm.old head_trap) }
{
    store(asm, REGION, RECORD, 2)?;
    store(asm, REGION, ZERO, 3)
}

/// Appends at most 20 instructions that open the record of an alternative, in the 8 words from an
/// offset of the frame on, in words. A failure goes on at the label.
pub fn open_alternative(asm: &mut Asm, keep: u32, arm: Label) -> Result<(), Memory>
    requires keep { keep < 33554432 }
    requires arm { arm < asm.old.labels }
    ensures ok { OnOk result (asm.new ≡ extended asm.old (open_alternative_items keep arm)) }
    ensures opens { OnOk result (OpensAlternative keep arm asm.old asm.new) }
    ensures short { OnOk result (total asm.new.items ≤ total asm.old.items + 20) }
    ensures placed { OnOk result ((l : ℕ) → is_placed asm.new.items l ≡ is_placed asm.old.items l) }
{
    append_record_address(asm, keep)?;
    asm.address(OTHER, arm)?;
    append_keep_record(asm)?;
    store(asm, REGION, RECORD, 1)
}

/// Appends at most 21 instructions that open the record of a trap, in the 8 words from an offset of
/// the frame on, in words. An escape goes on at the label.
pub fn open_trap(asm: &mut Asm, keep: u32, handler: Label) -> Result<(), Memory>
    requires keep { keep < 33554432 }
    requires handler { handler < asm.old.labels }
    ensures ok { OnOk result (asm.new ≡ extended asm.old (open_trap_items keep handler)) }
    ensures opens { OnOk result (OpensTrap keep handler asm.old asm.new) }
    ensures short { OnOk result (total asm.new.items ≤ total asm.old.items + 21) }
    ensures placed { OnOk result ((l : ℕ) → is_placed asm.new.items l ≡ is_placed asm.old.items l) }
{
    append_record_address(asm, keep)?;
    asm.address(OTHER, handler)?;
    append_keep_record(asm)?;
    append_head_trap(asm)
}

/// Appends at most 13 instructions that close the record of an alternative at an offset of the
/// frame, in words, where it is still the innermost. Where a commitment has closed it, they leave
/// all as it is.
pub fn close_alternative(asm: &mut Asm, keep: u32) -> Result<(), Memory>
    requires { keep < 33554432 }
    ensures ok { OnOk result (asm.new ≡ appended asm.old (close_alternative keep)) }
    ensures closes { OnOk result (ClosesAlternative keep asm.old asm.new) }
    ensures leaves { OnOk result (LeavesAlternative keep asm.old asm.new) }
    ensures short { OnOk result (total asm.new.items ≤ total asm.old.items + 13) }
    ensures placed { OnOk result ((l : ℕ) → is_placed asm.new.items l ≡ is_placed asm.old.items l) }
{
    append_record_address(asm, keep)?;
    load(asm, OTHER, REGION, 1)?;
    pass_where_other(asm, RECORD, OTHER, 12)?;
    load(asm, OTHER, RECORD, 0)?;
    store(asm, REGION, OTHER, 1)
}

/// Appends at most 15 instructions that close the record of a trap at an offset of the frame, in
/// words. A commitment that was made within the trap is one outside it.
pub fn close_trap(asm: &mut Asm, keep: u32) -> Result<(), Memory>
    requires { keep < 33554432 }
    ensures ok { OnOk result (asm.new ≡ appended asm.old (close_trap keep)) }
    ensures closes { OnOk result (ClosesTrap keep asm.old asm.new) }
    ensures short { OnOk result (total asm.new.items ≤ total asm.old.items + 15) }
    ensures placed { OnOk result ((l : ℕ) → is_placed asm.new.items l ≡ is_placed asm.old.items l) }
{
    append_record_address(asm, keep)?;
    load(asm, WORD, RECORD, 2)?;
    store(asm, REGION, WORD, 2)?;
    load(asm, WORD, REGION, 3)?;
    pass_where_other(asm, WORD, ZERO, 8)?;
    load(asm, WORD, RECORD, 3)?;
    store(asm, REGION, WORD, 3)
}

/// Appends what finds the next units, and their end.
fn append_find_units(asm: &mut Asm, n: u8) -> Result<(), Memory>
    requires { n < 128 }
    ensures { OnOk result (asm.new ≡ appended asm.old (find_units n)) }
{
    load(asm, WORD, REGION, 4)?;
    load(asm, UNIT, REGION, 6)?;
    load(asm, RECORD, REGION, 7)?;
    asm.emit(Inst::Shift {
        op: ShiftOp::Slli,
        rd: OTHER,
        rs1: WORD,
        amount: 4,
    })?;
    add(asm, UNIT, UNIT, OTHER)?;
    add_small(asm, OTHER, UNIT, 16 * n as u16)
}

/// Appends at most 11 instructions, of which 9 are performed, that take `n` units: register 8 has
/// the address of the first. Where they would pass, they go to the label and change nothing but
/// registers 5 to 8 and 31.
pub fn take_units(asm: &mut Asm, n: u8, full: Label) -> Result<(), Memory>
    requires few { n < 128 }
    requires full { full < asm.old.labels }
    ensures ok { OnOk result (asm.new ≡ extended asm.old (take_items n full)) }
    ensures takes { OnOk result (TakesUnits n asm.old asm.new) }
    ensures passes { OnOk result (PassesUnits n full asm.old asm.new) }
    ensures short { OnOk result (total asm.new.items ≤ total asm.old.items + 11) }
    ensures placed { OnOk result ((l : ℕ) → is_placed asm.new.items l ≡ is_placed asm.old.items l) }
{
    append_find_units(asm, n)?;
    asm.branch(BranchOp::Bltu, RECORD, OTHER, full)?;
    add_small(asm, WORD, WORD, n as u16)?;
    store(asm, REGION, WORD, 4)
}
