//! The entries for the ends of a run, for failures and for escapes.

ghost use Rattle.std.specs.Prelude.{◌≡◌, ◌+◌, ◌<◌, ◌≤◌, [], ◌++◌, ◌∷◌, OnOk, map};
ghost use Rattle.rv_asm.specs.Pieces.{appended};
ghost use Rattle.rv_prelude.specs.Items.{extended, AreFresh, exit_items, ends_items, fail_items, escape_items};
ghost use Rattle.rv_prelude.specs.Pieces.{restore_alternative, restore_trap, resume};

use crate::emitting::{FRAME, REGION, ZERO, add_small, load, pass_where_other, store};
use crate::entries::Entries;
use acg_base::Memory;
use rv_asm::pieces::exit_with;
use rv_asm::{Asm, Label};
use rv_code::{BranchOp, Inst, Reg};

/// Holds the address of a record.
const RECORD: Reg = Reg(5);

/// Holds a word of a record on its way.
const WORD: Reg = Reg(6);

/// Holds the alternative that stays open behind an escape, and then the trap.
const CHAIN: Reg = Reg(7);

/// Appends an entry that ends the run with a code.
fn append_exit(asm: &mut Asm, label: Label, code: u8) -> Result<(), Memory>
    requires made { label < asm.old.labels }
    requires fresh { AreFresh label asm.old.items }
    ensures items { OnOk result (asm.new ≡ extended asm.old (exit_items label code)) }
    ensures fresh { OnOk result (AreFresh (label + 1) asm.new.items) }
{
    asm.place(label);
    exit_with(asm, code)
}

/// Appends the entries that end the run.
pub(crate) fn append_ends(asm: &mut Asm, entries: &Entries) -> Result<(), Memory>
    requires made { entries.now.full < asm.old.labels }
    requires fresh { AreFresh entries.now.completed asm.old.items }
    requires failed { entries.now.failed ≡ entries.now.completed + 1 }
    requires escaped { entries.now.escaped ≡ entries.now.completed + 2 }
    requires full { entries.now.full ≡ entries.now.completed + 3 }
    ensures items { OnOk result (asm.new ≡ extended asm.old (ends_items entries.now)) }
    ensures fresh { OnOk result (AreFresh (entries.now.completed + 4) asm.new.items) }
{
    append_exit(asm, entries.completed, 0)?;
    append_exit(asm, entries.failed, 1)?;
    append_exit(asm, entries.escaped, 2)?;
    append_exit(asm, entries.full, 3)
}

/// Appends what goes on as a record keeps it: its frame, and then its address.
fn append_resume(asm: &mut Asm) -> Result<(), Memory>
    ensures { OnOk result (asm.new ≡ appended asm.old resume) }
{
    load(asm, FRAME, RECORD, 4)?;
    load(asm, RECORD, RECORD, 1)?;
    asm.emit(Inst::Jalr {
        rd: ZERO,
        rs1: RECORD,
        imm: 0,
    })
}

/// Appends what takes back the record of an alternative.
fn append_restore_alternative(asm: &mut Asm) -> Result<(), Memory>
    ensures { OnOk result (asm.new ≡ appended asm.old restore_alternative) }
{
    load(asm, WORD, RECORD, 0)?;
    store(asm, REGION, WORD, 1)?;
    load(asm, WORD, RECORD, 2)?;
    store(asm, REGION, WORD, 2)?;
    load(asm, WORD, RECORD, 3)?;
    store(asm, REGION, WORD, 3)?;
    append_resume(asm)
}

/// Appends what takes back the record of a trap.
fn append_restore_trap(asm: &mut Asm) -> Result<(), Memory>
    ensures { OnOk result (asm.new ≡ appended asm.old restore_trap) }
{
    load(asm, WORD, REGION, 3)?;
    add_small(asm, CHAIN, ZERO, 0)?;
    pass_where_other(asm, WORD, ZERO, 12)?;
    load(asm, CHAIN, RECORD, 0)?;
    load(asm, WORD, RECORD, 3)?;
    store(asm, REGION, CHAIN, 1)?;
    load(asm, CHAIN, RECORD, 2)?;
    store(asm, REGION, CHAIN, 2)?;
    store(asm, REGION, WORD, 3)?;
    append_resume(asm)
}

/// Appends the entry for failures.
pub(crate) fn append_fail(asm: &mut Asm, entries: &Entries) -> Result<(), Memory>
    requires made { entries.now.fail < asm.old.labels }
    requires failed { entries.now.failed < asm.old.labels }
    requires fresh { AreFresh entries.now.fail asm.old.items }
    ensures items { OnOk result (asm.new ≡ extended asm.old (fail_items entries.now)) }
    ensures fresh { OnOk result (AreFresh (entries.now.fail + 1) asm.new.items) }
{
    asm.place(entries.fail);
    load(asm, RECORD, REGION, 1)?;
    asm.branch(BranchOp::Beq, RECORD, ZERO, entries.failed)?;
    append_restore_alternative(asm)
}

/// Appends the entry for escapes.
pub(crate) fn append_escape(asm: &mut Asm, entries: &Entries) -> Result<(), Memory>
    requires made { entries.now.escape < asm.old.labels }
    requires escaped { entries.now.escaped < asm.old.labels }
    requires fresh { AreFresh entries.now.escape asm.old.items }
    ensures items { OnOk result (asm.new ≡ extended asm.old (escape_items entries.now)) }
    ensures fresh { OnOk result (AreFresh (entries.now.escape + 1) asm.new.items) }
{
    asm.place(entries.escape);
    load(asm, RECORD, REGION, 2)?;
    asm.branch(BranchOp::Beq, RECORD, ZERO, entries.escaped)?;
    append_restore_trap(asm)
}
