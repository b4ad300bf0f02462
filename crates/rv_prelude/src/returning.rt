//! The entries that return: commitments, messages, input and cells.

ghost use Rattle.std.specs.Prelude.{◌≡◌, ◌+◌, ◌<◌, ◌≤◌, [], ◌++◌, ◌∷◌, OnOk, map};
ghost use Rattle.rv_asm.specs.Pieces.{appended};
ghost use Rattle.rv_prelude.specs.Items.{extended, AreFresh, commit_items, send_items, receive_items, allocate_items};
ghost use Rattle.rv_prelude.specs.Pieces.{commit, go_back, receive_bytes, make_cell};

use crate::emitting::{ARGUMENT, REGION, RETURN, ZERO, add_small, load, store};
use crate::entries::Entries;
use crate::pieces::{commit, take_units};
use acg_base::Memory;
use rv_asm::Asm;
use rv_asm::pieces::send_word;
use rv_code::{BranchOp, Inst, Reg};

/// Holds the bytes of an integer.
const SIZE: Reg = Reg(5);

/// Holds the address of a unit that was taken.
const UNIT: Reg = Reg(8);

/// Appends a commitment, and the way back to the address in register 1.
fn append_return(asm: &mut Asm) -> Result<(), Memory>
    ensures { OnOk result (asm.new ≡ appended asm.old (commit ++ go_back)) }
{
    commit(asm)?;
    asm.emit(Inst::Jalr {
        rd: ZERO,
        rs1: RETURN,
        imm: 0,
    })
}

/// Appends the entry that commits.
pub(crate) fn append_commit(asm: &mut Asm, entries: &Entries) -> Result<(), Memory>
    requires made { entries.now.commit < asm.old.labels }
    requires fresh { AreFresh entries.now.commit asm.old.items }
    ensures items { OnOk result (asm.new ≡ extended asm.old (commit_items entries.now)) }
    ensures fresh { OnOk result (AreFresh (entries.now.commit + 1) asm.new.items) }
{
    asm.place(entries.commit);
    append_return(asm)
}

/// Appends the entry that sends.
pub(crate) fn append_send(asm: &mut Asm, entries: &Entries) -> Result<(), Memory>
    requires made { entries.now.send < asm.old.labels }
    requires fresh { AreFresh entries.now.send asm.old.items }
    ensures items { OnOk result (asm.new ≡ extended asm.old (send_items entries.now)) }
    ensures fresh { OnOk result (AreFresh (entries.now.send + 1) asm.new.items) }
{
    asm.place(entries.send);
    send_word(asm, ARGUMENT, 0)?;
    append_return(asm)
}

/// Appends what receives up to eight bytes into the first word of the region.
fn append_receive_bytes(asm: &mut Asm) -> Result<(), Memory>
    ensures { OnOk result (asm.new ≡ appended asm.old receive_bytes) }
{
    add_small(asm, Reg(11), REGION, 0)?;
    add_small(asm, Reg(12), ZERO, 8)?;
    add_small(asm, Reg(17), ZERO, 63)?;
    add_small(asm, ARGUMENT, ZERO, 0)?;
    asm.emit(Inst::Ecall)?;
    add_small(asm, SIZE, ZERO, 8)
}

/// Appends the entry that receives.
pub(crate) fn append_receive(asm: &mut Asm, entries: &Entries) -> Result<(), Memory>
    requires made { entries.now.receive < asm.old.labels }
    requires fail { entries.now.fail < asm.old.labels }
    requires fresh { AreFresh entries.now.receive asm.old.items }
    ensures items { OnOk result (asm.new ≡ extended asm.old (receive_items entries.now)) }
    ensures fresh { OnOk result (AreFresh (entries.now.receive + 1) asm.new.items) }
{
    asm.place(entries.receive);
    append_receive_bytes(asm)?;
    asm.branch(BranchOp::Bne, ARGUMENT, SIZE, entries.fail)?;
    load(asm, ARGUMENT, REGION, 0)?;
    append_return(asm)
}

/// Appends what makes a unit that of a cell without contents.
fn append_make_cell(asm: &mut Asm) -> Result<(), Memory>
    ensures { OnOk result (asm.new ≡ appended asm.old make_cell) }
{
    store(asm, UNIT, ZERO, 0)?;
    add_small(asm, ARGUMENT, UNIT, 0)
}

/// Appends the entry that allocates a cell.
pub(crate) fn append_allocate(asm: &mut Asm, entries: &Entries) -> Result<(), Memory>
    requires made { entries.now.allocate < asm.old.labels }
    requires full { entries.now.full < asm.old.labels }
    requires fresh { AreFresh entries.now.allocate asm.old.items }
    ensures items { OnOk result (asm.new ≡ extended asm.old (allocate_items entries.now)) }
    ensures fresh { OnOk result (AreFresh (entries.now.allocate + 1) asm.new.items) }
{
    asm.place(entries.allocate);
    take_units(asm, 1, entries.full)?;
    append_make_cell(asm)?;
    append_return(asm)
}
