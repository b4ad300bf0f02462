//! The prelude: labels, and all of its code.

ghost use Rattle.std.specs.Prelude.{◌≡◌, ◌+◌, ◌<◌, ◌≤◌, [], OnOk, IfOk};
ghost use Rattle.rv_asm.specs.Assembly.{total};
ghost use Rattle.rv_prelude.specs.EntryRuns.{Whatever, Starts, Ends, FailsToRecord, FailsOut, EscapesToRecord, EscapesOut, CommitsBack, SendsBack, ReceivesBack, ReceivesNone, AllocatesBack, AllocatesNone};
ghost use Rattle.rv_prelude.specs.Items.{extended, AreFresh, entry_count, entries_from, entries_items, prelude_items};

use crate::resuming::{append_ends, append_escape, append_fail};
use crate::returning::{append_allocate, append_commit, append_receive, append_send};
use crate::starting::append_first;
use acg_base::{Capacity, Memory};
use rv_asm::{Asm, Label};

/// The labels of the entries. `commit`, `send`, `receive` and `allocate` are reached with the
/// address to return to in register 1. The others don't return.
#[derive(Clone, Copy)]
pub struct Entries {
    /// Exits with 0.
    pub completed: Label,
    /// Exits with 1.
    pub failed: Label,
    /// Exits with 2.
    pub escaped: Label,
    /// Exits with 3.
    pub full: Label,
    /// Goes to the innermost open alternative, and to `failed` where none is open.
    pub fail: Label,
    /// Goes to the innermost trap, and to `escaped` where there is none. Register 10 has the
    /// address of the data.
    pub escape: Label,
    /// Closes every open alternative.
    pub commit: Label,
    /// Sends the integer in register 10, and commits.
    pub send: Label,
    /// Receives an integer into register 10, and commits; goes to `fail` where none is left.
    pub receive: Label,
    /// Takes a unit for a cell, whose address goes to register 10, and commits; goes to `full`
    /// where no unit is left.
    pub allocate: Label,
    /// Where the first instructions arrive. The caller places it.
    pub start: Label,
    /// The end of the code. The caller places it behind its last instruction.
    pub code_end: Label,
}

/// The labels of the entries.
fn make_entries(asm: &mut Asm) -> Result<Entries, Memory>
    ensures entries { IfOk result (λ entries. entries ≡ entries_from asm.old.labels) }
    ensures asm { OnOk result
        (asm.new ≡ record asm.old { labels = asm.old.labels + entry_count }) }
{
    Ok(Entries {
        completed: asm.label()?,
        failed: asm.label()?,
        escaped: asm.label()?,
        full: asm.label()?,
        fail: asm.label()?,
        escape: asm.label()?,
        commit: asm.label()?,
        send: asm.label()?,
        receive: asm.label()?,
        allocate: asm.label()?,
        start: asm.label()?,
        code_end: asm.label()?,
    })
}

/// Appends the entries.
fn append_entries(asm: &mut Asm, entries: &Entries) -> Result<(), Memory>
    requires labels { entries.now ≡ entries_from entries.now.completed }
    requires made { entries.now.completed + entry_count ≤ asm.old.labels }
    requires fresh { AreFresh entries.now.completed asm.old.items }
    ensures items { OnOk result (asm.new ≡ extended asm.old (entries_items entries.now)) }
    ensures fresh { OnOk result (AreFresh (entries.now.completed + 10) asm.new.items) }
{
    append_ends(asm, entries)?;
    append_fail(asm, entries)?;
    append_escape(asm, entries)?;
    append_commit(asm, entries)?;
    append_send(asm, entries)?;
    append_receive(asm, entries)?;
    append_allocate(asm, entries)
}

/// Appends all of the prelude.
fn append_prelude(asm: &mut Asm, capacity: Capacity) -> Result<Entries, Memory>
    requires empty { asm.old.items ≡ [] }
    requires stack { capacity.stack ≤ 16777216 }
    requires units { capacity.units ≤ 4194304 }
    ensures labels { IfOk result (λ entries. entries ≡ entries_from asm.old.labels) }
    ensures asm { OnOk result
        (asm.new ≡ record {
          items = prelude_items (entries_from asm.old.labels) capacity.stack capacity.units;
          labels = asm.old.labels + entry_count;
        }) }
    ensures short { OnOk result (total asm.new.items ≤ 4096) }
    ensures open { OnOk result (AreFresh (asm.old.labels + 10) asm.new.items) }
{
    let entries = make_entries(asm)?;
    append_first(asm, &entries, capacity)?;
    append_entries(asm, &entries)?;
    Ok(entries)
}

/// The first instructions and the entries, at most 4096 words, at the front of the code for a
/// capacity. After an `Err`, which says want of memory, the assembler is to be given up.
///
/// From the first instruction the machine arrives at `start` within 64 instructions: register 3
/// then has the address of the region, and register 2 that of the stack's first word.
pub fn prelude(asm: &mut Asm, capacity: Capacity) -> Result<Entries, Memory>
    requires empty { asm.old.items ≡ [] }
    requires stack_some { 1 ≤ capacity.stack }
    requires stack_few { capacity.stack ≤ 16777216 }
    requires units_some { 1 ≤ capacity.units }
    requires units_few { capacity.units ≤ 4194304 }
    ensures labels { IfOk result (λ entries. entries ≡ entries_from asm.old.labels) }
    ensures asm { OnOk result
        (asm.new ≡ record {
          items = prelude_items (entries_from asm.old.labels) capacity.stack capacity.units;
          labels = asm.old.labels + entry_count;
        }) }
    ensures short { OnOk result (total asm.new.items ≤ 4096) }

    // Only `start` and `code_end` are still to be placed.
    ensures open { OnOk result (AreFresh (asm.old.labels + 10) asm.new.items) }

    // What the machine does at each of them, whatever is emitted behind.
    ensures starts { IfOk result (λ e. Whatever asm.new
        (Starts e.start e.code_end capacity.stack capacity.units)) }
    ensures completed { IfOk result (λ e. Whatever asm.new (Ends e.completed 0)) }
    ensures failed { IfOk result (λ e. Whatever asm.new (Ends e.failed 1)) }
    ensures escaped { IfOk result (λ e. Whatever asm.new (Ends e.escaped 2)) }
    ensures full { IfOk result (λ e. Whatever asm.new (Ends e.full 3)) }
    ensures fails { IfOk result (λ e. Whatever asm.new (FailsToRecord e.fail)) }
    ensures fails_out { IfOk result (λ e. Whatever asm.new (FailsOut e.fail e.failed)) }
    ensures escapes { IfOk result (λ e. Whatever asm.new (EscapesToRecord e.escape)) }
    ensures escapes_out { IfOk result (λ e. Whatever asm.new (EscapesOut e.escape e.escaped)) }
    ensures commits { IfOk result (λ e. Whatever asm.new (CommitsBack e.commit)) }
    ensures sends { IfOk result (λ e. Whatever asm.new (SendsBack e.send)) }
    ensures receives { IfOk result (λ e. Whatever asm.new (ReceivesBack e.receive)) }
    ensures receives_none { IfOk result (λ e. Whatever asm.new (ReceivesNone e.receive e.fail)) }
    ensures allocates { IfOk result (λ e. Whatever asm.new (AllocatesBack e.allocate)) }
    ensures allocates_none { IfOk result (λ e. Whatever asm.new (AllocatesNone e.allocate e.full)) }
{
    append_prelude(asm, capacity)
}
