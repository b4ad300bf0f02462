//! The code of a yielder, in a register or in a word of the frame.

ghost use Rattle.std.specs.Prelude.{◌≡◌, ℕ, ◌<◌, ◌≤◌, ◌+◌, ◌*◌, OnOk, OnErr, All, true};
ghost use Rattle.rv_asm.specs.Assembly.{total, is_placed};
ghost use Rattle.action_terms.specs.Forms.{yielder_at, IsDatum};
ghost use Rattle.action_terms.specs.Need.{yielder_count};
ghost use Rattle.action_terms.specs.Numbering.{node_limit};
ghost use Rattle.rv_yield.specs.Calls.{calls};
ghost use Rattle.rv_yield.specs.Evaluates.{Evaluates, Stores};
ghost use Rattle.rv_yield.specs.Fronts.{extended, AppendsFrontOf};
ghost use Rattle.rv_yield.specs.Holding.{slots_of};
ghost use Rattle.rv_yield.specs.Registers.{HasWords, registers_needed, is_built, first_register, registers_end};
ghost use Rattle.rv_yield.specs.Sources.{places_of, places_in};
ghost use Rattle.rv_yield.specs.YielderCode.{value_items, stored_items};

use crate::needs::registers_needed;
use crate::source::Source;
use crate::tasks::{Task, append_task};
use crate::words::append_store;
use acg_base::Memory;
use action_terms::Graph;
use rv_asm::{Asm, Label};
use rv_code::Reg;
use std::alloc::Global;

/// Holds a value that is stored.
const VALUE: Reg = Reg(10);

/// Where the code of a yielder finds data and leaves its datum, as offsets from the frame in
/// words, and where it goes to where there is none.
#[derive(Clone, Copy)]
pub struct Slots<'a> {
    /// Where the data that are given stand, one for each.
    pub given: &'a [u32],
    /// Where what tokens are bound to stands, by the token's bytes. A token that isn't there counts
    /// as not bound.
    pub bound: &'a [(&'a [u8], u32)],
    /// The word for the datum.
    pub target: u32,
    /// The label for a yielder that yields nothing.
    pub nothing: Label,
}

/// Appends code that leaves the word of a yielder's datum in a register, by way of those behind
/// it, and goes to a label where the yielder yields nothing. An `Err` says want of memory;
/// the assembler then holds a front of the code, and is to be given up.
pub fn value_code(
    alloc: Global,
    asm: &mut Asm,
    source: &Source<'_>,
    yielder: u32,
    register: Reg,
) -> Result<(), Memory>
    requires datum { IsDatum source.now.graph.now.yielders yielder }
    requires built { is_built (yielder_at source.now.graph.now.yielders yielder) ≡ true }
    requires first { first_register ≤ register }
    requires room { register + registers_needed (yielder_at source.now.graph.now.yielders yielder)
        ≤ registers_end }
    requires label { source.now.nothing < asm.old.labels }
    ensures items { OnOk result (asm.new ≡ extended asm.old (value_items (places_of source.now)
        register register source.now.nothing
        (yielder_at source.now.graph.now.yielders yielder))) }
    ensures evaluates { OnOk result (Evaluates (places_of source.now) register source.now.nothing
        (yielder_at source.now.graph.now.yielders yielder) asm.old asm.new) }
    ensures short { OnOk result (total asm.new.items ≤ total asm.old.items
        + 12 * yielder_count (yielder_at source.now.graph.now.yielders yielder)) }
    ensures placed { OnOk result ((l : ℕ) → is_placed asm.new.items l ≡ is_placed asm.old.items l) }
    ensures quiet { OnOk result (calls asm.new.items ≡ calls asm.old.items) }
    ensures words { OnOk result (HasWords
        (yielder_at source.now.graph.now.yielders yielder)) }
    ensures err { OnErr result (AppendsFrontOf (value_items (places_of source.now) register register
        source.now.nothing (yielder_at source.now.graph.now.yielders yielder)) asm.old asm.new) }
{
    let mut tasks = Vec::new(alloc);
    tasks.push(Task::Value(yielder, register, register))?;
    while let Some(task) = tasks.pop() {
        append_task(asm, &mut tasks, source, task)?;
    }
    Ok(())
}

/// Appends code that leaves the word of a yielder's datum in a word of the frame, by its offset in
/// words, and goes to a label where the yielder yields nothing. An `Err` says want of memory; the
/// assembler then holds a front of the code, and is to be given up.
pub fn stored_code(
    alloc: Global,
    asm: &mut Asm,
    source: &Source<'_>,
    yielder: u32,
    target: u32,
) -> Result<(), Memory>
    requires datum { IsDatum source.now.graph.now.yielders yielder }
    requires built { is_built (yielder_at source.now.graph.now.yielders yielder) ≡ true }
    requires few { yielder_count (yielder_at source.now.graph.now.yielders yielder) < node_limit }
    requires target { target < 33554432 }
    requires label { source.now.nothing < asm.old.labels }
    ensures items { OnOk result (asm.new ≡ extended asm.old (stored_items (places_of source.now)
        target source.now.nothing (yielder_at source.now.graph.now.yielders yielder))) }
    ensures stores { OnOk result (Stores (places_of source.now) target source.now.nothing
        (yielder_at source.now.graph.now.yielders yielder) asm.old asm.new) }
    ensures short { OnOk result (total asm.new.items ≤ total asm.old.items
        + 22 * yielder_count (yielder_at source.now.graph.now.yielders yielder)) }
    ensures placed { OnOk result ((l : ℕ) → is_placed asm.new.items l ≡ is_placed asm.old.items l) }
    ensures quiet { OnOk result (calls asm.new.items ≡ calls asm.old.items) }
    ensures err { OnErr result (AppendsFrontOf (stored_items (places_of source.now) target
        source.now.nothing (yielder_at source.now.graph.now.yielders yielder)) asm.old asm.new) }
{
    value_code(alloc, asm, source, yielder, VALUE)?;
    append_store(asm, target)
}

/// Appends the code of one yielder of an action, by itself, as `stored_code` does: it looks at all
/// yielders to find what registers they need. An `Err` says want of memory; the assembler then
/// holds a front of the code, and is to be given up.
pub fn yield_code(
    alloc: Global,
    asm: &mut Asm,
    graph: &Graph<'_>,
    yielder: u32,
    slots: &Slots<'_>,
) -> Result<(), Memory>
    requires datum { IsDatum graph.now.yielders yielder }
    requires built { is_built (yielder_at graph.now.yielders yielder) ≡ true }
    requires few { yielder_count (yielder_at graph.now.yielders yielder) < node_limit }
    requires given { All (λ offset. offset < 33554432) slots.now.given.now }
    requires bound { All (λ slot. slot.offset < 33554432) (slots_of slots.now.bound.now) }
    requires target { slots.now.target < 33554432 }
    requires label { slots.now.nothing < asm.old.labels }
    ensures items { OnOk result (asm.new ≡ extended asm.old (stored_items (places_in slots.now)
        slots.now.target slots.now.nothing (yielder_at graph.now.yielders yielder))) }
    ensures stores { OnOk result (Stores (places_in slots.now) slots.now.target slots.now.nothing
        (yielder_at graph.now.yielders yielder) asm.old asm.new) }
    ensures short { OnOk result (total asm.new.items ≤ total asm.old.items
        + 22 * yielder_count (yielder_at graph.now.yielders yielder)) }
    ensures placed { OnOk result ((l : ℕ) → is_placed asm.new.items l ≡ is_placed asm.old.items l) }
    ensures quiet { OnOk result (calls asm.new.items ≡ calls asm.old.items) }
    ensures err { OnErr result (AppendsFrontOf (stored_items (places_in slots.now) slots.now.target
        slots.now.nothing (yielder_at graph.now.yielders yielder)) asm.old asm.new) }
{
    let needs = registers_needed(alloc, graph)?;
    let source = Source {
        graph,
        needs: &needs,
        given: slots.given,
        bound: slots.bound,
        nothing: slots.nothing,
    };
    stored_code(alloc, asm, &source, yielder, slots.target)
}
