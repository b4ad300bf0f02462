//! The code of traps: their records, and what hands to a handler what an escape has left.

ghost use Rattle.std.specs.Prelude.{◌≡◌, ◌≢◌, ℕ, ◌+◌, ◌*◌, ◌<◌, ◌≤◌, [], ◌∷◌, ◌++◌, All, OnOk, false, length, slice_index};
ghost use Rattle.rv_asm.specs.Assembly.{total, is_placed};
ghost use Rattle.rv_asm.specs.Pieces.{appended};
ghost use Rattle.rv_asm.specs.declared.item.Item.TheVariants.{Jump};
ghost use Rattle.rv_prelude.specs.Pieces.{open_trap_items};
ghost use Rattle.rv_codegen.specs.Aliases.{list_at, lists_of};
ghost use Rattle.rv_codegen.specs.Blocks.{first_label, joint_of, start_of, stop_of};
ghost use Rattle.rv_codegen.specs.CaughtItems.{caught_items};
ghost use Rattle.rv_codegen.specs.Marks.{extended};
ghost use Rattle.rv_codegen.specs.TrapItems.{catches, trapped};

use crate::plan::Plan;
use acg_base::Memory;
use rv_asm::Asm;
use rv_asm::pieces::{copy_words, load_constant};
use rv_code::{Inst, OpOp, Reg};
use rv_prelude::pieces::{close_trap, open_trap};

/// Has the address of the words that an escape has left.
const SOURCE: Reg = Reg(10);

/// Holds a word on its way.
const VALUE: Reg = Reg(11);

/// Has the address of the frame.
const FRAME: Reg = Reg(2);

/// Has the address of the first word, where it is far from that of the frame.
const FAR: Reg = Reg(5);

/// Appends what copies the words from the address in register 10 on to these words of the frame,
/// which are in a row: at most 64 of them. An `Err` says want of memory, here and below.
pub(crate) fn append_catch(asm: &mut Asm, given: &[u32]) -> Result<(), Memory>
    requires few { length given.now ≤ 64 }
    requires near { All (λ o. o < 33554432) given.now }
    ensures items { OnOk result (asm.new ≡ appended asm.old (caught_items given.now)) }
    ensures placed { OnOk result ((l : ℕ) → is_placed asm.new.items l ≡ is_placed asm.old.items l) }
    ensures short { OnOk result (total asm.new.items ≤ total asm.old.items + 137) }
{
    if given.is_empty() {
        return Ok(());
    }
    let first = given[0];
    let count = given.len() as u8;
    if first + u32::from(count) < 257 {
        return copy_words(asm, count, VALUE, SOURCE, 0, FRAME, first as u8);
    }
    load_constant(asm, FAR, 8 * u64::from(first))?;
    asm.emit(Inst::Op {
        op: OpOp::Add,
        rd: FAR,
        rs1: FAR,
        rs2: FRAME,
    })?;
    copy_words(asm, count, VALUE, SOURCE, 0, FAR, 0)
}

/// Appends what opens the record of the trap k and goes on to its first part.
#[tactic(auto, using(crate::proofs::Fresh::freshness))]
fn append_first_part(
    asm: &mut Asm,
    plan: Plan<'_, '_, '_>,
    k: usize,
    left: u32,
) -> Result<(), Memory>
    requires node { k < length plan.graph.now.nodes }
    requires left { left < length plan.graph.now.nodes }
    requires made { first_label + length plan.labels.row.now ≤ asm.old.labels }
    ensures items { OnOk result (asm.new ≡ extended asm.old
        (open_trap_items (slice_index plan.entry.keeps.now k) (joint_of k)
        ++ (Jump (start_of left) ∷ []))) }
    ensures marks { OnOk result
        ((l : ℕ) → is_placed asm.old.items l ≡ false → is_placed asm.new.items l ≡ false) }
    ensures short { OnOk result (total asm.new.items ≤ total asm.old.items + 23) }
{
    open_trap(asm, plan.keep_at(k), plan.labels.joint(k))?;
    asm.jump(plan.labels.start(left as usize))
}

/// Appends the code of the trap k behind its start: it opens the record, goes on to the first part,
/// and closes the record where that has completed.
#[tactic(auto, using(crate::proofs::Fresh::freshness))]
pub(crate) fn append_trapped(
    asm: &mut Asm,
    plan: Plan<'_, '_, '_>,
    k: usize,
    left: u32,
) -> Result<(), Memory>
    requires node { k < length plan.graph.now.nodes }
    requires left { left < length plan.graph.now.nodes }
    requires made { first_label + length plan.labels.row.now ≤ asm.old.labels }
    requires stop { is_placed asm.old.items (stop_of k) ≡ false }
    ensures items { OnOk result (asm.new ≡ extended asm.old
        (trapped (slice_index plan.entry.keeps.now k) k left)) }
    ensures marks { OnOk result ((l : ℕ) → l ≢ stop_of k
        → is_placed asm.old.items l ≡ false → is_placed asm.new.items l ≡ false) }
    ensures short { OnOk result (total asm.new.items ≤ total asm.old.items + 38) }
{
    append_first_part(asm, plan, k, left)?;
    asm.place(plan.labels.stop(k));
    close_trap(asm, plan.keep_at(k))
}

/// Appends what copies what the first part of the trap k has escaped with to where its handler finds
/// it, and goes on to the handler.
#[tactic(auto, using(crate::proofs::Fresh::freshness))]
pub(crate) fn append_handler(
    asm: &mut Asm,
    plan: Plan<'_, '_, '_>,
    k: usize,
    right: u32,
) -> Result<(), Memory>
    requires node { k < length plan.graph.now.nodes }
    requires right { right < length plan.graph.now.nodes }
    requires made { first_label + length plan.labels.row.now ≤ asm.old.labels }
    requires joint { is_placed asm.old.items (joint_of k) ≡ false }
    ensures items { OnOk result (asm.new ≡ extended asm.old
        (catches (list_at (lists_of plan.entry.given.now) right) k right)) }
    ensures marks { OnOk result ((l : ℕ) → l ≢ joint_of k
        → is_placed asm.old.items l ≡ false → is_placed asm.new.items l ≡ false) }
    ensures short { OnOk result (total asm.new.items ≤ total asm.old.items + 139) }
{
    asm.place(plan.labels.joint(k));
    append_catch(asm, plan.given_at(right as usize))?;
    asm.jump(plan.labels.start(right as usize))
}
