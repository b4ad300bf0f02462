//! The code of nodes that call an entry for a word, which they complete with: `allocate` and
//! `receive`.

ghost use Rattle.std.specs.Prelude.{◌≡◌, ◌+◌, ◌*◌, ◌<◌, ◌≤◌, ◌++◌, OnOk, false, length, map};
ghost use Rattle.rv_asm.specs.Assembly.{total, is_placed};
ghost use Rattle.rv_asm.specs.declared.item.Item.TheVariants.{Plain};
ghost use Rattle.rv_codegen.specs.Aliases.{list_at, lists_of};
ghost use Rattle.rv_codegen.specs.Blocks.{first_label, stop_of, joint_of, leaves};
ghost use Rattle.rv_codegen.specs.ItemCode.{AreReached};
ghost use Rattle.rv_codegen.specs.Marks.{extended, PlacesStop};
ghost use Rattle.rv_codegen.specs.StorageItems.{fetches, kept_items};

use crate::entries::RETURN;
use crate::jumps::append_way;
use crate::plan::Plan;
use acg_base::Memory;
use rv_asm::{Asm, Label};
use rv_yield::append_store;

/// Appends what leaves the word in the register of arguments in the first of some words of the
/// frame. Where there are none, it isn't kept.
fn append_kept(asm: &mut Asm, out: &[u32]) -> Result<(), Memory>
    requires { AreReached out.now }
    ensures items { OnOk result (asm.new ≡ extended asm.old (map Plain (kept_items out.now))) }
{
    if out.is_empty() {
        return Ok(());
    }
    append_store(asm, out[0])
}

/// Appends a call of an entry that returns with a word in the register of arguments, and what leaves
/// this word where node k leaves its datum.
#[tactic(auto, using(crate::proofs::Fresh::freshness))]
fn append_fetches(
    asm: &mut Asm,
    plan: Plan<'_, '_, '_>,
    k: usize,
    entry: Label,
) -> Result<(), Memory>
    requires node { k < length plan.graph.now.nodes }
    requires made { first_label + length plan.labels.row.now ≤ asm.old.labels }
    requires entry { entry < asm.old.labels }
    requires stop { is_placed asm.old.items (stop_of k) ≡ false }
    requires joint { is_placed asm.old.items (joint_of k) ≡ false }
    ensures items { OnOk result (asm.new ≡ extended asm.old
        (fetches entry (list_at (lists_of plan.entry.out.now) k) k)) }
    ensures marks { OnOk result (PlacesStop k asm.old.items asm.new.items) }
    ensures short { OnOk result (total asm.new.items ≤ total asm.old.items + 14) }
{
    let stop = plan.labels.stop(k);
    asm.address(RETURN, stop)?;
    asm.jump(entry)?;
    asm.place(stop);
    append_kept(asm, plan.out_at(k))?;
    asm.place(plan.labels.joint(k));
    Ok(())
}

/// Appends the code of node k where it calls an entry for a word, which it completes with, and goes
/// on at a label.
pub(crate) fn append_fetching(
    asm: &mut Asm,
    plan: Plan<'_, '_, '_>,
    k: usize,
    exit: Label,
    entry: Label,
) -> Result<(), Memory>
    requires node { k < length plan.graph.now.nodes }
    requires made { first_label + length plan.labels.row.now ≤ asm.old.labels }
    requires exit { exit < asm.old.labels }
    requires entry { entry < asm.old.labels }
    requires stop { is_placed asm.old.items (stop_of k) ≡ false }
    requires joint { is_placed asm.old.items (joint_of k) ≡ false }
    ensures items { OnOk result (asm.new ≡ extended asm.old
        (fetches entry (list_at (lists_of plan.entry.out.now) k) k ++ leaves k exit)) }
    ensures marks { OnOk result (PlacesStop k asm.old.items asm.new.items) }
    ensures short { OnOk result (total asm.new.items ≤ total asm.old.items + 16) }
{
    let next = plan.labels.front(k + 1);
    append_fetches(asm, plan, k, entry)?;
    append_way(asm, next, exit)
}
