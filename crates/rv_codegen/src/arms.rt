//! The code of alternatives.

ghost use Rattle.std.specs.Prelude.{◌≡◌, ℕ, ◌+◌, ◌<◌, ◌≤◌, [], ◌∷◌, ◌++◌, OnOk, false, length, slice_index};
ghost use Rattle.rv_asm.specs.Assembly.{total, is_placed};
ghost use Rattle.rv_asm.specs.declared.item.Item.TheVariants.{Jump};
ghost use Rattle.rv_prelude.specs.Pieces.{open_alternative_items};
ghost use Rattle.rv_codegen.specs.Blocks.{first_label, front_of, start_of, stop_of, goes, arms};
ghost use Rattle.rv_codegen.specs.Marks.{extended, PlacesStop};

use crate::plan::Plan;
use acg_base::Memory;
use rv_asm::Asm;
use rv_prelude::pieces::{close_alternative, open_alternative};

/// Appends what opens the record of an alternative and goes on to its first arm.
#[tactic(auto, using(crate::proofs::Fresh::freshness))]
fn append_first_arm(
    asm: &mut Asm,
    plan: Plan<'_, '_, '_>,
    k: usize,
    left: u32,
    right: u32,
) -> Result<(), Memory>
    requires node { k < length plan.graph.now.nodes }
    requires left { left < length plan.graph.now.nodes }
    requires right { right < length plan.graph.now.nodes }
    requires made { first_label + length plan.labels.row.now ≤ asm.old.labels }
    ensures items { OnOk result (asm.new ≡ extended asm.old
        (open_alternative_items (slice_index plan.entry.keeps.now k) (front_of right)
        ++ (Jump (start_of left) ∷ []))) }
    ensures marks { OnOk result
        ((l : ℕ) → is_placed asm.old.items l ≡ false → is_placed asm.new.items l ≡ false) }
    ensures short { OnOk result (total asm.new.items ≤ total asm.old.items + 22) }
{
    open_alternative(asm, plan.keep_at(k), plan.labels.front(right as usize))?;
    asm.jump(plan.labels.start(left as usize))
}

/// Appends the code of the alternative k behind its start: it opens the record, goes on to the first
/// arm, and closes the record where that has completed.
#[tactic(auto, using(crate::proofs::Fresh::freshness))]
pub(crate) fn append_arms(
    asm: &mut Asm,
    plan: Plan<'_, '_, '_>,
    k: usize,
    left: u32,
    right: u32,
) -> Result<(), Memory>
    requires node { k < length plan.graph.now.nodes }
    requires left { left < length plan.graph.now.nodes }
    requires right { right < length plan.graph.now.nodes }
    requires made { first_label + length plan.labels.row.now ≤ asm.old.labels }
    requires stop { is_placed asm.old.items (stop_of k) ≡ false }
    ensures items { OnOk result (asm.new ≡ extended asm.old
        (arms (slice_index plan.entry.keeps.now k) k left right)) }
    ensures marks { OnOk result (PlacesStop k asm.old.items asm.new.items) }
    ensures short { OnOk result (total asm.new.items ≤ total asm.old.items + 35) }
{
    append_first_arm(asm, plan, k, left, right)?;
    asm.place(plan.labels.stop(k));
    close_alternative(asm, plan.keep_at(k))
}
