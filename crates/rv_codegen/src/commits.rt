//! The code of nodes that commit.

ghost use Rattle.std.specs.Prelude.{◌≡◌, ◌+◌, ◌<◌, ◌≤◌, ◌++◌, OnOk, false, length};
ghost use Rattle.rv_asm.specs.Assembly.{total, is_placed};
ghost use Rattle.rv_codegen.specs.Blocks.{first_label, stop_of, goes, leaves, commits};
ghost use Rattle.rv_codegen.specs.Marks.{extended, PlacesStop};

use crate::jumps::append_way;
use crate::plan::Plan;
use acg_base::Memory;
use rv_asm::{Asm, Label};
use rv_prelude::pieces::commit;

/// Appends what closes every open alternative.
#[tactic(auto, using(crate::proofs::Fresh::freshness))]
fn append_commits(asm: &mut Asm, plan: Plan<'_, '_, '_>, k: usize) -> Result<(), Memory>
    requires node { k < length plan.graph.now.nodes }
    requires made { first_label + length plan.labels.row.now ≤ asm.old.labels }
    requires stop { is_placed asm.old.items (stop_of k) ≡ false }
    ensures items { OnOk result (asm.new ≡ extended asm.old (commits k)) }
    ensures marks { OnOk result (PlacesStop k asm.old.items asm.new.items) }
    ensures short { OnOk result (total asm.new.items ≤ total asm.old.items + 3) }
{
    commit(asm)?;
    asm.place(plan.labels.stop(k));
    Ok(())
}

/// Appends the code of node k where it commits and goes on at a label.
pub(crate) fn append_committing(
    asm: &mut Asm,
    plan: Plan<'_, '_, '_>,
    k: usize,
    exit: Label,
) -> Result<(), Memory>
    requires node { k < length plan.graph.now.nodes }
    requires made { first_label + length plan.labels.row.now ≤ asm.old.labels }
    requires exit { exit < asm.old.labels }
    requires stop { is_placed asm.old.items (stop_of k) ≡ false }
    ensures items { OnOk result (asm.new ≡ extended asm.old (commits k ++ leaves k exit)) }
    ensures marks { OnOk result (PlacesStop k asm.old.items asm.new.items) }
    ensures short { OnOk result (total asm.new.items ≤ total asm.old.items + 5) }
{
    let next = plan.labels.front(k + 1);
    append_commits(asm, plan, k)?;
    append_way(asm, next, exit)
}
