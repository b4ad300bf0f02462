//! The code of nodes that give data.

ghost use Rattle.std.specs.Prelude.{◌≡◌, ◌+◌, ◌*◌, ◌<◌, ◌≤◌, ◌++◌, OnOk, true, false, length};
ghost use Rattle.rv_asm.specs.Assembly.{total, is_placed};
ghost use Rattle.action_terms.specs.Forms.{AreItems, items_at};
ghost use Rattle.action_terms.specs.Need.{items_yielder_count};
ghost use Rattle.action_terms.specs.Numbering.{node_limit};
ghost use Rattle.rv_codegen.specs.Blocks.{first_label, stop_of, goes, leaves, gives, regives};
ghost use Rattle.rv_codegen.specs.Aliases.{list_at, lists_of};
ghost use Rattle.rv_codegen.specs.Marks.{extended, PlacesStop};
ghost use Rattle.rv_codegen.specs.Built.{are_built};

use crate::data::{append_data, append_them};
use crate::jumps::append_way;
use crate::plan::Plan;
use acg_base::Memory;
use rv_asm::{Asm, Label};
use rv_yield::Source;

/// Appends what leaves data where node k does. Where one of their items yields nothing, that goes
/// to the entry for failures.
fn append_gives(
    asm: &mut Asm,
    plan: Plan<'_, '_, '_>,
    k: usize,
    items: &[u32],
) -> Result<(), Memory>
    requires node { k < length plan.graph.now.nodes }
    requires made { first_label + length plan.labels.row.now ≤ asm.old.labels }
    requires items { AreItems plan.graph.now.yielders items.now }
    requires built { are_built (items_at plan.graph.now.yielders items.now) ≡ true }
    requires few { items_yielder_count (items_at plan.graph.now.yielders items.now) < node_limit }
    requires stop { is_placed asm.old.items (stop_of k) ≡ false }
    ensures items { OnOk result (asm.new ≡ extended asm.old
        (gives (list_at (lists_of plan.entry.given.now) k)
        (list_at (lists_of plan.entry.out.now) k) k
        (items_at plan.entry.graph.now.yielders items.now))) }
    ensures marks { OnOk result (PlacesStop k asm.old.items asm.new.items) }
    ensures short { OnOk result (total asm.new.items ≤ total asm.old.items
        + 520 * items_yielder_count (items_at plan.entry.graph.now.yielders items.now)) }
{
    let nothing = plan.entries.fail;
    let source = Source {
        graph: plan.graph,
        needs: plan.needs,
        given: plan.given_at(k),
        bound: &[],
        nothing,
    };
    append_data(plan.alloc, asm, &source, plan.out_at(k), items)?;
    asm.place(plan.labels.stop(k));
    Ok(())
}

/// Appends the code of node k where it gives data and goes on at a label.
pub(crate) fn append_giving(
    asm: &mut Asm,
    plan: Plan<'_, '_, '_>,
    k: usize,
    exit: Label,
    items: &[u32],
) -> Result<(), Memory>
    requires node { k < length plan.graph.now.nodes }
    requires made { first_label + length plan.labels.row.now ≤ asm.old.labels }
    requires exit { exit < asm.old.labels }
    requires items { AreItems plan.graph.now.yielders items.now }
    requires built { are_built (items_at plan.graph.now.yielders items.now) ≡ true }
    requires few { items_yielder_count (items_at plan.graph.now.yielders items.now) < node_limit }
    requires stop { is_placed asm.old.items (stop_of k) ≡ false }
    ensures items { OnOk result (asm.new ≡ extended asm.old
        (gives (list_at (lists_of plan.entry.given.now) k)
        (list_at (lists_of plan.entry.out.now) k) k
        (items_at plan.entry.graph.now.yielders items.now) ++ leaves k exit)) }
    ensures marks { OnOk result (PlacesStop k asm.old.items asm.new.items) }
    ensures short { OnOk result (total asm.new.items ≤ total asm.old.items + 2
        + 520 * items_yielder_count (items_at plan.entry.graph.now.yielders items.now)) }
{
    let next = plan.labels.front(k + 1);
    append_gives(asm, plan, k, items)?;
    append_way(asm, next, exit)
}

/// Appends what leaves what node k is given where the node leaves its data.
fn append_regives(asm: &mut Asm, plan: Plan<'_, '_, '_>, k: usize) -> Result<(), Memory>
    requires node { k < length plan.graph.now.nodes }
    requires made { first_label + length plan.labels.row.now ≤ asm.old.labels }
    requires stop { is_placed asm.old.items (stop_of k) ≡ false }
    ensures items { OnOk result (asm.new ≡ extended asm.old
        (regives (list_at (lists_of plan.entry.given.now) k)
        (list_at (lists_of plan.entry.out.now) k) k)) }
    ensures marks { OnOk result (PlacesStop k asm.old.items asm.new.items) }
    ensures short { OnOk result (total asm.new.items ≤ total asm.old.items + 520) }
{
    let _rest = append_them(asm, plan.given_at(k), plan.out_at(k))?;
    asm.place(plan.labels.stop(k));
    Ok(())
}

/// Appends the code of node k where it gives what it is given and goes on at a label.
pub(crate) fn append_regiving(
    asm: &mut Asm,
    plan: Plan<'_, '_, '_>,
    k: usize,
    exit: Label,
) -> Result<(), Memory>
    requires node { k < length plan.graph.now.nodes }
    requires made { first_label + length plan.labels.row.now ≤ asm.old.labels }
    requires exit { exit < asm.old.labels }
    requires stop { is_placed asm.old.items (stop_of k) ≡ false }
    ensures items { OnOk result (asm.new ≡ extended asm.old
        (regives (list_at (lists_of plan.entry.given.now) k)
        (list_at (lists_of plan.entry.out.now) k) k ++ leaves k exit)) }
    ensures marks { OnOk result (PlacesStop k asm.old.items asm.new.items) }
    ensures short { OnOk result (total asm.new.items ≤ total asm.old.items + 522) }
{
    let next = plan.labels.front(k + 1);
    append_regives(asm, plan, k)?;
    append_way(asm, next, exit)
}
