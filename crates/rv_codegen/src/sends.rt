//! The code of nodes that send.

ghost use Rattle.std.specs.Prelude.{◌≡◌, ◌+◌, ◌*◌, ◌<◌, ◌≤◌, ◌++◌, OnOk, true, false, length};
ghost use Rattle.rv_asm.specs.Assembly.{total, is_placed};
ghost use Rattle.action_terms.specs.Forms.{IsDatum, yielder_at};
ghost use Rattle.action_terms.specs.Need.{yielder_count};
ghost use Rattle.action_terms.specs.Numbering.{node_limit};
ghost use Rattle.rv_yield.specs.Registers.{is_built};
ghost use Rattle.rv_codegen.specs.Blocks.{first_label, stop_of, goes, leaves, sends};
ghost use Rattle.rv_codegen.specs.Aliases.{list_at, lists_of};
ghost use Rattle.rv_codegen.specs.Marks.{extended, PlacesStop};

use crate::entries::{ARGUMENT, RETURN};
use crate::jumps::append_way;
use crate::plan::Plan;
use acg_base::Memory;
use rv_asm::{Asm, Label};
use rv_yield::{Source, value_code};

/// Appends what sends the integer of a yielder by the entry that sends. Where the yielder yields
/// nothing, that goes to the entry for failures.
#[tactic(auto, using(crate::proofs::Fresh::freshness))]
fn append_sends(asm: &mut Asm, plan: Plan<'_, '_, '_>, k: usize, yielder: u32) -> Result<(), Memory>
    requires node { k < length plan.graph.now.nodes }
    requires made { first_label + length plan.labels.row.now ≤ asm.old.labels }
    requires datum { IsDatum plan.graph.now.yielders yielder }
    requires built { is_built (yielder_at plan.graph.now.yielders yielder) ≡ true }
    requires few { yielder_count (yielder_at plan.graph.now.yielders yielder) < node_limit }
    requires stop { is_placed asm.old.items (stop_of k) ≡ false }
    ensures items { OnOk result (asm.new
        ≡ extended asm.old (sends (list_at (lists_of plan.entry.given.now) k) k
        (yielder_at plan.entry.graph.now.yielders yielder))) }
    ensures marks { OnOk result (PlacesStop k asm.old.items asm.new.items) }
    ensures short { OnOk result (total asm.new.items ≤ total asm.old.items + 4
        + 12 * yielder_count (yielder_at plan.entry.graph.now.yielders yielder)) }
{
    let stop = plan.labels.stop(k);
    let source = Source {
        graph: plan.graph,
        needs: plan.needs,
        given: plan.given_at(k),
        bound: &[],
        nothing: plan.entries.fail,
    };
    value_code(plan.alloc, asm, &source, yielder, ARGUMENT)?;
    asm.address(RETURN, stop)?;
    asm.jump(plan.entries.send)?;
    asm.place(stop);
    Ok(())
}

/// Appends the code of node k where it sends the integer of a yielder and goes on at a label.
pub(crate) fn append_sending(
    asm: &mut Asm,
    plan: Plan<'_, '_, '_>,
    k: usize,
    exit: Label,
    yielder: u32,
) -> Result<(), Memory>
    requires node { k < length plan.graph.now.nodes }
    requires made { first_label + length plan.labels.row.now ≤ asm.old.labels }
    requires exit { exit < asm.old.labels }
    requires datum { IsDatum plan.graph.now.yielders yielder }
    requires built { is_built (yielder_at plan.graph.now.yielders yielder) ≡ true }
    requires few { yielder_count (yielder_at plan.graph.now.yielders yielder) < node_limit }
    requires stop { is_placed asm.old.items (stop_of k) ≡ false }
    ensures items { OnOk result (asm.new ≡ extended asm.old
        (sends (list_at (lists_of plan.entry.given.now) k) k
        (yielder_at plan.entry.graph.now.yielders yielder) ++ leaves k exit)) }
    ensures marks { OnOk result (PlacesStop k asm.old.items asm.new.items) }
    ensures short { OnOk result (total asm.new.items ≤ total asm.old.items + 6
        + 12 * yielder_count (yielder_at plan.entry.graph.now.yielders yielder)) }
{
    let next = plan.labels.front(k + 1);
    append_sends(asm, plan, k, yielder)?;
    append_way(asm, next, exit)
}
