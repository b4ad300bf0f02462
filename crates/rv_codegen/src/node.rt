//! The code of one node.

ghost use Rattle.std.specs.Prelude.{◌≡◌, ◌+◌, ◌*◌, ◌<◌, ◌≤◌, OnOk, true, false, length};
ghost use Rattle.rv_asm.specs.Assembly.{total, is_placed};
ghost use Rattle.action_terms.specs.Actions.{Simple, node_at};
ghost use Rattle.action_terms.specs.Forms.{HasPrimitiveOperands, primitive_viewed};
ghost use Rattle.action_terms.specs.Meaning.{action_of};
ghost use Rattle.action_terms.specs.Need.{node_yielder_count};
ghost use Rattle.action_terms.specs.Numbering.{node_limit};
ghost use Rattle.rv_codegen.specs.Blocks.{first_label, start_of, stop_of, joint_of, goes, body, block, table_words};
ghost use Rattle.rv_codegen.specs.Aliases.{lists_of};
ghost use Rattle.rv_codegen.specs.Marks.{extended, AreFresh, PlacesStop};
ghost use Rattle.rv_codegen.specs.Built.{is_built_node};

use crate::arms::append_arms;
use crate::calls::append_calling;
use crate::checks::append_checking;
use crate::commits::append_committing;
use crate::entries::append_opening;
use crate::escapes::{append_escape, append_escape_with};
use crate::fetches::append_fetching;
use crate::gives::{append_giving, append_regiving};
use crate::handlers::{append_handler, append_trapped};
use crate::jumps::append_way;
use crate::plan::Plan;
use crate::sends::append_sending;
use crate::storage::append_storing;
use acg_base::Memory;
use action_terms::{NodeView, PrimitiveView};
use rv_asm::{Asm, Label};

/// Appends the code of node k behind its start where it is done in one step and goes on at a
/// label.
#[tactic(auto, using(crate::proofs::Fresh::freshness))]
fn append_primitive(
    asm: &mut Asm,
    plan: Plan<'_, '_, '_>,
    k: usize,
    exit: Label,
    primitive: PrimitiveView<'_>,
) -> Result<(), Memory>
    requires node { k < length plan.graph.now.nodes }
    requires made { first_label + length plan.labels.row.now ≤ asm.old.labels }
    requires operands { HasPrimitiveOperands plan.graph.now.yielders primitive }
    requires built { is_built_node
        (Simple (primitive_viewed plan.graph.now.yielders primitive)) ≡ true }
    requires few { node_yielder_count
        (Simple (primitive_viewed plan.graph.now.yielders primitive)) < node_limit }
    requires exit { exit < asm.old.labels }
    requires stop { is_placed asm.old.items (stop_of k) ≡ false }
    requires joint { is_placed asm.old.items (joint_of k) ≡ false }
    ensures items { OnOk result (asm.new ≡ extended asm.old
        (body (table_words (lists_of plan.entry.given.now)
        (lists_of plan.entry.out.now) (lists_of plan.entry.escaped.now)
        plan.entry.keeps.now plan.entry.frames.now) k exit
        (Simple (primitive_viewed plan.entry.graph.now.yielders primitive.entry)))) }
    ensures marks { OnOk result (PlacesStop k asm.old.items asm.new.items) }
    ensures short { OnOk result (total asm.new.items ≤ total asm.old.items + 530
        + 520 * node_yielder_count
        (Simple (primitive_viewed plan.entry.graph.now.yielders primitive.entry))) }
{
    match primitive {
        PrimitiveView::Complete => append_way(asm, plan.labels.front(k + 1), exit),
        PrimitiveView::Commit => append_committing(asm, plan, k, exit),
        PrimitiveView::Regive => append_regiving(asm, plan, k, exit),
        PrimitiveView::Give { items } => append_giving(asm, plan, k, exit, items),
        PrimitiveView::Failing => asm.jump(plan.entries.fail),
        PrimitiveView::Escape => append_escape(asm, plan, k),
        PrimitiveView::EscapeWith { items } => append_escape_with(asm, plan, k, items),
        PrimitiveView::Check { yielder } => append_checking(asm, plan, k, exit, yielder),
        PrimitiveView::Store { datum, cell } => append_storing(asm, plan, k, exit, datum, cell),
        PrimitiveView::Allocate => append_fetching(asm, plan, k, exit, plan.entries.allocate),
        PrimitiveView::Receive => append_fetching(asm, plan, k, exit, plan.entries.receive),
        PrimitiveView::Send { yielder } => append_sending(asm, plan, k, exit, yielder),
        _ => Ok(()),
    }
}

/// Appends the code of node k behind its start where it has two parts, by the part that is
/// performed first.
fn append_parts(asm: &mut Asm, plan: Plan<'_, '_, '_>, k: usize, first: u32) -> Result<(), Memory>
    requires node { k < length plan.graph.now.nodes }
    requires part { first < length plan.graph.now.nodes }
    requires made { first_label + length plan.labels.row.now ≤ asm.old.labels }
    ensures items { OnOk result
        (asm.new ≡ extended asm.old (goes (start_of (k + 1)) (start_of first))) }
    ensures marks { OnOk result (PlacesStop k asm.old.items asm.new.items) }
    ensures short { OnOk result (total asm.new.items ≤ total asm.old.items + 6) }
{
    let next = plan.labels.start(k + 1);
    append_way(asm, next, plan.labels.start(first as usize))
}

/// Appends the code of node k behind its start, where the node goes on at a label.
fn append_body(asm: &mut Asm, plan: Plan<'_, '_, '_>, k: usize, exit: Label) -> Result<(), Memory>
    requires node { k < length plan.graph.now.nodes }
    requires made { first_label + length plan.labels.row.now ≤ asm.old.labels }
    requires exit { exit < asm.old.labels }
    requires stop { is_placed asm.old.items (stop_of k) ≡ false }
    requires joint { is_placed asm.old.items (joint_of k) ≡ false }
    ensures items { OnOk result (asm.new
        ≡ extended asm.old (body (table_words (lists_of plan.entry.given.now)
        (lists_of plan.entry.out.now) (lists_of plan.entry.escaped.now)
        plan.entry.keeps.now plan.entry.frames.now) k exit
        (node_at (action_of plan.entry.graph.now) k))) }
    ensures marks { OnOk result (PlacesStop k asm.old.items asm.new.items) }
    ensures short { OnOk result (total asm.new.items ≤ total asm.old.items + 530
        + 520 * node_yielder_count (node_at (action_of plan.entry.graph.now) k)) }
{
    match plan.graph.view(k) {
        NodeView::Simple(primitive) => append_primitive(asm, plan, k, exit, primitive),
        NodeView::Both {
            join: _,
            left,
            right: _,
        }
        | NodeView::Phases {
            chain: _,
            left,
            right: _,
        } => append_parts(asm, plan, k, left),
        NodeView::Either { left, right } => {
            append_arms(asm, plan, k, left, right)?;
            asm.jump(exit)
        }
        NodeView::Trapping { left, right } => {
            append_trapped(asm, plan, k, left)?;
            asm.jump(exit)?;
            append_handler(asm, plan, k, right)
        }
        NodeView::Unfolding { body } | NodeView::Unfold { body } => {
            append_calling(asm, plan, k, exit, body as usize)
        }
        _ => Ok(()),
    }
}

/// Appends the code of node k, which goes on at a label.
pub(crate) fn append_node(
    asm: &mut Asm,
    plan: Plan<'_, '_, '_>,
    k: usize,
    exit: Label,
) -> Result<(), Memory>
    requires node { k < length plan.graph.now.nodes }
    requires made { first_label + length plan.labels.row.now ≤ asm.old.labels }
    requires exit { exit < asm.old.labels }
    requires fresh { AreFresh k asm.old.items }
    ensures items { OnOk result (asm.new
        ≡ extended asm.old (block (table_words (lists_of plan.entry.given.now)
        (lists_of plan.entry.out.now) (lists_of plan.entry.escaped.now)
        plan.entry.keeps.now plan.entry.frames.now) k exit
        (node_at (action_of plan.entry.graph.now) k))) }
    ensures fresh { OnOk result (AreFresh (k + 1) asm.new.items) }
    ensures short { OnOk result (total asm.new.items ≤ total asm.old.items + 530
        + 520 * node_yielder_count (node_at (action_of plan.entry.graph.now) k)) }
{
    append_opening(asm, plan.labels, k);
    append_body(asm, plan, k, exit)
}
