//! The code of nodes that escape.

ghost use Rattle.std.specs.Prelude.{◌≡◌, ℕ, ◌+◌, ◌*◌, ◌<◌, ◌≤◌, All, OnOk, true, false, length, map, slice_index};
ghost use Rattle.rv_asm.specs.Assembly.{total, is_placed};
ghost use Rattle.rv_asm.specs.declared.item.Item.TheVariants.{Plain};
ghost use Rattle.action_terms.specs.Forms.{AreItems, items_at};
ghost use Rattle.action_terms.specs.Need.{items_yielder_count};
ghost use Rattle.action_terms.specs.Numbering.{node_limit};
ghost use Rattle.rv_codegen.specs.Blocks.{fail_label, first_label, goes, address_items, escapes, escapes_with};
ghost use Rattle.rv_codegen.specs.Aliases.{list_at, lists_of};
ghost use Rattle.rv_codegen.specs.GivenItems.{escape_with_items, point_items};
ghost use Rattle.rv_codegen.specs.Marks.{extended, PlacesStop};
ghost use Rattle.rv_codegen.specs.Built.{are_built};

use crate::data::append_data;
use crate::entries::{ARGUMENT, FRAME};
use crate::plan::Plan;
use acg_base::Memory;
use rv_asm::Asm;
use rv_asm::pieces::load_constant;
use rv_code::{Inst, OpImmOp, OpOp};
use rv_yield::Source;

/// Appends what puts the address of the word at an offset of the frame into the register of
/// arguments.
pub(crate) fn append_address(asm: &mut Asm, offset: u32) -> Result<(), Memory>
    requires { offset < 33554432 }
    ensures { OnOk result (asm.new ≡ extended asm.old (map Plain (address_items offset))) }
{
    if offset < 256 {
        return asm.emit(Inst::OpImm {
            op: OpImmOp::Addi,
            rd: ARGUMENT,
            rs1: FRAME,
            imm: 8 * offset as i32,
        });
    }
    load_constant(asm, ARGUMENT, 8 * u64::from(offset))?;
    asm.emit(Inst::Op {
        op: OpOp::Add,
        rd: ARGUMENT,
        rs1: ARGUMENT,
        rs2: FRAME,
    })
}

/// The first of some words of the frame, or that of the frame itself where there is none.
pub(crate) fn first_word(words: &[u32]) -> u32
    requires { All (λ o. o < 33554432) words.now }
    ensures first { result ≡ slice_index words.now 0 }
    ensures near { result < 33554432 }
{
    if words.is_empty() {
        return 0;
    }
    words[0]
}

/// Appends what escapes with the data that node k is given, which stand in a row.
pub(crate) fn append_escape(asm: &mut Asm, plan: Plan<'_, '_, '_>, k: usize) -> Result<(), Memory>
    requires node { k < length plan.graph.now.nodes }
    requires made { first_label + length plan.labels.row.now ≤ asm.old.labels }
    ensures items { OnOk result
        (asm.new ≡ extended asm.old (escapes (list_at (lists_of plan.entry.given.now) k))) }
    ensures marks { OnOk result (PlacesStop k asm.old.items asm.new.items) }
    ensures short { OnOk result (total asm.new.items ≤ total asm.old.items + 11) }
{
    let first = first_word(plan.given_at(k));
    append_address(asm, first)?;
    asm.jump(plan.entries.escape)
}

/// Appends what puts the address of the first of some words of the frame into the register of
/// arguments, or that of the frame where there are none.
fn append_point(asm: &mut Asm, words: &[u32]) -> Result<(), Memory>
    requires { All (λ o. o < 33554432) words.now }
    ensures { OnOk result (asm.new ≡ extended asm.old (map Plain (point_items words.now))) }
{
    if words.is_empty() {
        return asm.emit(Inst::OpImm {
            op: OpImmOp::Addi,
            rd: ARGUMENT,
            rs1: FRAME,
            imm: 0,
        });
    }
    load_constant(asm, ARGUMENT, 8 * u64::from(words[0]))?;
    asm.emit(Inst::Op {
        op: OpOp::Add,
        rd: ARGUMENT,
        rs1: ARGUMENT,
        rs2: FRAME,
    })
}

/// Appends what puts the data that node k escapes with in a row, and the row's address into the
/// register of arguments. Where one of the items yields nothing, that goes to the entry for
/// failures.
fn append_row(asm: &mut Asm, plan: Plan<'_, '_, '_>, k: usize, items: &[u32]) -> Result<(), Memory>
    requires node { k < length plan.graph.now.nodes }
    requires made { first_label + length plan.labels.row.now ≤ asm.old.labels }
    requires items { AreItems plan.graph.now.yielders items.now }
    requires built { are_built (items_at plan.graph.now.yielders items.now) ≡ true }
    requires few { items_yielder_count (items_at plan.graph.now.yielders items.now) < node_limit }
    ensures items { OnOk result (asm.new ≡ extended asm.old
        (escape_with_items (list_at (lists_of plan.entry.given.now) k)
        (list_at (lists_of plan.entry.escaped.now) k) fail_label
        (items_at plan.entry.graph.now.yielders items.now))) }
    ensures marks { OnOk result
        ((l : ℕ) → is_placed asm.old.items l ≡ false → is_placed asm.new.items l ≡ false) }
    ensures short { OnOk result (total asm.new.items ≤ total asm.old.items + 9
        + 520 * items_yielder_count (items_at plan.entry.graph.now.yielders items.now)) }
{
    let escaped = plan.escaped_at(k);
    let nothing = plan.entries.fail;
    let source = Source {
        graph: plan.graph,
        needs: plan.needs,
        given: plan.given_at(k),
        bound: &[],
        nothing,
    };
    append_data(plan.alloc, asm, &source, escaped, items)?;
    append_point(asm, escaped)
}

/// Appends what escapes with the data of items.
pub(crate) fn append_escape_with(
    asm: &mut Asm,
    plan: Plan<'_, '_, '_>,
    k: usize,
    items: &[u32],
) -> Result<(), Memory>
    requires node { k < length plan.graph.now.nodes }
    requires made { first_label + length plan.labels.row.now ≤ asm.old.labels }
    requires items { AreItems plan.graph.now.yielders items.now }
    requires built { are_built (items_at plan.graph.now.yielders items.now) ≡ true }
    requires few { items_yielder_count (items_at plan.graph.now.yielders items.now) < node_limit }
    ensures items { OnOk result (asm.new ≡ extended asm.old
        (escapes_with (list_at (lists_of plan.entry.given.now) k)
        (list_at (lists_of plan.entry.escaped.now) k)
        (items_at plan.entry.graph.now.yielders items.now))) }
    ensures marks { OnOk result (PlacesStop k asm.old.items asm.new.items) }
    ensures short { OnOk result (total asm.new.items ≤ total asm.old.items + 11
        + 520 * items_yielder_count (items_at plan.entry.graph.now.yielders items.now)) }
{
    let entry = plan.entries.escape;
    append_row(asm, plan, k, items)?;
    asm.jump(entry)
}
