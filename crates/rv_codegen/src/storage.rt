//! The code of nodes that store data in cells.

ghost use Rattle.std.specs.Prelude.{◌≡◌, ℕ, ◌+◌, ◌*◌, ◌<◌, ◌≤◌, ◌++◌, OnOk, true, false, length, map};
ghost use Rattle.rv_asm.specs.Assembly.{total, is_placed};
ghost use Rattle.rv_asm.specs.declared.item.Item.TheVariants.{Plain};
ghost use Rattle.action_terms.specs.Forms.{IsDatum, yielder_at};
ghost use Rattle.action_terms.specs.Need.{yielder_count};
ghost use Rattle.action_terms.specs.Numbering.{node_limit};
ghost use Rattle.rv_prelude.specs.Pieces.{commit};
ghost use Rattle.rv_yield.specs.Registers.{is_built, registers_needed};
ghost use Rattle.rv_yield.specs.YielderCode.{value_items};
ghost use Rattle.rv_codegen.specs.Aliases.{list_at, lists_of};
ghost use Rattle.rv_codegen.specs.Blocks.{fail_label, first_label, stop_of, leaves};
ghost use Rattle.rv_codegen.specs.GivenItems.{alone};
ghost use Rattle.rv_codegen.specs.Marks.{extended, PlacesStop};
ghost use Rattle.rv_codegen.specs.StorageItems.{put_word, puts, stores};

use crate::jumps::append_way;
use crate::plan::Plan;
use acg_base::Memory;
use rv_asm::{Asm, Label};
use rv_code::{Inst, OpImmOp, Reg, StoreOp};
use rv_prelude::pieces::commit;
use rv_yield::{Source, value_code};

/// Holds the value of the operand that is evaluated first.
const EARLIER: Reg = Reg(10);

/// Holds the value of the other one.
const LATER: Reg = Reg(11);

/// Holds the first word of a unit that is set.
const FLAG: Reg = Reg(5);

/// Always holds 0.
const ZERO: Reg = Reg(0);

/// Appends what sets the unit of a cell: the address of the cell is in one register, and the word of
/// the datum in the other.
fn append_word(asm: &mut Asm, value: Reg, cell: Reg) -> Result<(), Memory>
    ensures items { OnOk result (asm.new ≡ extended asm.old (map Plain (put_word value cell))) }
{
    asm.emit(Inst::OpImm {
        op: OpImmOp::Addi,
        rd: FLAG,
        rs1: ZERO,
        imm: 1,
    })?;
    asm.emit(Inst::Store {
        op: StoreOp::Sd,
        rs1: cell,
        rs2: FLAG,
        imm: 0,
    })?;
    asm.emit(Inst::Store {
        op: StoreOp::Sd,
        rs1: cell,
        rs2: value,
        imm: 8,
    })
}

/// Appends what sets the unit of a cell and closes every open alternative.
fn append_put(asm: &mut Asm, value: Reg, cell: Reg) -> Result<(), Memory>
    ensures items { OnOk result (asm.new ≡ extended asm.old
        (map Plain (put_word value cell ++ commit))) }
    ensures placed { OnOk result ((l : ℕ) → is_placed asm.new.items l ≡ is_placed asm.old.items l) }
    ensures short { OnOk result (total asm.new.items ≤ total asm.old.items + 6) }
{
    append_word(asm, value, cell)?;
    commit(asm)
}

/// Appends what evaluates two operands of node k, one after the other, into two registers. Where one
/// of them yields nothing, that goes to the entry for failures.
fn append_pair(
    asm: &mut Asm,
    plan: Plan<'_, '_, '_>,
    k: usize,
    earlier: u32,
    later: u32,
) -> Result<(), Memory>
    requires node { k < length plan.graph.now.nodes }
    requires made { first_label + length plan.labels.row.now ≤ asm.old.labels }
    requires earlier { IsDatum plan.graph.now.yielders earlier }
    requires later { IsDatum plan.graph.now.yielders later }
    requires earlier_built { is_built (yielder_at plan.graph.now.yielders earlier) ≡ true }
    requires later_built { is_built (yielder_at plan.graph.now.yielders later) ≡ true }
    requires few { yielder_count (yielder_at plan.graph.now.yielders earlier)
        + yielder_count (yielder_at plan.graph.now.yielders later) < node_limit }
    requires more { registers_needed (yielder_at plan.graph.now.yielders later)
        ≤ registers_needed (yielder_at plan.graph.now.yielders earlier) }
    ensures items { OnOk result (asm.new ≡ extended asm.old
        (value_items (alone (list_at (lists_of plan.entry.given.now) k)) 10 10 fail_label
        (yielder_at plan.entry.graph.now.yielders earlier)
        ++ value_items (alone (list_at (lists_of plan.entry.given.now) k)) 11 11 fail_label
        (yielder_at plan.entry.graph.now.yielders later))) }
    ensures placed { OnOk result ((l : ℕ) → is_placed asm.new.items l ≡ is_placed asm.old.items l) }
    ensures short { OnOk result (total asm.new.items ≤ total asm.old.items
        + 12 * (yielder_count (yielder_at plan.entry.graph.now.yielders earlier)
        + yielder_count (yielder_at plan.entry.graph.now.yielders later))) }
{
    let source = Source {
        graph: plan.graph,
        needs: plan.needs,
        given: plan.given_at(k),
        bound: &[],
        nothing: plan.entries.fail,
    };
    value_code(plan.alloc, asm, &source, earlier, EARLIER)?;
    value_code(plan.alloc, asm, &source, later, LATER)
}

/// Appends what evaluates a datum and a cell, first the one that needs more registers, and stores the
/// datum in the cell.
fn append_puts(
    asm: &mut Asm,
    plan: Plan<'_, '_, '_>,
    k: usize,
    datum: u32,
    cell: u32,
) -> Result<(), Memory>
    requires node { k < length plan.graph.now.nodes }
    requires made { first_label + length plan.labels.row.now ≤ asm.old.labels }
    requires datum { IsDatum plan.graph.now.yielders datum }
    requires cell { IsDatum plan.graph.now.yielders cell }
    requires datum_built { is_built (yielder_at plan.graph.now.yielders datum) ≡ true }
    requires cell_built { is_built (yielder_at plan.graph.now.yielders cell) ≡ true }
    requires few { yielder_count (yielder_at plan.graph.now.yielders datum)
        + yielder_count (yielder_at plan.graph.now.yielders cell) < node_limit }
    ensures items { OnOk result (asm.new ≡ extended asm.old
        (puts (list_at (lists_of plan.entry.given.now) k)
        (yielder_at plan.entry.graph.now.yielders datum)
        (yielder_at plan.entry.graph.now.yielders cell))) }
    ensures placed { OnOk result ((l : ℕ) → is_placed asm.new.items l ≡ is_placed asm.old.items l) }
    ensures short { OnOk result (total asm.new.items ≤ total asm.old.items + 6
        + 12 * (yielder_count (yielder_at plan.entry.graph.now.yielders datum)
        + yielder_count (yielder_at plan.entry.graph.now.yielders cell))) }
{
    if plan.needs[datum as usize] < plan.needs[cell as usize] {
        append_pair(asm, plan, k, cell, datum)?;
        return append_put(asm, LATER, EARLIER);
    }
    append_pair(asm, plan, k, datum, cell)?;
    append_put(asm, EARLIER, LATER)
}

/// Appends what stores a datum in a cell. Where one of the yielders yields nothing, that goes to the
/// entry for failures.
#[tactic(auto, using(crate::proofs::Fresh::freshness))]
fn append_stores(
    asm: &mut Asm,
    plan: Plan<'_, '_, '_>,
    k: usize,
    datum: u32,
    cell: u32,
) -> Result<(), Memory>
    requires node { k < length plan.graph.now.nodes }
    requires made { first_label + length plan.labels.row.now ≤ asm.old.labels }
    requires datum { IsDatum plan.graph.now.yielders datum }
    requires cell { IsDatum plan.graph.now.yielders cell }
    requires datum_built { is_built (yielder_at plan.graph.now.yielders datum) ≡ true }
    requires cell_built { is_built (yielder_at plan.graph.now.yielders cell) ≡ true }
    requires few { yielder_count (yielder_at plan.graph.now.yielders datum)
        + yielder_count (yielder_at plan.graph.now.yielders cell) < node_limit }
    requires stop { is_placed asm.old.items (stop_of k) ≡ false }
    ensures items { OnOk result (asm.new ≡ extended asm.old
        (stores (list_at (lists_of plan.entry.given.now) k) k
        (yielder_at plan.entry.graph.now.yielders datum)
        (yielder_at plan.entry.graph.now.yielders cell))) }
    ensures marks { OnOk result (PlacesStop k asm.old.items asm.new.items) }
    ensures short { OnOk result (total asm.new.items ≤ total asm.old.items + 6
        + 12 * (yielder_count (yielder_at plan.entry.graph.now.yielders datum)
        + yielder_count (yielder_at plan.entry.graph.now.yielders cell))) }
{
    append_puts(asm, plan, k, datum, cell)?;
    asm.place(plan.labels.stop(k));
    Ok(())
}

/// Appends the code of node k where it stores a datum in a cell and goes on at a label.
pub(crate) fn append_storing(
    asm: &mut Asm,
    plan: Plan<'_, '_, '_>,
    k: usize,
    exit: Label,
    datum: u32,
    cell: u32,
) -> Result<(), Memory>
    requires node { k < length plan.graph.now.nodes }
    requires made { first_label + length plan.labels.row.now ≤ asm.old.labels }
    requires exit { exit < asm.old.labels }
    requires datum { IsDatum plan.graph.now.yielders datum }
    requires cell { IsDatum plan.graph.now.yielders cell }
    requires datum_built { is_built (yielder_at plan.graph.now.yielders datum) ≡ true }
    requires cell_built { is_built (yielder_at plan.graph.now.yielders cell) ≡ true }
    requires few { yielder_count (yielder_at plan.graph.now.yielders datum)
        + yielder_count (yielder_at plan.graph.now.yielders cell) < node_limit }
    requires stop { is_placed asm.old.items (stop_of k) ≡ false }
    ensures items { OnOk result (asm.new ≡ extended asm.old
        (stores (list_at (lists_of plan.entry.given.now) k) k
        (yielder_at plan.entry.graph.now.yielders datum)
        (yielder_at plan.entry.graph.now.yielders cell) ++ leaves k exit)) }
    ensures marks { OnOk result (PlacesStop k asm.old.items asm.new.items) }
    ensures short { OnOk result (total asm.new.items ≤ total asm.old.items + 8
        + 12 * (yielder_count (yielder_at plan.entry.graph.now.yielders datum)
        + yielder_count (yielder_at plan.entry.graph.now.yielders cell))) }
{
    let next = plan.labels.front(k + 1);
    append_stores(asm, plan, k, datum, cell)?;
    append_way(asm, next, exit)
}
