//! The code of an action, for any action whose nodes are built.

ghost use Rattle.std.specs.Prelude.{◌≡◌, ℕ, ◌+◌, ◌*◌, ◌<◌, ◌≤◌, [], ◌++◌, OnOk, IfOk, length, Some, map, slice_index, sum_by, vec_len};
ghost use Rattle.rv_code.specs.Encode.{encode};
ghost use Rattle.rv_asm.specs.Arrivals.{LabelsStand};
ghost use Rattle.rv_asm.specs.Assembly.{total, code_of};
ghost use Rattle.rv_asm.specs.Conventions.{instruction_bytes};
ghost use Rattle.rv_asm.specs.Pieces.{exit_with};
ghost use Rattle.action_terms.specs.Literals.{NumbersFit};
ghost use Rattle.action_terms.specs.Meaning.{action_of};
ghost use Rattle.action_terms.specs.Need.{node_yielder_count};
ghost use Rattle.sort_rules.specs.Admissible.{IsAdmissible};
ghost use Rattle.sort_rules.specs.Measures.{width};
ghost use Rattle.sort_rules.specs.Rows.{unmarked};
ghost use Rattle.sort_rules.specs.Tables.{MarkedTable};
ghost use Rattle.frame_layout.specs.Layouts.{IsLayout};
ghost use Rattle.frame_layout.specs.Places.{frames_of};
ghost use Rattle.rv_codegen.specs.Aliases.{list_at, lists_of, words_at};
ghost use Rattle.rv_codegen.specs.Blocks.{first_label, blocks_from, ending, action_items, framed_items, table_words};
ghost use Rattle.rv_codegen.specs.Marks.{extended, AreFresh};
ghost use Rattle.rv_codegen.specs.Built.{unbuilt};
ghost use Rattle.rv_codegen.specs.ItemCode.{AreReached};
ghost use Rattle.rv_codegen.specs.Measures.{node_count};
ghost use Rattle.rv_codegen.specs.RightImage.{compiled_image, IsRight};

use crate::data_tables::{DataTables, data_tables};
use crate::entries::{append_ending, append_prelude};
use crate::exits::make_exits;
use crate::labels::{NodeLabels, make_labels};
use crate::node::append_node;
use crate::node_places::places_by_number;
use crate::plan::Plan;
use crate::room::{full_code, main_words};
use acg_base::{Capacity, Memory};
use action_terms::Graph;
use frame_layout::Layout;
use rv_asm::{Asm, Code};
use rv_yield::registers_needed;
use sort_rules::Table;
use std::alloc::Global;

/// Appends the code of all nodes, in the order of their numbers.
fn append_nodes(asm: &mut Asm, plan: Plan<'_, '_, '_>) -> Result<(), Memory>
    requires made { first_label + length plan.labels.row.now ≤ asm.old.labels }
    requires fresh { AreFresh 0 asm.old.items }
    ensures items { OnOk result (asm.new
        ≡ extended asm.old (blocks_from (table_words (lists_of plan.entry.given.now)
        (lists_of plan.entry.out.now) (lists_of plan.entry.escaped.now)
        plan.entry.keeps.now plan.entry.frames.now) 0 plan.entry.exits.now
        (action_of plan.entry.graph.now))) }
    ensures fresh { OnOk result (AreFresh (length plan.entry.graph.now.nodes) asm.new.items) }
    ensures short { OnOk result
        (total asm.new.items ≤ total asm.old.items + 530 * length plan.entry.graph.now.nodes
        + 520 * sum_by node_yielder_count (action_of plan.entry.graph.now)) }
{
    let count = plan.graph.nodes().len();
    for k in 0..count {
        append_node(asm, plan, k, plan.exits[k])?;
    }
    Ok(())
}

/// Appends the code of all nodes, and what stands behind them.
fn append_action(asm: &mut Asm, plan: Plan<'_, '_, '_>) -> Result<(), Memory>
    requires made { first_label + length plan.labels.row.now ≤ asm.old.labels }
    requires fresh { AreFresh 0 asm.old.items }
    ensures items { OnOk result (asm.new ≡ extended asm.old
        (blocks_from (table_words (lists_of plan.entry.given.now)
        (lists_of plan.entry.out.now) (lists_of plan.entry.escaped.now)
        plan.entry.keeps.now plan.entry.frames.now) 0 plan.entry.exits.now
        (action_of plan.entry.graph.now)
        ++ ending (length (action_of plan.entry.graph.now)))) }
    ensures short { OnOk result (total asm.new.items
        ≤ total asm.old.items + 4 + 530 * length (action_of plan.entry.graph.now)
        + 520 * sum_by node_yielder_count (action_of plan.entry.graph.now)) }
{
    append_nodes(asm, plan)?;
    append_ending(asm, plan.labels, plan.graph.nodes().len(), plan.entries)
}

/// The code of a graph's action for a capacity, by where its nodes find and leave data.
fn assemble(
    alloc: Global,
    graph: &Graph<'_>,
    tables: &DataTables<'_>,
    capacity: Capacity,
) -> Result<Code, Memory>
    requires built { unbuilt (action_of graph.now) ≡ [] }
    requires given_count { vec_len tables.now.given ≡ length graph.now.nodes }
    requires out_count { vec_len tables.now.out ≡ length graph.now.nodes }
    requires escaped_count { vec_len tables.now.escaped ≡ length graph.now.nodes }
    requires keeps_count { vec_len tables.now.keeps ≡ length graph.now.nodes }
    requires frames_count { vec_len tables.now.frames ≡ length graph.now.nodes }
    requires given_reached { (k : ℕ) → AreReached (list_at (lists_of tables.now.given.items) k) }
    requires out_reached { (k : ℕ) → AreReached (list_at (lists_of tables.now.out.items) k) }
    requires escaped_reached { (k : ℕ)
        → AreReached (list_at (lists_of tables.now.escaped.items) k) }
    requires keeps_reached { (k : ℕ) → slice_index tables.now.keeps.items k < 33554432 }
    requires stack { (1 ≤ capacity.stack) × (capacity.stack ≤ 16777216) }
    requires units { (1 ≤ capacity.units) × (capacity.units ≤ 4194304) }
    ensures words { IfOk result (λ code. map Some code.words.items
        ≡ map encode (code_of (action_items (table_words (lists_of tables.now.given.items)
        (lists_of tables.now.out.items) (lists_of tables.now.escaped.items) tables.now.keeps.items tables.now.frames.items) capacity.stack capacity.units (action_of graph.now)))) }
    ensures labels { OnOk result (LabelsStand (action_items (table_words (lists_of tables.now.given.items)
        (lists_of tables.now.out.items) (lists_of tables.now.escaped.items) tables.now.keeps.items tables.now.frames.items) capacity.stack capacity.units (action_of graph.now))) }
    ensures short { OnOk result
        (total (action_items (table_words (lists_of tables.now.given.items)
        (lists_of tables.now.out.items) (lists_of tables.now.escaped.items) tables.now.keeps.items tables.now.frames.items) capacity.stack capacity.units (action_of graph.now))
        ≤ 4100 + 530 * node_count (action_of graph.now)) }
    ensures numbers { OnOk result (NumbersFit (action_of graph.now)) }
{
    let count = graph.nodes().len();
    let mut asm = Asm::new(alloc)?;
    let entries = append_prelude(&mut asm, capacity)?;
    let row = make_labels(alloc, &mut asm, 4 * count + 4)?;
    let labels = NodeLabels { row: &row };
    let exits = make_exits(alloc, graph, labels)?;
    let needs = registers_needed(alloc, graph)?;
    let plan = Plan {
        alloc,
        graph: &*graph,
        needs: &needs,
        labels,
        given: &tables.given,
        out: &tables.out,
        escaped: &tables.escaped,
        keeps: &tables.keeps,
        frames: &tables.frames,
        exits: &exits,
        entries: &entries,
    };
    append_action(&mut asm, plan)?;
    asm.finish()
}

/// The code of a graph's action for a capacity, with the places of a layout for its data.
fn assemble_framed(
    alloc: Global,
    graph: &Graph<'_>,
    layout: &Layout<'_>,
    capacity: Capacity,
) -> Result<Code, Memory>
    requires built { unbuilt (action_of graph.now) ≡ [] }
    requires table { (t : MarkedTable) × (width (length (action_of graph.now)) t ≤ 64)
        × IsLayout (action_of graph.now) t (frames_of layout.now) }
    requires stack { (1 ≤ capacity.stack) × (capacity.stack ≤ 16777216) }
    requires units { (1 ≤ capacity.units) × (capacity.units ≤ 4194304) }
    ensures words { IfOk result (λ code. map Some code.words.items
        ≡ map encode (code_of (framed_items (action_of graph.now) (frames_of layout.now)
        capacity.stack capacity.units))) }
    ensures labels { OnOk result
        (LabelsStand (framed_items (action_of graph.now) (frames_of layout.now)
        capacity.stack capacity.units)) }
    ensures short { OnOk result
        (total (framed_items (action_of graph.now) (frames_of layout.now)
        capacity.stack capacity.units)
        ≤ 4100 + 530 * node_count (action_of graph.now)) }
    ensures numbers { OnOk result (NumbersFit (action_of graph.now)) }
{
    let count = graph.nodes().len();
    let places = places_by_number(alloc, layout, count)?;
    let tables = data_tables(alloc, graph, layout, &places)?;
    assemble(alloc, graph, &tables, capacity)
}

/// The code of an action whose nodes are built, for an admissible table of its sorts, a layout of
/// its frames by that table, and a capacity: words of 32 bits, for the image of which it is proved
/// that it is right for the action, the table and the capacity. Where the frame of the main
/// procedure needs more words than the stack has, the code exits as full at once. An `Err` says want
/// of memory.
pub fn generate(
    alloc: Global,
    graph: &Graph<'_>,
    table: &Table<'_>,
    layout: &Layout<'_>,
    capacity: Capacity,
) -> Result<Code, Memory>
    requires built { unbuilt (action_of graph.now) ≡ [] }
    requires admissible { IsAdmissible (action_of graph.now) (unmarked table.now) }
    requires rows { length table.now.rows ≡ length graph.now.nodes }
    requires layout { IsLayout (action_of graph.now) (unmarked table.now) (frames_of layout.now) }
    requires stack { (1 ≤ capacity.stack) × (capacity.stack ≤ 16777216) }
    requires units { (1 ≤ capacity.units) × (capacity.units ≤ 4194304) }
    ensures right { IfOk result (λ code. IsRight
        (compiled_image (instruction_bytes code.words.items)
        capacity.stack capacity.units)
        (record {
          action = action_of graph.now;
          table = unmarked table.now;
          stack = capacity.stack;
          units = capacity.units;
        })) }
    ensures full { IfOk result (λ code. capacity.stack < words_at (frames_of layout.now) 0
        → map Some code.words.items ≡ map encode (exit_with 3)) }
{
    // how many nodes and yielders there are, and how wide rows are, is limited
    let _nodes = graph.nodes();
    let _width = table.width();
    if u64::from(main_words(layout)) > capacity.stack {
        return full_code(alloc);
    }
    assemble_framed(alloc, graph, layout, capacity)
}
