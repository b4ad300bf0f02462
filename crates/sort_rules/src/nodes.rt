//! What a node asks of a table, by its kind.
ghost use Rattle.std.specs.Prelude.{ℕ, ◌≡◌, ◌<◌, ◌++◌, ◌∷◌, List, length, IfOk, OnOk};
ghost use Rattle.action_terms.specs.Actions.{Simple, Enact, Apply, Unfold, Branch};
ghost use Rattle.action_terms.specs.Forms.{IsDatum, AreItems, HasOperands, HasPrimitiveOperands, node_viewed, primitive_viewed, yielder_at, items_at as listed_items};
ghost use Rattle.action_terms.specs.Meaning.{action_of};
ghost use Rattle.sort_rules.specs.Parts.{when};
ghost use Rattle.sort_rules.specs.Demands.{live_at, value_at, arms, demands, node_demands, allocate_nodes, closure_bodies};
ghost use Rattle.sort_rules.specs.Asked.{arm_ends, decision_demands};
ghost use Rattle.sort_rules.specs.MarkedRows.{marked_table};
ghost use Rattle.sort_rules.specs.DemandViews.{demands_of};
ghost use Rattle.sort_rules.specs.Reached.{Adds, AskTheSame};
ghost use Rattle.sort_rules.specs.Views.{value_part};

use crate::combining::{
    ask_both, ask_either, ask_furthermore, ask_phases, ask_trapping, ask_unfolding, hand_both,
};
use crate::demands::{Demand, ask, ends_like, handed};
use crate::members::ask_enacts;
use crate::operands::both_fit;
use crate::parts::MarkedTuple;
use crate::primitives::{ask_primitive, binds_where, data_where};
use crate::rows::{binds_in, binds_out, data_in, data_out, escaped};
use crate::site::{Site, ask_sort, is_live, judge_at, judge_data_at, mark};
use crate::values::{Value, lies_within};
use acg_base::Memory;
use action_terms::{Graph, NodeView, PrimitiveView, Sort};

// a node that is done in one step asks so
fn ask_simple<'a>(
    graph: &Graph<'a>,
    site: &Site<'_, 'a>,
    primitive: PrimitiveView<'a>,
    out: &mut Vec<Demand<'a>>,
) -> Result<(), Memory>
    requires { HasPrimitiveOperands graph.now.yielders primitive }
    ensures { OnOk result ((bodies : List ℕ)
        → Adds (demands_of out.old.items)
        (node_demands site.now.cells.now bodies (marked_table site.now.rows.now) site.now.node
        (Simple (primitive_viewed graph.now.yielders primitive.entry)))
        (demands_of out.new.items)) }
{
    if is_live(site) {
        ask_primitive(graph, site, primitive, out)?;
    }
    Ok(())
}

// `enact Y` asks so
fn ask_enact<'a>(
    graph: &Graph<'a>,
    site: &Site<'_, 'a>,
    number: u32,
    out: &mut Vec<Demand<'a>>,
) -> Result<(), Memory>
    requires { IsDatum graph.now.yielders number }
    ensures { OnOk result ((cells : List ℕ)
        → Adds (demands_of out.old.items)
        (node_demands cells site.now.bodies.now (marked_table site.now.rows.now)
        site.now.node (Enact (yielder_at graph.now.yielders number))) (demands_of out.new.items)) }
{
    if is_live(site) {
        let value = ask_sort(graph, site, number, Sort::Abstraction, out)?;
        ask_enacts(site, value, MarkedTuple::List(&[]), out)?;
    }
    Ok(())
}

// `enact application of Y to D` asks so
fn ask_apply<'a>(
    graph: &Graph<'a>,
    site: &Site<'_, 'a>,
    number: u32,
    items: &[u32],
    out: &mut Vec<Demand<'a>>,
) -> Result<(), Memory>
    requires datum { IsDatum graph.now.yielders number }
    requires items { AreItems graph.now.yielders items.now }
    ensures { OnOk result ((cells : List ℕ)
        → Adds (demands_of out.old.items)
        (node_demands cells site.now.bodies.now (marked_table site.now.rows.now)
        site.now.node (Apply (yielder_at graph.now.yielders number)
        (listed_items graph.now.yielders items.now))) (demands_of out.new.items)) }
{
    if is_live(site) {
        let mut closures = Vec::new(site.alloc);
        let given = judge_data_at(graph, site, items, &mut closures)?;
        let called = judge_at(graph, site, number, &mut closures)?;
        let calls = both_fit(called.fits, lies_within(Sort::Abstraction, called.value));
        let fits = both_fit(calls, given.fits);
        mark(site, fits, closures.as_slice(), out)?;
        ask_enacts(site, called.value, given.value, out)?;
    }
    Ok(())
}

// `unfold` asks so
fn ask_unfold<'a>(site: &Site<'_, 'a>, body: u32, out: &mut Vec<Demand<'a>>) -> Result<(), Memory>
    ensures { OnOk result ((cells : List ℕ) → (bodies : List ℕ)
        → Adds (demands_of out.old.items)
        (node_demands cells bodies (marked_table site.now.rows.now) site.now.node (Unfold body))
        (demands_of out.new.items)) }
{
    let g = data_in(site.rows, site.node);
    let h = binds_in(site.rows, site.node);
    ask(out, &handed(body, g, h))?;
    if is_live(site) {
        ask(out, &ends_like(site.rows, site.node, body))?;
    }
    Ok(())
}

// what decides a branch lies in truth-value, and is reached only at a live node
fn ask_decision<'a>(
    graph: &Graph<'a>,
    site: &Site<'_, 'a>,
    number: u32,
    out: &mut Vec<Demand<'a>>,
) -> Result<Value<'a>, Memory>
    requires { IsDatum graph.now.yielders number }
    ensures value { IfOk result (λ v. value_part v
        ≡ when (live_at (marked_table site.now.rows.now) site.now.node)
        (value_at (marked_table site.now.rows.now) site.now.node
        (yielder_at graph.now.yielders number))) }
    ensures asked { OnOk result (Adds (demands_of out.old.items)
        (decision_demands (marked_table site.now.rows.now) site.now.node
        (yielder_at graph.now.yielders number)) (demands_of out.new.items)) }
{
    if is_live(site) {
        let value = ask_sort(graph, site, number, Sort::Truth, out)?;
        return Ok(value);
    }
    Ok(Value::Unreached)
}

// the node ends as an arm does, where the value that decides is reached; it escapes as the arm does in any case
fn end_like_arm<'a>(
    site: &Site<'_, 'a>,
    value: Value<'_>,
    arm: u32,
    out: &mut Vec<Demand<'a>>,
) -> Result<(), Memory>
    ensures { OnOk result (demands_of out.new.items ≡ demands_of out.old.items
        ++ arm_ends (marked_table site.now.rows.now) site.now.node (value_part value.entry) arm) }
{
    let o = data_where(value, data_out(site.rows, arm));
    let p = binds_where(value, binds_out(site.rows, arm));
    let e = escaped(site.rows, arm);
    ask(
        out,
        &[
            Demand::DataOut(site.node, o),
            Demand::BindsOut(site.node, p),
            Demand::Escaped(site.node, e),
        ],
    )
}

// `branch(Y, A, B)` asks so
fn ask_branch<'a>(
    graph: &Graph<'a>,
    site: &Site<'_, 'a>,
    number: u32,
    left: u32,
    right: u32,
    out: &mut Vec<Demand<'a>>,
) -> Result<(), Memory>
    requires { IsDatum graph.now.yielders number }
    ensures { OnOk result ((cells : List ℕ) → (bodies : List ℕ)
        → Adds (demands_of out.old.items)
        (node_demands cells bodies (marked_table site.now.rows.now) site.now.node
        (Branch (yielder_at graph.now.yielders number) left right)) (demands_of out.new.items)) }
{
    let value = ask_decision(graph, site, number, out)?;
    hand_both(site.rows, site.node, left, right, out)?;
    end_like_arm(site, value, left, out)?;
    end_like_arm(site, value, right, out)?;
    Ok(())
}

// a node asks so, by its kind
fn ask_node<'a>(
    graph: &Graph<'a>,
    site: &Site<'_, 'a>,
    view: NodeView<'a>,
    out: &mut Vec<Demand<'a>>,
) -> Result<(), Memory>
    requires { HasOperands graph.now.yielders view }
    ensures { OnOk result (Adds (demands_of out.old.items)
        (node_demands site.now.cells.now site.now.bodies.now
        (marked_table site.now.rows.now) site.now.node (node_viewed graph.now.yielders view.entry))
        (demands_of out.new.items)) }
{
    let (arena, rows, node) = (site.arena, site.rows, site.node);
    match view {
        NodeView::Simple(primitive) => ask_simple(graph, site, primitive, out),
        NodeView::Enact { yielder } => ask_enact(graph, site, yielder, out),
        NodeView::Apply { yielder, items } => ask_apply(graph, site, yielder, items, out),
        NodeView::Unfolding { body } => ask_unfolding(rows, node, body, out),
        NodeView::Unfold { body } => ask_unfold(site, body, out),
        NodeView::Furthermore { part } => ask_furthermore(arena, rows, node, part, out),
        NodeView::Both { join, left, right } => {
            ask_both(arena, rows, node, join, left, right, out)
        }
        NodeView::Phases { chain, left, right } => {
            ask_phases(arena, rows, node, chain, left, right, out)
        }
        NodeView::Either { left, right } => ask_either(rows, node, left, right, out),
        NodeView::Trapping { left, right } => ask_trapping(rows, node, left, right, out),
        NodeView::Branch {
            yielder,
            left,
            right,
        } => { ask_branch(graph, site, yielder, left, right, out) }
    }
}

/// The demands of the node, in some order; those of unreached parts, which are always met, may be
/// left out.
pub fn demands_at<'a>(graph: &Graph<'a>, site: &Site<'_, 'a>) -> Result<Vec<Demand<'a>>, Memory>
    requires node { site.now.node < length graph.now.nodes }
    requires cells { site.now.cells.now ≡ allocate_nodes (action_of graph.now) }
    requires bodies { site.now.bodies.now ≡ closure_bodies (action_of graph.now) }
    ensures { IfOk result (λ ds. AskTheSame (demands_of ds.items)
        (demands (action_of graph.now) (marked_table site.now.rows.now) site.now.node)) }
{
    let mut out = Vec::new(site.alloc);
    ask_node(graph, site, graph.view(site.node as usize), &mut out)?;
    Ok(out)
}
