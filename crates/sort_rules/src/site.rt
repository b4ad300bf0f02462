//! Where a node stands: what its demands are listed from, and what it asks of its operands.
ghost use Rattle.std.specs.Prelude.{◌≡◌, ◌++◌, ◌∷◌, IfOk, OnOk, reverse};
ghost use Rattle.action_terms.specs.Forms.{IsDatum, AreItems, yielder_at, items_at as listed_items};
ghost use Rattle.action_terms.specs.Steps.{closures_in, closures_in_items};
ghost use Rattle.sort_rules.specs.Tables.{DataIn, BindsIn, Mark};
ghost use Rattle.sort_rules.specs.Demands.{◌⊒◌, received_by, reached_if, live_at, value_at, wrong_at, items_at, items_wrong_at};
ghost use Rattle.sort_rules.specs.Judgements.{misfit_unless};
ghost use Rattle.sort_rules.specs.Asked.{sort_demands, any_demands, data_demands};
ghost use Rattle.sort_rules.specs.MarkedRows.{marked_table};
ghost use Rattle.sort_rules.specs.DemandViews.{demands_of};
ghost use Rattle.sort_rules.specs.Views.{marked_tuple_of, marked_binds_of, value_part};

use crate::demands::{Demand, ask};
use crate::judging::{Context, judge};
use crate::node_list::NodeList;
use crate::operands::{JudgedData, both_fit, judge_data};
use crate::parts::{MarkedBinds, MarkedTuple};
use crate::rows::{MarkedRow, binds_in, data_in};
use crate::values::{Judged, Value, is_no_clash, lies_within};
use acg_base::Memory;
use action_terms::{Graph, Sort};
use bumpalo::Bump;
use std::alloc::Global;

/// What the demands of a node are listed from.
#[derive(Clone, Copy)]
pub struct Site<'t, 'a> {
    /// For what isn't in the arena.
    pub alloc: Global,
    /// For the parts.
    pub arena: &'a Bump,
    /// The table.
    pub rows: &'t [MarkedRow<'a>],
    /// The `allocate` nodes of the action.
    pub cells: &'t NodeList,
    /// The bodies of its closures.
    pub bodies: &'t NodeList,
    /// The node.
    pub node: u32,
}

/// Whether the node is live: it may be given data and receive bindings.
pub fn is_live(site: &Site<'_, '_>) -> bool
    ensures { reached_if result ≡ live_at (marked_table site.now.rows.now) site.now.node }
{
    let g = data_in(site.rows, site.node);
    let h = binds_in(site.rows, site.node);
    !matches!(g, MarkedTuple::Unreached) && !matches!(h, MarkedBinds::Unreached)
}

// what the yielders of the node are judged with
fn context_of<'t, 'a>(site: &Site<'t, 'a>) -> Context<'t, 'a>
    ensures rows { result.rows.now ≡ site.now.rows.now }
    ensures g { marked_tuple_of result.g ≡ marked_table site.now.rows.now (DataIn site.now.node) }
    ensures h { marked_binds_of result.h ≡ marked_table site.now.rows.now (BindsIn site.now.node) }
{
    Context {
        rows: site.rows,
        g: data_in(site.rows, site.node),
        h: binds_in(site.rows, site.node),
    }
}

/// Judges a yielder of the node, and puts the closures in it behind a list, the last one first.
pub fn judge_at<'a>(
    graph: &Graph<'a>,
    site: &Site<'_, 'a>,
    number: u32,
    closures: &mut Vec<u32>,
) -> Result<Judged<'a>, Memory>
    requires { IsDatum graph.now.yielders number }
    ensures value { IfOk result (λ j. value_part j.value
        ≡ value_at (marked_table site.now.rows.now) site.now.node
        (yielder_at graph.now.yielders number)) }
    ensures wrong { IfOk result (λ j. misfit_unless j.fits
        ≡ wrong_at (marked_table site.now.rows.now) site.now.node
        (yielder_at graph.now.yielders number)) }
    ensures closures { OnOk result (closures.new.items ≡ closures.old.items
        ++ reverse (closures_in (yielder_at graph.now.yielders number))) }
{
    let context = context_of(site);
    let judged = judge(site.alloc, site.arena, graph, &context, number, closures)?;
    Ok(judged)
}

/// Judges data of the node, and puts the closures in them behind a list, the last one first.
pub fn judge_data_at<'a>(
    graph: &Graph<'a>,
    site: &Site<'_, 'a>,
    numbers: &[u32],
    closures: &mut Vec<u32>,
) -> Result<JudgedData<'a>, Memory>
    requires { AreItems graph.now.yielders numbers.now }
    ensures value { IfOk result (λ j. marked_tuple_of j.value
        ≡ items_at (marked_table site.now.rows.now) site.now.node
        (listed_items graph.now.yielders numbers.now)) }
    ensures wrong { IfOk result (λ j. misfit_unless j.fits
        ≡ items_wrong_at (marked_table site.now.rows.now) site.now.node
        (listed_items graph.now.yielders numbers.now)) }
    ensures closures { OnOk result (closures.new.items ≡ closures.old.items
        ++ reverse (closures_in_items (listed_items graph.now.yielders numbers.now))) }
{
    let context = context_of(site);
    let judged = judge_data(site.alloc, site.arena, graph, &context, numbers, closures)?;
    Ok(judged)
}

// the closures of these bodies, the last one first, receive the bindings
fn receive<'a>(
    h: MarkedBinds<'a>,
    closures: &[u32],
    out: &mut Vec<Demand<'a>>,
) -> Result<(), Memory>
    ensures { OnOk result (demands_of out.new.items ≡ demands_of out.old.items
        ++ received_by (marked_binds_of h.entry) (reverse closures.now)) }
{
    for i in (0..closures.len()).rev() {
        ask(out, &[Demand::BindsIn(closures[i], h)])?;
    }
    Ok(())
}

/// Asks for the mark of the node, unless its yielders fit, and that the closures of these bodies, the
/// last one first, receive its bindings.
pub fn mark<'a>(
    site: &Site<'_, 'a>,
    fits: bool,
    closures: &[u32],
    out: &mut Vec<Demand<'a>>,
) -> Result<(), Memory>
    ensures { OnOk result (demands_of out.new.items ≡ demands_of out.old.items ++ Mark site.now.node
        ⊒ misfit_unless fits ∷ received_by (marked_table site.now.rows.now (BindsIn site.now.node))
        (reverse closures.now)) }
{
    ask(out, &[Demand::Mark(site.node, fits)])?;
    receive(binds_in(site.rows, site.node), closures, out)
}

/// The yielder fits and lies in the sort, and the closures in it receive the node's bindings.
pub fn ask_sort<'a>(
    graph: &Graph<'a>,
    site: &Site<'_, 'a>,
    number: u32,
    sort: Sort,
    out: &mut Vec<Demand<'a>>,
) -> Result<Value<'a>, Memory>
    requires { IsDatum graph.now.yielders number }
    ensures value { IfOk result (λ v. value_part v
        ≡ value_at (marked_table site.now.rows.now) site.now.node
        (yielder_at graph.now.yielders number)) }
    ensures asked { OnOk result (demands_of out.new.items ≡ demands_of out.old.items
        ++ sort_demands (marked_table site.now.rows.now) site.now.node sort
        (yielder_at graph.now.yielders number)) }
{
    let mut closures = Vec::new(site.alloc);
    let judged = judge_at(graph, site, number, &mut closures)?;
    let fits = both_fit(judged.fits, lies_within(sort, judged.value));
    mark(site, fits, closures.as_slice(), out)?;
    Ok(judged.value)
}

/// The yielder fits and is no clash, and the closures in it receive the node's bindings.
pub fn ask_any<'a>(
    graph: &Graph<'a>,
    site: &Site<'_, 'a>,
    number: u32,
    out: &mut Vec<Demand<'a>>,
) -> Result<Value<'a>, Memory>
    requires { IsDatum graph.now.yielders number }
    ensures value { IfOk result (λ v. value_part v
        ≡ value_at (marked_table site.now.rows.now) site.now.node
        (yielder_at graph.now.yielders number)) }
    ensures asked { OnOk result (demands_of out.new.items ≡ demands_of out.old.items
        ++ any_demands (marked_table site.now.rows.now) site.now.node
        (yielder_at graph.now.yielders number)) }
{
    let mut closures = Vec::new(site.alloc);
    let judged = judge_at(graph, site, number, &mut closures)?;
    let fits = both_fit(judged.fits, is_no_clash(judged.value));
    mark(site, fits, closures.as_slice(), out)?;
    Ok(judged.value)
}

/// The items fit, and the closures in them receive the node's bindings.
pub fn ask_data<'a>(
    graph: &Graph<'a>,
    site: &Site<'_, 'a>,
    numbers: &[u32],
    out: &mut Vec<Demand<'a>>,
) -> Result<MarkedTuple<'a>, Memory>
    requires { AreItems graph.now.yielders numbers.now }
    ensures value { IfOk result (λ v. marked_tuple_of v
        ≡ items_at (marked_table site.now.rows.now) site.now.node
        (listed_items graph.now.yielders numbers.now)) }
    ensures asked { OnOk result (demands_of out.new.items ≡ demands_of out.old.items
        ++ data_demands (marked_table site.now.rows.now) site.now.node
        (listed_items graph.now.yielders numbers.now)) }
{
    let mut closures = Vec::new(site.alloc);
    let judged = judge_data_at(graph, site, numbers, &mut closures)?;
    mark(site, judged.fits, closures.as_slice(), out)?;
    Ok(judged.value)
}
