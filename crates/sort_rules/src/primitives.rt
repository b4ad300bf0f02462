//! What the nodes that are done in one step ask of a table.
ghost use Rattle.std.specs.Prelude.{ℕ, ◌≡◌, ◌++◌, List, IfOk, OnOk};
ghost use Rattle.action_terms.specs.Actions.{Escape, Regive, Rebind, Give, EscapeWith, Check, Send, Bind, BindRec, Store, Allocate, Receive};
ghost use Rattle.action_terms.specs.Forms.{IsDatum, AreItems, HasPrimitiveOperands, primitive_viewed, yielder_at, items_at as listed_items};
ghost use Rattle.sort_rules.specs.Parts.{when};
ghost use Rattle.sort_rules.specs.Values.{nothing};
ghost use Rattle.sort_rules.specs.Demands.{bound_to, completes, primitive_demands};
ghost use Rattle.sort_rules.specs.MarkedRows.{marked_table};
ghost use Rattle.sort_rules.specs.DemandViews.{demands_of};
ghost use Rattle.sort_rules.specs.Reached.{Adds};
ghost use Rattle.sort_rules.specs.Views.{marked_tuple_of, marked_binds_of, value_part};

use crate::demands::{Demand, ask, completes, with_data};
use crate::judging::closures_of;
use crate::maps;
use crate::members::ask_stores;
use crate::operands::{both_fit, tuple_of_value};
use crate::parts::{BoundSet, MarkedBinds, MarkedTuple};
use crate::rows::{binds_in, data_in};
use crate::sets::{atoms, numbered};
use crate::site::{Site, ask_any, ask_data, ask_sort, judge_at, mark};
use crate::values::{Value, is_no_clash, lies_within};
use acg_base::Memory;
use action_terms::{Graph, PrimitiveView, Sort};
use bumpalo::Bump;

/// The data, where the value is reached.
pub fn data_where<'a>(value: Value<'_>, given: MarkedTuple<'a>) -> MarkedTuple<'a>
    ensures { marked_tuple_of result ≡ when (value_part value.entry) (marked_tuple_of given.entry) }
{
    match value {
        Value::Unreached => MarkedTuple::Unreached,
        _ => given,
    }
}

/// The bindings, where the value is reached.
pub fn binds_where<'a>(value: Value<'_>, received: MarkedBinds<'a>) -> MarkedBinds<'a>
    ensures { marked_binds_of result
        ≡ when (value_part value.entry) (marked_binds_of received.entry) }
{
    match value {
        Value::Unreached => MarkedBinds::Unreached,
        _ => received,
    }
}

// no data, where the value is reached
fn no_data<'a>(value: Value<'_>) -> MarkedTuple<'a>
    ensures { marked_tuple_of result ≡ when (value_part value.entry) nothing }
{
    data_where(value, MarkedTuple::List(&[]))
}

// no bindings, where the value is reached
fn no_binds<'a>(value: Value<'_>) -> MarkedBinds<'a>
    ensures { marked_binds_of result ≡ when (value_part value.entry) nothing }
{
    binds_where(value, MarkedBinds::Map(&[]))
}

// the bindings of a token to a value
fn bound_to<'a>(
    arena: &'a Bump,
    token: &'a [u8],
    value: Value<'a>,
) -> Result<MarkedBinds<'a>, Memory>
    ensures { IfOk result (λ r. marked_binds_of r ≡ bound_to token.now (value_part value.entry)) }
{
    match value {
        Value::Unreached => Ok(MarkedBinds::Unreached),
        Value::One(set) => {
            let pairs: &'a [BoundSet<'a>] = arena.try_alloc_slice_copy(&[(token, set)])?;
            Ok(MarkedBinds::Map(pairs))
        }
        Value::Clash => Ok(MarkedBinds::Clash),
    }
}

/// `check Y` asks so.
pub fn ask_check<'a>(
    graph: &Graph<'a>,
    site: &Site<'_, 'a>,
    number: u32,
    out: &mut Vec<Demand<'a>>,
) -> Result<(), Memory>
    requires { IsDatum graph.now.yielders number }
    ensures { OnOk result ((cells : List ℕ) → demands_of out.new.items ≡ demands_of out.old.items
        ++ primitive_demands cells (marked_table site.now.rows.now) site.now.node
        (Check (yielder_at graph.now.yielders number))) }
{
    let value = ask_sort(graph, site, number, Sort::Truth, out)?;
    ask(out, &completes(site.node, no_data(value), no_binds(value)))
}

/// `send Y` asks so.
pub fn ask_send<'a>(
    graph: &Graph<'a>,
    site: &Site<'_, 'a>,
    number: u32,
    out: &mut Vec<Demand<'a>>,
) -> Result<(), Memory>
    requires { IsDatum graph.now.yielders number }
    ensures { OnOk result ((cells : List ℕ) → demands_of out.new.items ≡ demands_of out.old.items
        ++ primitive_demands cells (marked_table site.now.rows.now) site.now.node
        (Send (yielder_at graph.now.yielders number))) }
{
    let value = ask_sort(graph, site, number, Sort::Integer, out)?;
    ask(out, &completes(site.node, no_data(value), no_binds(value)))
}

/// `bind T to Y` asks so.
pub fn ask_bind<'a>(
    graph: &Graph<'a>,
    site: &Site<'_, 'a>,
    token: &'a [u8],
    number: u32,
    out: &mut Vec<Demand<'a>>,
) -> Result<(), Memory>
    requires { IsDatum graph.now.yielders number }
    ensures { OnOk result ((cells : List ℕ) → demands_of out.new.items ≡ demands_of out.old.items
        ++ primitive_demands cells (marked_table site.now.rows.now) site.now.node
        (Bind token.now (yielder_at graph.now.yielders number))) }
{
    let value = ask_any(graph, site, number, out)?;
    let bound = bound_to(site.arena, token, value)?;
    ask(out, &completes(site.node, no_data(value), bound))
}

/// `give D` asks so.
pub fn ask_give<'a>(
    graph: &Graph<'a>,
    site: &Site<'_, 'a>,
    numbers: &[u32],
    out: &mut Vec<Demand<'a>>,
) -> Result<(), Memory>
    requires { AreItems graph.now.yielders numbers.now }
    ensures { OnOk result ((cells : List ℕ) → demands_of out.new.items ≡ demands_of out.old.items
        ++ primitive_demands cells (marked_table site.now.rows.now) site.now.node
        (Give (listed_items graph.now.yielders numbers.now))) }
{
    let data = ask_data(graph, site, numbers, out)?;
    ask(
        out,
        &completes(site.node, data, with_data(data, MarkedBinds::Map(&[]))),
    )
}

/// `escape with D` asks so.
pub fn ask_escape_with<'a>(
    graph: &Graph<'a>,
    site: &Site<'_, 'a>,
    numbers: &[u32],
    out: &mut Vec<Demand<'a>>,
) -> Result<(), Memory>
    requires { AreItems graph.now.yielders numbers.now }
    ensures { OnOk result ((cells : List ℕ) → demands_of out.new.items ≡ demands_of out.old.items
        ++ primitive_demands cells (marked_table site.now.rows.now) site.now.node
        (EscapeWith (listed_items graph.now.yielders numbers.now))) }
{
    let data = ask_data(graph, site, numbers, out)?;
    ask(out, &[Demand::Escaped(site.node, data)])
}

/// `recursively bind T to closure abstraction of A` asks so.
pub fn ask_bind_rec<'a>(
    site: &Site<'_, 'a>,
    token: &'a [u8],
    body: u32,
    out: &mut Vec<Demand<'a>>,
) -> Result<(), Memory>
    ensures { OnOk result ((cells : List ℕ) → demands_of out.new.items ≡ demands_of out.old.items
        ++ primitive_demands cells (marked_table site.now.rows.now) site.now.node
        (BindRec token.now body)) }
{
    let closures = closures_of(site.arena, body)?;
    let own = bound_to(site.arena, token, Value::One(closures))?;
    let received = maps::overlay(site.arena, binds_in(site.rows, site.node), own)?;
    ask(
        out,
        &[
            Demand::BindsIn(body, received),
            Demand::DataOut(site.node, MarkedTuple::List(&[])),
            Demand::BindsOut(site.node, own),
        ],
    )
}

// the node completes with nothing, where both values are reached
fn complete_where<'a>(
    node: u32,
    first: Value<'_>,
    second: Value<'_>,
    out: &mut Vec<Demand<'a>>,
) -> Result<(), Memory>
    ensures { OnOk result (demands_of out.new.items ≡ demands_of out.old.items
        ++ completes node (when (value_part first.entry) (when (value_part second.entry) nothing))
        (when (value_part first.entry) (when (value_part second.entry) nothing))) }
{
    let o = data_where(first, no_data(second));
    let p = binds_where(first, no_binds(second));
    ask(out, &completes(node, o, p))
}

/// `store Y in Y` asks so.
pub fn ask_store<'a>(
    graph: &Graph<'a>,
    site: &Site<'_, 'a>,
    datum: u32,
    cell: u32,
    out: &mut Vec<Demand<'a>>,
) -> Result<(), Memory>
    requires datum { IsDatum graph.now.yielders datum }
    requires cell { IsDatum graph.now.yielders cell }
    ensures { OnOk result (Adds (demands_of out.old.items)
        (primitive_demands site.now.cells.now (marked_table site.now.rows.now) site.now.node
        (Store (yielder_at graph.now.yielders datum) (yielder_at graph.now.yielders cell)))
        (demands_of out.new.items)) }
{
    let mut closures = Vec::new(site.alloc);
    let to = judge_at(graph, site, cell, &mut closures)?;
    let stored = judge_at(graph, site, datum, &mut closures)?;
    let lies = both_fit(to.fits, lies_within(Sort::Cell, to.value));
    let clear = both_fit(is_no_clash(stored.value), lies);
    let fits = both_fit(stored.fits, clear);
    mark(site, fits, closures.as_slice(), out)?;
    ask_stores(site, stored.value, to.value, out)?;
    complete_where(site.node, stored.value, to.value, out)?;
    Ok(())
}

/// `allocate a cell` asks so.
pub fn ask_allocate<'a>(site: &Site<'_, 'a>, out: &mut Vec<Demand<'a>>) -> Result<(), Memory>
    ensures { OnOk result ((cells : List ℕ) → demands_of out.new.items ≡ demands_of out.old.items
        ++ primitive_demands cells (marked_table site.now.rows.now) site.now.node Allocate) }
{
    let nodes = site.arena.try_alloc_slice_copy(&[site.node])?;
    let cell = tuple_of_value(site.arena, Value::One(numbered(nodes, &[])))?;
    ask(out, &completes(site.node, cell, MarkedBinds::Map(&[])))
}

/// `receive an integer` asks so.
pub fn ask_receive<'a>(site: &Site<'_, 'a>, out: &mut Vec<Demand<'a>>) -> Result<(), Memory>
    ensures { OnOk result ((cells : List ℕ) → demands_of out.new.items ≡ demands_of out.old.items
        ++ primitive_demands cells (marked_table site.now.rows.now) site.now.node Receive) }
{
    let integer = tuple_of_value(site.arena, Value::One(atoms(true, false)))?;
    ask(out, &completes(site.node, integer, MarkedBinds::Map(&[])))
}

/// A node that is done in one step asks so where it is live.
#[tactic(auto, using(crate::proofs::Reaches::adds_all))]
pub fn ask_primitive<'a>(
    graph: &Graph<'a>,
    site: &Site<'_, 'a>,
    primitive: PrimitiveView<'a>,
    out: &mut Vec<Demand<'a>>,
) -> Result<(), Memory>
    requires { HasPrimitiveOperands graph.now.yielders primitive }
    ensures { OnOk result (Adds (demands_of out.old.items)
        (primitive_demands site.now.cells.now (marked_table site.now.rows.now) site.now.node
        (primitive_viewed graph.now.yielders primitive.entry)) (demands_of out.new.items)) }
{
    let (no_data, no_binds) = (MarkedTuple::List(&[]), MarkedBinds::Map(&[]));
    match primitive {
        PrimitiveView::Complete => ask(out, &completes(site.node, no_data, no_binds)),
        PrimitiveView::Commit => ask(out, &completes(site.node, no_data, no_binds)),
        PrimitiveView::Failing => Ok(()),
        PrimitiveView::Escape => {
            let data = data_in(site.rows, site.node);
            ask(out, &[Demand::Escaped(site.node, data)])
        }
        PrimitiveView::Regive => {
            let data = data_in(site.rows, site.node);
            ask(out, &completes(site.node, data, no_binds))
        }
        PrimitiveView::Rebind => {
            let binds = binds_in(site.rows, site.node);
            ask(out, &completes(site.node, no_data, binds))
        }
        PrimitiveView::Give { items } => ask_give(graph, site, items, out),
        PrimitiveView::EscapeWith { items } => ask_escape_with(graph, site, items, out),
        PrimitiveView::Check { yielder } => ask_check(graph, site, yielder, out),
        PrimitiveView::Bind { token, yielder } => ask_bind(graph, site, token, yielder, out),
        PrimitiveView::BindRec { token, body } => ask_bind_rec(site, token, body, out),
        PrimitiveView::Store { datum, cell } => ask_store(graph, site, datum, cell, out),
        PrimitiveView::Allocate => ask_allocate(site, out),
        PrimitiveView::Receive => ask_receive(site, out),
        PrimitiveView::Send { yielder } => ask_send(graph, site, yielder, out),
    }
}
