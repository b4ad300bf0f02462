//! What a node of a graph asks of a table.
ghost use Rattle.std.specs.Prelude.{◌≡◌, ◌++◌, OnOk};
ghost use Rattle.sort_rules.specs.Parts.{when};
ghost use Rattle.sort_rules.specs.Demands.{handed, ends_like, completes};
ghost use Rattle.sort_rules.specs.Tests.{is_below, is_met, are_met};
ghost use Rattle.sort_rules.specs.Judgements.{misfit_unless};
ghost use Rattle.sort_rules.specs.MarkedRows.{marked_table};
ghost use Rattle.sort_rules.specs.DemandViews.{demand_of, demands_of};
ghost use Rattle.sort_rules.specs.Views.{marked_tuple_of, marked_binds_of, value_part};

use crate::parts::{MarkedBinds, MarkedTuple};
use crate::rows::{
    MarkedRow, binds_in, binds_out, contents_of, data_in, data_out, escaped, fits_in,
};
use crate::sets::is_subset;
use crate::values::Value;
use crate::{maps, tuples};
use acg_base::Memory;

/// An entry of a table, and the part that it must be at least.
#[derive(Clone, Copy, Debug, PartialEq, Eq)]
pub enum Demand<'a> {
    /// The data that a node is given.
    DataIn(u32, MarkedTuple<'a>),
    /// The bindings that it receives.
    BindsIn(u32, MarkedBinds<'a>),
    /// The data that it completes with.
    DataOut(u32, MarkedTuple<'a>),
    /// The bindings that it completes with.
    BindsOut(u32, MarkedBinds<'a>),
    /// The data that it escapes with.
    Escaped(u32, MarkedTuple<'a>),
    /// What the cells that it allocates may hold.
    Contents(u32, Value<'a>),
    /// Its mark, which isn't set where its yielders fit.
    Mark(u32, bool),
}

// whether the first value lies below the second
fn value_is_below(x: Value<'_>, y: Value<'_>) -> bool
    ensures { result ≡ is_below (value_part x.entry) (value_part y.entry) }
{
    match (x, y) {
        (Value::Unreached, _) => true,
        (Value::One(set), Value::One(other)) => is_subset(set, other),
        (_, Value::Clash) => true,
        _ => false,
    }
}

/// Whether the entry of the table is at least the part.
pub fn is_met(rows: &[MarkedRow<'_>], demand: Demand<'_>) -> bool
    ensures { result ≡ is_met (marked_table rows.now) (demand_of demand.entry) }
{
    match demand {
        Demand::DataIn(k, x) => tuples::is_below(x, data_in(rows, k)),
        Demand::BindsIn(k, x) => maps::is_below(x, binds_in(rows, k)),
        Demand::DataOut(k, x) => tuples::is_below(x, data_out(rows, k)),
        Demand::BindsOut(k, x) => maps::is_below(x, binds_out(rows, k)),
        Demand::Escaped(k, x) => tuples::is_below(x, escaped(rows, k)),
        Demand::Contents(k, v) => value_is_below(v, contents_of(rows, k)),
        Demand::Mark(k, fits) => mark_is_below(fits, fits_in(rows, k)),
    }
}

// whether a mark that isn't set where the first fits is at most one that isn't where the second does
fn mark_is_below(fits: bool, other: bool) -> bool
    ensures { result ≡ is_below (misfit_unless fits) (misfit_unless other) }
{
    fits || !other
}

/// Whether all of them are met.
pub fn are_met(rows: &[MarkedRow<'_>], demands: &[Demand<'_>]) -> bool
    ensures { result ≡ are_met (marked_table rows.now) (demands_of demands.now) }
{
    for i in 0..demands.len() {
        if !is_met(rows, demands[i]) {
            return false;
        }
    }
    true
}

// the data, where the bindings are reached
fn with_binds<'a>(h: MarkedBinds<'_>, g: MarkedTuple<'a>) -> MarkedTuple<'a>
    ensures { marked_tuple_of result ≡ when (marked_binds_of h.entry) (marked_tuple_of g.entry) }
{
    match h {
        MarkedBinds::Unreached => MarkedTuple::Unreached,
        _ => g,
    }
}

/// The bindings, where the data are reached.
pub fn with_data<'a>(g: MarkedTuple<'_>, h: MarkedBinds<'a>) -> MarkedBinds<'a>
    ensures { marked_binds_of result ≡ when (marked_tuple_of g.entry) (marked_binds_of h.entry) }
{
    match g {
        MarkedTuple::Unreached => MarkedBinds::Unreached,
        _ => h,
    }
}

/// Both are handed to a part or a body, where both are reached.
pub fn handed<'a>(part: u32, g: MarkedTuple<'a>, h: MarkedBinds<'a>) -> [Demand<'a>; 2]
    ensures { demands_of result ≡ handed part (marked_tuple_of g.entry) (marked_binds_of h.entry) }
{
    [
        Demand::DataIn(part, with_binds(h, g)),
        Demand::BindsIn(part, with_data(g, h)),
    ]
}

/// The node ends with what a part or a body ends with.
pub fn ends_like<'a>(rows: &[MarkedRow<'a>], node: u32, part: u32) -> [Demand<'a>; 3]
    ensures { demands_of result ≡ ends_like (marked_table rows.now) node part }
{
    [
        Demand::DataOut(node, data_out(rows, part)),
        Demand::BindsOut(node, binds_out(rows, part)),
        Demand::Escaped(node, escaped(rows, part)),
    ]
}

/// The node completes with these.
pub fn completes<'a>(node: u32, o: MarkedTuple<'a>, p: MarkedBinds<'a>) -> [Demand<'a>; 2]
    ensures { demands_of result ≡ completes node (marked_tuple_of o.entry)
        (marked_binds_of p.entry) }
{
    [Demand::DataOut(node, o), Demand::BindsOut(node, p)]
}

/// Puts demands behind others.
pub fn ask<'a>(out: &mut Vec<Demand<'a>>, demands: &[Demand<'a>]) -> Result<(), Memory>
    ensures { OnOk result (demands_of out.new.items ≡ demands_of out.old.items
        ++ demands_of demands.now) }
{
    out.extend_from_slice(demands)?;
    Ok(())
}
