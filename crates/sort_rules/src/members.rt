//! What a node asks of the cells and of the closures that a value may be.
ghost use Rattle.std.specs.Prelude.{[], ◌∷◌, OnOk};
ghost use Rattle.sort_rules.specs.Asked.{any_cell, any_closure};
ghost use Rattle.sort_rules.specs.Demands.{stores, enacts};
ghost use Rattle.sort_rules.specs.MarkedRows.{marked_table};
ghost use Rattle.sort_rules.specs.DemandViews.{demands_of};
ghost use Rattle.sort_rules.specs.Reached.{Adds};
ghost use Rattle.sort_rules.specs.Views.{marked_tuple_of, value_part};

use crate::demands::{Demand, ask};
use crate::node_list::NodeList;
use crate::parts::MarkedTuple;
use crate::rows::{binds_out, data_out, escaped};
use crate::site::Site;
use crate::values::Value;
use acg_base::Memory;

// the cells of a node hold what is stored, where it is one of those that allocate cells
fn ask_stored<'a>(
    cells: &NodeList,
    node: u32,
    stored: Value<'a>,
    out: &mut Vec<Demand<'a>>,
) -> Result<(), Memory>
    ensures { OnOk result (Adds (demands_of out.old.items)
        (stores (value_part stored.entry) (any_cell cells.now) (node ∷ []))
        (demands_of out.new.items)) }
{
    if cells.has(node) {
        ask(out, &[Demand::Contents(node, stored)])?;
    }
    Ok(())
}

// so it is for each of the nodes
fn ask_stored_in<'a>(
    cells: &NodeList,
    nodes: &[u32],
    stored: Value<'a>,
    out: &mut Vec<Demand<'a>>,
) -> Result<(), Memory>
    ensures { OnOk result (Adds (demands_of out.old.items)
        (stores (value_part stored.entry) (any_cell cells.now) nodes.now)
        (demands_of out.new.items)) }
{
    for i in 0..nodes.len() {
        ask_stored(cells, nodes[i], stored, out)?;
    }
    Ok(())
}

/// The cells that a value may be hold what is stored in it. Only the nodes of its set are asked; a
/// clash may be the cell of any.
pub fn ask_stores<'a>(
    site: &Site<'_, 'a>,
    stored: Value<'a>,
    cell: Value<'_>,
    out: &mut Vec<Demand<'a>>,
) -> Result<(), Memory>
    ensures { OnOk result (Adds (demands_of out.old.items)
        (stores (value_part stored.entry) (value_part cell.entry) site.now.cells.now)
        (demands_of out.new.items)) }
{
    match cell {
        Value::Unreached => Ok(()),
        Value::One(set) => ask_stored_in(site.cells, set.cells, stored, out),
        Value::Clash => ask_stored_in(site.cells, site.cells.numbers(), stored, out),
    }
}

// what `enact` asks of a node, where it is one of the bodies
fn ask_enacted<'a>(
    site: &Site<'_, 'a>,
    body: u32,
    given: MarkedTuple<'a>,
    out: &mut Vec<Demand<'a>>,
) -> Result<(), Memory>
    ensures { OnOk result (Adds (demands_of out.old.items)
        (enacts (marked_table site.now.rows.now) site.now.node (any_closure site.now.bodies.now)
        (marked_tuple_of given.entry) (body ∷ [])) (demands_of out.new.items)) }
{
    if site.bodies.has(body) {
        ask(
            out,
            &[
                Demand::DataIn(body, given),
                Demand::DataOut(site.node, data_out(site.rows, body)),
                Demand::BindsOut(site.node, binds_out(site.rows, body)),
                Demand::Escaped(site.node, escaped(site.rows, body)),
            ],
        )?;
    }
    Ok(())
}

// so it is for each of the nodes
fn ask_enacted_in<'a>(
    site: &Site<'_, 'a>,
    nodes: &[u32],
    given: MarkedTuple<'a>,
    out: &mut Vec<Demand<'a>>,
) -> Result<(), Memory>
    ensures { OnOk result (Adds (demands_of out.old.items)
        (enacts (marked_table site.now.rows.now) site.now.node (any_closure site.now.bodies.now)
        (marked_tuple_of given.entry) nodes.now) (demands_of out.new.items)) }
{
    for i in 0..nodes.len() {
        ask_enacted(site, nodes[i], given, out)?;
    }
    Ok(())
}

/// What `enact` asks of each body of which the value may be a closure, with the data. Only the
/// bodies of its set are asked; a clash may be the closure of any.
pub fn ask_enacts<'a>(
    site: &Site<'_, 'a>,
    value: Value<'_>,
    given: MarkedTuple<'a>,
    out: &mut Vec<Demand<'a>>,
) -> Result<(), Memory>
    ensures { OnOk result (Adds (demands_of out.old.items)
        (enacts (marked_table site.now.rows.now) site.now.node (value_part value.entry)
        (marked_tuple_of given.entry) site.now.bodies.now) (demands_of out.new.items)) }
{
    match value {
        Value::Unreached => Ok(()),
        Value::One(set) => ask_enacted_in(site, set.abstractions, given, out),
        Value::Clash => ask_enacted_in(site, site.bodies.numbers(), given, out),
    }
}
