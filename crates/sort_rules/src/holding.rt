//! Whether the demands of a node hold in a table, and whether the table is admissible.
ghost use Rattle.std.specs.Prelude.{◌≡◌, ◌<◌, ◌↔◌, IsTrue, length, IfOk};
ghost use Rattle.action_terms.specs.Meaning.{action_of};
ghost use Rattle.sort_rules.specs.Rows.{unmarked};
ghost use Rattle.sort_rules.specs.Demands.{allocate_nodes, closure_bodies};
ghost use Rattle.sort_rules.specs.Admissible.{Holds, IsAdmissible, Meets};
ghost use Rattle.sort_rules.specs.Tests.{all_hold, holds, root_is_met};
ghost use Rattle.sort_rules.specs.MarkedRows.{marked_table};

use crate::demands::{Demand, are_met};
use crate::named::named_of;
use crate::nodes::demands_at;
use crate::parts::{MarkedBinds, MarkedTuple};
use crate::rows::MarkedRow;
use crate::site::Site;
use crate::table::Table;
use acg_base::Memory;
use action_terms::Graph;
use bumpalo::Bump;
use std::alloc::Global;

/// Whether the demands of a node hold.
pub fn holds_at<'a>(graph: &Graph<'a>, site: &Site<'_, 'a>) -> Result<bool, Memory>
    requires node { site.now.node < length graph.now.nodes }
    requires cells { site.now.cells.now ≡ allocate_nodes (action_of graph.now) }
    requires bodies { site.now.bodies.now ≡ closure_bodies (action_of graph.now) }
    ensures { IfOk result (λ b. b ≡ holds (action_of graph.now) (marked_table site.now.rows.now)
        site.now.node) }
{
    let demands = demands_at(graph, site)?;
    Ok(are_met(site.rows, demands.as_slice()))
}

// the same place in the table of another node
fn moved<'t, 'a>(site: &Site<'t, 'a>, node: u32) -> Site<'t, 'a>
    ensures node { result.node ≡ node }
    ensures rows { result.rows.now ≡ site.now.rows.now }
    ensures cells { result.cells.now ≡ site.now.cells.now }
    ensures bodies { result.bodies.now ≡ site.now.bodies.now }
{
    Site {
        alloc: site.alloc,
        arena: site.arena,
        rows: site.rows,
        cells: site.cells,
        bodies: site.bodies,
        node,
    }
}

// whether the root is given nothing and receives nothing
fn root_holds(rows: &[MarkedRow<'_>]) -> bool
    ensures { result ≡ root_is_met (marked_table rows.now) }
{
    are_met(
        rows,
        &[
            Demand::DataIn(0, MarkedTuple::List(&[])),
            Demand::BindsIn(0, MarkedBinds::Map(&[])),
        ],
    )
}

// whether the demands of all nodes hold
fn all_hold<'a>(graph: &Graph<'a>, site: &Site<'_, 'a>) -> Result<bool, Memory>
    requires cells { site.now.cells.now ≡ allocate_nodes (action_of graph.now) }
    requires bodies { site.now.bodies.now ≡ closure_bodies (action_of graph.now) }
    ensures { IfOk result (λ b. b ≡ all_hold (action_of graph.now) (marked_table site.now.rows.now)
        (length (action_of graph.now))) }
{
    for node in 0..graph.nodes().len() {
        let holds = holds_at(graph, &moved(site, node as u32))?;
        if !holds {
            return Ok(false);
        }
    }
    Ok(true)
}

/// Whether the demands of a node hold in a table, and its yielders fit. The root's own demand, that it
/// is given nothing and receives nothing, is no part of it. Want of memory is the only error.
pub fn node_holds(
    alloc: Global,
    graph: &Graph<'_>,
    table: &Table<'_>,
    node: u32,
) -> Result<bool, Memory>
    requires node { node < length graph.now.nodes }
    ensures holds { IfOk result (λ b. IsTrue b
        ↔ Holds (action_of graph.now) (unmarked table.now) node) }
{
    let arena = Bump::new(alloc);
    let named = named_of(alloc, graph)?;
    let rows = table.marked_rows(alloc)?;
    let site = Site {
        alloc,
        arena: &arena,
        rows: rows.as_slice(),
        cells: &named.cells,
        bodies: &named.bodies,
        node,
    };
    holds_at(graph, &site)
}

/// Whether a table is admissible for an action: the demands of all nodes hold, and the root's. Want of
/// memory is the only error.
pub fn admissible(alloc: Global, graph: &Graph<'_>, table: &Table<'_>) -> Result<bool, Memory>
    ensures admissible { IfOk result
        (λ b. IsTrue b ↔ IsAdmissible (action_of graph.now) (unmarked table.now)) }
{
    let arena = Bump::new(alloc);
    let named = named_of(alloc, graph)?;
    let rows = table.marked_rows(alloc)?;
    if !root_holds(rows.as_slice()) {
        return Ok(false);
    }
    let site = Site {
        alloc,
        arena: &arena,
        rows: rows.as_slice(),
        cells: &named.cells,
        bodies: &named.bodies,
        node: 0,
    };
    all_hold(graph, &site)
}
