//! The lines of a report.
ghost use Rattle.std.specs.Prelude.{◌≡◌, ◌++◌, ◌<◌, length, Some, OnOk};
ghost use Rattle.sort_rules.specs.Sets.{is_empty};
ghost use Rattle.sort_rules.specs.Views.{set_of};
ghost use Rattle.sort_report.specs.Report.{kind_word, kind_at, allocates, contents_text, node_line, contents_line, measures_line};

use crate::parts::{put, put_number, put_row, put_set};
use acg_base::Memory;
use action_terms::{Graph, Kind};
use sort_rules::{Set, Table, factor, most_yielders};
use std::alloc::Global;

/// The word of a kind of action node.
fn kind_word(kind: Kind) -> &'static [u8]
    ensures { result.now ≡ kind_word kind }
{
    match kind {
        Kind::Complete => b"complete",
        Kind::Fail => b"fail",
        Kind::Escape => b"escape",
        Kind::Commit => b"commit",
        Kind::Regive => b"regive",
        Kind::Rebind => b"rebind",
        Kind::Give => b"give",
        Kind::EscapeWith => b"escape-with",
        Kind::Check => b"check",
        Kind::Bind => b"bind",
        Kind::BindRec => b"recursively-bind",
        Kind::Store => b"store",
        Kind::Allocate => b"allocate",
        Kind::Send => b"send",
        Kind::Receive => b"receive",
        Kind::Enact => b"enact",
        Kind::Apply => b"apply",
        Kind::Unfold => b"unfold",
        Kind::Unfolding => b"unfolding",
        Kind::Furthermore => b"furthermore",
        Kind::Or => b"or",
        Kind::And => b"and",
        Kind::AndThen => b"and-then",
        Kind::Then => b"then",
        Kind::Trap => b"trap",
        Kind::Hence => b"hence",
        Kind::Moreover => b"moreover",
        Kind::Before => b"before",
        Kind::Branch => b"branch",
    }
}

/// The kind of a node.
fn kind_of(graph: &Graph<'_>, node: u32) -> Kind
    requires there { node < length graph.now.nodes }
    ensures { kind_at graph.now node ≡ Some result }
{
    graph.nodes()[node as usize].kind
}

/// Whether a node of the kind allocates a cell.
fn allocates(kind: Kind) -> bool
    ensures { result ≡ allocates kind }
{
    matches!(kind, Kind::Allocate)
}

/// Appends the line of a node.
pub(crate) fn put_node(
    text: &mut Vec<u8>,
    graph: &Graph<'_>,
    table: &Table<'_>,
    node: u32,
) -> Result<(), Memory>
    requires there { node < length graph.now.nodes }
    requires row { node < length table.now.rows }
    ensures { OnOk result (text.new.items
        ≡ text.old.items ++ node_line graph.now table.now node) }
{
    put_number(text, u64::from(node))?;
    put(text, b" ")?;
    put(text, kind_word(kind_of(graph, node)))?;
    put_row(text, table.row(node))?;
    put(text, b"\n")?;
    Ok(())
}

/// Appends what cells may hold.
fn put_contents(text: &mut Vec<u8>, set: Set<'_>) -> Result<(), Memory>
    ensures { OnOk result (text.new.items ≡ text.old.items ++ contents_text (set_of set.entry)) }
{
    if !set.integer && !set.truth && set.cells.is_empty() && set.abstractions.is_empty() {
        return put(text, b"-");
    }
    put_set(text, set)
}

/// Appends the line of what the cells of a node may hold, where it allocates cells.
pub(crate) fn put_cells(
    text: &mut Vec<u8>,
    graph: &Graph<'_>,
    table: &Table<'_>,
    node: u32,
) -> Result<(), Memory>
    requires there { node < length graph.now.nodes }
    requires row { node < length table.now.rows }
    ensures { OnOk result (text.new.items
        ≡ text.old.items ++ contents_line graph.now table.now node) }
{
    if !allocates(kind_of(graph, node)) {
        return Ok(());
    }
    put(text, b"contents ")?;
    put_number(text, u64::from(node))?;
    put(text, b" ")?;
    put_contents(text, table.contents(node))?;
    put(text, b"\n")?;
    Ok(())
}

/// Appends the line of the measures.
pub(crate) fn put_measures(
    alloc: Global,
    text: &mut Vec<u8>,
    graph: &Graph<'_>,
    table: &Table<'_>,
) -> Result<(), Memory>
    requires rows { length table.now.rows ≡ length graph.now.nodes }
    ensures { OnOk result (text.new.items
        ≡ text.old.items ++ measures_line graph.now table.now) }
{
    put(text, b"width ")?;
    put_number(text, u64::from(table.width()))?;
    put(text, b" yielders ")?;
    put_number(text, u64::from(most_yielders(alloc, graph)?))?;
    put(text, b" factor ")?;
    put_number(text, factor(alloc, graph, table)?)?;
    put(text, b"\n")?;
    Ok(())
}
