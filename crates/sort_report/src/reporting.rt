//! The report of a sort table, line by line.
ghost use Rattle.std.specs.Prelude.{◌≡◌, length};
ghost use Rattle.acg_words.specs.Prints.{Printed};
ghost use Rattle.sort_report.specs.Report.{lines_below, node_line, contents_line, report_text, measures_line, Reported};

use crate::error::ReportError;
use crate::lines::{put_cells, put_measures, put_node};
use acg_base::{Sink, SinkError};
use action_terms::Graph;
use sort_rules::Table;
use std::alloc::Global;

/// Prints a line, by one write.
fn print<K: Sink>(out: &mut K, line: &[u8]) -> Result<(), SinkError>
    ensures { Printed K.Sink line.now out.old out.new result }
{
    out.write(line)
}

/// Prints the line of each node. The text is for a line in the making.
fn print_nodes<K: Sink>(
    text: &mut Vec<u8>,
    graph: &Graph<'_>,
    table: &Table<'_>,
    out: &mut K,
) -> Result<(), ReportError>
    requires rows { length table.now.rows ≡ length graph.now.nodes }
    ensures { Reported K.Sink (lines_below (node_line graph.now table.now)
        (length graph.now.nodes)) out.old out.new result }
{
    for node in 0..graph.nodes().len() {
        text.clear();
        put_node(text, graph, table, node as u32)?;
        print(out, text)?;
    }
    Ok(())
}

/// Prints the line of each node that allocates a cell.
fn print_cells<K: Sink>(
    text: &mut Vec<u8>,
    graph: &Graph<'_>,
    table: &Table<'_>,
    out: &mut K,
) -> Result<(), ReportError>
    requires rows { length table.now.rows ≡ length graph.now.nodes }
    ensures { Reported K.Sink (lines_below (contents_line graph.now table.now)
        (length graph.now.nodes)) out.old out.new result }
{
    for node in 0..graph.nodes().len() {
        text.clear();
        put_cells(text, graph, table, node as u32)?;
        print(out, text)?;
    }
    Ok(())
}

/// Prints the line of the measures.
fn print_measures<K: Sink>(
    alloc: Global,
    text: &mut Vec<u8>,
    graph: &Graph<'_>,
    table: &Table<'_>,
    out: &mut K,
) -> Result<(), ReportError>
    requires rows { length table.now.rows ≡ length graph.now.nodes }
    ensures { Reported K.Sink (measures_line graph.now table.now) out.old out.new result }
{
    text.clear();
    put_measures(alloc, text, graph, table)?;
    print(out, text)?;
    Ok(())
}

/// Reports a table, which has one row for each action node of the graph: a line for each node, with its
/// number, the word of its kind, the data that it is given, the bindings that it receives, `->`, and
/// the data that it completes with, the bindings that it completes with and the data that it escapes
/// with; then a line for each node that allocates a cell, with what its cells may hold; then the
/// width, the most yielders of a node and the factor. Each line is one write.
///
/// Answers `SinkFault` where a write fails, the last one, and `Memory` for want of memory. The sink has
/// a front of the report then.
pub fn report<K: Sink>(
    alloc: Global,
    graph: &Graph<'_>,
    table: &Table<'_>,
    out: &mut K,
) -> Result<(), ReportError>
    requires rows { length table.now.rows ≡ length graph.now.nodes }
    ensures { Reported K.Sink (report_text graph.now table.now) out.old out.new result }
{
    let mut text = Vec::new(alloc);
    print_nodes(&mut text, graph, table, out)?;
    print_cells(&mut text, graph, table, out)?;
    print_measures(alloc, &mut text, graph, table, out)
}
