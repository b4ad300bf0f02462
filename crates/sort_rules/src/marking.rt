//! The rows of a table as those of a marked one, without a clash or a mark.
ghost use Rattle.std.specs.Prelude.{◌≡◌, length, IfOk};
ghost use Rattle.sort_rules.specs.Tables.{Entry};
ghost use Rattle.sort_rules.specs.Rows.{unmarked};
ghost use Rattle.sort_rules.specs.MarkedRows.{marked_table, row_part, table_part};
ghost use Rattle.sort_rules.specs.Views.{set_of, tuple_of, binds_of, row_of, sort_table, marked_tuple_of, marked_binds_of};

use crate::parts::{MarkedBinds, MarkedTuple};
use crate::rows::MarkedRow;
use crate::set::Set;
use crate::table::{BindSort, Row, TupleSort};
use crate::values::value_of;
use acg_base::Memory;
use std::alloc::Global;

// the tuple in a marked table
fn marked_tuple<'a>(sort: TupleSort<'a>) -> MarkedTuple<'a>
    ensures { marked_tuple_of result ≡ tuple_of sort.entry }
{
    match sort {
        TupleSort::Unreached => MarkedTuple::Unreached,
        TupleSort::List(sets) => MarkedTuple::List(sets),
    }
}

// the bindings in a marked table
fn marked_binds<'a>(sort: BindSort<'a>) -> MarkedBinds<'a>
    ensures { marked_binds_of result ≡ binds_of sort.entry }
{
    match sort {
        BindSort::Unreached => MarkedBinds::Unreached,
        BindSort::Map(pairs) => MarkedBinds::Map(pairs),
    }
}

// the row and the contents of a node in a marked table
fn marked_row<'a>(row: Row<'a>, contents: Set<'a>) -> MarkedRow<'a>
    ensures { (x : Entry) → row_part result x
        ≡ table_part (row_of row.entry) (set_of contents.entry) x }
{
    MarkedRow {
        g: marked_tuple(row.g),
        h: marked_binds(row.h),
        o: marked_tuple(row.o),
        p: marked_binds(row.p),
        e: marked_tuple(row.e),
        contents: value_of(contents),
        fits: true,
    }
}

/// The rows and the contents of a table in a marked one.
pub fn marked_rows<'a>(
    alloc: Global,
    rows: &[Row<'a>],
    contents: &[Set<'a>],
) -> Result<Vec<MarkedRow<'a>>, Memory>
    requires { length rows.now ≡ length contents.now }
    ensures { IfOk result (λ marked. (x : Entry) → marked_table marked.items x
        ≡ unmarked (sort_table rows.now contents.now) x) }
{
    let mut marked = Vec::new(alloc);
    for i in 0..rows.len() {
        marked.push(marked_row(rows[i], contents[i]))?;
    }
    Ok(marked)
}
