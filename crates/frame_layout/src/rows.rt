//! How many words the parts of a node take, from its row.
ghost use Rattle.std.specs.Prelude.{◌≡◌, ◌<◌, ◌≤◌, length};
ghost use Rattle.sort_rules.specs.Rows.{unmarked};
ghost use Rattle.sort_rules.specs.Shapes.{part_length};
ghost use Rattle.sort_rules.specs.Views.{tuple_of, binds_of};
ghost use Rattle.frame_layout.specs.Placing.{AreLengths, IsNarrow};

use crate::lengths::Lengths;
use sort_rules::{BindSort, Table, TupleSort};

// the length of a tuple
fn tuple_length(sort: TupleSort<'_>) -> u32
    requires { part_length (tuple_of sort) ≤ 64 }
    ensures { result ≡ part_length (tuple_of sort.entry) }
{
    match sort {
        TupleSort::Unreached => 0,
        TupleSort::List(sets) => sets.len() as u32,
    }
}

// the length of bindings
fn binds_length(sort: BindSort<'_>) -> u32
    requires { part_length (binds_of sort) ≤ 64 }
    ensures { result ≡ part_length (binds_of sort.entry) }
{
    match sort {
        BindSort::Unreached => 0,
        BindSort::Map(pairs) => pairs.len() as u32,
    }
}

/// The lengths of the row of a node.
pub(crate) fn row_lengths(table: &Table<'_>, node: u32) -> Lengths
    requires narrow { IsNarrow table.now }
    requires row { node < length table.now.rows }
    ensures { AreLengths (unmarked table.now) node result }
{
    let row = table.row(node);
    Lengths {
        g: tuple_length(row.g),
        h: binds_length(row.h),
        o: tuple_length(row.o),
        p: binds_length(row.p),
        e: tuple_length(row.e),
    }
}
