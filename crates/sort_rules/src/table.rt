//! Tables of sorts: what each action node may be given, receive, complete and escape with.
ghost use Rattle.std.specs.Prelude.{◌≡◌, ◌<◌, ◌≤◌, length, max, slice_get, Some, IfOk};
ghost use Rattle.sort_rules.specs.Tables.{Entry};
ghost use Rattle.sort_rules.specs.MarkedRows.{marked_table};
ghost use Rattle.sort_rules.specs.Rows.{IsTable, unmarked, row_length};
ghost use Rattle.sort_rules.specs.Shapes.{part_length};
ghost use Rattle.sort_rules.specs.Measures.{width};
ghost use Rattle.sort_rules.specs.Views.{set_of, tuple_of, binds_of, row_of, sort_table};

use crate::marking::marked_rows;
use crate::rows::MarkedRow;
use crate::set::Set;
use acg_base::Memory;
use std::alloc::Global;
use std::cmp::max;
use std::marker::Model;

/// What a tuple of data may be.
#[derive(Clone, Copy, Debug, PartialEq, Eq)]
pub enum TupleSort<'a> {
    /// No tuple comes there.
    Unreached,
    /// The set of each place, none of them empty, at most 64.
    List(&'a [Set<'a>]),
}

/// What bindings may be.
#[derive(Clone, Copy, Debug, PartialEq, Eq)]
pub enum BindSort<'a> {
    /// No bindings come there.
    Unreached,
    /// The set of each token, none of them empty, tokens ascending, at most 64.
    Map(&'a [(&'a [u8], Set<'a>)]),
}

/// The row of an action node.
#[derive(Clone, Copy, Debug, PartialEq, Eq)]
pub struct Row<'a> {
    /// The data that it is given.
    pub g: TupleSort<'a>,
    /// The bindings that it receives.
    pub h: BindSort<'a>,
    /// The data that it completes with.
    pub o: TupleSort<'a>,
    /// The bindings that it completes with.
    pub p: BindSort<'a>,
    /// The data that it escapes with.
    pub e: TupleSort<'a>,
}

/// A row for each action node, and what the cells that it allocates may hold.
#[derive(Drop)]
pub struct Table<'a> {
    rows: &'a [Row<'a>],
    contents: &'a [Set<'a>],
}

impl<'a> Model for Table<'a> {
    ghost use Rattle.sort_rules.specs.Rows.{SortTable, IsTable};
    ghost use Rattle.sort_rules.specs.Views.{sort_table};

    ghost Value = { SortTable };

    ghost view = { λ t. sort_table t.rows.now t.contents.now };

    ghost invariant = { λ t. IsTable (sort_table t.rows.now t.contents.now) };
}

/// The length of a tuple, 0 where it is unreached.
pub(crate) fn tuple_length(sort: TupleSort<'_>) -> usize
    ensures { result ≡ part_length (tuple_of sort.entry) }
{
    match sort {
        TupleSort::Unreached => 0,
        TupleSort::List(sets) => sets.len(),
    }
}

/// The length of bindings, 0 where they are unreached.
pub(crate) fn binds_length(sort: BindSort<'_>) -> usize
    ensures { result ≡ part_length (binds_of sort.entry) }
{
    match sort {
        BindSort::Unreached => 0,
        BindSort::Map(pairs) => pairs.len(),
    }
}

// The greatest length in a row.
fn widest_in(row: Row<'_>) -> usize
    ensures { result ≡ row_length (row_of row.entry) }
{
    max(
        tuple_length(row.g),
        max(
            binds_length(row.h),
            max(
                tuple_length(row.o),
                max(binds_length(row.p), tuple_length(row.e)),
            ),
        ),
    )
}

impl<'a> Table<'a> {
    /// The table with these rows and contents; entry k of each belongs to action node k.
    pub fn make(rows: &'a [Row<'a>], contents: &'a [Set<'a>]) -> Table<'a>
        requires proper { IsTable (sort_table rows.now contents.now) }
        ensures table { result ≡ sort_table rows.now contents.now }
    {
        Table { rows, contents }
    }

    /// The row of an action node.
    pub fn row(&self, node: u32) -> Row<'a>
        requires there { node < length self.now.rows }
        ensures row { slice_get self.now.rows node ≡ Some (row_of result) }
    {
        self.rows[node as usize]
    }

    /// What the cells that a node allocates may hold, as it was handed to `make`.
    pub fn contents(&self, node: u32) -> Set<'a>
        requires there { node < length self.now.rows }
        ensures contents { slice_get self.now.contents node ≡ Some (set_of result) }
    {
        self.contents[node as usize]
    }

    /// Its rows and contents in a marked table, where no mark is set.
    pub fn marked_rows(&self, alloc: Global) -> Result<Vec<MarkedRow<'a>>, Memory>
        ensures rows { IfOk result (λ rows. (x : Entry) → marked_table rows.items x
            ≡ unmarked self.now x) }
        ensures table { IsTable self.now }
    {
        marked_rows(alloc, self.rows, self.contents)
    }

    /// The greatest length of a tuple or of bindings.
    pub fn width(&self) -> u32
        ensures width { result ≡ width (length self.now.rows) (unmarked self.now) }
        ensures bound { result ≤ 64 }
    {
        let mut width = 0;
        for row in self.rows {
            width = max(width, widest_in(*row));
        }
        width as u32
    }
}
