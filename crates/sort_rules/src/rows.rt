//! Rows of a marked table.
ghost use Rattle.std.specs.Prelude.{◌≡◌, slice_get};
ghost use Rattle.sort_rules.specs.Tables.{DataIn, BindsIn, DataOut, BindsOut, Escaped, Contents, Mark};
ghost use Rattle.sort_rules.specs.Judgements.{misfit_unless};
ghost use Rattle.sort_rules.specs.MarkedRows.{marked_table};
ghost use Rattle.sort_rules.specs.Views.{marked_tuple_of, marked_binds_of, value_part};

use crate::parts::{MarkedBinds, MarkedTuple};
use crate::values::Value;

/// The row of an action node in a marked table.
#[derive(Clone, Copy, Debug, PartialEq, Eq)]
pub struct MarkedRow<'a> {
    /// The data that it is given.
    pub g: MarkedTuple<'a>,
    /// The bindings that it receives.
    pub h: MarkedBinds<'a>,
    /// The data that it completes with.
    pub o: MarkedTuple<'a>,
    /// The bindings that it completes with.
    pub p: MarkedBinds<'a>,
    /// The data that it escapes with.
    pub e: MarkedTuple<'a>,
    /// What the cells that it allocates may hold.
    pub contents: Value<'a>,
    /// Whether each yielder of it fits: its mark isn't set.
    pub fits: bool,
}

// the row of a node
fn row_at<'a>(rows: &[MarkedRow<'a>], node: u32) -> Option<MarkedRow<'a>>
    ensures { result ≡ slice_get rows.now node }
{
    rows.get(node as usize).copied()
}

/// What the cells of a node may hold.
pub fn contents_of<'a>(rows: &[MarkedRow<'a>], node: u32) -> Value<'a>
    ensures { value_part result ≡ marked_table rows.now (Contents node) }
{
    match row_at(rows, node) {
        Some(row) => row.contents,
        None => Value::Unreached,
    }
}

/// The data that a node is given.
pub fn data_in<'a>(rows: &[MarkedRow<'a>], node: u32) -> MarkedTuple<'a>
    ensures { marked_tuple_of result ≡ marked_table rows.now (DataIn node) }
{
    match row_at(rows, node) {
        Some(row) => row.g,
        None => MarkedTuple::Unreached,
    }
}

/// The bindings that it receives.
pub fn binds_in<'a>(rows: &[MarkedRow<'a>], node: u32) -> MarkedBinds<'a>
    ensures { marked_binds_of result ≡ marked_table rows.now (BindsIn node) }
{
    match row_at(rows, node) {
        Some(row) => row.h,
        None => MarkedBinds::Unreached,
    }
}

/// The data that it completes with.
pub fn data_out<'a>(rows: &[MarkedRow<'a>], node: u32) -> MarkedTuple<'a>
    ensures { marked_tuple_of result ≡ marked_table rows.now (DataOut node) }
{
    match row_at(rows, node) {
        Some(row) => row.o,
        None => MarkedTuple::Unreached,
    }
}

/// The bindings that it completes with.
pub fn binds_out<'a>(rows: &[MarkedRow<'a>], node: u32) -> MarkedBinds<'a>
    ensures { marked_binds_of result ≡ marked_table rows.now (BindsOut node) }
{
    match row_at(rows, node) {
        Some(row) => row.p,
        None => MarkedBinds::Unreached,
    }
}

/// The data that it escapes with.
pub fn escaped<'a>(rows: &[MarkedRow<'a>], node: u32) -> MarkedTuple<'a>
    ensures { marked_tuple_of result ≡ marked_table rows.now (Escaped node) }
{
    match row_at(rows, node) {
        Some(row) => row.e,
        None => MarkedTuple::Unreached,
    }
}

/// Whether its yielders fit: its mark isn't set.
pub fn fits_in(rows: &[MarkedRow<'_>], node: u32) -> bool
    ensures { misfit_unless result ≡ marked_table rows.now (Mark node) }
{
    match row_at(rows, node) {
        Some(row) => row.fits,
        None => true,
    }
}
