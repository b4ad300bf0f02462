//! The table of a marked one that has no clash.
ghost use Rattle.std.specs.Prelude.{ℕ, ◌≡◌, None, IfOk, IfSome, IsErrOf};
ghost use Rattle.action_terms.specs.Meaning.{action_of};
ghost use Rattle.sort_rules.specs.MarkedRows.{marked_table};
ghost use Rattle.sort_rules.specs.Parts.{Clash};
ghost use Rattle.sort_rules.specs.Values.{one_or_unreached};
ghost use Rattle.sort_rules.specs.Views.{binds_of, marked_binds_of, marked_tuple_of, set_of, tuple_of, value_part};
ghost use Rattle.sort_infer.specs.ClearRows.{HasNoClash, HasParts, IsClearTable, IsFilled, IsFirstClash};
ghost use Rattle.sort_infer.specs.Raised.{IsProperTable};

use crate::error::SortError;
use action_terms::Graph;
use bumpalo::Bump;
use bumpalo::collections::into_bump_slice;
use sort_rules::rows::MarkedRow;
use sort_rules::sets::atoms;
use sort_rules::values::Value;
use sort_rules::{BindSort, MarkedBinds, MarkedTuple, Row, Set, Table, TupleSort};

// the tuple, if it is no clash
fn tuple_sort<'a>(part: MarkedTuple<'a>) -> Option<TupleSort<'a>>
    ensures sort { IfSome result (λ sort. tuple_of sort ≡ marked_tuple_of part.entry) }
    ensures clash { result ≡ None → marked_tuple_of part.entry ≡ Clash }
{
    match part {
        MarkedTuple::Unreached => Some(TupleSort::Unreached),
        MarkedTuple::List(sets) => Some(TupleSort::List(sets)),
        MarkedTuple::Clash => None,
    }
}

// the bindings, if they are no clash
fn bind_sort<'a>(part: MarkedBinds<'a>) -> Option<BindSort<'a>>
    ensures sort { IfSome result (λ sort. binds_of sort ≡ marked_binds_of part.entry) }
    ensures clash { result ≡ None → marked_binds_of part.entry ≡ Clash }
{
    match part {
        MarkedBinds::Unreached => Some(BindSort::Unreached),
        MarkedBinds::Map(pairs) => Some(BindSort::Map(pairs)),
        MarkedBinds::Clash => None,
    }
}

// the contents, if they are no clash
fn contents_set<'a>(contents: Value<'a>) -> Option<Set<'a>>
    requires { IsFilled (value_part contents) }
    ensures set { IfSome result (λ set. one_or_unreached (set_of set) ≡ value_part contents.entry) }
    ensures clash { result ≡ None → value_part contents.entry ≡ Clash }
{
    match contents {
        Value::Unreached => Some(atoms(false, false)),
        Value::One(set) => Some(set),
        Value::Clash => None,
    }
}

// the row and the contents of a node, unless it has a clash or its mark is set
fn clear_row<'a>(row: MarkedRow<'a>) -> Option<(Row<'a>, Set<'a>)>
    requires { IsFilled (value_part row.contents) }
    ensures parts { IfSome result (λ clear. HasParts row.entry clear.0 clear.1) }
    ensures clash { result ≡ None → HasNoClash row.entry → ⊥ }
{
    if !row.fits {
        return None;
    }
    let clear = Row {
        g: tuple_sort(row.g)?,
        h: bind_sort(row.h)?,
        o: tuple_sort(row.o)?,
        p: bind_sort(row.p)?,
        e: tuple_sort(row.e)?,
    };
    Some((clear, contents_set(row.contents)?))
}

/// The table of these rows, if there is no clash; else the first node with one.
pub fn table_of<'a>(
    arena: &'a Bump,
    graph: &Graph<'_>,
    marked: &[MarkedRow<'a>],
) -> Result<Table<'a>, SortError>
    requires { IsProperTable (action_of graph.now) marked.now }
    ensures table { IfOk result (λ t. IsClearTable (action_of graph.now) marked.now t) }
    ensures ill_sorted { (k : ℕ) → IsErrOf result (SortError.IllSorted k)
        → IsFirstClash (marked_table marked.now) k }
{
    let count = graph.nodes().len();
    let mut rows: Vec<Row<'a>, &'a Bump> = Vec::with_capacity(arena, count)?;
    let mut contents: Vec<Set<'a>, &'a Bump> = Vec::with_capacity(arena, count)?;
    for node in 0..count {
        let Some((row, set)) = clear_row(marked[node]) else {
            return Err(SortError::IllSorted { node: node as u32 });
        };
        rows.push(row)?;
        contents.push(set)?;
    }
    Ok(Table::make(into_bump_slice(rows), into_bump_slice(contents)))
}
