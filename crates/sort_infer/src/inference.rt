//! The least sort table of an action.
ghost use Rattle.std.specs.Prelude.{ℕ, ◌≡◌, IfOk, IsErrOf};
ghost use Rattle.action_terms.specs.Meaning.{action_of};
ghost use Rattle.sort_rules.specs.Admissible.{IsLeast, IsIllSorted};
ghost use Rattle.sort_rules.specs.Rows.{IsTableOf, unmarked};

use crate::error::SortError;
use crate::settling::{first_rows, settle};
use crate::tables::table_of;
use crate::task::Task;
use action_terms::Graph;
use bumpalo::Bump;
use sort_rules::Table;
use sort_rules::named::named_of;
use std::alloc::Global;

/// The admissible table of an action that lies below every admissible one. `IllSorted` only where no
/// table is admissible, with the least node at which the least marked table has a clash.
pub fn infer<'a>(alloc: Global, arena: &'a Bump, graph: &Graph<'a>) -> Result<Table<'a>, SortError>
    ensures least { IfOk result (λ t. IsLeast (action_of graph.now) (unmarked t)) }
    ensures proper { IfOk result (λ t. IsTableOf (action_of graph.now) t) }
    ensures ill_sorted { (k : ℕ) → IsErrOf result (SortError.IllSorted k)
        → IsIllSorted (action_of graph.now) k }
{
    let named = named_of(alloc, graph)?;
    let mut rows = first_rows(alloc, graph.nodes().len())?;
    let task = Task {
        alloc,
        arena,
        graph,
        named: &named,
    };
    settle(&task, &mut rows)?;
    table_of(arena, graph, rows.as_slice())
}
