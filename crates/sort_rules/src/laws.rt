//! What is proved of admissible tables, for every action. The functions do nothing: each carries its law as a contract.

ghost use Rattle.std.specs.Prelude.{◌≡◌, ◌↔◌, ℕ, List};
ghost use Rattle.action_terms.specs.Actions.{Action};
ghost use Rattle.sort_rules.specs.Tables.{MarkedTable, IsUnder};
ghost use Rattle.sort_rules.specs.Admissible.{IsAdmissible, IsClear, IsIllSorted, IsLeast, IsLeastMarked, IsWellSorted};
ghost use Rattle.sort_rules.specs.Soundness.{PerformancesInSort, NodesRunInSort, EndsInShape, UnionsComplete};

/// Every state of every performance over every input is in sort by an admissible table: the data and
/// the bindings of each part of its acting tree, and what its cells hold, fit the table. A node that is
/// to be performed has data of the length and bindings of the domain of its row; its yielders meet no
/// datum of a wrong sort and miss no place and no token. `and`, `and then` and `then` never fail by a
/// token that both of their parts bind.
pub fn performances_are_in_sort()
    ensures { (a : Action) → (t : MarkedTable) → IsAdmissible a t → PerformancesInSort a t }
{}

/// So it is at each node wherever what it is given and receives fits, whatever stands around it. Its
/// yielders yield nothing only by an unset cell, or by an operation on integers that has no result.
pub fn nodes_run_in_sort()
    ensures { (a : Action) → (t : MarkedTable) → IsAdmissible a t → NodesRunInSort a t }
{}

/// What fits the ends of a node has the lengths and the domain of its row.
pub fn ends_are_in_shape()
    ensures { (a : Action) → (t : MarkedTable) → IsAdmissible a t → (w : List ℕ) → (k : ℕ)
        → EndsInShape a t w k }
{}

/// Bindings that fit parts whose union is no clash have no token in common.
pub fn unions_complete()
    ensures { (a : Action) → (t : MarkedTable) → UnionsComplete a t }
{}

/// There is one least table at most: of two, each lies below the other.
pub fn least_table_is_one()
    ensures { (a : Action) → (t : MarkedTable) → (u : MarkedTable) → IsLeast a t → IsLeast a u
        → IsUnder t u }
{}

/// There is one least marked table at most.
pub fn least_marked_table_is_one()
    ensures { (a : Action) → (t : MarkedTable) → (u : MarkedTable) → IsLeastMarked a t
        → IsLeastMarked a u → IsUnder t u }
{}

/// The least marked table tells whether an action is well-sorted: where it has no clash and no mark.
/// Then it is the least table.
pub fn least_marked_table_tells()
    ensures well_sorted { (a : Action) → (t : MarkedTable) → IsLeastMarked a t
        → IsWellSorted a ↔ ((k : ℕ) → IsClear t k) }
    ensures least { (a : Action) → (t : MarkedTable) → IsLeastMarked a t
        → ((k : ℕ) → IsClear t k) → IsLeast a t }
{}

/// An action that is ill-sorted is so at one node.
pub fn ill_sorted_at_one_node()
    ensures { (a : Action) → (j : ℕ) → (k : ℕ) → IsIllSorted a j → IsIllSorted a k → j ≡ k }
{}
