//! The sort judgement: which tables of sorts are admissible for an action.
#![tactic(auto)]

pub mod combining;
mod counting;
pub mod demands;
pub mod holding;
pub mod judging;
pub mod laws;
pub mod maps;
pub mod marking;
mod measures;
pub mod members;
pub mod named;
pub mod node_list;
pub mod nodes;
mod numbers;
pub mod operands;
pub mod parts;
pub mod postorder;
pub mod primitives;
mod roots;
pub mod rows;
pub mod set;
pub mod sets;
pub mod site;
pub mod table;
pub mod tuples;
pub mod values;

pub use counting::most_yielders;
pub use holding::{admissible, node_holds};
pub use measures::{factor, slots};
pub use parts::{MarkedBinds, MarkedTuple};
pub use roots::procedure_roots;
pub use set::Set;
pub use table::{BindSort, Row, Table, TupleSort};
