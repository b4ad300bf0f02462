//! What yielders are evaluated with, and what they yield.
ghost use Rattle.std.specs.Prelude.{◌≡◌, Some, option_map};
ghost use Rattle.action_values.specs.Values.{meant};
ghost use Rattle.action_values.specs.Evaluation.{value_meant};

use crate::datum::{Binding, Datum};
use action_terms::Graph;

/// What yielders are evaluated with.
#[derive(Clone, Copy)]
pub struct Context<'a, 'y> {
    /// The graph whose yielders they are.
    pub graph: &'y Graph<'a>,
    /// The data that are given.
    pub given: &'a [Datum<'a>],
    /// The bindings that are received.
    pub bound: &'a [Binding<'a>],
    /// What each cell holds: nothing where it is unset.
    pub cells: &'y [Option<Datum<'a>>],
}

/// What an item of data yields.
#[derive(Clone, Copy)]
pub enum ItemValue<'a> {
    /// A datum.
    Datum(Datum<'a>),
    /// Nothing.
    Nothing,
    /// The item is `them`.
    Them,
}

/// What a yielder yields, as the value of an item.
pub fn single_value<'a>(datum: Option<Datum<'a>>) -> ItemValue<'a>
    ensures { value_meant result ≡ Some (option_map meant datum.entry) }
{
    match datum {
        Some(datum) => ItemValue::Datum(datum),
        None => ItemValue::Nothing,
    }
}
