//! How parts of actions end.

use action_values::{Binding, Datum};

/// How a part of an action has ended.
#[derive(Clone, Copy)]
pub enum End<'a> {
    /// It completed with these data and bindings.
    Done {
        /// The data.
        data: &'a [Datum<'a>],
        /// The bindings, tokens ascending.
        bound: &'a [Binding<'a>],
    },
    /// It escaped with these data.
    Escaped {
        /// The data.
        data: &'a [Datum<'a>],
    },
    /// It failed.
    Failed,
}
