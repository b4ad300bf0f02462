//! A node as it is pushed.

use crate::kinds::{Kind, YKind};

/// An action node as it is pushed.
#[derive(Clone, Copy, Debug, PartialEq, Eq)]
pub struct NewAction<'a> {
    /// What the node does.
    pub kind: Kind,
    /// The number of items of the data of `give`, `escape with` and `enact application of`, and
    /// 0 for every other kind.
    pub items: u32,
    /// The token of `bind` and `recursively bind`, else empty.
    pub token: &'a [u8],
}

/// A yielder as it is pushed.
#[derive(Clone, Copy, Debug, PartialEq, Eq)]
pub struct NewYielder<'a> {
    /// What it yields.
    pub kind: YKind,
    /// The token of `bound to`, else empty.
    pub token: &'a [u8],
}

/// A node of either sort.
#[derive(Clone, Copy, Debug, PartialEq, Eq)]
pub enum Pushed<'a> {
    /// An action node.
    Action(NewAction<'a>),
    /// A yielder.
    Yielder(NewYielder<'a>),
}
