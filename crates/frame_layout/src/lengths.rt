//! The lengths of the parts of a row.
ghost use Rattle.std.specs.Prelude.{◌≤◌};

/// The lengths of the parts of a row, 0 where a part is unreached; each at most 64.
#[derive(Clone, Copy)]
pub(crate) struct Lengths {
    /// Of the data that the node is given.
    pub(crate) g: u32,
    /// Of the bindings that it receives.
    pub(crate) h: u32,
    /// Of the data that it completes with.
    pub(crate) o: u32,
    /// Of the bindings that it completes with.
    pub(crate) p: u32,
    /// Of the data that it escapes with.
    pub(crate) e: u32,
    ghost few: { (g ≤ 64) × (h ≤ 64) × (o ≤ 64) × (p ≤ 64) × (e ≤ 64) },
}
