//! Sets of data.
ghost use Rattle.std.specs.Prelude.{IsTrue};
ghost use Rattle.sort_rules.specs.Numbers.{ascends};

/// A set of data. The numbers ascend, each once.
#[derive(Clone, Copy, Debug, PartialEq, Eq)]
pub struct Set<'a> {
    /// Whether it has the integers.
    pub integer: bool,
    /// Whether it has the truth-values.
    pub truth: bool,
    /// The `allocate` nodes whose cells it has.
    pub cells: &'a [u32],
    /// The roots of the bodies whose closures it has.
    pub abstractions: &'a [u32],
    ghost cells_ascend: { IsTrue (ascends cells.now) },
    ghost abstractions_ascend: { IsTrue (ascends abstractions.now) },
}
