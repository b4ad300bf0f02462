//! Why the machine traps.

/// The cause of a trap (this project's profile of the machine).
#[derive(Clone, Copy, Debug, PartialEq, Eq)]
pub enum Cause {
    /// The pc isn't a multiple of 4, or its 4 bytes aren't in one segment with the flag X.
    Fetch,
    /// The word at the pc fits no row of the instruction table.
    Undefined,
    /// A load's address isn't a multiple of its size, or its bytes aren't in one segment with the flag R.
    Load,
    /// A store's address isn't a multiple of its size, or its bytes aren't in one segment with the flag W.
    Store,
    /// The target of a jump or a taken branch isn't a multiple of 4.
    Target,
    /// The instruction `ebreak`.
    Ebreak,
    /// An `ecall` with x17 not 63, 64 or 93, or 63 with x10 not 0, or 64 with x10 not 1.
    Call,
    /// The x12 bytes at x11 aren't in one segment with the flag W for call 63, R for call 64, and x12 isn't 0.
    Buffer,
}
