//! What a run may hold.

/// The room that a run of an image has.
#[derive(Clone, Copy, Debug, PartialEq, Eq)]
pub struct Capacity {
    /// Words of 8 bytes for the frames of procedures.
    pub stack: u64,
    /// Units of 16 bytes for cells and closures.
    pub units: u64,
}

/// The words of a stack where a request says none.
pub const DEFAULT_STACK: u64 = 1_048_576;

/// The units where a request says none.
pub const DEFAULT_UNITS: u64 = 262_144;

/// The instructions of a run where a request says none.
pub const DEFAULT_BUDGET: u64 = 10_000_000;
