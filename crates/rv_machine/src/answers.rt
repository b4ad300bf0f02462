//! What a step and a run answer.

ghost use Rattle.std.specs.Prelude.{◌≡◌};

use rv_code::Cause;

/// What one instruction did.
#[derive(Clone, Copy, Debug, PartialEq, Eq)]
pub enum Step {
    /// It ran.
    Ran,
    /// It was the call 93: the machine exits with the lowest 8 bits of x10.
    Exited { code: u8 },
    /// It trapped, at this address.
    Trapped { cause: Cause, pc: u64 },
    /// It was a call 64 of at least one byte, and the sink failed.
    SinkFault,
}

/// How a run of at most so many instructions ended.
#[derive(Clone, Copy, Debug, PartialEq, Eq)]
pub enum Run {
    /// By the call 93, with the lowest 8 bits of x10.
    Exited { code: u8 },
    /// By a trap, at this address.
    Trapped { cause: Cause, pc: u64 },
    /// At a call 64 of at least one byte, where the sink failed.
    SinkFault,
    /// All of the instructions ran.
    Budget,
}

/// What ended a run that sent nothing.
#[derive(Clone, Copy, Debug, PartialEq, Eq)]
pub enum QuietEnd {
    /// The next instruction is the call 93, with these lowest 8 bits of x10.
    Exited { code: u8 },
    /// The next instruction traps, at this address.
    Trapped { cause: Cause, pc: u64 },
    /// The next instruction runs and sends at least one byte.
    Sends,
    /// All of the instructions ran.
    Budget,
}

impl QuietEnd {
    // A run that this ended behind so many instructions.
    pub(crate) fn behind(self, ran: u64) -> Quiet
        ensures { result ≡ record { end = self; ran = ran } }
    {
        Quiet { end: self, ran }
    }
}

/// How a run that sent nothing ended, and how many instructions ran.
#[derive(Clone, Copy, Debug, PartialEq, Eq)]
pub struct Quiet {
    /// What ended it.
    pub end: QuietEnd,
    /// How many instructions ran.
    pub ran: u64,
}

/// What the next instruction did, where it sends nothing, or that it sends.
#[derive(Clone, Copy, Debug, PartialEq, Eq)]
pub(crate) enum Turn {
    /// It ran.
    Ran,
    /// It was the call 93.
    Exited { code: u8 },
    /// It trapped.
    Trapped { cause: Cause },
    /// It is a call 64 that runs and sends these bytes: it isn't done yet.
    Sends { address: u64, size: u64 },
}
