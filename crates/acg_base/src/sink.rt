//! Where output goes.

ghost use Rattle.std.specs.Prelude.{◌≡◌, ℕ, ◌≤◌, List, ◌++◌, Bool, IsTrue, OnOk, OnErr};
ghost use Rattle.std.specs.Result.{is_err};
ghost use Rattle.acg_base.specs.Outside.{counted, GainsFrontOf};

use thiserror::Error;

/// Why a sink didn't take a piece.
#[derive(Clone, Copy, Debug, PartialEq, Eq, Error)]
pub enum SinkError {
    /// The sink failed. It counts it.
    #[error("the sink failed")]
    Failed,
}

/// Output, piece by piece.
///
/// A sink may tell what was written. It counts its writes and its faults, and knows whether its last
/// write failed. So where the last one failed and the faults are one more than before some calls, the
/// failed write was the last of them, and no other failed. No write changes whether the sink tells what
/// was written.
pub trait Sink {
    // The bytes written so far, where the sink tells them.
    ghost written: { Self → List ℕ };

    // Whether the sink tells what was written.
    ghost tells: { Self → Bool };

    // How many writes failed.
    ghost faults: { Self → ℕ };

    // How many writes there were.
    ghost writes: { Self → ℕ };

    // Whether the last write failed.
    ghost last_failed: { Self → Bool };

    /// Appends the piece. Answers `Failed` where the sink fails: a front of the piece was then
    /// appended, which may be all of it or nothing. It takes no memory.
    fn write(&mut self, piece: &[u8]) -> Result<(), SinkError>
        ensures done { OnOk result (IsTrue (tells self.old) →
            written self.new ≡ written self.old ++ piece.now) }
        ensures part { OnErr result (IsTrue (tells self.old) →
            GainsFrontOf piece.now (written self.old) (written self.new)) }

        // Each write is counted, and each fault, and nothing else is.
        ensures writes { writes self.new ≡ counted (writes self.old) }
        ensures failed { OnErr result (faults self.new ≡ counted (faults self.old)) }
        ensures passed { OnOk result (faults self.new ≡ faults self.old) }
        ensures counts { faults self.old ≤ faults self.new }
        ensures last { last_failed self.new ≡ is_err result }

        ensures tells_still { tells self.new ≡ tells self.old };
}
