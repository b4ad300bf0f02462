//! How many calls there were, and how they ended.

ghost use Rattle.std.specs.Prelude.{◌≡◌, false, IsTrue};
ghost use Rattle.acg_base.specs.Outside.{counted};

/// The calls so far: a count stays at its greatest value of 64 bits.
#[derive(Clone, Copy, Debug, PartialEq, Eq)]
pub(crate) struct Calls {
    /// How many there were.
    pub(crate) made: u64,
    /// How many failed.
    pub(crate) failed: u64,
    /// Whether the last one failed.
    pub(crate) last_failed: bool,
}

impl Calls {
    /// No call so far.
    pub(crate) fn none() -> Calls
        ensures made { result.made ≡ 0 }
        ensures failed { result.failed ≡ 0 }
    {
        Calls {
            made: 0,
            failed: 0,
            last_failed: false,
        }
    }

    /// Counts a call.
    pub(crate) fn count(&mut self, failed: bool)
        ensures made { self.new.made ≡ counted self.old.made }
        ensures failed { IsTrue failed → self.new.failed ≡ counted self.old.failed }
        ensures passed { failed ≡ false → self.new.failed ≡ self.old.failed }
        ensures last { self.new.last_failed ≡ failed }
    {
        self.made = self.made.saturating_add(1);
        if failed {
            self.failed = self.failed.saturating_add(1);
        }
        self.last_failed = failed;
    }
}
