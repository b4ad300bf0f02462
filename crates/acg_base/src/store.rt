//! Where files are kept.

ghost use Rattle.std.specs.Prelude.{◌≡◌, ◌↔◌, ℕ, ◌+◌, ◌≤◌, List, [], ◌∷◌, ◌++◌, Bool, Some, IsTrue, IsSome, IsNone, IfSome, IsErrOf, OnOk, OnErr};
ghost use Rattle.acg_base.specs.Outside.{Contents, SameContents, SameElsewhere, Reading, reading_of, counted, GainsAtMost, front};
ghost use Rattle.acg_base.specs.declared.store.StoreError.TheVariants.{Memory as OutOfMemory};

use crate::memory::Memory;
use crate::name::Name;
use std::alloc::{AllocError, AllocFailed};
use thiserror::Error;

/// Why a store didn't do what was asked.
#[derive(Clone, Copy, Debug, PartialEq, Eq, Error)]
pub enum StoreError {
    /// Memory ran out.
    #[error("out of memory")]
    Memory,
    /// The store failed, or the name isn't there. The store counts it.
    #[error("the store failed")]
    Failed,
}

impl From<AllocError> for StoreError {
    ghost from_gives = { λ _ error. error ≡ OutOfMemory };

    fn from(_error: AllocError) -> StoreError {
        StoreError::Memory
    }
}

impl<T: Drop> From<AllocFailed<T>> for StoreError {
    ghost from_gives = { λ _ error. error ≡ OutOfMemory };

    fn from(_error: AllocFailed<T>) -> StoreError {
        StoreError::Memory
    }
}

impl From<Memory> for StoreError {
    ghost from_gives = { λ _ error. error ≡ OutOfMemory };

    fn from(_error: Memory) -> StoreError {
        StoreError::Memory
    }
}

/// Files by name.
///
/// A store may tell what it has under each name, and may log its reads. It counts its reads, those that
/// failed or found no memory among them, and its failed reads and its failed writes: these counts grow by
/// one in a call of their kind that answers `Failed`, and in no other. No call changes whether the store
/// tells its contents, whether it logs, or whether it is sure.
pub trait Store {
    // What each name has, where the store tells it.
    ghost contents: { Self → Contents };

    // Whether the store tells its contents.
    ghost tells: { Self → Bool };

    // The reads that were carried out, in their order, where the store logs them.
    ghost readings: { Self → List Reading };

    // Whether the store logs its reads.
    ghost logs: { Self → Bool };

    // How many calls of `read` there were.
    ghost reads: { Self → ℕ };

    // How many reads failed.
    ghost failed_reads: { Self → ℕ };

    // How many writes failed.
    ghost failed_writes: { Self → ℕ };

    // Whether the store fails only at a read of a name that isn't there.
    ghost sure: { Self → Bool };

    /// Appends to `into` the first `limit + 1` bytes of the file, or all where it has fewer.
    ///
    /// Answers `Failed` where the name isn't there or the store fails, and `Memory` where `into`
    /// can't grow. After an error `into` is as before.
    fn read(&mut self, name: &Name, limit: u32, into: &mut Vec<u8>) -> Result<(), StoreError>
        ensures done { OnOk result (IsTrue (tells self.old) → IfSome (contents self.old name.now)
            (λ bytes. into.new.items ≡ into.old.items ++ front limit bytes)) }
        ensures bound { OnOk result (GainsAtMost (limit + 1) into.old.items into.new.items) }
        ensures err { OnErr result (into.new.items ≡ into.old.items) }

        // A name that isn't there is a fault, and a sure store has no other.
        ensures absent { IsTrue (tells self.old) → IsNone (contents self.old name.now) →
            IsErrOf result StoreError.Failed }
        ensures sure_reads { IsTrue (sure self.old) →
            (IsErrOf result StoreError.Failed ↔ IsNone (contents self.old name.now)) }

        // A read that is carried out is logged, with what was given.
        ensures logged { OnOk result (IsTrue (logs self.old) → readings self.new ≡
            readings self.old ++ reading_of name.now limit into.old.items into.new.items ∷ []) }
        ensures unlogged { OnErr result (readings self.new ≡ readings self.old) }
        ensures once { reads self.new ≡ counted (reads self.old) }

        // A fault is counted, and nothing else is.
        ensures failed { IsErrOf result StoreError.Failed →
            failed_reads self.new ≡ counted (failed_reads self.old) }
        ensures passed { ¬ (IsErrOf result StoreError.Failed) →
            failed_reads self.new ≡ failed_reads self.old }
        ensures counts { failed_reads self.old ≤ failed_reads self.new }
        ensures writes { failed_writes self.new ≡ failed_writes self.old }

        ensures same { IsTrue (tells self.old) → SameContents (contents self.old) (contents self.new) }
        ensures tells_still { tells self.new ≡ tells self.old }
        ensures logs_still { logs self.new ≡ logs self.old }
        ensures sure_still { sure self.new ≡ sure self.old };

    /// Makes `bytes` the content of the name, and leaves other names as they are.
    ///
    /// Answers `Failed` where the store fails: the content of that name is then open. After `Memory`
    /// all contents are as before.
    fn write(&mut self, name: &Name, bytes: &[u8]) -> Result<(), StoreError>
        ensures done { OnOk result (IsTrue (tells self.old) →
            contents self.new name.now ≡ Some bytes.now) }
        ensures others { IsTrue (tells self.old) →
            SameElsewhere (contents self.old) (contents self.new) name.now }
        ensures memory { IsErrOf result StoreError.Memory → IsTrue (tells self.old) →
            SameContents (contents self.old) (contents self.new) }

        // A sure store's writes never fail.
        ensures sure_writes { IsTrue (sure self.old) → ¬ (IsErrOf result StoreError.Failed) }

        // A fault is counted, and nothing else is. A write is no reading.
        ensures failed { IsErrOf result StoreError.Failed →
            failed_writes self.new ≡ counted (failed_writes self.old) }
        ensures passed { ¬ (IsErrOf result StoreError.Failed) →
            failed_writes self.new ≡ failed_writes self.old }
        ensures counts { failed_writes self.old ≤ failed_writes self.new }
        ensures reads { failed_reads self.new ≡ failed_reads self.old }
        ensures unlogged { readings self.new ≡ readings self.old }
        ensures unread { reads self.new ≡ reads self.old }

        ensures tells_still { tells self.new ≡ tells self.old }
        ensures logs_still { logs self.new ≡ logs self.old }
        ensures sure_still { sure self.new ≡ sure self.old };

    // A sure store tells its contents.
    ghost sure_tells: { (store : Self) → IsTrue (sure store) → IsTrue (tells store) };

    // A sure store logs its reads.
    ghost sure_logs: { (store : Self) → IsTrue (sure store) → IsTrue (logs store) };
}
