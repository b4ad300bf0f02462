//! A request over any store and any sink: what its caller is owed follows from the traits' clauses alone.

ghost use Rattle.std.specs.Prelude.{◌≡◌, ◌↔◌, [], ◌∷◌, ◌++◌, Some, IsTrue, IsNone, IfSome, OnOk, OnErr, IsErrOf};
ghost use Rattle.acg_base.specs.Outside.{SameContents, SameElsewhere, Grew, Reading, counted, front};

use crate::name::Name;
use crate::sink::Sink;
use crate::store::{Store, StoreError};
use std::alloc::Global;

/// Why a copy wasn't made.
#[derive(Clone, Copy, Debug, PartialEq, Eq)]
pub enum CopyError {
    /// A read of the store failed.
    Read,
    /// A write of the store failed.
    Write,
    /// A write of the sink failed.
    Print,
    /// Memory ran out.
    Memory,
}

/// Copies the first `limit + 1` bytes of one file to another name, and prints a line.
pub fn copy<S: Store, K: Sink>(
    alloc: Global,
    store: &mut S,
    out: &mut K,
    from: &Name,
    to: &Name,
    limit: u32,
    line: &[u8],
) -> Result<(), CopyError>
    // The other name has the bytes, and the line is printed.
    ensures copied { OnOk result (IsTrue (S.tells store.old) → IfSome (S.contents store.old from.now)
        (λ bytes. S.contents store.new to.now ≡ Some (front limit bytes))) }
    ensures printed { OnOk result (IsTrue (K.tells out.old) →
        K.written out.new ≡ K.written out.old ++ line.now) }

    // Each fault is counted once, and comes where its count grew.
    ensures read { IsErrOf result CopyError.Read →
        S.failed_reads store.new ≡ counted (S.failed_reads store.old) }
    ensures read_grew { Grew (S.failed_reads store.old) (S.failed_reads store.new) →
        IsErrOf result CopyError.Read }
    ensures write { IsErrOf result CopyError.Write →
        S.failed_writes store.new ≡ counted (S.failed_writes store.old) }
    ensures write_grew { Grew (S.failed_writes store.old) (S.failed_writes store.new) →
        IsErrOf result CopyError.Write }
    ensures print { IsErrOf result CopyError.Print → K.faults out.new ≡ counted (K.faults out.old) }
    ensures print_grew { Grew (K.faults out.old) (K.faults out.new) →
        IsErrOf result CopyError.Print }

    // One file is read, once, whatever comes of it, and one line is written, once: nothing follows a failed write.
    ensures one_reading { OnOk result (IsTrue (S.logs store.old) → IfSome (S.contents store.old from.now)
        (λ bytes. IsTrue (S.tells store.old) → S.readings store.new ≡ S.readings store.old
        ++ record { name = from.now; limit = limit; given = front limit bytes } ∷ [])) }
    ensures one_read { S.reads store.new ≡ counted (S.reads store.old) }
    ensures one_line { OnOk result (K.writes out.new ≡ counted (K.writes out.old)) }
    ensures last { IsErrOf result CopyError.Print → IsTrue (K.last_failed out.new) }

    // What stays, and what a sure store adds.
    ensures refused { IsErrOf result CopyError.Read → IsTrue (S.tells store.old) →
        SameContents (S.contents store.old) (S.contents store.new) }
    ensures out_of_memory { IsErrOf result CopyError.Memory → IsTrue (S.tells store.old) →
        SameContents (S.contents store.old) (S.contents store.new) }
    ensures silent { OnErr result (¬ (IsErrOf result CopyError.Print) → IsTrue (K.tells out.old) →
        K.written out.new ≡ K.written out.old) }
    ensures others { IsTrue (S.tells store.old) →
        SameElsewhere (S.contents store.old) (S.contents store.new) to.now }
    ensures sure_read { IsTrue (S.sure store.old) →
        (IsErrOf result CopyError.Read ↔ IsNone (S.contents store.old from.now)) }
    ensures sure_write { IsTrue (S.sure store.old) → ¬ (IsErrOf result CopyError.Write) }
{
    let mut content = Vec::new(alloc);
    match store.read(from, limit, &mut content) {
        Ok(()) => {}
        Err(StoreError::Failed) => return Err(CopyError::Read),
        Err(StoreError::Memory) => return Err(CopyError::Memory),
    }
    match store.write(to, content.as_slice()) {
        Ok(()) => {}
        Err(StoreError::Failed) => return Err(CopyError::Write),
        Err(StoreError::Memory) => return Err(CopyError::Memory),
    }
    match out.write(line) {
        Ok(()) => Ok(()),
        Err(_) => Err(CopyError::Print),
    }
}
