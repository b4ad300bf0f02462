//! Bytes handed from a reader, and to a writer, until all have gone.

ghost use Rattle.std.specs.Prelude.{◌≡◌, ◌+◌, ◌<◌, ◌≤◌, ◌++◌, length, take, drop, IsTrue, IsErrOf, MatchResult, IfOk, IfSome, OnOk, OnErr};
ghost use Rattle.std.specs.Io.KnownBytes.{Appends, Consumes, IsAtEnd};
ghost use Rattle.acg_base.specs.Outside.{GainsAtMost, counted, front};
ghost use Rattle.acg_base.specs.Transfers.{AppendsFrontOf};

use crate::counting::{CountingRead, CountingWrite};
use crate::sink::SinkError;
use crate::store::StoreError;

// Appends what one read gives, of at most so many bytes. It gives none only at the end.
fn append_some<R: CountingRead>(
    reader: &mut R,
    most: u64,
    into: &mut Vec<u8>,
) -> Result<usize, StoreError>
    requires { 0 < most }
    ensures err { OnErr result (into.new.items ≡ into.old.items) }
    ensures grows { MatchResult result
        (λ count. (count ≤ most) × (length into.new.items ≡ length into.old.items + count)) (λ _. Unit {0}) }
    ensures stays { take (length into.old.items) into.new.items ≡ into.old.items }
    ensures gives { OnOk result (Consumes (R.remaining reader.old) (R.remaining reader.new)
        (drop (length into.old.items) into.new.items)) }
    ensures ends { IfOk result (λ count. count ≡ 0 → IsAtEnd (R.remaining reader.new)) }
    ensures failed { IsErrOf result StoreError.Failed →
        (R.faults reader.new ≡ counted (R.faults reader.old)) × IsTrue (R.last_failed reader.new) }
    ensures passed { ¬ (IsErrOf result StoreError.Failed) → R.faults reader.new ≡ R.faults reader.old }
    ensures source_still { R.source reader.new ≡ R.source reader.old }
{
    let mut buffer = [0u8; 4096];
    let want = most.min(4096) as usize;
    let count = reader.give(&mut buffer[..want])?;
    into.extend_from_slice(&buffer[..count])?;
    Ok(count)
}

/// Appends the first `limit + 1` bytes that the reader has, or all where it has fewer.
///
/// Answers `Failed` where a read fails, which is then the last, and `Memory` where `into` can't grow. After
/// an error `into` is as before.
pub fn append_front<R: CountingRead>(
    reader: &mut R,
    limit: u32,
    into: &mut Vec<u8>,
) -> Result<(), StoreError>
    ensures done { OnOk result (IfSome (R.remaining reader.old)
        (λ bytes. into.new.items ≡ into.old.items ++ front limit bytes)) }
    ensures bound { OnOk result (GainsAtMost (limit + 1) into.old.items into.new.items) }
    ensures taken { OnOk result (Consumes (R.remaining reader.old) (R.remaining reader.new)
        (drop (length into.old.items) into.new.items)) }
    ensures err { OnErr result (into.new.items ≡ into.old.items) }

    // It fails where one read failed, which is the last.
    ensures failed { IsErrOf result StoreError.Failed →
        R.faults reader.new ≡ counted (R.faults reader.old) }
    ensures last { IsErrOf result StoreError.Failed → IsTrue (R.last_failed reader.new) }
    ensures passed { ¬ (IsErrOf result StoreError.Failed) → R.faults reader.new ≡ R.faults reader.old }

    ensures source_still { R.source reader.new ≡ R.source reader.old }
{
    let before = into.len();
    let mut left = u64::from(limit) + 1;
    while left > 0 {
        match append_some(reader, left, into) {
            Ok(0) => break,
            Ok(count) => left -= count as u64,
            Err(error) => {
                into.truncate(before);
                return Err(error);
            }
        }
    }
    Ok(())
}

/// Hands all the bytes to the writer, in their order.
///
/// Answers `Failed` where a write fails, which is then the last: the writer has a front of the bytes.
pub fn hand_on<W: CountingWrite>(writer: &mut W, bytes: &[u8]) -> Result<(), SinkError>
    ensures done { OnOk result (Appends (W.contents writer.old) (W.contents writer.new) bytes.now) }
    ensures part { OnErr result
        (AppendsFrontOf bytes.now (W.contents writer.old) (W.contents writer.new)) }

    // It fails where one write failed, which is the last.
    ensures failed { OnErr result (W.faults writer.new ≡ counted (W.faults writer.old)) }
    ensures last { OnErr result (IsTrue (W.last_failed writer.new)) }
    ensures passed { OnOk result (W.faults writer.new ≡ W.faults writer.old) }

    ensures target_still { W.target writer.new ≡ W.target writer.old }
{
    let mut done = 0;
    while done < bytes.len() {
        done += writer.take(&bytes[done..])?;
    }
    Ok(())
}
