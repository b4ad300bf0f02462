//! Readers and writers that count their calls. Those of the library are called in `give` and `take` alone.

ghost use Rattle.std.specs.Prelude.{◌≡◌, ℕ, ◌<◌, ◌≤◌, Bool, List, length, Option, IsErrOf, IfOk, OnOk, OnErr};
ghost use Rattle.std.specs.Result.{is_err};
ghost use Rattle.std.specs.Io.KnownBytes.{ReadConsumes, WriteAppends};
ghost use Rattle.acg_base.specs.Outside.{counted};

use crate::calls::Calls;
use crate::sink::SinkError;
use crate::store::StoreError;
use std::io::{Read, Write};

/// A reader that counts its reads and those that failed, and knows whether its last one failed.
pub trait CountingRead {
    // The bytes that reads will give from here on, where they are known.
    ghost remaining: { Self → Option (List ℕ) };

    // The name that the reader was opened for, where it is known.
    ghost source: { Self → Option (List ℕ) };

    // How many reads there were.
    ghost reads: { Self → ℕ };

    // How many reads failed.
    ghost faults: { Self → ℕ };

    // Whether the last read failed.
    ghost last_failed: { Self → Bool };

    /// Gives bytes at the front of `buffer`, and answers how many: none only at the end, or where `buffer`
    /// has no room. Answers `Failed` where the reader fails.
    fn give(&mut self, buffer: &mut [u8]) -> Result<usize, StoreError>
        ensures bytes { ReadConsumes (remaining self.old) (remaining self.new) result buffer.new }
        ensures bound { IfOk result (λ count. count ≤ length buffer.new) }
        ensures error { OnErr result (IsErrOf result StoreError.Failed) }

        // Each read is counted, and each fault, and nothing else is.
        ensures once { reads self.new ≡ counted (reads self.old) }
        ensures failed { OnErr result (faults self.new ≡ counted (faults self.old)) }
        ensures passed { OnOk result (faults self.new ≡ faults self.old) }
        ensures last { last_failed self.new ≡ is_err result }

        ensures source_still { source self.new ≡ source self.old };
}

/// A writer that counts its writes and those that failed, and knows whether its last one failed.
///
/// So where the last one failed and the failed ones are one more than before some writes, the failed one
/// was the last of them, and no other failed.
pub trait CountingWrite {
    // The bytes that the writer holds, where they are known.
    ghost contents: { Self → Option (List ℕ) };

    // The name that the writer was created for, where it is known.
    ghost target: { Self → Option (List ℕ) };

    // How many writes there were.
    ghost writes: { Self → ℕ };

    // How many writes failed.
    ghost faults: { Self → ℕ };

    // Whether the last write failed.
    ghost last_failed: { Self → Bool };

    /// Takes a front of the bytes, and answers its length, which is at least one byte.
    ///
    /// Answers `Failed` where the writer fails or takes nothing.
    fn take(&mut self, bytes: &[u8]) -> Result<usize, SinkError>
        requires { 0 < length bytes.now }
        ensures bytes { WriteAppends (contents self.old) (contents self.new) result bytes.now }
        ensures some { IfOk result (λ count. 0 < count) }
        ensures bound { IfOk result (λ count. count ≤ length bytes.now) }

        // Each write is counted, and each fault, and nothing else is.
        ensures once { writes self.new ≡ counted (writes self.old) }
        ensures failed { OnErr result (faults self.new ≡ counted (faults self.old)) }
        ensures passed { OnOk result (faults self.new ≡ faults self.old) }
        ensures last { last_failed self.new ≡ is_err result }

        ensures target_still { target self.new ≡ target self.old };
}

/// A reader of the library, with the counts of its reads. What it was opened for isn't known.
#[derive(Drop)]
pub struct CountingReader<R: Read + Drop> {
    reader: R,
    calls: Calls,
}

impl<R: Read + Drop> CountingReader<R> {
    /// The reader, with no read so far.
    pub fn new(reader: R) -> CountingReader<R>
        ensures remaining { ⟦<CountingReader<R> as CountingRead>⟧.remaining result ≡ R.remaining reader }
        ensures reads { ⟦<CountingReader<R> as CountingRead>⟧.reads result ≡ 0 }
        ensures faults { ⟦<CountingReader<R> as CountingRead>⟧.faults result ≡ 0 }
    {
        CountingReader {
            reader,
            calls: Calls::none(),
        }
    }

    /// Drops the reader, and answers how often it was called.
    pub(crate) fn close(self) -> Calls
        ensures { result ≡ self.calls }
    {
        self.calls
    }

    /// Lends the reader.
    #[cfg(test)]
    pub(crate) fn reader(&self) -> &R {
        &self.reader
    }
}

impl<R: Read + Drop> CountingRead for CountingReader<R> {
    ghost use Rattle.std.specs.Prelude.{None};

    ghost remaining = { λ counting. R.remaining counting.reader };

    ghost source = { λ _. None };

    ghost reads = { λ counting. counting.calls.made };

    ghost faults = { λ counting. counting.calls.failed };

    ghost last_failed = { λ counting. counting.calls.last_failed };

    fn give(&mut self, buffer: &mut [u8]) -> Result<usize, StoreError> {
        let given = self.reader.read(buffer);
        self.calls.count(given.is_err());
        match given {
            Ok(count) => Ok(count),
            Err(_) => Err(StoreError::Failed),
        }
    }
}

/// A writer of the library, with the counts of its writes. What it was created for isn't known.
#[derive(Drop)]
pub struct CountingWriter<W: Write + Drop> {
    writer: W,
    calls: Calls,
}

impl<W: Write + Drop> CountingWriter<W> {
    /// The writer, with no write so far.
    pub fn new(writer: W) -> CountingWriter<W>
        ensures contents { ⟦<CountingWriter<W> as CountingWrite>⟧.contents result ≡ W.contents writer }
        ensures writes { ⟦<CountingWriter<W> as CountingWrite>⟧.writes result ≡ 0 }
        ensures faults { ⟦<CountingWriter<W> as CountingWrite>⟧.faults result ≡ 0 }
    {
        CountingWriter {
            writer,
            calls: Calls::none(),
        }
    }

    /// Drops the writer, and answers how often it was called.
    pub(crate) fn close(self) -> Calls
        ensures { result ≡ self.calls }
    {
        self.calls
    }

    /// Lends the writer.
    #[cfg(test)]
    pub(crate) fn writer(&self) -> &W {
        &self.writer
    }
}

impl<W: Write + Drop> CountingWrite for CountingWriter<W> {
    ghost use Rattle.std.specs.Prelude.{None};

    ghost contents = { λ counting. W.contents counting.writer };

    ghost target = { λ _. None };

    ghost writes = { λ counting. counting.calls.made };

    ghost faults = { λ counting. counting.calls.failed };

    ghost last_failed = { λ counting. counting.calls.last_failed };

    fn take(&mut self, bytes: &[u8]) -> Result<usize, SinkError> {
        let taken = self.writer.write(bytes);
        self.calls.count(!matches!(&taken, Ok(1..)));
        match taken {
            Ok(count) if count > 0 => Ok(count),
            _ => Err(SinkError::Failed),
        }
    }
}
