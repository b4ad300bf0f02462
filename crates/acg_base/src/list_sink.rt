//! A sink in memory.

ghost use Rattle.std.specs.Prelude.{◌≡◌, IfOk};

use crate::call_numbers::is_listed;
use crate::memory::Memory;
use crate::sink::{Sink, SinkError};
use std::alloc::Global;
use std::marker::Model;

/// Bytes in memory up to a fixed room, with the numbers of the writes that are to fail, from 0.
#[derive(Debug, Drop)]
pub struct ListSink {
    room: usize,
    bytes: Vec<u8>,
    failing: Vec<u32>,
    writes: u64,
    faults: u64,
    last_failed: bool,
}

impl Model for ListSink {
    ghost use Rattle.std.specs.Prelude.{◌≤◌, length, vec_capacity};
    ghost use Rattle.acg_base.specs.ListSinks.{SinkState};

    ghost Value = { SinkState };

    ghost view = { λ sink. record {
      room = sink.room;
      bytes = sink.bytes.items;
      failing = sink.failing.items;
      writes = sink.writes;
      faults = sink.faults;
      last_failed = sink.last_failed;
    } };

    ghost invariant = { λ sink. (length sink.bytes.items ≤ sink.room) × (sink.room ≤ vec_capacity sink.bytes) };
}

impl ListSink {
    ghost use Rattle.std.specs.Prelude.{◌≡◌, IfOk};
    ghost use Rattle.std.specs.Result.{is_err};
    ghost use Rattle.acg_base.specs.ListSinks.{fresh, write_fails, bytes_after};

    /// An empty sink with room for so many bytes. The writes of these numbers, from 0, are to fail.
    pub fn new(alloc: Global, room: usize, writes: Vec<u32>) -> Result<ListSink, Memory>
        ensures { IfOk result (λ sink. sink ≡ fresh room writes.items) }
    {
        let bytes = Vec::with_capacity(alloc, room)?;
        Ok(ListSink {
            room,
            bytes,
            failing: writes,
            writes: 0,
            faults: 0,
            last_failed: false,
        })
    }

    /// Lends the bytes written.
    pub fn bytes(&self) -> &[u8]
        ensures { result.now ≡ self.now.bytes }
    {
        self.bytes.as_slice()
    }

    // Appends the piece, or what fits of it. A write that is to fail appends nothing.
    fn append(&mut self, piece: &[u8]) -> Result<(), SinkError>
        ensures fails { is_err result ≡ write_fails self.old piece.now }
        ensures appends { self.new ≡ record self.old { bytes = bytes_after self.old piece.now } }
    {
        if is_listed(self.failing.as_slice(), self.writes) {
            return Err(SinkError::Failed);
        }
        let fits = piece.len().min(self.room - self.bytes.len());
        if self.bytes.extend_from_slice(&piece[..fits]).is_err() || fits < piece.len() {
            return Err(SinkError::Failed);
        }
        Ok(())
    }
}

impl Sink for ListSink {
    ghost use Rattle.std.specs.Prelude.{◌≡◌, ◌↔◌, ◌≤◌, true, IsTrue, IsErrOf};
    ghost use Rattle.acg_base.specs.ListSinks.{write_fails, after_write};

    ghost written = { λ sink. sink.bytes };

    ghost tells = { λ _. true };

    ghost faults = { λ sink. sink.faults };

    ghost writes = { λ sink. sink.writes };

    ghost last_failed = { λ sink. sink.last_failed };

    /// Fails where the number of the write is listed, and then appends nothing, or where the piece
    /// passes the room, and then appends what fits. It counts the write.
    fn write(&mut self, piece: &[u8]) -> Result<(), SinkError>
        ensures fails { IsErrOf result SinkError.Failed ↔ IsTrue (write_fails self.old piece.now) }
        ensures counts { self.old.faults ≤ self.new.faults }
        ensures after { self.new ≡ after_write self.old piece.now }
    {
        let outcome = self.append(piece);
        self.writes = self.writes.saturating_add(1);
        self.last_failed = outcome.is_err();
        if self.last_failed {
            self.faults = self.faults.saturating_add(1);
        }
        outcome
    }
}
