//! A store and a sink with other faults than those in memory have: what a caller is owed holds over them too.

use crate::callers::{CopyError, copy};
use crate::{Name, Sink, SinkError, Store, StoreError};
use std::test::Fail;

// One file, of which only so many reads succeed. A write fails: it spoils the file if it has its name.
#[derive(Drop)]
struct WornStore {
    name: Name,
    content: Vec<u8>,
    reads_left: u32,
    reads: u64,
    failed_reads: u64,
    failed_writes: u64,
}

#[tactic(auto, unfolding(crate::specs::Outside::front))]
impl Store for WornStore {
    ghost use Rattle.std.specs.Prelude.{[], true, false, Some, None, if◌then◌else◌};
    ghost use Rattle.std.specs.Str.{bytes_eq};
    ghost use Rattle.std.proofs.Common.{rules};

    ghost contents = { λ store name. if bytes_eq name store.name then Some store.content.items else None };

    ghost tells = { λ _. true };

    ghost readings = { λ _. [] };

    ghost logs = { λ _. false };

    ghost reads = { λ store. store.reads };

    ghost failed_reads = { λ store. store.failed_reads };

    ghost failed_writes = { λ store. store.failed_writes };

    ghost sure = { λ _. false };

    fn read(&mut self, name: &Name, limit: u32, into: &mut Vec<u8>) -> Result<(), StoreError> {
        self.reads = self.reads.saturating_add(1);
        if name.bytes() == self.name.bytes() && self.reads_left > 0 {
            let end = self.content.len().min(limit as usize + 1);
            into.extend_from_slice(&self.content.as_slice()[..end])?;
            self.reads_left -= 1;
            return Ok(());
        }
        self.failed_reads = self.failed_reads.saturating_add(1);
        Err(StoreError::Failed)
    }

    fn write(&mut self, name: &Name, _bytes: &[u8]) -> Result<(), StoreError> {
        if name.bytes() == self.name.bytes() {
            self.content.clear();
        }
        self.failed_writes = self.failed_writes.saturating_add(1);
        Err(StoreError::Failed)
    }

    ghost sure_tells = { λ _ _. Prim.search rules };

    ghost sure_logs = { λ _ sure. sure };
}

// Bytes in memory. A piece longer than the most fails, and its first half is appended.
#[derive(Drop)]
struct HalfSink {
    bytes: Vec<u8>,
    most: usize,
    writes: u64,
    faults: u64,
    last_failed: bool,
}

impl Sink for HalfSink {
    ghost use Rattle.std.specs.Prelude.{true};

    ghost written = { λ sink. sink.bytes.items };

    ghost tells = { λ _. true };

    ghost faults = { λ sink. sink.faults };

    ghost writes = { λ sink. sink.writes };

    ghost last_failed = { λ sink. sink.last_failed };

    fn write(&mut self, piece: &[u8]) -> Result<(), SinkError> {
        let is_short = piece.len() <= self.most;
        let end = if is_short {
            piece.len()
        } else {
            piece.len() / 2
        };
        self.writes = self.writes.saturating_add(1);
        self.last_failed = self.bytes.extend_from_slice(&piece[..end]).is_err() || !is_short;
        if self.last_failed {
            self.faults = self.faults.saturating_add(1);
            return Err(SinkError::Failed);
        }
        Ok(())
    }
}

#[test]
fn a_copy_answers_the_faults_of_others(rt: HostRuntime) -> Result<(), Fail> {
    let from = Name::new(rt.alloc(), "a").ok().ok_or("memory")?;
    let mut store = WornStore {
        name: Name::new(rt.alloc(), "a").ok().ok_or("memory")?,
        content: Vec::from_slice(rt.alloc(), b"one")?,
        reads_left: 1,
        reads: 0,
        failed_reads: 0,
        failed_writes: 0,
    };
    let mut out = HalfSink {
        bytes: Vec::new(rt.alloc()),
        most: 4,
        writes: 0,
        faults: 0,
        last_failed: false,
    };
    assert_eq!(rt;
        copy(
            rt.alloc(),
            &mut store,
            &mut out,
            &from,
            &from,
            9,
            b"copied\n"
        ),
        Err(CopyError::Write)
    );
    assert_eq!(rt; store.content.len(), 0);
    assert_eq!(rt;
        copy(
            rt.alloc(),
            &mut store,
            &mut out,
            &from,
            &from,
            9,
            b"copied\n"
        ),
        Err(CopyError::Read)
    );
    assert_eq!(rt; store.reads, 2);
    assert_eq!(rt; store.failed_reads, 1);
    assert_eq!(rt; out.write(b"copied\n"), Err(SinkError::Failed));
    assert_eq!(rt; out.write(b"end"), Ok(()));
    assert_eq!(rt; out.bytes.as_slice(), b"copend".as_slice());
    assert_eq!(rt; out.faults, 1);
    assert_eq!(rt; out.last_failed, false);
    Ok(())
}
