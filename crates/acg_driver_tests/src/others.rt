//! A store and a sink with other faults than those of `MapStore` and `ListSink`.

use crate::tools::words;
use acg_base::{Name, Sink, SinkError, Status, Store, StoreError};
use acg_driver::serve;
use std::alloc::Global;
use std::test::Fail;

// A sink that takes all of each piece, and yet says of one of them that it failed.
#[derive(Drop)]
struct Denier {
    bytes: Vec<u8>,
    denied: u64,
    writes: u64,
    faults: u64,
    last_failed: bool,
}

impl Sink for Denier {
    ghost use Rattle.std.specs.Prelude.{[], false};

    ghost written = { λ _. [] };

    ghost tells = { λ _. false };

    ghost faults = { λ sink. sink.faults };

    ghost writes = { λ sink. sink.writes };

    ghost last_failed = { λ sink. sink.last_failed };

    fn write(&mut self, piece: &[u8]) -> Result<(), SinkError> {
        let number = self.writes;
        self.writes = self.writes.saturating_add(1);
        if self.bytes.extend_from_slice(piece).is_err() || number == self.denied {
            self.last_failed = true;
            self.faults = self.faults.saturating_add(1);
            return Err(SinkError::Failed);
        }
        self.last_failed = false;
        Ok(())
    }
}

// A store with one content at every name, for which one read finds no memory.
#[derive(Drop)]
struct Single {
    content: Vec<u8>,
    reads: u64,
    starved: u64,
}

impl Store for Single {
    ghost use Rattle.std.specs.Prelude.{[], None, false};

    ghost contents = { λ _ _. None };

    ghost tells = { λ _. false };

    ghost readings = { λ _. [] };

    ghost logs = { λ _. false };

    ghost reads = { λ store. store.reads };

    ghost failed_reads = { λ _. 0 };

    ghost failed_writes = { λ _. 0 };

    ghost sure = { λ _. false };

    fn read(&mut self, _name: &Name, limit: u32, into: &mut Vec<u8>) -> Result<(), StoreError> {
        let number = self.reads;
        self.reads = self.reads.saturating_add(1);
        if number == self.starved {
            return Err(StoreError::Memory);
        }
        let end = self.content.len().min(limit as usize + 1);
        into.extend_from_slice(&self.content[..end])?;
        Ok(())
    }

    fn write(&mut self, _name: &Name, _bytes: &[u8]) -> Result<(), StoreError> {
        Err(StoreError::Memory)
    }

    ghost sure_tells = { λ _ sure. sure };

    ghost sure_logs = { λ _ sure. sure };
}

// A store whose read of this number, from 0, finds no memory.
fn content_everywhere(alloc: Global, content: &[u8], starved: u64) -> Result<Single, Fail> {
    let content = Vec::from_slice(alloc, content)?;
    Ok(Single {
        content,
        reads: 0,
        starved,
    })
}

// A sink that denies the write of this number, from 0.
fn denying_sink(alloc: Global, denied: u64) -> Denier {
    Denier {
        bytes: Vec::new(alloc),
        denied,
        writes: 0,
        faults: 0,
        last_failed: false,
    }
}

#[test]
fn denied_writes(rt: HostRuntime) -> Result<(), Fail> {
    let alloc = rt.alloc();
    let mut files = content_everywhere(alloc, b"send 1 and then send 2", 9)?;
    let mut out = denying_sink(alloc, 1);
    let act = words(alloc, &["act", "any name"])?;
    assert_eq!(rt;
        serve(alloc, &act, &mut files, &mut out),
        Status::WriteFault
    );
    assert_eq!(rt;
        out.bytes.as_slice(),
        b"stack 1048576 units 262144 factor 448\n1\n".as_slice()
    );
    assert_eq!(rt; out.writes, 2);
    assert_eq!(rt; out.faults, 1);
    Ok(())
}

#[test]
fn starved_reads(rt: HostRuntime) -> Result<(), Fail> {
    let alloc = rt.alloc();
    let perform = words(alloc, &["perform", "0", "a", "i"])?;
    for starved in 0..2 {
        let mut files = content_everywhere(alloc, b"send 1", starved)?;
        let mut out = denying_sink(alloc, 9);
        assert_eq!(rt;
            serve(alloc, &perform, &mut files, &mut out),
            Status::Memory
        );
        assert_eq!(rt; out.bytes.as_slice(), b"memory\n".as_slice());
        assert_eq!(rt; files.reads, starved + 1);
    }
    Ok(())
}
