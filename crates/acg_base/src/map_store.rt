//! A store in memory.

ghost use Rattle.std.specs.Prelude.{◌≡◌, ◌↔◌, ◌+◌, ◌<◌, ◌++◌, [], map, length, IsErrOf, IfSome, OnOk, OnErr};
ghost use Rattle.std.specs.Option.{option_copied};
ghost use Rattle.acg_base.specs.MapStores.{plain_file, content_of, place_in, with_file};

use crate::call_numbers::is_listed;
use crate::name::Name;
use crate::store::{Store, StoreError};
use std::alloc::Global;
use std::marker::Model;

/// A read that was carried out.
#[derive(Debug, Drop)]
pub struct LoggedRead {
    /// The name that was read.
    pub name: Name,
    /// The limit of the read, in bytes.
    pub limit: u32,
    /// The bytes that were given.
    pub given: Vec<u8>,
}

/// Files in memory, with the numbers of the calls that are to fail, and a log of the reads that were
/// carried out.
///
/// Reads and writes are numbered apart, from 0. Of two files of one name the first counts.
#[derive(Debug, Drop)]
pub struct MapStore {
    alloc: Global,
    log: Vec<LoggedRead>,
    files: Vec<(Name, Vec<u8>)>,
    failing_reads: Vec<u32>,
    failing_writes: Vec<u32>,
    reads: u64,
    writes: u64,
    failed_reads: u64,
    failed_writes: u64,
}

impl Model for MapStore {
    ghost use Rattle.std.specs.Prelude.{map};
    ghost use Rattle.acg_base.specs.MapStores.{MapState, plain_file, plain_reading};

    ghost Value = { MapState };

    ghost view = { λ store. record {
      files = map plain_file store.files.items;
      readings = map plain_reading store.log.items;
      failing_reads = store.failing_reads.items;
      failing_writes = store.failing_writes.items;
      reads = store.reads;
      writes = store.writes;
      failed_reads = store.failed_reads;
      failed_writes = store.failed_writes;
    } };
}

// The place of the first file of that name.
fn place_of(files: &[(Name, Vec<u8>)], name: &Name) -> Option<usize>
    ensures place { result ≡ place_in (map plain_file files.now) name.now }
    ensures within { IfSome result (λ place. place < length files.now) }
{
    for (place, file) in files.iter().enumerate() {
        if file.0.bytes() == name.bytes() {
            return Some(place);
        }
    }
    None
}

// The bytes of the first file of that name.
fn bytes_of<'a>(files: &'a [(Name, Vec<u8>)], name: &Name) -> Option<&'a [u8]>
    ensures { option_copied result ≡ content_of (map plain_file files.now) name.now }
{
    for file in files {
        if file.0.bytes() == name.bytes() {
            return Some(file.1.as_slice());
        }
    }
    None
}

// Makes `bytes` the content of the name.
#[tactic(auto, using(crate::proofs::FilesLemmas::files))]
fn put(files: &mut Vec<(Name, Vec<u8>)>, name: Name, bytes: Vec<u8>) -> Result<(), StoreError>
    ensures done { OnOk result (map plain_file files.new.items ≡
        with_file (map plain_file files.old.items) name bytes.items) }
    ensures err { OnErr result (files.new.items ≡ files.old.items) }
    ensures memory { ¬ (IsErrOf result StoreError.Failed) }
{
    match place_of(files.as_slice(), &name) {
        Some(place) => {
            files[place] = (name, bytes);
            Ok(())
        }
        None => {
            files.push((name, bytes))?;
            Ok(())
        }
    }
}

impl MapStore {
    ghost use Rattle.acg_base.specs.MapStores.{fresh, plain_file, plain_reading};

    /// A store of these files. The reads and the writes of these numbers, from 0, are to fail; it is
    /// sure where neither list has a number. Its writes and its log take their memory from `alloc`.
    pub fn new(
        alloc: Global,
        files: Vec<(Name, Vec<u8>)>,
        reads: Vec<u32>,
        writes: Vec<u32>,
    ) -> MapStore
        ensures { result ≡ fresh (map plain_file files.items) reads.items writes.items }
    {
        MapStore {
            alloc,
            log: Vec::new(alloc),
            files,
            failing_reads: reads,
            failing_writes: writes,
            reads: 0,
            writes: 0,
            failed_reads: 0,
            failed_writes: 0,
        }
    }

    /// A store of these files that fails only at a read of a name that isn't there.
    pub fn sure(alloc: Global, files: Vec<(Name, Vec<u8>)>) -> MapStore
        ensures { result ≡ fresh (map plain_file files.items) [] [] }
    {
        MapStore::new(alloc, files, Vec::new(alloc), Vec::new(alloc))
    }

    /// Lends the files.
    pub fn files(&self) -> &[(Name, Vec<u8>)]
        ensures { map plain_file result.now ≡ self.now.files }
    {
        self.files.as_slice()
    }

    /// Lends the reads that were carried out, in their order.
    pub fn readings(&self) -> &[LoggedRead]
        ensures { map plain_reading result.now ≡ self.now.readings }
    {
        self.log.as_slice()
    }
}

#[tactic(auto, unfolding(crate::specs::Outside::front), using(crate::proofs::FilesLemmas::contents))]
impl Store for MapStore {
    ghost use Rattle.std.specs.Prelude.{◌≡◌, ◌↔◌, ◌+◌, ◌≤◌, ◌++◌, ◌&&◌, ◌==◌, true, length, Some, IsTrue, IsErrOf, IfSome, OnOk, OnErr};
    ghost use Rattle.std.proofs.Common.{rules};
    ghost use Rattle.acg_base.specs.Outside.{SameElsewhere, GainsAtMost, reading_of, front};
    ghost use Rattle.acg_base.specs.MapStores.{content_of, with_file, read_fails, write_fails, after_read, after_failed_read, after_write};

    ghost contents = { λ store. content_of store.files };

    ghost tells = { λ _. true };

    ghost readings = { λ store. store.readings };

    ghost logs = { λ _. true };

    ghost reads = { λ store. store.reads };

    ghost failed_reads = { λ store. store.failed_reads };

    ghost failed_writes = { λ store. store.failed_writes };

    ghost sure = { λ store. (length store.failing_reads == 0) && (length store.failing_writes == 0) };

    /// Fails where the number of the read is listed or the name isn't there, and counts the read. Answers
    /// `Memory` where `into` or the log can't grow.
    fn read(&mut self, name: &Name, limit: u32, into: &mut Vec<u8>) -> Result<(), StoreError>
        ensures fails { IsErrOf result StoreError.Failed ↔ IsTrue (read_fails self.old name.now) }
        ensures done { OnOk result (IfSome (content_of self.old.files name.now)
            (λ bytes. into.new.items ≡ into.old.items ++ front limit bytes)) }
        ensures bound { OnOk result (GainsAtMost (limit + 1) into.old.items into.new.items) }
        ensures err { OnErr result (into.new.items ≡ into.old.items) }
        ensures counts { self.old.failed_reads ≤ self.new.failed_reads }
        ensures after { OnOk result (self.new ≡ after_read self.old name.now limit) }
        ensures fault { OnErr result (self.new ≡ after_failed_read self.old name.now) }
    {
        let is_to_fail = is_listed(self.failing_reads.as_slice(), self.reads);
        self.reads = self.reads.saturating_add(1);
        match bytes_of(self.files.as_slice(), name) {
            Some(bytes) if !is_to_fail => {
                let end = bytes.len().min(limit as usize + 1);
                let reading = LoggedRead {
                    name: Name::new(self.alloc, name.text())?,
                    limit,
                    given: Vec::from_slice(self.alloc, &bytes[..end])?,
                };
                self.log.reserve(1)?;
                into.extend_from_slice(reading.given.as_slice())?;
                self.log.push_reserved(reading);
                Ok(())
            }
            _ => {
                self.failed_reads = self.failed_reads.saturating_add(1);
                Err(StoreError::Failed)
            }
        }
    }

    /// Fails where the number of the write is listed, and counts the write.
    fn write(&mut self, name: &Name, bytes: &[u8]) -> Result<(), StoreError>
        ensures fails { IsErrOf result StoreError.Failed ↔ IsTrue (write_fails self.old) }
        ensures done { OnOk result (content_of self.new.files name.now ≡ Some bytes.now) }
        ensures others { SameElsewhere (content_of self.old.files) (content_of self.new.files) name.now }
        ensures counts { self.old.failed_writes ≤ self.new.failed_writes }
        ensures after { OnOk result (self.new ≡ after_write self.old (with_file self.old.files name.now bytes.now)) }
        ensures err { OnErr result (self.new ≡ after_write self.old self.old.files) }
    {
        let is_to_fail = is_listed(self.failing_writes.as_slice(), self.writes);
        self.writes = self.writes.saturating_add(1);
        if is_to_fail {
            self.failed_writes = self.failed_writes.saturating_add(1);
            return Err(StoreError::Failed);
        }
        let content = Vec::from_slice(self.alloc, bytes)?;
        let name = Name::new(self.alloc, name.text())?;
        put(&mut self.files, name, content)
    }

    ghost sure_tells = { λ _ _. Prim.search rules };

    ghost sure_logs = { λ _ _. Prim.search rules };
}
