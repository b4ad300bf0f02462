//! The working folder: where files of the system are opened.

use crate::calls::Calls;
use crate::counting::{CountingReader, CountingWriter};
use crate::folder::Folder;
use std::rt::Files;
use std::{fs, io};

/// The files that a runtime reaches, by paths from the working folder. It doesn't tell their bytes.
#[derive(Drop)]
pub struct WorkingFolder<R: Files + Drop> {
    rt: R,
    opens: Calls,
    creates: Calls,
    closed_reads: Calls,
    closed_writes: Calls,
}

impl<R: Files + Drop> WorkingFolder<R> {
    /// The working folder of the runtime.
    pub fn new(rt: R) -> WorkingFolder<R> {
        WorkingFolder {
            rt,
            opens: Calls::none(),
            creates: Calls::none(),
            closed_reads: Calls::none(),
            closed_writes: Calls::none(),
        }
    }
}

impl<R: Files + Drop> Folder for WorkingFolder<R> {
    ghost use Rattle.std.specs.Prelude.{None, false};

    type Reader = CountingReader<R::File>;

    type Writer = CountingWriter<R::File>;

    ghost contents = { λ _ _. None };

    ghost makes = { λ _ _. false };

    ghost tells = { λ _. false };

    ghost opens = { λ folder. folder.opens.made };

    ghost failed_opens = { λ folder. folder.opens.failed };

    ghost creates = { λ folder. folder.creates.made };

    ghost failed_creates = { λ folder. folder.creates.failed };

    ghost closed_source = { λ _. None };

    ghost closed_remaining = { λ _. None };

    ghost closed_read_faults = { λ folder. folder.closed_reads.failed };

    ghost closed_read_failed = { λ folder. folder.closed_reads.last_failed };

    ghost closed_target = { λ _. None };

    ghost closed_contents = { λ _. None };

    ghost closed_write_faults = { λ folder. folder.closed_writes.failed };

    ghost closed_write_failed = { λ folder. folder.closed_writes.last_failed };

    fn open(&mut self, name: &str) -> io::Result<CountingReader<R::File>> {
        let opened = fs::open(&self.rt, name);
        self.opens.count(opened.is_err());
        Ok(CountingReader::new(opened?))
    }

    fn create(&mut self, name: &str) -> io::Result<CountingWriter<R::File>> {
        let created = fs::create(&self.rt, name);
        self.creates.count(created.is_err());
        Ok(CountingWriter::new(created?))
    }

    fn close_reader(&mut self, reader: CountingReader<R::File>) {
        self.closed_reads = reader.close();
    }

    fn close_writer(&mut self, writer: CountingWriter<R::File>) {
        self.closed_writes = writer.close();
    }
}
