//! Folders, readers and writers of the tests' own: they give and take a few bytes at a time, and fail in mid-stream.

ghost use Rattle.std.specs.Prelude.{◌≡◌};

use crate::{
    CountingRead, CountingReader, CountingWrite, CountingWriter, Folder, FolderStore, Name,
    OutSink, Sink, SinkError, Store, StoreError, append_front, hand_on,
};
use std::alloc::Global;
use std::cell::RefCell;
use std::fmt::Display;
use std::io;
use std::io::{ErrorKind, Read, Write};
use std::test::Fail;

// A reader in memory of a file of this name, that gives two bytes at a time and never fails.
#[derive(Drop)]
struct Leaf<'a> {
    name: &'a [u8],
    rest: &'a [u8],
    reads: u64,
}

impl CountingRead for Leaf<'_> {
    ghost use Rattle.std.specs.Prelude.{Some, false};

    ghost remaining = { λ leaf. Some leaf.rest.now };

    ghost source = { λ leaf. Some leaf.name.now };

    ghost reads = { λ leaf. leaf.reads };

    ghost faults = { λ _. 0 };

    ghost last_failed = { λ _. false };

    fn give(&mut self, buffer: &mut [u8]) -> Result<usize, StoreError> {
        let count = buffer.len().min(self.rest.len()).min(2);
        buffer[..count].copy_from_slice(&self.rest[..count]);
        self.rest = &self.rest[count..];
        self.reads = self.reads.saturating_add(1);
        Ok(count)
    }
}

// A place in memory that is still there when what writes to it is dropped.
#[derive(Drop)]
struct Tape {
    bytes: RefCell<Vec<u8>>,
}

impl Tape {
    fn new(alloc: Global) -> Tape {
        Tape {
            bytes: RefCell::new(Vec::new(alloc)),
        }
    }

    fn append(&self, bytes: &[u8]) -> io::Result<()> {
        match self.bytes.try_borrow_mut() {
            Ok(mut kept) => Ok(kept.extend_from_slice(bytes)?),
            Err(_) => Err(io::Error::from(ErrorKind::Other)),
        }
    }

    fn holds(&self, bytes: &[u8]) -> bool {
        match self.bytes.try_borrow() {
            Ok(kept) => kept.as_slice() == bytes,
            Err(_) => false,
        }
    }
}

// Takes two bytes at a time.
impl Print for Tape {
    fn print<D: Display + Drop>(&self, _value: D) -> io::Result<()> {
        Err(io::Error::from(ErrorKind::Unsupported))
    }

    fn println<D: Display + Drop>(&self, _value: D) -> io::Result<()> {
        Err(io::Error::from(ErrorKind::Unsupported))
    }

    fn write_all(&self, bytes: &[u8]) -> io::Result<()> {
        self.append(bytes)
    }

    fn write_some(&self, bytes: &[u8]) -> io::Result<usize> {
        let count = bytes.len().min(2);
        self.append(&bytes[..count])?;
        Ok(count)
    }
}

// A writer in memory of a file of this name, that takes two bytes at a time, and puts them on a tape too.
#[derive(Drop)]
struct Sheet<'a> {
    name: &'a [u8],
    tape: &'a Tape,
    bytes: Vec<u8>,
    writes: u64,
    faults: u64,
    last_failed: bool,
}

impl CountingWrite for Sheet<'_> {
    ghost use Rattle.std.specs.Prelude.{Some};

    ghost contents = { λ sheet. Some sheet.bytes.items };

    ghost target = { λ sheet. Some sheet.name.now };

    ghost writes = { λ sheet. sheet.writes };

    ghost faults = { λ sheet. sheet.faults };

    ghost last_failed = { λ sheet. sheet.last_failed };

    fn take(&mut self, bytes: &[u8]) -> Result<usize, SinkError> {
        let count = bytes.len().min(2);
        self.writes = self.writes.saturating_add(1);
        self.last_failed = self.tape.append(&bytes[..count]).is_err()
            || self.bytes.extend_from_slice(&bytes[..count]).is_err();
        if self.last_failed {
            self.faults = self.faults.saturating_add(1);
            return Err(SinkError::Failed);
        }
        Ok(count)
    }
}

// A folder of one file, which tells its bytes.
#[derive(Drop)]
struct Page<'a> {
    alloc: Global,
    name: &'a [u8],
    bytes: &'a [u8],
    tape: &'a Tape,
    opens: u64,
    failed_opens: u64,
    creates: u64,
    failed_creates: u64,
    closed_leaf: Option<Leaf<'a>>,
    closed_sheet: Option<Sheet<'a>>,
}

impl<'a> Folder for Page<'a> {
    ghost use Rattle.std.specs.Prelude.{Some, None, true, false, if◌then◌else◌};
    ghost use Rattle.std.specs.Option.{option_map, unwrap_or};
    ghost use Rattle.std.specs.Str.{bytes_eq};

    type Reader = Leaf<'a>;

    type Writer = Sheet<'a>;

    ghost contents = { λ page name. if bytes_eq name page.name.now then Some page.bytes.now else None };

    ghost makes = { λ page name. bytes_eq name page.name.now };

    ghost tells = { λ _. true };

    ghost opens = { λ page. page.opens };

    ghost failed_opens = { λ page. page.failed_opens };

    ghost creates = { λ page. page.creates };

    ghost failed_creates = { λ page. page.failed_creates };

    ghost closed_source = { λ page. option_map (λ leaf. leaf.name.now) page.closed_leaf };

    ghost closed_remaining = { λ page. option_map (λ leaf. leaf.rest.now) page.closed_leaf };

    ghost closed_read_faults = { λ _. 0 };

    ghost closed_read_failed = { λ _. false };

    ghost closed_target = { λ page. option_map (λ sheet. sheet.name.now) page.closed_sheet };

    ghost closed_contents = { λ page. option_map (λ sheet. sheet.bytes.items) page.closed_sheet };

    ghost closed_write_faults = { λ page.
        unwrap_or (option_map (λ sheet. sheet.faults) page.closed_sheet) 0 };

    ghost closed_write_failed = { λ page.
        unwrap_or (option_map (λ sheet. sheet.last_failed) page.closed_sheet) false };

    fn open(&mut self, name: &str) -> io::Result<Leaf<'a>> {
        self.opens = self.opens.saturating_add(1);
        if name.as_bytes() != self.name {
            self.failed_opens = self.failed_opens.saturating_add(1);
            return Err(io::Error::from(ErrorKind::NotFound));
        }
        Ok(Leaf {
            name: self.name,
            rest: self.bytes,
            reads: 0,
        })
    }

    fn create(&mut self, name: &str) -> io::Result<Sheet<'a>> {
        self.creates = self.creates.saturating_add(1);
        if name.as_bytes() != self.name {
            self.failed_creates = self.failed_creates.saturating_add(1);
            return Err(io::Error::from(ErrorKind::PermissionDenied));
        }
        Ok(Sheet {
            name: self.name,
            tape: self.tape,
            bytes: Vec::new(self.alloc),
            writes: 0,
            faults: 0,
            last_failed: false,
        })
    }

    fn close_reader(&mut self, reader: Leaf<'a>) {
        self.closed_leaf = Some(reader);
    }

    fn close_writer(&mut self, writer: Sheet<'a>) {
        self.closed_sheet = Some(writer);
    }
}

// A reader that gives two bytes at a time, and fails at the read of this number, from 0.
#[derive(Drop)]
struct Drip<'a> {
    rest: &'a [u8],
    failing: u32,
    reads: u32,
}

impl Read for Drip<'_> {
    fn read(&mut self, buf: &mut [u8]) -> io::Result<usize> {
        self.reads = self.reads.saturating_add(1);
        if self.reads > self.failing {
            return Err(io::Error::from(ErrorKind::Other));
        }
        let count = buf.len().min(self.rest.len()).min(2);
        buf[..count].copy_from_slice(&self.rest[..count]);
        self.rest = &self.rest[count..];
        Ok(count)
    }
}

// A writer that takes two bytes at a time, and fails at the write of this number, from 0.
#[derive(Drop)]
struct Narrow {
    taken: Vec<u8>,
    failing: u32,
    writes: u32,
}

impl Write for Narrow {
    fn write(&mut self, buf: &[u8]) -> io::Result<usize> {
        self.writes = self.writes.saturating_add(1);
        if self.writes > self.failing {
            return Err(io::Error::from(ErrorKind::Other));
        }
        let count = buf.len().min(2);
        self.taken.extend_from_slice(&buf[..count])?;
        Ok(count)
    }

    fn flush(&mut self) -> io::Result<()> {
        Ok(())
    }
}

#[test]
fn reads_in_pieces_give_the_front(rt: HostRuntime) -> Result<(), Fail> {
    for failing in 0..6 {
        let mut reader = CountingReader::new(Drip {
            rest: b"several",
            failing,
            reads: 0,
        });
        let mut into = Vec::from_slice(rt.alloc(), b"to ")?;
        let answer = append_front(&mut reader, 4, &mut into);
        assert_eq!(rt; reader.reader().reads, 3.min(failing.saturating_add(1)));
        if failing < 3 {
            assert_eq!(rt; answer, Err(StoreError::Failed));
            assert_eq!(rt; into.as_slice(), b"to ".as_slice());
        } else {
            assert_eq!(rt; answer, Ok(()));
            assert_eq!(rt; into.as_slice(), b"to sever".as_slice());
        }
    }
    Ok(())
}

#[test]
fn writes_in_pieces_take_a_front_before_a_fault(rt: HostRuntime) -> Result<(), Fail> {
    for failing in 0..6 {
        let mut writer = CountingWriter::new(Narrow {
            taken: Vec::new(rt.alloc()),
            failing,
            writes: 0,
        });
        let answer = hand_on(&mut writer, b"several");
        let taken = 7.min(2 * failing as usize);
        assert_eq!(rt; writer.writer().taken.as_slice(), &b"several"[..taken]);
        assert_eq!(rt; writer.writer().writes, 4.min(failing.saturating_add(1)));
        if failing < 4 {
            assert_eq!(rt; answer, Err(SinkError::Failed));
        } else {
            assert_eq!(rt; answer, Ok(()));
        }
    }
    Ok(())
}

#[test]
fn a_folder_that_tells_is_read_and_written(rt: HostRuntime) -> Result<(), Fail> {
    let tape = Tape::new(rt.alloc());
    let mut store = FolderStore::new(Page {
        alloc: rt.alloc(),
        name: b"any",
        bytes: b"page",
        tape: &tape,
        opens: 0,
        failed_opens: 0,
        creates: 0,
        failed_creates: 0,
        closed_leaf: None,
        closed_sheet: None,
    });
    let name = Name::new(rt.alloc(), "any").ok().ok_or("memory")?;
    let other = Name::new(rt.alloc(), "other").ok().ok_or("memory")?;
    let mut into = Vec::from_slice(rt.alloc(), b"to ")?;
    store.read(&name, 2, &mut into)?;
    assert_eq!(rt; into.as_slice(), b"to pag".as_slice());
    store.write(&name, b"bytes")?;
    assert!(rt; tape.holds(b"bytes"));
    assert_eq!(rt; store.read(&other, 2, &mut into), Err(StoreError::Failed));
    assert_eq!(rt; store.write(&other, b"bytes"), Err(StoreError::Failed));
    assert!(rt; tape.holds(b"bytes"));
    assert_eq!(rt; store.folder.opens, 2);
    assert_eq!(rt; store.folder.failed_opens, 1);
    assert_eq!(rt; store.folder.creates, 2);
    assert_eq!(rt; store.folder.failed_creates, 1);
    let left = match &store.folder.closed_leaf {
        Some(leaf) => leaf.rest,
        None => b"",
    };
    assert_eq!(rt; left, b"e".as_slice());
    Ok(())
}

#[test]
fn a_vector_takes_each_piece(rt: HostRuntime) -> Result<(), Fail> {
    let mut out = OutSink::new(CountingWriter::new(Vec::new(rt.alloc())));
    assert_eq!(rt; out.write(b"one "), Ok(()));
    assert_eq!(rt; out.write(b"two"), Ok(()));
    assert_eq!(rt; out.writer.writer().as_slice(), b"one two".as_slice());
    Ok(())
}

#[test]
fn a_printer_takes_each_piece(rt: HostRuntime) {
    let tape = Tape::new(rt.alloc());
    let mut out = OutSink::new(CountingWriter::new(io::writer(&tape)));
    assert_eq!(rt; out.write(b"a line\n"), Ok(()));
    assert_eq!(rt; out.write(b""), Ok(()));
    assert_eq!(rt; out.write(b"more"), Ok(()));
    assert!(rt; tape.holds(b"a line\nmore"));
}
