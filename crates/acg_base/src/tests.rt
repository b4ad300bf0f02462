//! Values from outside, and calls at concrete types.

use crate::callers::{CopyError, copy};
use crate::{
    FolderStore, ListSink, MapStore, Name, Sink, SinkError, Status, Store, StoreError, Words,
    WorkingFolder, decimal_into, read_decimal, unsigned_into,
};
use std::alloc::Global;
use std::fs;
use std::test::Fail;

#[test]
fn decimals_are_read_and_written(rt: HostRuntime) {
    let table: [(i64, &[u8]); 7] = [
        (0, b"0"),
        (7, b"7"),
        (10, b"10"),
        (-1, b"-1"),
        (-4096, b"-4096"),
        (9_223_372_036_854_775_807, b"9223372036854775807"),
        (-9_223_372_036_854_775_808, b"-9223372036854775808"),
    ];
    for (value, text) in table {
        let mut out = [0; 20];
        let end = decimal_into(value, &mut out);
        assert_eq!(rt; &out[..end], text);
        assert_eq!(rt; read_decimal(text), Some(value));
    }
}

#[test]
fn unsigned_numbers_are_written(rt: HostRuntime) {
    let table: [(u64, &[u8]); 4] = [
        (0, b"0"),
        (99, b"99"),
        (100, b"100"),
        (18_446_744_073_709_551_615, b"18446744073709551615"),
    ];
    for (value, text) in table {
        let mut out = [0; 20];
        let end = unsigned_into(value, &mut out);
        assert_eq!(rt; &out[..end], text);
    }
}

#[test]
fn odd_decimals_are_read_or_refused(rt: HostRuntime) {
    let table: [(&[u8], Option<i64>); 11] = [
        (b"-0", Some(0)),
        (b"007", Some(7)),
        (b"-0010", Some(-10)),
        (b"", None),
        (b"-", None),
        (b"+1", None),
        (b"--1", None),
        (b"1 ", None),
        (b"\xc3\xa9", None),
        (b"9223372036854775808", None),
        (b"-9223372036854775809", None),
    ];
    for (text, value) in table {
        assert_eq!(rt; read_decimal(text), value);
    }
}

#[test]
fn statuses_have_their_numbers(rt: HostRuntime) {
    assert_eq!(rt; Status::Done.code(), 0);
    assert_eq!(rt; Status::ExitAbove.code(), 5);
    assert_eq!(rt; Status::Words.code(), 10);
    assert_eq!(rt; Status::Action.code(), 22);
}

#[test]
fn words_and_names_keep_their_bytes(rt: HostRuntime) -> Result<(), Fail> {
    let mut list = Vec::new(rt.alloc());
    list.push(String::from_str(rt.alloc(), "act")?)?;
    list.push(String::from_str(rt.alloc(), "a b")?)?;
    let words = Words::new(list);
    assert_eq!(rt; words.list().len(), 2);
    assert_eq!(rt; words.list()[1].as_str(), "a b");
    assert_eq!(rt;
        Name::new(rt.alloc(), "x.act").ok().ok_or("memory")?.bytes(),
        b"x.act".as_slice()
    );
    Ok(())
}

// A file `a` with "one" and a file `b` with "two".
fn two_files(alloc: Global) -> Result<Vec<(Name, Vec<u8>)>, StoreError> {
    let mut files = Vec::new(alloc);
    files.push((Name::new(alloc, "a")?, Vec::from_slice(alloc, b"one")?))?;
    files.push((Name::new(alloc, "b")?, Vec::from_slice(alloc, b"two")?))?;
    Ok(files)
}

#[test]
fn each_listed_read_fails(rt: HostRuntime) -> Result<(), Fail> {
    let name = Name::new(rt.alloc(), "b").ok().ok_or("memory")?;
    for failing in 0..3 {
        let mut store = MapStore::new(
            rt.alloc(),
            two_files(rt.alloc())?,
            vec![in rt.alloc(); failing]?,
            Vec::new(rt.alloc()),
        );
        for call in 0..3 {
            let mut into = Vec::from_slice(rt.alloc(), b"to ")?;
            let answer = store.read(&name, 1, &mut into);
            if call == failing {
                assert_eq!(rt; answer, Err(StoreError::Failed));
                assert_eq!(rt; into.as_slice(), b"to ".as_slice());
            } else {
                assert_eq!(rt; answer, Ok(()));
                assert_eq!(rt; into.as_slice(), b"to tw".as_slice());
            }
        }
    }
    Ok(())
}

#[test]
fn a_store_in_memory_logs_what_it_gave(rt: HostRuntime) -> Result<(), Fail> {
    let mut store = MapStore::new(
        rt.alloc(),
        two_files(rt.alloc())?,
        vec![in rt.alloc(); 1]?,
        Vec::new(rt.alloc()),
    );
    let mut into = Vec::new(rt.alloc());
    for text in ["a", "b", "c", "b"] {
        let name = Name::new(rt.alloc(), text).ok().ok_or("memory")?;
        let _given = store.read(&name, 1, &mut into);
    }
    let log = store.readings();
    assert_eq!(rt; log.len(), 2);
    assert_eq!(rt; log[0].name.bytes(), b"a".as_slice());
    assert_eq!(rt; log[0].given.as_slice(), b"on".as_slice());
    assert_eq!(rt; log[1].name.bytes(), b"b".as_slice());
    assert_eq!(rt; log[1].limit, 1);
    assert_eq!(rt; log[1].given.as_slice(), b"tw".as_slice());
    Ok(())
}

#[test]
fn each_listed_write_fails(rt: HostRuntime) -> Result<(), Fail> {
    let name = Name::new(rt.alloc(), "b").ok().ok_or("memory")?;
    for failing in 0..3 {
        let mut store = MapStore::new(
            rt.alloc(),
            two_files(rt.alloc())?,
            Vec::new(rt.alloc()),
            vec![in rt.alloc(); failing]?,
        );
        for call in 0..3 {
            let answer = store.write(&name, b"three");
            if call == failing {
                assert_eq!(rt; answer, Err(StoreError::Failed));
            } else {
                assert_eq!(rt; answer, Ok(()));
            }
            let mut into = Vec::new(rt.alloc());
            store.read(&name, 9, &mut into)?;
            if failing == 0 && call == 0 {
                assert_eq!(rt; into.as_slice(), b"two".as_slice());
            } else {
                assert_eq!(rt; into.as_slice(), b"three".as_slice());
            }
        }
    }
    Ok(())
}

#[test]
fn a_copy_prints_its_line(rt: HostRuntime) -> Result<(), Fail> {
    let from = Name::new(rt.alloc(), "a").ok().ok_or("memory")?;
    let to = Name::new(rt.alloc(), "c").ok().ok_or("memory")?;
    let mut store = MapStore::sure(rt.alloc(), two_files(rt.alloc())?);
    let mut out = ListSink::new(rt.alloc(), 8, Vec::new(rt.alloc()))
        .ok()
        .ok_or("memory")?;
    assert_eq!(rt;
        copy(rt.alloc(), &mut store, &mut out, &from, &to, 9, b"copied\n"),
        Ok(())
    );
    assert_eq!(rt; out.bytes(), b"copied\n".as_slice());
    let files = store.files();
    assert_eq!(rt; files.len(), 3);
    assert_eq!(rt; files[2].0.bytes(), b"c".as_slice());
    assert_eq!(rt; files[2].1.as_slice(), b"one".as_slice());
    let absent = Name::new(rt.alloc(), "d").ok().ok_or("memory")?;
    assert_eq!(rt;
        copy(rt.alloc(), &mut store, &mut out, &absent, &to, 9, b""),
        Err(CopyError::Read)
    );
    Ok(())
}

#[test]
fn a_list_sink_takes_what_fits(rt: HostRuntime) -> Result<(), Fail> {
    let mut out = ListSink::new(rt.alloc(), 4, vec![in rt.alloc(); 1]?)
        .ok()
        .ok_or("memory")?;
    assert_eq!(rt; out.write(b"one"), Ok(()));
    assert_eq!(rt; out.write(b"two"), Err(SinkError::Failed));
    assert_eq!(rt; out.bytes(), b"one".as_slice());
    assert_eq!(rt; out.write(b"two"), Err(SinkError::Failed));
    assert_eq!(rt; out.bytes(), b"onet".as_slice());
    Ok(())
}

#[test]
fn a_folder_keeps_what_is_written(rt: HostRuntime) -> Result<(), Fail> {
    let name = Name::new(rt.alloc(), "folder_store.test")
        .ok()
        .ok_or("memory")?;
    let mut store = FolderStore::new(WorkingFolder::new(&rt));
    store.write(&name, b"longer than three")?;
    store.write(&name, b"three")?;
    let mut into = Vec::from_slice(rt.alloc(), b"to ")?;
    store.read(&name, 9, &mut into)?;
    store.read(&name, 2, &mut into)?;
    assert_eq!(rt; into.as_slice(), b"to threethr".as_slice());
    fs::remove_file(&rt, "folder_store.test")?;
    assert_eq!(rt; store.read(&name, 9, &mut into), Err(StoreError::Failed));
    assert_eq!(rt; into.as_slice(), b"to threethr".as_slice());
    Ok(())
}
