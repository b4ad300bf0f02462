//! Reads and writes that fail, one after the other.

use crate::tools::{CALLS, image_of, sink, store, words};
use acg_base::Status;
use acg_driver::serve;
use std::alloc::Global;
use std::test::Fail;

// Whether the words print these pieces, by a write each, and where a write fails, exactly those before it and nothing
// behind it.
fn each_write_fails(
    alloc: Global,
    list: &[&str],
    action: &[u8],
    pieces: &[&[u8]],
    status: Status,
) -> Result<bool, Fail> {
    let words = words(alloc, list)?;
    let mut before = Vec::new(alloc);
    for (failing, piece) in pieces.iter().enumerate() {
        let mut files = store(alloc, action, b"", Vec::new(alloc))?;
        let failing = u32::try_from(failing).ok().ok_or("a number past 32 bits")?;
        let mut out = sink(alloc, vec![in alloc; failing]?)?;
        let answer = serve(alloc, &words, &mut files, &mut out);
        if answer != Status::WriteFault || out.bytes() != before.as_slice() {
            return Ok(false);
        }
        before.extend_from_slice(piece)?;
    }
    let mut files = store(alloc, action, b"", Vec::new(alloc))?;
    let mut out = sink(alloc, Vec::new(alloc))?;
    let answer = serve(alloc, &words, &mut files, &mut out);
    Ok(answer == status && out.bytes() == before.as_slice())
}

#[test]
fn writes(rt: HostRuntime) -> Result<(), Fail> {
    let alloc = rt.alloc();
    let header = b"stack 1048576 units 262144 factor 448\n".as_slice();
    let action = b"send 1 and then send -2";
    assert!(rt;
        each_write_fails(
            alloc,
            &["act", "a"],
            action,
            &[
                header,
                b"1\n".as_slice(),
                b"-2\n".as_slice(),
                b"completed\n".as_slice()
            ],
            Status::Done,
        )?
    );
    assert!(rt;
        each_write_fails(
            alloc,
            &["perform", "0", "a"],
            action,
            &[
                b"1\n".as_slice(),
                b"-2\n".as_slice(),
                b"completed\n".as_slice()
            ],
            Status::Done,
        )?
    );
    assert!(rt;
        each_write_fails(
            alloc,
            &["act", "absent"],
            action,
            &[
                b"read fault ".as_slice(),
                b"absent".as_slice(),
                b"\n".as_slice()
            ],
            Status::ReadFault,
        )?
    );
    let image = image_of(alloc, &CALLS)?;
    assert!(rt;
        each_write_fails(
            alloc,
            &["run", "a"],
            &image,
            &[b"\x93\x08\x00\x04".as_slice(), b"exited 4\n".as_slice()],
            Status::ExitAbove,
        )?
    );
    Ok(())
}

#[test]
fn reads(rt: HostRuntime) -> Result<(), Fail> {
    let alloc = rt.alloc();
    let perform = words(alloc, &["perform", "0", "a", "i"])?;
    for (failing, fault) in [
        (0, b"read fault a\n".as_slice()),
        (1, b"read fault i\n".as_slice()),
    ] {
        let mut files = store(alloc, b"send 42", b"", vec![in alloc; failing]?)?;
        let mut out = sink(alloc, Vec::new(alloc))?;
        assert_eq!(rt;
            serve(alloc, &perform, &mut files, &mut out),
            Status::ReadFault
        );
        assert_eq!(rt; out.bytes(), fault);
        let mut files = store(
            alloc,
            &image_of(alloc, &CALLS)?,
            b"",
            vec![in alloc; failing]?,
        )?;
        let mut out = sink(alloc, Vec::new(alloc))?;
        let run = words(alloc, &["run", "a", "i"])?;
        assert_eq!(rt; serve(alloc, &run, &mut files, &mut out), Status::ReadFault);
        assert_eq!(rt; out.bytes(), fault);
    }
    let mut files = store(alloc, b"send 42", b"", vec![in alloc; 0]?)?;
    let mut out = sink(alloc, Vec::new(alloc))?;
    let act = words(alloc, &["act", "a"])?;
    assert_eq!(rt; serve(alloc, &act, &mut files, &mut out), Status::ReadFault);
    assert_eq!(rt; out.bytes(), b"read fault a\n".as_slice());
    Ok(())
}
