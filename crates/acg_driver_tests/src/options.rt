//! The options and the input of `act`.

use crate::tools::answers;
use acg_base::Status;
use std::alloc::Global;
use std::test::Fail;

// Whether the words are refused.
fn are_refused(alloc: Global, list: &[&str]) -> Result<bool, Fail> {
    answers(alloc, list, b"send 42", b"", b"words\n", Status::Words)
}

// A frame has 32 words and more, and that of `send 42` at most 40.
#[test]
fn capacities(rt: HostRuntime) -> Result<(), Fail> {
    let alloc = rt.alloc();
    assert!(rt;
        answers(
            alloc,
            &["act", "stack=40", "units=1", "a"],
            b"send 42",
            b"",
            b"stack 40 units 1 factor 448\n42\ncompleted\n",
            Status::Done,
        )?
    );
    assert!(rt;
        answers(
            alloc,
            &["act", "stack=31", "a"],
            b"send 42",
            b"",
            b"stack 31 units 262144 factor 448\nfull\n",
            Status::Full,
        )?
    );
    assert!(rt;
        answers(
            alloc,
            &[
                "act",
                "stack=16777216",
                "units=4194304",
                "budget=1000000000",
                "a"
            ],
            b"send 42",
            b"",
            b"stack 16777216 units 4194304 factor 448\n42\ncompleted\n",
            Status::Done,
        )?
    );
    Ok(())
}

// The first instruction is no exit.
#[test]
fn budgets(rt: HostRuntime) -> Result<(), Fail> {
    let alloc = rt.alloc();
    assert!(rt;
        answers(
            alloc,
            &["act", "budget=1", "a"],
            b"send 42",
            b"",
            b"stack 1048576 units 262144 factor 448\nrunning\n",
            Status::Running,
        )?
    );
    Ok(())
}

// An option out of its range, out of order or said twice is no command line.
#[test]
fn refused_options(rt: HostRuntime) -> Result<(), Fail> {
    let alloc = rt.alloc();
    for list in [
        ["act", "stack=0", "a"].as_slice(),
        ["act", "stack=16777217", "a"].as_slice(),
        ["act", "stack=", "a"].as_slice(),
        ["act", "stack=+40", "a"].as_slice(),
        ["act", "units=0", "a"].as_slice(),
        ["act", "units=4194305", "a"].as_slice(),
        ["act", "budget=0", "a"].as_slice(),
        ["act", "budget=1000000001", "a"].as_slice(),
        ["act", "units=1", "stack=40", "a"].as_slice(),
        ["act", "stack=40", "stack=40", "a"].as_slice(),
        ["act", "budget=9", "units=1", "a"].as_slice(),
        ["act", "stack=40"].as_slice(),
        ["act", "a", "i", "i"].as_slice(),
        ["perform", "stack=40", "0"].as_slice(),
        ["run", "stack=40", "a", "i"].as_slice(),
    ] {
        assert!(rt; are_refused(alloc, list)?);
    }
    Ok(())
}

// The input is read behind the action, and only where that is compiled.
#[test]
fn inputs(rt: HostRuntime) -> Result<(), Fail> {
    let alloc = rt.alloc();
    let sent = b"stack 1048576 units 262144 factor 448\n42\ncompleted\n";
    assert!(rt;
        answers(
            alloc,
            &["act", "a", "i"],
            b"send 42",
            b"1234",
            sent,
            Status::Done
        )?
    );
    let absent = ["act", "a", "absent"];
    let fault = b"read fault absent\n";
    assert!(rt; answers(alloc, &absent, b"send 42", b"", fault, Status::ReadFault)?);
    let stray = b"stray unfold 0\n";
    assert!(rt; answers(alloc, &absent, b"unfold", b"", stray, Status::Action)?);
    let ill_sorted = b"ill-sorted 0\n";
    assert!(rt;
        answers(
            alloc,
            &absent,
            b"send true",
            b"",
            ill_sorted,
            Status::IllSorted
        )?
    );
    let long = vec![in alloc; 0; 8388609]?;
    let limit = b"limit input 8388608\n";
    assert!(rt;
        answers(
            alloc,
            &["act", "a", "i"],
            b"send 42",
            &long,
            limit,
            Status::Limit
        )?
    );
    Ok(())
}
