//! The worked rows of `act`, `help` and `version`, over a map of files and a list of bytes.

use crate::tools::answers;
use acg_base::Status;
use std::alloc::Global;
use std::test::Fail;

// Whether `act a` prints these lines for the action, and answers this status.
fn acts(alloc: Global, action: &[u8], printed: &[u8], status: Status) -> Result<bool, Fail> {
    answers(alloc, &["act", "a"], action, b"", printed, status)
}

#[test]
fn performances(rt: HostRuntime) -> Result<(), Fail> {
    let alloc = rt.alloc();
    assert!(rt;
        acts(
            alloc,
            b"send 42",
            b"stack 1048576 units 262144 factor 448\n42\ncompleted\n",
            Status::Done,
        )?
    );
    assert!(rt;
        acts(
            alloc,
            b"(send 1 and then send -2) and complete",
            b"stack 1048576 units 262144 factor 448\n1\n-2\ncompleted\n",
            Status::Done,
        )?
    );
    assert!(rt;
        acts(
            alloc,
            b"(complete then send 1) moreover ((send 2 before complete) hence (send 3 then fail))",
            b"stack 1048576 units 262144 factor 448\n1\n2\n3\nfailed\n",
            Status::Failed,
        )?
    );
    assert!(rt;
        acts(
            alloc,
            b"fail and then send 1",
            b"stack 1048576 units 262144 factor 448\nfailed\n",
            Status::Failed,
        )?
    );
    assert!(rt;
        acts(
            alloc,
            b"complete",
            b"stack 1048576 units 262144 factor 424\ncompleted\n",
            Status::Done,
        )?
    );
    assert!(rt;
        acts(
            alloc,
            b"commit and then (regive then (send 1 before (escape and send 2)))",
            b"stack 1048576 units 262144 factor 448\n1\nescaped\n",
            Status::Escaped,
        )?
    );
    Ok(())
}

// A check goes on or fails, by its condition.
#[test]
fn checks(rt: HostRuntime) -> Result<(), Fail> {
    let alloc = rt.alloc();
    assert!(rt;
        acts(
            alloc,
            b"check is less than(1, 2) and then send 1",
            b"stack 1048576 units 262144 factor 496\n1\ncompleted\n",
            Status::Done,
        )?
    );
    assert!(rt;
        acts(
            alloc,
            b"check is(1, 2)",
            b"stack 1048576 units 262144 factor 496\nfailed\n",
            Status::Failed,
        )?
    );
    assert!(rt;
        acts(
            alloc,
            b"check both(not(is(true, false)), either(is less than(3, 3), is(sum(1, 2), 3)))",
            b"stack 1048576 units 262144 factor 760\ncompleted\n",
            Status::Done,
        )?
    );
    assert!(rt;
        acts(
            alloc,
            b"check true then (send 1 then (check is(1, integer-quotient(1, 0)) then send 2))",
            b"stack 1048576 units 262144 factor 544\n1\nfailed\n",
            Status::Failed,
        )?
    );
    Ok(())
}

// What is given is read where it was left, and nodes leave what they give one behind the other.
#[test]
fn data(rt: HostRuntime) -> Result<(), Fail> {
    let alloc = rt.alloc();
    assert!(rt;
        acts(
            alloc,
            b"(give 1) then (send the given integer)",
            b"stack 1048576 units 262144 factor 496\n1\ncompleted\n",
            Status::Done,
        )?
    );
    assert!(rt;
        acts(
            alloc,
            b"(give 1 and (give 2 and then give 3)) \
                then send difference(the given integer # 1, the given integer # 3)",
            b"stack 1048576 units 262144 factor 784\n-2\ncompleted\n",
            Status::Done,
        )?
    );
    assert!(rt;
        acts(
            alloc,
            b"(give (4, true)) then (regive then (check the given truth-value # 2 \
                and then send the given integer # 1))",
            b"stack 1048576 units 262144 factor 616\n4\ncompleted\n",
            Status::Done,
        )?
    );
    assert!(rt;
        acts(
            alloc,
            b"(give 7) then escape",
            b"stack 1048576 units 262144 factor 496\nescaped\n",
            Status::Escaped,
        )?
    );
    assert!(rt;
        acts(
            alloc,
            b"give integer-quotient(1, 0) then send the given integer",
            b"stack 1048576 units 262144 factor 592\nfailed\n",
            Status::Failed,
        )?
    );
    Ok(())
}

// Of 64 data the first and the last are read, in a frame of more than 4,095 words, where each of so many nodes moves
// them on.
#[test]
fn data_of_64_places(rt: HostRuntime) -> Result<(), Fail> {
    let mut action = Vec::from_slice(rt.alloc(), b"give (1, 2)")?;
    for _turn in 0..5 {
        action.extend_from_slice(b" then give (them, them)")?;
    }
    for _turn in 0..32 {
        action.extend_from_slice(b" then regive")?;
    }
    action.extend_from_slice(b" then ((send the given integer # 1)")?;
    action.extend_from_slice(b" and (send the given integer # 64))")?;
    assert!(rt;
        acts(
            rt.alloc(),
            &action,
            b"stack 1048576 units 262144 factor 5080\n1\n2\ncompleted\n",
            Status::Done,
        )?
    );
    Ok(())
}

// The same data, with which an escape comes to a handler whose words are as far.
#[test]
fn caught_data_of_64_places(rt: HostRuntime) -> Result<(), Fail> {
    let mut action = Vec::from_slice(rt.alloc(), b"give (1, 2)")?;
    for _turn in 0..5 {
        action.extend_from_slice(b" then give (them, them)")?;
    }
    for _turn in 0..32 {
        action.extend_from_slice(b" then regive")?;
    }
    action.extend_from_slice(b" then (escape trap ((send the given integer # 1)")?;
    action.extend_from_slice(b" and (send the given integer # 64)))")?;
    assert!(rt;
        acts(
            rt.alloc(),
            &action,
            b"stack 1048576 units 262144 factor 5080\n1\n2\ncompleted\n",
            Status::Done,
        )?
    );
    Ok(())
}

// Actions with alternatives, what is printed behind the words of the header, and the status.
const ALTERNATIVES: [(&[u8], &[u8], Status); 12] = [
    (
        b"(send 1 and then fail) or send 2",
        b"448\n1\nfailed\n",
        Status::Failed,
    ),
    (
        b"(check false and then send 1) or send 2",
        b"448\n2\ncompleted\n",
        Status::Done,
    ),
    (
        b"((check false or fail) or send 3) and then escape",
        b"448\n3\nescaped\n",
        Status::Escaped,
    ),
    (
        b"(send 1 or send 2) and then send 3",
        b"448\n1\n3\ncompleted\n",
        Status::Done,
    ),
    (
        b"(complete or send 1) and then fail",
        b"448\nfailed\n",
        Status::Failed,
    ),
    (
        b"(commit and then fail) or send 1",
        b"448\nfailed\n",
        Status::Failed,
    ),
    (
        b"((commit or send 1) and then fail) or send 2",
        b"448\nfailed\n",
        Status::Failed,
    ),
    (
        b"((fail or send 1) and then fail) or send 2",
        b"448\n1\nfailed\n",
        Status::Failed,
    ),
    (
        b"(fail or (fail and complete)) or (escape or send 1)",
        b"448\nescaped\n",
        Status::Escaped,
    ),
    (
        b"((give 1 and then fail) or (give 2)) then (send the given integer)",
        b"496\n2\ncompleted\n",
        Status::Done,
    ),
    (
        b"(give 5) then ((check is(the given integer, 4)) or (send the given integer))",
        b"592\n5\ncompleted\n",
        Status::Done,
    ),
    (b"fail or fail", b"424\nfailed\n", Status::Failed),
];

#[test]
fn alternatives(rt: HostRuntime) -> Result<(), Fail> {
    for (action, behind, status) in ALTERNATIVES {
        let mut printed = Vec::from_slice(rt.alloc(), b"stack 1048576 units 262144 factor ")?;
        printed.extend_from_slice(behind)?;
        assert!(rt; acts(rt.alloc(), action, &printed, status)?);
    }
    Ok(())
}

// So many times a text.
fn repeated(text: &mut Vec<u8>, piece: &[u8], times: usize) -> Result<(), Fail> {
    for _time in 0..times {
        text.extend_from_slice(piece)?;
    }
    Ok(())
}

// Alternatives that all fail, nested to the left: each is opened within the first arm of the one before.
#[test]
fn alternatives_within_first_arms(rt: HostRuntime) -> Result<(), Fail> {
    let mut action = Vec::new(rt.alloc());
    repeated(&mut action, b"(", 20000)?;
    action.extend_from_slice(b"fail")?;
    repeated(&mut action, b" or fail)", 20000)?;
    assert!(rt;
        acts(
            rt.alloc(),
            &action,
            b"stack 1048576 units 262144 factor 424\nfailed\n",
            Status::Failed,
        )?
    );
    Ok(())
}

// Alternatives that all fail, nested to the right: each is the second arm of the one before.
#[test]
fn alternatives_within_second_arms(rt: HostRuntime) -> Result<(), Fail> {
    let mut action = Vec::new(rt.alloc());
    repeated(&mut action, b"fail or (", 20000)?;
    action.extend_from_slice(b"fail")?;
    repeated(&mut action, b")", 20000)?;
    assert!(rt;
        acts(
            rt.alloc(),
            &action,
            b"stack 1048576 units 262144 factor 424\nfailed\n",
            Status::Failed,
        )?
    );
    Ok(())
}

// A thousand commitments within a thousand open alternatives.
#[test]
fn commitments_within_alternatives(rt: HostRuntime) -> Result<(), Fail> {
    let mut action = Vec::new(rt.alloc());
    repeated(&mut action, b"(", 1001)?;
    action.extend_from_slice(b"commit")?;
    repeated(&mut action, b" and then commit", 999)?;
    action.extend_from_slice(b")")?;
    repeated(&mut action, b" or fail)", 1000)?;
    assert!(rt;
        acts(
            rt.alloc(),
            &action,
            b"stack 1048576 units 262144 factor 424\ncompleted\n",
            Status::Done,
        )?
    );
    Ok(())
}

// Actions with traps, what is printed behind the words of the header, and the status.
const TRAPS: [(&[u8], &[u8], Status); 13] = [
    (
        b"(escape with 7) trap (send the given integer)",
        b"496\n7\ncompleted\n",
        Status::Done,
    ),
    (b"escape with 7", b"496\nescaped\n", Status::Escaped),
    (
        b"((fail or escape) trap fail) or send 2",
        b"448\n2\ncompleted\n",
        Status::Done,
    ),
    (
        b"(((send 1 or complete) trap complete) and then fail) or send 2",
        b"448\n1\nfailed\n",
        Status::Failed,
    ),
    (
        b"(escape trap send 1) and then send 2",
        b"448\n1\n2\ncompleted\n",
        Status::Done,
    ),
    (
        b"((send 1 and then escape) trap fail) or send 2",
        b"448\n1\nfailed\n",
        Status::Failed,
    ),
    (
        b"(complete trap send 1) and then escape",
        b"448\nescaped\n",
        Status::Escaped,
    ),
    (
        b"(escape with (1, 2)) trap (send difference(the given integer # 1, the given integer # 2))",
        b"688\n-1\ncompleted\n",
        Status::Done,
    ),
    (
        b"((escape with 1) trap (escape with 2)) trap (send the given integer)",
        b"496\n2\ncompleted\n",
        Status::Done,
    ),
    (
        b"(give 3) then (escape trap (send the given integer))",
        b"496\n3\ncompleted\n",
        Status::Done,
    ),
    (
        b"(escape with integer-quotient(1, 0)) trap (send 5)",
        b"592\nfailed\n",
        Status::Failed,
    ),
    (
        b"(((commit trap complete) and then escape) trap fail) or send 2",
        b"448\nfailed\n",
        Status::Failed,
    ),
    (
        b"((fail or escape) and then send 1) trap (send 2)",
        b"448\n2\ncompleted\n",
        Status::Done,
    ),
];

#[test]
fn traps(rt: HostRuntime) -> Result<(), Fail> {
    for (action, behind, status) in TRAPS {
        let mut printed = Vec::from_slice(rt.alloc(), b"stack 1048576 units 262144 factor ")?;
        printed.extend_from_slice(behind)?;
        assert!(rt; acts(rt.alloc(), action, &printed, status)?);
    }
    Ok(())
}

// Traps within the first parts of others, each of whose handlers escapes again.
#[test]
fn traps_within_first_parts(rt: HostRuntime) -> Result<(), Fail> {
    let mut action = Vec::new(rt.alloc());
    repeated(&mut action, b"(", 20000)?;
    action.extend_from_slice(b"escape")?;
    repeated(&mut action, b" trap escape)", 20000)?;
    assert!(rt;
        acts(
            rt.alloc(),
            &action,
            b"stack 1048576 units 262144 factor 424\nescaped\n",
            Status::Escaped,
        )?
    );
    Ok(())
}

// Actions with no admissible table, those whose nodes have no code among them.
const ILL_SORTED: [(&[u8], &[u8]); 7] = [
    (b"enact 1", b"ill-sorted 0\n"),
    (
        b"unfolding ((give 1 and then unfold) or complete)",
        b"ill-sorted 0\n",
    ),
    (
        b"(give true) then (send the given integer)",
        b"ill-sorted 2\n",
    ),
    (b"(give 1) or (give (1, 2))", b"ill-sorted 0\n"),
    (b"bind \"x\" to 1 and bind \"x\" to 2", b"ill-sorted 0\n"),
    (b"complete and send sum(1, true)", b"ill-sorted 2\n"),
    (b"send 1 and then send not(true)", b"ill-sorted 2\n"),
];

#[test]
fn ill_sorted(rt: HostRuntime) -> Result<(), Fail> {
    for (action, printed) in ILL_SORTED {
        assert!(rt; acts(rt.alloc(), action, printed, Status::IllSorted)?);
    }
    Ok(())
}

// Each `then` gives twice as many data: the last one of six would give 128, and 64 is the most.
#[test]
fn too_many_places(rt: HostRuntime) -> Result<(), Fail> {
    let mut action = Vec::from_slice(rt.alloc(), b"give (1, 1)")?;
    for _turn in 0..6 {
        action.extend_from_slice(b" then give (them, them)")?;
    }
    action.extend_from_slice(b" then complete")?;
    assert!(rt; acts(rt.alloc(), &action, b"ill-sorted 1\n", Status::IllSorted)?);
    Ok(())
}

#[test]
fn refusals(rt: HostRuntime) -> Result<(), Fail> {
    let alloc = rt.alloc();
    assert!(rt; acts(alloc, b"bind \"x\" to 1", b"unbuilt 0\n", Status::Action)?);
    assert!(rt;
        acts(
            alloc,
            b"complete and bind \"x\" to 1",
            b"unbuilt 2\n",
            Status::Action
        )?
    );
    assert!(rt; acts(alloc, b"send ?", b"action byte 5\n", Status::Action)?);
    assert!(rt; acts(alloc, b"send 1 and", b"action text 10\n", Status::Action)?);
    assert!(rt; acts(alloc, b"unfold", b"stray unfold 0\n", Status::Action)?);
    let long = vec![in alloc; b' '; 1048577]?;
    assert!(rt; acts(alloc, &long, b"limit action 1048576\n", Status::Limit)?);
    Ok(())
}

#[test]
fn command_lines(rt: HostRuntime) -> Result<(), Fail> {
    let alloc = rt.alloc();
    for list in [
        [""].as_slice(),
        ["act"].as_slice(),
        ["help", "act"].as_slice(),
    ] {
        assert!(rt; answers(alloc, list, b"send 42", b"", b"words\n", Status::Words)?);
    }
    assert!(rt; answers(alloc, &["version"], b"", b"", b"acg 0.2.0\n", Status::Done)?);
    Ok(())
}
