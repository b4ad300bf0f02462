//! The worked rows of `perform`, over a map of files and a list of bytes.

use crate::tools::answers;
use acg_base::Status;
use std::alloc::Global;
use std::test::Fail;

// Whether the words print these lines for the action, with no bytes at `i`, and answer this status.
fn performs(
    alloc: Global,
    list: &[&str],
    action: &[u8],
    printed: &[u8],
    status: Status,
) -> Result<bool, Fail> {
    answers(alloc, list, action, b"", printed, status)
}

// Whether `perform 0 a i` prints these lines for the input, and answers this status, where the action sends what it
// receives.
fn sends_received(
    alloc: Global,
    input: &[u8],
    printed: &[u8],
    status: Status,
) -> Result<bool, Fail> {
    let action = b"receive an integer then send the given integer";
    answers(
        alloc,
        &["perform", "0", "a", "i"],
        action,
        input,
        printed,
        status,
    )
}

#[test]
fn schedules(rt: HostRuntime) -> Result<(), Fail> {
    let alloc = rt.alloc();
    let first = ["perform", "0", "a"];
    let second = ["perform", "8589934592", "a"];
    let action = b"(send 1 and then fail) or send 2";
    assert!(rt; performs(alloc, &first, action, b"1\nfailed\n", Status::Failed)?);
    assert!(rt; performs(alloc, &second, action, b"2\ncompleted\n", Status::Done)?);
    let action = b"send 1 and send 2";
    assert!(rt; performs(alloc, &first, action, b"2\n1\ncompleted\n", Status::Done)?);
    let action = b"escape with 7";
    assert!(rt; performs(alloc, &first, action, b"escaped\n", Status::Escaped)?);
    Ok(())
}

#[test]
fn inputs(rt: HostRuntime) -> Result<(), Fail> {
    let alloc = rt.alloc();
    let two = [254, 255, 255, 255, 255, 255, 255, 255];
    assert!(rt; sends_received(alloc, &two, b"-2\ncompleted\n", Status::Done)?);
    assert!(rt; sends_received(alloc, &two[..7], b"failed\n", Status::Failed)?);
    let long = vec![in alloc; 0; 8388609]?;
    assert!(rt; sends_received(alloc, &long, b"limit input 8388608\n", Status::Limit)?);
    Ok(())
}

#[test]
fn missing_files(rt: HostRuntime) -> Result<(), Fail> {
    let alloc = rt.alloc();
    let no_input = ["perform", "0", "a", "absent"];
    let fault = b"read fault absent\n";
    assert!(rt; performs(alloc, &no_input, b"complete", fault, Status::ReadFault)?);
    let stray = b"stray unfold 0\n";
    assert!(rt; performs(alloc, &no_input, b"unfold", stray, Status::Action)?);
    let bad = b"action byte 5\n";
    assert!(rt; performs(alloc, &no_input, b"send ?", bad, Status::Action)?);
    let no_action = ["perform", "0", "absent", "i"];
    assert!(rt; performs(alloc, &no_action, b"complete", fault, Status::ReadFault)?);
    Ok(())
}

#[test]
fn perform_lines(rt: HostRuntime) -> Result<(), Fail> {
    let alloc = rt.alloc();
    let signed = ["perform", "-0", "a"];
    assert!(rt; performs(alloc, &signed, b"complete", b"words\n", Status::Words)?);
    let greatest = ["perform", "9223372036854775807", "a"];
    assert!(rt; performs(alloc, &greatest, b"complete", b"completed\n", Status::Done)?);
    Ok(())
}
