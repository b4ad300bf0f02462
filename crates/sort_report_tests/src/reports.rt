//! Reports of the least tables of small actions, and where the sink fails.
ghost use Rattle.std.specs.Prelude.{◌<◌, length};

use acg_base::{ListSink, Sink};
use action_text::action_reader::read_action;
use bumpalo::Bump;
use sort_infer::infer;
use sort_report::{ReportError, report};
use std::alloc::Global;
use std::test::Fail;

// Reports the least table of the action that the text spells.
fn report_of<K: Sink>(
    alloc: Global,
    text: &[u8],
    out: &mut K,
) -> Result<Result<(), ReportError>, Fail>
    requires { length text.now < 4294967295 }
{
    let arena = Bump::new(alloc);
    let graph = match read_action(alloc, &arena, text) {
        Ok(graph) => graph,
        Err(_error) => return Err("no action".into()),
    };
    match infer(alloc, &arena, &graph) {
        Ok(table) => Ok(report(alloc, &graph, &table, out)),
        Err(_error) => Err("no table".into()),
    }
}

// Whether the report of the action's least table is this text.
fn is_reported(alloc: Global, text: &[u8], wanted: &[u8]) -> Result<bool, Fail>
    requires { length text.now < 4294967295 }
{
    let mut out = ListSink::new(alloc, 1024, Vec::new(alloc))?;
    match report_of(alloc, text, &mut out)? {
        Ok(()) => Ok(out.bytes() == wanted),
        Err(_error) => Err("no report".into()),
    }
}

// Whether the report of the action's least table stops with this front of its text, where the write with this number fails.
fn stops_with(alloc: Global, text: &[u8], number: u32, front: &[u8]) -> Result<bool, Fail>
    requires { length text.now < 4294967295 }
{
    let mut out = ListSink::new(alloc, 1024, vec![in alloc; number]?)?;
    let answer = report_of(alloc, text, &mut out)?;
    Ok(matches!(answer, Err(ReportError::SinkFault)) && out.bytes() == front)
}

#[test]
fn data_that_are_handed_on(rt: HostRuntime) -> Result<(), Fail> {
    let text = b"(give 1) then (send the given integer)";
    let wanted = b"0 then () {} -> () {} -\n\
        1 give () {} -> (integer) {} -\n\
        2 send (integer) {} -> () {} -\n\
        width 1 yielders 1 factor 496\n";
    assert!(rt; is_reported(rt.alloc(), text, wanted)?);
    Ok(())
}

#[test]
fn parts_that_are_not_reached(rt: HostRuntime) -> Result<(), Fail> {
    let text = b"unfolding ((give 1 and then unfold) or fail)";
    let wanted = b"0 unfolding () {} -> - - -\n\
        1 or () {} -> - - -\n\
        2 and-then () {} -> - - -\n\
        3 give () {} -> (integer) {} -\n\
        4 unfold () {} -> - - -\n\
        5 fail () {} -> - - -\n\
        width 1 yielders 1 factor 496\n";
    assert!(rt; is_reported(rt.alloc(), text, wanted)?);
    Ok(())
}

#[test]
fn cells_and_their_contents(rt: HostRuntime) -> Result<(), Fail> {
    let text = b"allocate a cell then ((store 5 in the given cell) and then \
        (send the integer stored in the given cell))";
    let wanted = b"0 then () {} -> () {} -\n\
        1 allocate () {} -> (cell@1) {} -\n\
        2 and-then (cell@1) {} -> () {} -\n\
        3 store (cell@1) {} -> () {} -\n\
        4 send (cell@1) {} -> () {} -\n\
        contents 1 integer\n\
        width 1 yielders 2 factor 544\n";
    assert!(rt; is_reported(rt.alloc(), text, wanted)?);
    let unset = b"0 allocate () {} -> (cell@0) {} -\n\
        contents 0 -\n\
        width 1 yielders 0 factor 448\n";
    assert!(rt; is_reported(rt.alloc(), b"allocate a cell", unset)?);
    Ok(())
}

#[test]
fn bindings_and_closures(rt: HostRuntime) -> Result<(), Fail> {
    let text =
        b"furthermore (bind \"x\" to true and bind \"f\" to closure abstraction of fail) hence complete";
    let wanted = b"0 hence () {} -> () {} -\n\
        1 furthermore () {} -> () {f:abstraction@5,x:truth-value} -\n\
        2 and () {} -> () {f:abstraction@5,x:truth-value} -\n\
        3 bind () {} -> () {x:truth-value} -\n\
        4 bind () {} -> () {f:abstraction@5} -\n\
        5 fail - {} -> - - -\n\
        6 complete () {f:abstraction@5,x:truth-value} -> () {} -\n\
        width 2 yielders 1 factor 544\n";
    assert!(rt; is_reported(rt.alloc(), text, wanted)?);
    Ok(())
}

#[test]
fn sets_of_several_members(rt: HostRuntime) -> Result<(), Fail> {
    let text = b"((give (1, 2)) or (give (true, 3))) then complete";
    let wanted = b"0 then () {} -> () {} -\n\
        1 or () {} -> (integer|truth-value,integer) {} -\n\
        2 give () {} -> (integer,integer) {} -\n\
        3 give () {} -> (truth-value,integer) {} -\n\
        4 complete (integer|truth-value,integer) {} -> () {} -\n\
        width 2 yielders 2 factor 616\n";
    assert!(rt; is_reported(rt.alloc(), text, wanted)?);
    Ok(())
}

#[test]
fn each_write_fails_in_turn(rt: HostRuntime) -> Result<(), Fail> {
    let text = b"(give 1) then (send the given integer)";
    let first = b"0 then () {} -> () {} -\n";
    let two = b"0 then () {} -> () {} -\n1 give () {} -> (integer) {} -\n";
    assert!(rt; stops_with(rt.alloc(), text, 0, b"")?);
    assert!(rt; stops_with(rt.alloc(), text, 1, first)?);
    assert!(rt; stops_with(rt.alloc(), text, 2, two)?);
    Ok(())
}
