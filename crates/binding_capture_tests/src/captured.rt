//! Captured tokens of small actions, by their least tables.
use action_terms::pushed::Pushed;
use action_terms::{Graph, GraphBuilder, Kind, NewAction, NewYielder, Sort, YKind};
use binding_capture::captures;
use bumpalo::Bump;
use sort_infer::infer;
use std::alloc::Global;
use std::process::Abort;
use std::test::Fail;

fn action(kind: Kind, items: u32) -> Pushed<'static> {
    Pushed::Action(NewAction {
        kind,
        items,
        token: b"",
    })
}

fn bind(token: &[u8]) -> Pushed<'_> {
    Pushed::Action(NewAction {
        kind: Kind::Bind,
        items: 0,
        token,
    })
}

fn datum(kind: YKind) -> Pushed<'static> {
    Pushed::Yielder(NewYielder { kind, token: b"" })
}

fn integer_bound(token: &[u8]) -> Pushed<'_> {
    Pushed::Yielder(NewYielder {
        kind: YKind::Bound {
            sort: Sort::Integer,
        },
        token,
    })
}

// the graph of the action whose nodes these are, in preorder
fn graph_of<'a>(
    rt: &impl Abort,
    alloc: Global,
    arena: &'a Bump,
    nodes: &[Pushed<'_>],
) -> Result<Graph<'a>, Fail> {
    let mut builder = GraphBuilder::new(alloc, arena)?;
    for node in nodes {
        let _number = match *node {
            Pushed::Action(new) => builder.push_action(new)?,
            Pushed::Yielder(new) => builder.push_yielder(new)?,
        };
    }
    assert!(rt; builder.is_whole());
    Ok(builder.seal()?)
}

// the captured tokens of a body of the action, by its least table
fn captured<'a>(
    rt: &impl Abort,
    alloc: Global,
    arena: &'a Bump,
    nodes: &[Pushed<'_>],
    body: u32,
) -> Result<&'a [&'a [u8]], Fail> {
    let graph = graph_of(rt, alloc, arena, nodes)?;
    match infer(alloc, arena, &graph) {
        Ok(table) => {
            let captures = captures(alloc, arena, &graph, &table)?;
            assert!(rt; (body as usize) < graph.node_count());
            Ok(captures.tokens(body))
        }
        Err(_error) => Err("no table".into()),
    }
}

// `((bind "y" to 2) and (bind "x" to 1)) hence give closure abstraction of send the integer bound to "x"`
#[test]
fn only_what_is_read(rt: HostRuntime) -> Result<(), Fail> {
    let arena = Bump::new(rt.alloc());
    let nodes = [
        action(Kind::Hence, 0),
        action(Kind::And, 0),
        bind(b"y"),
        datum(YKind::Number(2)),
        bind(b"x"),
        datum(YKind::Number(1)),
        action(Kind::Give, 1),
        datum(YKind::Closure),
        action(Kind::Send, 0),
        integer_bound(b"x"),
    ];
    let tokens = captured(&rt, rt.alloc(), &arena, &nodes, 5)?;
    assert_eq!(rt; tokens.len(), 1);
    assert!(rt; tokens[0] == b"x".as_slice());
    Ok(())
}

// both are read: the tokens ascend, whatever their order in the body
#[test]
fn both_are_read_in_ascending_order(rt: HostRuntime) -> Result<(), Fail> {
    let arena = Bump::new(rt.alloc());
    let nodes = [
        action(Kind::Hence, 0),
        action(Kind::And, 0),
        bind(b"y"),
        datum(YKind::Number(2)),
        bind(b"x"),
        datum(YKind::Number(1)),
        action(Kind::Give, 1),
        datum(YKind::Closure),
        action(Kind::AndThen, 0),
        action(Kind::Send, 0),
        integer_bound(b"y"),
        action(Kind::Send, 0),
        integer_bound(b"x"),
    ];
    let tokens = captured(&rt, rt.alloc(), &arena, &nodes, 5)?;
    assert_eq!(rt; tokens.len(), 2);
    assert!(rt; tokens[0] == b"x".as_slice());
    assert!(rt; tokens[1] == b"y".as_slice());
    Ok(())
}

// a body that reads nothing
#[test]
fn none_is_read(rt: HostRuntime) -> Result<(), Fail> {
    let arena = Bump::new(rt.alloc());
    let nodes = [
        action(Kind::Hence, 0),
        action(Kind::And, 0),
        bind(b"y"),
        datum(YKind::Number(2)),
        bind(b"x"),
        datum(YKind::Number(1)),
        action(Kind::Give, 1),
        datum(YKind::Closure),
        action(Kind::Complete, 0),
    ];
    let tokens = captured(&rt, rt.alloc(), &arena, &nodes, 5)?;
    assert_eq!(rt; tokens.len(), 0);
    Ok(())
}

// the body makes a closure, and the inner body alone reads `x`
#[test]
fn an_inner_body_reads(rt: HostRuntime) -> Result<(), Fail> {
    let arena = Bump::new(rt.alloc());
    let nodes = [
        action(Kind::Hence, 0),
        action(Kind::And, 0),
        bind(b"y"),
        datum(YKind::Number(2)),
        bind(b"x"),
        datum(YKind::Number(1)),
        action(Kind::Give, 1),
        datum(YKind::Closure),
        action(Kind::Give, 1),
        datum(YKind::Closure),
        action(Kind::Send, 0),
        integer_bound(b"x"),
    ];
    let tokens = captured(&rt, rt.alloc(), &arena, &nodes, 5)?;
    assert_eq!(rt; tokens.len(), 1);
    assert!(rt; tokens[0] == b"x".as_slice());
    Ok(())
}

// both bodies are enacted: the inner one captures what it reads
#[test]
fn the_inner_body_captures_it_too(rt: HostRuntime) -> Result<(), Fail> {
    let arena = Bump::new(rt.alloc());
    let nodes = [
        action(Kind::Hence, 0),
        action(Kind::And, 0),
        bind(b"y"),
        datum(YKind::Number(2)),
        bind(b"x"),
        datum(YKind::Number(1)),
        action(Kind::Enact, 0),
        datum(YKind::Closure),
        action(Kind::Enact, 0),
        datum(YKind::Closure),
        action(Kind::Send, 0),
        integer_bound(b"x"),
    ];
    let tokens = captured(&rt, rt.alloc(), &arena, &nodes, 6)?;
    assert_eq!(rt; tokens.len(), 1);
    assert!(rt; tokens[0] == b"x".as_slice());
    Ok(())
}

// the body binds `z` itself, and reads it there
#[test]
fn what_is_bound_inside(rt: HostRuntime) -> Result<(), Fail> {
    let arena = Bump::new(rt.alloc());
    let nodes = [
        action(Kind::Hence, 0),
        action(Kind::And, 0),
        bind(b"y"),
        datum(YKind::Number(2)),
        bind(b"x"),
        datum(YKind::Number(1)),
        action(Kind::Give, 1),
        datum(YKind::Closure),
        action(Kind::Hence, 0),
        bind(b"z"),
        datum(YKind::Number(3)),
        action(Kind::Send, 0),
        integer_bound(b"z"),
    ];
    let tokens = captured(&rt, rt.alloc(), &arena, &nodes, 5)?;
    assert_eq!(rt; tokens.len(), 0);
    Ok(())
}

// an enacted body that completes with the bindings that it receives
#[test]
fn what_the_body_completes_with(rt: HostRuntime) -> Result<(), Fail> {
    let arena = Bump::new(rt.alloc());
    let nodes = [
        action(Kind::Hence, 0),
        action(Kind::And, 0),
        bind(b"y"),
        datum(YKind::Number(2)),
        bind(b"x"),
        datum(YKind::Number(1)),
        action(Kind::Enact, 0),
        datum(YKind::Closure),
        action(Kind::Rebind, 0),
    ];
    let tokens = captured(&rt, rt.alloc(), &arena, &nodes, 5)?;
    assert_eq!(rt; tokens.len(), 2);
    assert!(rt; tokens[0] == b"x".as_slice());
    assert!(rt; tokens[1] == b"y".as_slice());
    Ok(())
}

// `unfolding ((send the integer bound to "y" then unfold) or complete)` as the body
#[test]
fn an_unfolding_beneath(rt: HostRuntime) -> Result<(), Fail> {
    let arena = Bump::new(rt.alloc());
    let nodes = [
        action(Kind::Hence, 0),
        action(Kind::And, 0),
        bind(b"y"),
        datum(YKind::Number(2)),
        bind(b"x"),
        datum(YKind::Number(1)),
        action(Kind::Give, 1),
        datum(YKind::Closure),
        action(Kind::Unfolding, 0),
        action(Kind::Or, 0),
        action(Kind::AndThen, 0),
        action(Kind::Send, 0),
        integer_bound(b"y"),
        action(Kind::Unfold, 0),
        action(Kind::Complete, 0),
    ];
    let tokens = captured(&rt, rt.alloc(), &arena, &nodes, 5)?;
    assert_eq!(rt; tokens.len(), 1);
    assert!(rt; tokens[0] == b"y".as_slice());
    Ok(())
}

// a body that is never enacted completes with nothing, so it captures nothing by that
#[test]
fn a_body_that_is_never_enacted(rt: HostRuntime) -> Result<(), Fail> {
    let arena = Bump::new(rt.alloc());
    let nodes = [
        action(Kind::Hence, 0),
        action(Kind::And, 0),
        bind(b"y"),
        datum(YKind::Number(2)),
        bind(b"x"),
        datum(YKind::Number(1)),
        action(Kind::Give, 1),
        datum(YKind::Closure),
        action(Kind::Rebind, 0),
    ];
    let tokens = captured(&rt, rt.alloc(), &arena, &nodes, 5)?;
    assert_eq!(rt; tokens.len(), 0);
    Ok(())
}

// an inner body completes with what it receives: the outer one captures that
#[test]
fn what_an_inner_body_completes_with(rt: HostRuntime) -> Result<(), Fail> {
    let arena = Bump::new(rt.alloc());
    let nodes = [
        action(Kind::Hence, 0),
        action(Kind::And, 0),
        bind(b"y"),
        datum(YKind::Number(2)),
        bind(b"x"),
        datum(YKind::Number(1)),
        action(Kind::Enact, 0),
        datum(YKind::Closure),
        action(Kind::Enact, 0),
        datum(YKind::Closure),
        action(Kind::Rebind, 0),
    ];
    let tokens = captured(&rt, rt.alloc(), &arena, &nodes, 5)?;
    assert_eq!(rt; tokens.len(), 2);
    assert!(rt; tokens[0] == b"x".as_slice());
    assert!(rt; tokens[1] == b"y".as_slice());
    Ok(())
}
