//! The roots of procedures, and how many yielders nodes have.
use action_terms::pushed::Pushed;
use action_terms::{Graph, GraphBuilder, Kind, NewAction, NewYielder, YKind};
use bumpalo::Bump;
use sort_rules::{most_yielders, procedure_roots};
use std::alloc::Global;
use std::process::Abort;
use std::test::Fail;

fn action(kind: Kind, items: u32) -> Pushed<'static> {
    Pushed::Action(NewAction {
        kind,
        items,
        token: b"",
    })
}

fn datum(kind: YKind) -> Pushed<'static> {
    Pushed::Yielder(NewYielder { kind, token: b"" })
}

// the graph of the action whose nodes these are, in preorder
fn graph_of<'a>(
    rt: &impl Abort,
    alloc: Global,
    arena: &'a Bump,
    nodes: &[Pushed<'_>],
) -> Result<Graph<'a>, Fail> {
    let mut builder = GraphBuilder::new(alloc, arena)?;
    for node in nodes {
        let _number = match *node {
            Pushed::Action(new) => builder.push_action(new)?,
            Pushed::Yielder(new) => builder.push_yielder(new)?,
        };
    }
    assert!(rt; builder.is_whole());
    Ok(builder.seal()?)
}

// `furthermore enact closure abstraction of (complete and complete)`
#[test]
fn a_body_is_a_procedure_of_its_own(rt: HostRuntime) -> Result<(), Fail> {
    let arena = Bump::new(rt.alloc());
    let nodes = [
        action(Kind::Furthermore, 0),
        action(Kind::Enact, 0),
        datum(YKind::Closure),
        action(Kind::And, 0),
        action(Kind::Complete, 0),
        action(Kind::Complete, 0),
    ];
    let graph = graph_of(&rt, rt.alloc(), &arena, &nodes)?;
    let roots = procedure_roots(rt.alloc(), &graph)?;
    assert_eq!(rt; roots.as_slice(), [0, 0, 2, 2, 2].as_slice());
    Ok(())
}

// `unfolding (complete or unfold)`
#[test]
fn so_is_what_is_repeated(rt: HostRuntime) -> Result<(), Fail> {
    let arena = Bump::new(rt.alloc());
    let nodes = [
        action(Kind::Unfolding, 0),
        action(Kind::Or, 0),
        action(Kind::Complete, 0),
        action(Kind::Unfold, 0),
    ];
    let graph = graph_of(&rt, rt.alloc(), &arena, &nodes)?;
    let roots = procedure_roots(rt.alloc(), &graph)?;
    assert_eq!(rt; roots.as_slice(), [0, 1, 1, 1].as_slice());
    Ok(())
}

// `give (them, 1, sum(2, 3)) and then store 4 in negation(5)`
#[test]
fn the_node_with_most_yielders_counts(rt: HostRuntime) -> Result<(), Fail> {
    let arena = Bump::new(rt.alloc());
    let nodes = [
        action(Kind::AndThen, 0),
        action(Kind::Give, 3),
        datum(YKind::Them),
        datum(YKind::Number(1)),
        datum(YKind::Sum),
        datum(YKind::Number(2)),
        datum(YKind::Number(3)),
        action(Kind::Store, 0),
        datum(YKind::Number(4)),
        datum(YKind::Negation),
        datum(YKind::Number(5)),
    ];
    let graph = graph_of(&rt, rt.alloc(), &arena, &nodes)?;
    assert_eq!(rt; most_yielders(rt.alloc(), &graph)?, 5);
    Ok(())
}
