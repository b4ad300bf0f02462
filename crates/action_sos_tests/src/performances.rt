//! Performances of whole actions, a step at a time.

use action_sos::{Moved, Outcome, Performer};
use action_terms::pushed::Pushed;
use action_terms::{Graph, GraphBuilder, Kind, NewAction, NewYielder, YKind};
use bumpalo::Bump;
use std::alloc::Global;
use std::process::Abort;
use std::test::Fail;

fn action(kind: Kind) -> Pushed<'static> {
    Pushed::Action(NewAction {
        kind,
        items: 0,
        token: b"",
    })
}

fn number(n: i64) -> Pushed<'static> {
    Pushed::Yielder(NewYielder {
        kind: YKind::Number(n),
        token: b"",
    })
}

// The graph of the action whose nodes these are, in preorder.
fn graph_of<'a>(
    rt: &impl Abort,
    alloc: Global,
    arena: &'a Bump,
    nodes: &[Pushed<'_>],
) -> Result<Graph<'a>, Fail> {
    let mut builder = GraphBuilder::new(alloc, arena)?;
    for node in nodes {
        let _number = match *node {
            Pushed::Action(new) => builder.push_action(new)?,
            Pushed::Yielder(new) => builder.push_yielder(new)?,
        };
    }
    assert!(rt; builder.is_whole());
    Ok(builder.seal()?)
}

// Takes the step of the index, of so many open ones.
fn takes(performer: &mut Performer<'_>, open: u64, choice: u64) -> Result<Moved, Fail> {
    if performer.open_steps() != open || choice >= open {
        return Err("another number of open steps".into());
    }
    Ok(performer.step(choice).ok().ok_or("memory")?)
}

#[test]
fn parts_of_and_are_interleaved(rt: HostRuntime) -> Result<(), Fail> {
    let arena = Bump::new(rt.alloc());
    let nodes = [
        action(Kind::And),
        action(Kind::Send),
        number(1),
        action(Kind::Send),
        number(2),
    ];
    let graph = graph_of(&rt, rt.alloc(), &arena, &nodes)?;
    let mut performer = Performer::start(rt.alloc(), &arena, &graph, &[])
        .ok()
        .ok_or("memory")?;
    assert!(rt; takes(&mut performer, 1, 0)? == Moved::Went);
    assert!(rt; takes(&mut performer, 2, 1)? == Moved::Went);
    assert!(rt; performer.output() == [2].as_slice());
    assert!(rt; takes(&mut performer, 1, 0)? == Moved::Went);
    assert!(rt; takes(&mut performer, 1, 0)? == Moved::Ended(Outcome::Completed));
    assert!(rt; performer.output() == [2, 1].as_slice());
    assert!(rt; performer.open_steps() == 0);
    Ok(())
}

#[test]
fn a_message_closes_the_other_arm(rt: HostRuntime) -> Result<(), Fail> {
    let arena = Bump::new(rt.alloc());
    let nodes = [
        action(Kind::Or),
        action(Kind::AndThen),
        action(Kind::Send),
        number(1),
        action(Kind::Fail),
        action(Kind::Send),
        number(2),
    ];
    let graph = graph_of(&rt, rt.alloc(), &arena, &nodes)?;
    let mut performer = Performer::start(rt.alloc(), &arena, &graph, &[])
        .ok()
        .ok_or("memory")?;
    assert!(rt; takes(&mut performer, 2, 0)? == Moved::Went);
    for _step in 0..5 {
        assert!(rt; takes(&mut performer, 1, 0)? == Moved::Went);
    }
    assert!(rt; takes(&mut performer, 1, 0)? == Moved::Ended(Outcome::Failed));
    assert!(rt; performer.output() == [1].as_slice());
    Ok(())
}
