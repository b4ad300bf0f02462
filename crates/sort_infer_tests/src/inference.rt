//! Least tables of small actions, and ill-sorted ones.
use action_terms::pushed::Pushed;
use action_terms::{Graph, GraphBuilder, Kind, NewAction, NewYielder, Sort, YKind};
use bumpalo::Bump;
use sort_infer::{SortError, infer};
use sort_rules::rows::MarkedRow;
use sort_rules::sets::atoms;
use sort_rules::values::Value;
use sort_rules::{MarkedBinds, MarkedTuple, factor, slots};
use std::alloc::Global;
use std::process::Abort;
use std::test::Fail;

fn action(kind: Kind, items: u32) -> Pushed<'static> {
    Pushed::Action(NewAction {
        kind,
        items,
        token: b"",
    })
}

fn datum(kind: YKind) -> Pushed<'static> {
    Pushed::Yielder(NewYielder { kind, token: b"" })
}

// the graph of the action whose nodes these are, in preorder
fn graph_of<'a>(
    rt: &impl Abort,
    alloc: Global,
    arena: &'a Bump,
    nodes: &[Pushed<'_>],
) -> Result<Graph<'a>, Fail> {
    let mut builder = GraphBuilder::new(alloc, arena)?;
    for node in nodes {
        let _number = match *node {
            Pushed::Action(new) => builder.push_action(new)?,
            Pushed::Yielder(new) => builder.push_yielder(new)?,
        };
    }
    assert!(rt; builder.is_whole());
    Ok(builder.seal()?)
}

#[test]
fn an_integer_is_no_closure(rt: HostRuntime) -> Result<(), Fail> {
    let arena = Bump::new(rt.alloc());
    let nodes = [action(Kind::Enact, 0), datum(YKind::Number(1))];
    let graph = graph_of(&rt, rt.alloc(), &arena, &nodes)?;
    match infer(rt.alloc(), &arena, &graph) {
        Err(error) => assert_eq!(rt; error, SortError::IllSorted { node: 0 }),
        Ok(_table) => return Err("a table".into()),
    }
    Ok(())
}

// `unfolding ((give 1 and then unfold) or complete)`: with each repetition one integer more is given
#[test]
fn lengths_that_grow_clash(rt: HostRuntime) -> Result<(), Fail> {
    let arena = Bump::new(rt.alloc());
    let nodes = [
        action(Kind::Unfolding, 0),
        action(Kind::Or, 0),
        action(Kind::AndThen, 0),
        action(Kind::Give, 1),
        datum(YKind::Number(1)),
        action(Kind::Unfold, 0),
        action(Kind::Complete, 0),
    ];
    let graph = graph_of(&rt, rt.alloc(), &arena, &nodes)?;
    match infer(rt.alloc(), &arena, &graph) {
        Err(error) => assert_eq!(rt; error, SortError::IllSorted { node: 0 }),
        Ok(_table) => return Err("a table".into()),
    }
    Ok(())
}

// `(give true) then (send the given integer)`: the last node doesn't fit, and those before it do
#[test]
fn a_truth_value_is_not_sent(rt: HostRuntime) -> Result<(), Fail> {
    let arena = Bump::new(rt.alloc());
    let nodes = [
        action(Kind::Then, 0),
        action(Kind::Give, 1),
        datum(YKind::Truth(true)),
        action(Kind::Send, 0),
        datum(YKind::Given {
            sort: Sort::Integer,
            place: 0,
        }),
    ];
    let graph = graph_of(&rt, rt.alloc(), &arena, &nodes)?;
    match infer(rt.alloc(), &arena, &graph) {
        Err(error) => assert_eq!(rt; error, SortError::IllSorted { node: 2 }),
        Ok(_table) => return Err("a table".into()),
    }
    Ok(())
}

// `(give 1) then (send the given integer)`
#[test]
fn what_is_given_is_sent(rt: HostRuntime) -> Result<(), Fail> {
    let arena = Bump::new(rt.alloc());
    let nodes = [
        action(Kind::Then, 0),
        action(Kind::Give, 1),
        datum(YKind::Number(1)),
        action(Kind::Send, 0),
        datum(YKind::Given {
            sort: Sort::Integer,
            place: 0,
        }),
    ];
    let graph = graph_of(&rt, rt.alloc(), &arena, &nodes)?;
    let table = match infer(rt.alloc(), &arena, &graph) {
        Ok(table) => table,
        Err(_error) => return Err("no table".into()),
    };
    let rows = table.marked_rows(rt.alloc())?;
    let integer = [atoms(true, false)];
    let give = MarkedRow {
        g: MarkedTuple::List(&[]),
        h: MarkedBinds::Map(&[]),
        o: MarkedTuple::List(&integer),
        p: MarkedBinds::Map(&[]),
        e: MarkedTuple::Unreached,
        contents: Value::Unreached,
        fits: true,
    };
    assert_eq!(rt; rows.get(1).copied(), Some(give));
    assert_eq!(rt; table.width(), 1);
    Ok(())
}

// The slots of the procedures of the action whose nodes these are, and its factor, by its least
// table.
fn measures(rt: &impl Abort, alloc: Global, nodes: &[Pushed<'_>]) -> Result<(Vec<u64>, u64), Fail> {
    let arena = Bump::new(alloc);
    let graph = graph_of(rt, alloc, &arena, nodes)?;
    match infer(alloc, &arena, &graph) {
        Ok(table) => Ok((
            slots(alloc, &graph, &table)?,
            factor(alloc, &graph, &table)?,
        )),
        Err(_error) => Err("no table".into()),
    }
}

// `(give 1) then (send the given integer)`: two places of one integer each
#[test]
fn places_take_words(rt: HostRuntime) -> Result<(), Fail> {
    let nodes = [
        action(Kind::Then, 0),
        action(Kind::Give, 1),
        datum(YKind::Number(1)),
        action(Kind::Send, 0),
        datum(YKind::Given {
            sort: Sort::Integer,
            place: 0,
        }),
    ];
    let (slots, factor) = measures(&rt, rt.alloc(), &nodes)?;
    assert_eq!(rt; slots.as_slice(), [58, 0, 0].as_slice());
    assert_eq!(rt; factor, 496);
    Ok(())
}

// `enact closure abstraction of (send 1 and send 2)`
#[test]
fn a_body_takes_words_of_its_own(rt: HostRuntime) -> Result<(), Fail> {
    let nodes = [
        action(Kind::Enact, 0),
        datum(YKind::Closure),
        action(Kind::And, 0),
        action(Kind::Send, 0),
        datum(YKind::Number(1)),
        action(Kind::Send, 0),
        datum(YKind::Number(2)),
    ];
    let (slots, factor) = measures(&rt, rt.alloc(), &nodes)?;
    assert_eq!(rt; slots.as_slice(), [40, 56, 0, 0].as_slice());
    assert_eq!(rt; factor, 448);
    Ok(())
}
