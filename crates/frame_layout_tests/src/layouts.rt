//! Layouts of small actions, by their least tables.
use action_terms::pushed::Pushed;
use action_terms::{Graph, GraphBuilder, Kind, NewAction, NewYielder, Sort, YKind};
use bumpalo::Bump;
use frame_layout::{Layout, NodePlaces, Procedure, layout};
use sort_infer::infer;
use std::alloc::Global;
use std::process::Abort;
use std::test::Fail;

fn action(kind: Kind, items: u32) -> Pushed<'static> {
    Pushed::Action(NewAction {
        kind,
        items,
        token: b"",
    })
}

fn named_action(kind: Kind, token: &[u8]) -> Pushed<'_> {
    Pushed::Action(NewAction {
        kind,
        items: 0,
        token,
    })
}

fn datum(kind: YKind) -> Pushed<'static> {
    Pushed::Yielder(NewYielder { kind, token: b"" })
}

// the graph of the action whose nodes these are, in preorder
fn graph_of<'a>(
    rt: &impl Abort,
    alloc: Global,
    arena: &'a Bump,
    nodes: &[Pushed<'_>],
) -> Result<Graph<'a>, Fail> {
    let mut builder = GraphBuilder::new(alloc, arena)?;
    for node in nodes {
        let _number = match *node {
            Pushed::Action(new) => builder.push_action(new)?,
            Pushed::Yielder(new) => builder.push_yielder(new)?,
        };
    }
    assert!(rt; builder.is_whole());
    Ok(builder.seal()?)
}

// the layout of the action, by its least table
fn layout_of<'a>(
    rt: &impl Abort,
    alloc: Global,
    arena: &'a Bump,
    nodes: &[Pushed<'_>],
) -> Result<Layout<'a>, Fail> {
    let graph = graph_of(rt, alloc, arena, nodes)?;
    match infer(alloc, arena, &graph) {
        Ok(table) => Ok(layout(alloc, arena, &graph, &table)?),
        Err(_error) => Err("no table".into()),
    }
}

// a node that has a record alone
fn without_data(node: u32, keep: u32) -> NodePlaces<'static> {
    NodePlaces {
        node,
        g: &[],
        h: &[],
        o: &[],
        p: &[],
        e: &[],
        keep,
    }
}

// `(give 1) then (send the given integer)`: what is given stands before the rest of all nodes
#[test]
fn data_of_one_node_for_the_next(rt: HostRuntime) -> Result<(), Fail> {
    let arena = Bump::new(rt.alloc());
    let nodes = [
        action(Kind::Then, 0),
        action(Kind::Give, 1),
        datum(YKind::Number(1)),
        action(Kind::Send, 0),
        datum(YKind::Given {
            sort: Sort::Integer,
            place: 0,
        }),
    ];
    let found = layout_of(&rt, rt.alloc(), &arena, &nodes)?;
    let give = NodePlaces {
        o: &[32],
        ..without_data(1, 41)
    };
    let send = NodePlaces {
        g: &[49],
        ..without_data(2, 50)
    };
    let places = [without_data(0, 33), give, send];
    let main = Procedure {
        root: 0,
        words: 58,
        places: &places,
    };
    let expected = [main];
    assert_eq!(rt; found.procedures, expected.as_slice());
    Ok(())
}

// `enact application of closure abstraction of (send the given integer) to 5`: the body finds its
// datum in the first word
#[test]
fn data_of_a_body_come_first(rt: HostRuntime) -> Result<(), Fail> {
    let arena = Bump::new(rt.alloc());
    let nodes = [
        action(Kind::Apply, 1),
        datum(YKind::Closure),
        action(Kind::Send, 0),
        datum(YKind::Given {
            sort: Sort::Integer,
            place: 0,
        }),
        datum(YKind::Number(5)),
    ];
    let found = layout_of(&rt, rt.alloc(), &arena, &nodes)?;
    let main = [without_data(0, 32)];
    let body = [NodePlaces {
        g: &[32],
        ..without_data(1, 33)
    }];
    let expected = [
        Procedure {
            root: 0,
            words: 40,
            places: &main,
        },
        Procedure {
            root: 1,
            words: 41,
            places: &body,
        },
    ];
    assert_eq!(rt; found.procedures, expected.as_slice());
    Ok(())
}

// `bind "x" to 1 hence enact closure abstraction of send the integer bound to "x"`
#[test]
fn bindings_have_places(rt: HostRuntime) -> Result<(), Fail> {
    let arena = Bump::new(rt.alloc());
    let nodes = [
        action(Kind::Hence, 0),
        named_action(Kind::Bind, b"x"),
        datum(YKind::Number(1)),
        action(Kind::Enact, 0),
        datum(YKind::Closure),
        action(Kind::Send, 0),
        Pushed::Yielder(NewYielder {
            kind: YKind::Bound {
                sort: Sort::Integer,
            },
            token: b"x",
        }),
    ];
    let found = layout_of(&rt, rt.alloc(), &arena, &nodes)?;
    let bind = NodePlaces {
        p: &[40],
        ..without_data(1, 41)
    };
    let enact = NodePlaces {
        h: &[49],
        ..without_data(2, 50)
    };
    let main = [without_data(0, 32), bind, enact];
    let body = [NodePlaces {
        h: &[32],
        ..without_data(3, 33)
    }];
    let expected = [
        Procedure {
            root: 0,
            words: 58,
            places: &main,
        },
        Procedure {
            root: 3,
            words: 41,
            places: &body,
        },
    ];
    assert_eq!(rt; found.procedures, expected.as_slice());
    Ok(())
}

// `unfolding ((give 1 and then unfold) or fail)`: the body is a procedure of its own
#[test]
fn a_body_that_is_repeated(rt: HostRuntime) -> Result<(), Fail> {
    let arena = Bump::new(rt.alloc());
    let nodes = [
        action(Kind::Unfolding, 0),
        action(Kind::Or, 0),
        action(Kind::AndThen, 0),
        action(Kind::Give, 1),
        datum(YKind::Number(1)),
        action(Kind::Unfold, 0),
        action(Kind::Fail, 0),
    ];
    let found = layout_of(&rt, rt.alloc(), &arena, &nodes)?;
    let give = NodePlaces {
        o: &[32],
        ..without_data(3, 49)
    };
    let main = [without_data(0, 32)];
    let body = [
        without_data(1, 33),
        without_data(2, 41),
        give,
        without_data(4, 57),
        without_data(5, 65),
    ];
    let expected = [
        Procedure {
            root: 0,
            words: 40,
            places: &main,
        },
        Procedure {
            root: 1,
            words: 73,
            places: &body,
        },
    ];
    assert_eq!(rt; found.procedures, expected.as_slice());
    Ok(())
}

// `give (1, 1, ..)` with 64 items, and then `escape` with what that gives
#[test]
fn data_of_64_places(rt: HostRuntime) -> Result<(), Fail> {
    let arena = Bump::new(rt.alloc());
    let mut nodes = Vec::new(rt.alloc());
    nodes.push(action(Kind::Then, 0))?;
    nodes.push(action(Kind::Give, 64))?;
    for _ in 0..64 {
        nodes.push(datum(YKind::Number(1)))?;
    }
    nodes.push(action(Kind::Escape, 0))?;
    let found = layout_of(&rt, rt.alloc(), &arena, &nodes)?;
    assert_eq!(rt; found.procedures.len(), 1);
    let main = found.procedures[0];
    assert_eq!(rt; main.words, 312);
    assert_eq!(rt; main.places.len(), 3);
    let whole = main.places[0];
    let give = main.places[1];
    let escape = main.places[2];
    assert_eq!(rt; give.o.first().copied(), Some(32));
    assert_eq!(rt; give.o.last().copied(), Some(95));
    assert_eq!(rt; whole.e.first().copied(), Some(96));
    assert_eq!(rt; whole.keep, 160);
    assert_eq!(rt; give.keep, 168);
    assert_eq!(rt; escape.g.first().copied(), Some(176));
    assert_eq!(rt; escape.e.first().copied(), Some(240));
    assert_eq!(rt; escape.keep, 304);
    Ok(())
}
