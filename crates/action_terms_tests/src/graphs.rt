//! Texts as pushes, and the graphs that they are.

use acg_base::LIMIT_NODES;
use action_terms::pushed::Pushed;
use action_terms::{
    Graph, GraphBuilder, GraphError, Kind, NewAction, NewYielder, Node, Sort, YKind, YNode,
};
use bumpalo::Bump;
use std::process::Abort;
use std::test::Fail;

fn act<'a>(kind: Kind, items: u32, token: &'a [u8]) -> Pushed<'a> {
    Pushed::Action(NewAction { kind, items, token })
}

fn yields<'a>(kind: YKind, token: &'a [u8]) -> Pushed<'a> {
    Pushed::Yielder(NewYielder { kind, token })
}

fn push(builder: &mut GraphBuilder<'_>, node: Pushed<'_>) -> Result<u32, GraphError> {
    match node {
        Pushed::Action(new) => builder.push_action(new),
        Pushed::Yielder(new) => builder.push_yielder(new),
    }
}

// a builder with these nodes
fn built<'a>(
    rt: &HostRuntime,
    arena: &'a Bump,
    nodes: &[Pushed<'_>],
) -> Result<GraphBuilder<'a>, GraphError> {
    let Ok(mut builder) = GraphBuilder::new(rt.alloc(), arena) else {
        return Err(GraphError::Memory);
    };
    for node in nodes {
        let _number = push(&mut builder, *node)?;
    }
    Ok(builder)
}

fn sealed<'a>(rt: &impl Abort, builder: GraphBuilder<'a>) -> Result<Graph<'a>, GraphError> {
    assert!(rt; builder.is_whole());
    builder.seal()
}

fn node<'a>(kind: Kind, children: &'a [u32], operands: &'a [&'a [u32]], body: u32) -> Node<'a> {
    Node {
        kind,
        token: b"",
        children,
        operands,
        body,
    }
}

fn yielder<'a>(kind: YKind, token: &'a [u8], children: &'a [u32], body: u32) -> YNode<'a> {
    YNode {
        kind,
        token,
        children,
        body,
    }
}

// send 42
#[test]
fn numbers_each_sort_apart(rt: HostRuntime) -> Result<(), Fail> {
    let arena = Bump::new(rt.alloc());
    let mut builder = built(&rt, &arena, &[])?;
    assert_eq!(rt; push(&mut builder, act(Kind::Send, 0, b"")), Ok(0));
    assert!(rt; !builder.is_whole());
    assert_eq!(rt; push(&mut builder, yields(YKind::Number(42), b"")), Ok(0));
    let graph = sealed(&rt, builder)?;
    assert_eq!(rt;
        graph.nodes(),
        [node(Kind::Send, &[], &[&[0]], 0)].as_slice()
    );
    assert_eq!(rt;
        graph.yielders(),
        [yielder(YKind::Number(42), b"", &[], 0)].as_slice()
    );
    Ok(())
}

// (give 1 and give 2) then send sum(the given integer # 1, the given integer # 2)
#[test]
fn lists_children_and_operands(rt: HostRuntime) -> Result<(), Fail> {
    let arena = Bump::new(rt.alloc());
    let first = YKind::Given {
        sort: Sort::Integer,
        place: 1,
    };
    let second = YKind::Given {
        sort: Sort::Integer,
        place: 2,
    };
    let nodes = [
        act(Kind::Then, 0, b""),
        act(Kind::And, 0, b""),
        act(Kind::Give, 1, b""),
        yields(YKind::Number(1), b""),
        act(Kind::Give, 1, b""),
        yields(YKind::Number(2), b""),
        act(Kind::Send, 0, b""),
        yields(YKind::Sum, b""),
        yields(first, b""),
        yields(second, b""),
    ];
    let graph = sealed(&rt, built(&rt, &arena, &nodes)?)?;
    assert_eq!(rt;
        graph.nodes(),
        [
            node(Kind::Then, &[1, 4], &[], 0),
            node(Kind::And, &[2, 3], &[], 0),
            node(Kind::Give, &[], &[&[0]], 0),
            node(Kind::Give, &[], &[&[1]], 0),
            node(Kind::Send, &[], &[&[2]], 0),
        ]
        .as_slice()
    );
    assert_eq!(rt;
        graph.yielders(),
        [
            yielder(YKind::Number(1), b"", &[], 0),
            yielder(YKind::Number(2), b"", &[], 0),
            yielder(YKind::Sum, b"", &[3, 4], 0),
            yielder(first, b"", &[], 0),
            yielder(second, b"", &[], 0),
        ]
        .as_slice()
    );
    Ok(())
}

// furthermore recursively bind "f" to closure abstraction of enact the abstraction bound to "f"
// hence unfolding (complete or unfold)
#[test]
fn names_bodies(rt: HostRuntime) -> Result<(), Fail> {
    let arena = Bump::new(rt.alloc());
    let called = YKind::Bound {
        sort: Sort::Abstraction,
    };
    let nodes = [
        act(Kind::Hence, 0, b""),
        act(Kind::Furthermore, 0, b""),
        act(Kind::BindRec, 0, b"f"),
        yields(YKind::Closure, b""),
        act(Kind::Enact, 0, b""),
        yields(called, b"f"),
        act(Kind::Unfolding, 0, b""),
        act(Kind::Or, 0, b""),
        act(Kind::Complete, 0, b""),
        act(Kind::Unfold, 0, b""),
    ];
    let graph = sealed(&rt, built(&rt, &arena, &nodes)?)?;
    let mut recursive = node(Kind::BindRec, &[], &[&[0]], 0);
    recursive.token = b"f";
    assert_eq!(rt;
        graph.nodes(),
        [
            node(Kind::Hence, &[1, 4], &[], 0),
            node(Kind::Furthermore, &[2], &[], 0),
            recursive,
            node(Kind::Enact, &[], &[&[1]], 0),
            node(Kind::Unfolding, &[], &[], 5),
            node(Kind::Or, &[6, 7], &[], 0),
            node(Kind::Complete, &[], &[], 0),
            node(Kind::Unfold, &[], &[], 5),
        ]
        .as_slice()
    );
    let closure = yielder(YKind::Closure, b"", &[], 3);
    assert_eq!(rt;
        graph.yielders(),
        [closure, yielder(called, b"f", &[], 0)].as_slice()
    );
    Ok(())
}

// unfold; unfold or unfold; unfolding give closure abstraction of unfold
#[test]
fn finds_the_least_stray(rt: HostRuntime) -> Result<(), Fail> {
    let unfold = act(Kind::Unfold, 0, b"");
    let either = act(Kind::Or, 0, b"");
    let unfolding = act(Kind::Unfolding, 0, b"");
    let give = act(Kind::Give, 1, b"");
    let closure = yields(YKind::Closure, b"");
    for (nodes, want) in [
        ([unfold].as_slice(), 0),
        ([either, unfold, unfold].as_slice(), 1),
        ([unfolding, give, closure, unfold].as_slice(), 2),
    ] {
        let arena = Bump::new(rt.alloc());
        let graph = sealed(&rt, built(&rt, &arena, nodes)?);
        assert_eq!(rt; graph.err(), Some(GraphError::StrayUnfold { node: want }));
    }
    Ok(())
}

// whether an action node with one yielder under it is an action
#[test]
fn keeps_to_texts(rt: HostRuntime) -> Result<(), Fail> {
    let one = YKind::Number(1);
    let far = YKind::Given {
        sort: Sort::Cell,
        place: 64,
    };
    let too_far = YKind::Given {
        sort: Sort::Cell,
        place: 65,
    };
    let cell = YKind::Bound { sort: Sort::Cell };
    for (above, below, want) in [
        (act(Kind::Send, 0, b""), yields(one, b""), true),
        (act(Kind::Send, 0, b""), yields(YKind::Them, b""), false),
        (act(Kind::Send, 1, b""), yields(one, b""), false),
        (act(Kind::Send, 0, b"x"), yields(one, b""), false),
        (act(Kind::Send, 0, b""), yields(one, b"x"), false),
        (act(Kind::Give, 1, b""), yields(YKind::Them, b""), true),
        (act(Kind::Give, 2, b""), yields(YKind::Them, b""), false),
        (act(Kind::Give, 4294967295, b""), yields(one, b""), false),
        (act(Kind::Check, 0, b""), yields(far, b""), true),
        (act(Kind::Check, 0, b""), yields(too_far, b""), false),
        (act(Kind::Bind, 0, b"x y"), yields(one, b""), false),
        (act(Kind::Bind, 0, b""), yields(one, b""), false),
        (act(Kind::Bind, 0, b"~"), yields(one, b""), true),
        (act(Kind::Bind, 0, b"\""), yields(one, b""), false),
        (act(Kind::BindRec, 0, b"x"), yields(one, b""), false),
        (act(Kind::Enact, 0, b""), yields(cell, b""), false),
        (act(Kind::Enact, 0, b""), yields(cell, b"!"), true),
        (act(Kind::Complete, 0, b""), yields(one, b""), false),
    ] {
        let arena = Bump::new(rt.alloc());
        let builder = built(&rt, &arena, &[above, below])?;
        assert_eq!(rt; builder.is_whole(), want, "{above:?} {below:?}");
    }
    Ok(())
}

// 65535 times `furthermore`, and `complete`
#[test]
fn holds_the_most_nodes(rt: HostRuntime) -> Result<(), Fail> {
    let arena = Bump::new(rt.alloc());
    let mut builder = built(&rt, &arena, &[])?;
    for _ in 1..LIMIT_NODES {
        let _number = push(&mut builder, act(Kind::Furthermore, 0, b""))?;
    }
    assert_eq!(rt; push(&mut builder, act(Kind::Complete, 0, b"")), Ok(65535));
    assert_eq!(rt;
        push(&mut builder, yields(YKind::Them, b"")),
        Err(GraphError::Nodes)
    );
    let graph = sealed(&rt, builder)?;
    let last = graph.nodes().last().map(|node| node.kind);
    assert_eq!(rt; last, Some(Kind::Complete));
    Ok(())
}
