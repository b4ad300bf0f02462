//! What the tests share: graphs, and the code of their actions.

use acg_base::Capacity;
use action_terms::pushed::Pushed;
use action_terms::{Graph, GraphBuilder, Kind, NewAction, NewYielder, YKind};
use bumpalo::Bump;
use frame_layout::layout;
use rv_asm::Code;
use rv_codegen::{first_unbuilt, generate};
use sort_infer::infer;
use std::alloc::Global;
use std::process::Abort;
use std::test::Fail;

/// The words of the stack.
pub const STACK: u64 = 1024;

/// An action of the kind, with so many items of data.
pub fn action_of(kind: Kind, items: u32) -> Pushed<'static> {
    Pushed::Action(NewAction {
        kind,
        items,
        token: b"",
    })
}

/// An action of a kind that has no list of data.
pub fn action(kind: Kind) -> Pushed<'static> {
    action_of(kind, 0)
}

/// A yielder of the kind.
pub fn yielder(kind: YKind) -> Pushed<'static> {
    Pushed::Yielder(NewYielder { kind, token: b"" })
}

/// The graph of the action whose nodes these are, in preorder.
pub fn graph_of<'a>(
    rt: &impl Abort,
    alloc: Global,
    arena: &'a Bump,
    nodes: &[Pushed<'_>],
) -> Result<Graph<'a>, Fail> {
    let mut builder = GraphBuilder::new(alloc, arena)?;
    for node in nodes {
        let _number = match *node {
            Pushed::Action(new) => builder.push_action(new)?,
            Pushed::Yielder(new) => builder.push_yielder(new)?,
        };
    }
    assert!(rt; builder.is_whole());
    Ok(builder.seal()?)
}

/// The code of the graph's action, by its least table, for a stack of `STACK` words and one unit.
pub fn code_of(
    rt: &impl Abort,
    alloc: Global,
    arena: &Bump,
    graph: &Graph<'_>,
) -> Result<Code, Fail> {
    let capacity = Capacity {
        stack: STACK,
        units: 1,
    };
    code_for(rt, alloc, arena, graph, capacity)
}

/// The code of the graph's action, by its least table, for a capacity.
pub fn code_for(
    rt: &impl Abort,
    alloc: Global,
    arena: &Bump,
    graph: &Graph<'_>,
    capacity: Capacity,
) -> Result<Code, Fail> {
    assert!(rt; first_unbuilt(alloc, graph)?.is_none());
    assert!(rt; capacity.stack >= 1);
    assert!(rt; capacity.stack <= 16777216);
    assert!(rt; capacity.units >= 1);
    assert!(rt; capacity.units <= 4194304);
    match infer(alloc, arena, graph) {
        Ok(table) => {
            let frames = layout(alloc, arena, graph, &table)?;
            Ok(generate(alloc, graph, &table, &frames, capacity)?)
        }
        Err(_error) => Err("no table".into()),
    }
}
