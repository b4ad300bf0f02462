//! Worked values of yielders.

use action_terms::{Graph, GraphBuilder, Kind, NewAction, NewYielder, Sort, YKind};
use action_values::yielding::{Context, yielded, yielded_items};
use action_values::{Binding, Datum};
use bumpalo::Bump;
use std::alloc::Global;
use std::process::Abort;
use std::test::Fail;

fn number_of(datum: Option<Datum<'_>>) -> Option<i64> {
    match datum {
        Some(Datum::Number(n)) => Some(n),
        _ => None,
    }
}

fn yielder(kind: YKind) -> NewYielder<'static> {
    NewYielder { kind, token: b"" }
}

fn given(sort: Sort, place: u32) -> NewYielder<'static> {
    yielder(YKind::Given { sort, place })
}

// sum(the given integer # 2, product(the integer bound to x, the integer stored in the given cell # 1)), and `them`
fn yielders() -> [NewYielder<'static>; 7] {
    let sort = Sort::Integer;
    [
        yielder(YKind::Sum),
        given(sort, 2),
        yielder(YKind::Product),
        NewYielder {
            kind: YKind::Bound { sort },
            token: b"x",
        },
        yielder(YKind::Stored { sort }),
        given(Sort::Cell, 1),
        yielder(YKind::Them),
    ]
}

// The graph of `give` of these yielders.
fn graph<'a>(rt: &impl Abort, alloc: Global, arena: &'a Bump) -> Result<Graph<'a>, Fail> {
    let mut builder = GraphBuilder::new(alloc, arena)?;
    let _node = builder.push_action(NewAction {
        kind: Kind::Give,
        items: 2,
        token: b"",
    })?;
    for new in yielders() {
        let _number = builder.push_yielder(new)?;
    }
    assert!(rt; builder.is_whole());
    Ok(builder.seal()?)
}

#[test]
fn operations_are_applied_to_their_arguments(rt: HostRuntime) -> Result<(), Fail> {
    let arena = Bump::new(rt.alloc());
    let graph = graph(&rt, rt.alloc(), &arena)?;
    let given = [Datum::Cell(1), Datum::Number(3)];
    let bound = [Binding {
        token: b"x",
        datum: Datum::Number(-4),
    }];
    let cells = [None, Some(Datum::Number(5))];
    let context = Context {
        graph: &graph,
        given: &given,
        bound: &bound,
        cells: &cells,
    };
    let found = yielded(rt.alloc(), &context, 0)?;
    assert_eq!(rt; number_of(found), Some(-17));
    let unset = Context {
        cells: &[None, None],
        ..context
    };
    let found = yielded(rt.alloc(), &unset, 0)?;
    assert_eq!(rt; number_of(found), None);
    Ok(())
}

#[test]
fn them_is_all_that_is_given(rt: HostRuntime) -> Result<(), Fail> {
    let arena = Bump::new(rt.alloc());
    let graph = graph(&rt, rt.alloc(), &arena)?;
    let given = [Datum::Cell(1), Datum::Number(3)];
    let context = Context {
        graph: &graph,
        given: &given,
        bound: &[],
        cells: &[],
    };
    let found = yielded_items(rt.alloc(), &arena, &context, &[6, 1])?;
    let items = found.ok_or("nothing")?;
    assert_eq!(rt; items.len(), 3);
    assert_eq!(rt; number_of(Some(items[1])), Some(3));
    assert_eq!(rt; number_of(Some(items[2])), Some(3));
    let found = yielded_items(rt.alloc(), &arena, &context, &[6, 5, 3])?;
    assert!(rt; found.is_none());
    Ok(())
}
