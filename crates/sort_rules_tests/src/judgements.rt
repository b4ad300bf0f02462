//! Whether demands hold, in tables of `(give 1) then (send the given integer)`.
ghost use Rattle.std.specs.Prelude.{◌≡◌, [], map};
ghost use Rattle.sort_rules.specs.Parts.{Listed, Unreached};
ghost use Rattle.sort_rules.specs.Views.{binds_of, place_of, tuple_of};

use action_terms::{Graph, GraphBuilder, Kind, NewAction, NewYielder, Sort, YKind};
use bumpalo::Bump;
use sort_rules::sets::atoms;
use sort_rules::{BindSort, Row, Set, Table, TupleSort, admissible, node_holds};
use std::alloc::Global;
use std::process::Abort;
use std::test::Fail;

fn action(kind: Kind) -> NewAction<'static> {
    NewAction {
        kind,
        items: 0,
        token: b"",
    }
}

fn datum(kind: YKind) -> NewYielder<'static> {
    NewYielder { kind, token: b"" }
}

// the graph of `(give 1) then (send the given integer)`
fn give_then_send<'a>(rt: &impl Abort, alloc: Global, arena: &'a Bump) -> Result<Graph<'a>, Fail> {
    let mut builder = GraphBuilder::new(alloc, arena)?;
    let give = NewAction {
        kind: Kind::Give,
        items: 1,
        token: b"",
    };
    let given = YKind::Given {
        sort: Sort::Integer,
        place: 0,
    };
    let _then = builder.push_action(action(Kind::Then))?;
    let _give = builder.push_action(give)?;
    let _one = builder.push_yielder(datum(YKind::Number(1)))?;
    let _send = builder.push_action(action(Kind::Send))?;
    let _given = builder.push_yielder(datum(given))?;
    assert!(rt; builder.is_whole());
    Ok(builder.seal()?)
}

// whether the table is admissible, and whether the nodes of the graph hold in it
fn judged(alloc: Global, graph: &Graph<'_>, table: &Table<'_>) -> Result<(bool, [bool; 3]), Fail> {
    if graph.nodes().len() != 3 {
        return Err("another graph".into());
    }
    let holds = [
        node_holds(alloc, graph, table, 0)?,
        node_holds(alloc, graph, table, 1)?,
        node_holds(alloc, graph, table, 2)?,
    ];
    Ok((admissible(alloc, graph, table)?, holds))
}

// the row of a node that is given and completes with tuples of these sets, and binds nothing
fn row<'a>(given: &'a [Set<'a>], gives: &'a [Set<'a>]) -> Row<'a>
    ensures g { tuple_of result.g ≡ Listed (map place_of given.now) }
    ensures h { binds_of result.h ≡ Listed [] }
    ensures o { tuple_of result.o ≡ Listed (map place_of gives.now) }
    ensures p { binds_of result.p ≡ Listed [] }
    ensures e { tuple_of result.e ≡ Unreached }
{
    Row {
        g: TupleSort::List(given),
        h: BindSort::Map(&[]),
        o: TupleSort::List(gives),
        p: BindSort::Map(&[]),
        e: TupleSort::Unreached,
    }
}

// the table in which an integer, or else a truth-value, is given and sent
fn table_of<'a>(arena: &'a Bump, integer: bool) -> Result<Table<'a>, Fail> {
    let set: &'a [Set<'a>] = arena.try_alloc_slice_copy(&[atoms(integer, !integer)])?;
    let then: Row<'a> = row(&[], &[]);
    let give: Row<'a> = row(&[], set);
    let send: Row<'a> = row(set, &[]);
    let none: Set<'a> = atoms(false, false);
    let rows: &'a [Row<'a>] = arena.try_alloc_slice_copy(&[then, give, send])?;
    let contents: &'a [Set<'a>] = arena.try_alloc_slice_copy(&[none, none, none])?;
    Ok(Table::make(rows, contents))
}

#[test]
fn an_integer_is_given_and_sent(rt: HostRuntime) -> Result<(), Fail> {
    let arena = Bump::new(rt.alloc());
    let graph = give_then_send(&rt, rt.alloc(), &arena)?;
    let table = table_of(&arena, true)?;
    let (admissible, holds) = judged(rt.alloc(), &graph, &table)?;
    assert!(rt; admissible);
    assert_eq!(rt; holds, [true, true, true]);
    Ok(())
}

// `1` isn't a truth-value, nor is what `send` wants; only `then` hands on what it is given.
#[test]
fn a_truth_value_is_neither_given_nor_sent(rt: HostRuntime) -> Result<(), Fail> {
    let arena = Bump::new(rt.alloc());
    let graph = give_then_send(&rt, rt.alloc(), &arena)?;
    let table = table_of(&arena, false)?;
    let (admissible, holds) = judged(rt.alloc(), &graph, &table)?;
    assert!(rt; !admissible);
    assert_eq!(rt; holds, [true, false, false]);
    Ok(())
}
