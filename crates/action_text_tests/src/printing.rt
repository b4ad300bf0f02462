//! Graphs, their canonical texts, and the graphs of these.
use action_terms::kinds::{Kind, YKind};
use action_terms::pushed::{NewAction, NewYielder};
use action_terms::{Graph, GraphBuilder};
use action_text::action_reader::read_action;
use action_text::printing::print_action;
use bumpalo::Bump;
use std::alloc::Global;
use std::process::Abort;
use std::test::Fail;

// The texts of actions, as a user may write them.
static TEXTS: [&[u8]; 25] = [
    b"send 42",
    b"(give 1 and give 2) then send sum(the given integer # 1, the given integer # 2)",
    b"send sum(9223372036854775807, 1)",
    b"send integer-quotient(7, 0)",
    b"send integer-quotient(-9223372036854775808, -1)",
    b"send integer-remainder(-9223372036854775808, -1)",
    b"(send 1 and then fail) or send 2",
    b"(((send 1 or complete) trap complete) and then fail) or send 2",
    b"(check false and then send 1) or send 2",
    b"((fail or escape) trap fail) or send 2",
    b"(escape with 7) trap (send the given integer)",
    b"escape with 7",
    b"(give true) then (send the given integer)",
    b"(give 1) or (give (1, 2))",
    b"bind \"x\" to 1 and bind \"x\" to 2",
    b"(allocate a cell) then (send the integer stored in the given cell)",
    b"unfolding unfold",
    b"send 1 and send 2",
    b"(send 1 and send 2) and send 3 and (send 4 and send 5)",
    b"furthermore (recursively bind \"f\" to closure abstraction of (\n  ((check is(the given integer, 0)) and then (give 1)) or\n  ((check is less than(0, the given integer)) and then\n    (((give the given integer) and\n      (enact application of the abstraction bound to \"f\"\n        to difference(the given integer, 1)))\n     then (give product(the given integer # 1, the given integer # 2))))))\nhence (receive an integer then\n  ((enact application of the abstraction bound to \"f\" to the given integer)\n   then send the given integer))",
    b"furthermore bind \"x\" to 1 hence (furthermore bind \"f\" to closure abstraction of send the integer bound to \"x\" hence (furthermore bind \"x\" to 2 hence enact the abstraction bound to \"f\"))",
    b"give (1, 1) then give (them, them) then give (them, them) then give (them, them) then give (them, them) then give (them, them) then complete",
    b"give (1, 1) then give (them, them) then give (them, them) then give (them, them) then give (them, them) then give (them, them) then give (them, them) then complete",
    b"give () and then (store not(true) in the cell bound to \"!#~\" moreover (rebind before regive))",
    b"(escape with them trap commit) or (enact the given abstraction hence check both(either(false, true), not(is(negation(1), 2))))",
];

// The graph of the canonical text of a graph.
fn read_again<'a>(
    rt: &impl Abort,
    alloc: Global,
    arena: &'a Bump,
    graph: &Graph<'_>,
) -> Result<Graph<'a>, Fail> {
    let text = print_action(alloc, graph)?;
    assert!(rt; text.len() < 4096);
    Ok(read_action(alloc, arena, text.as_slice())?)
}

#[test]
fn reads_again_what_it_prints(rt: HostRuntime) -> Result<(), Fail> {
    let arena = Bump::new(rt.alloc());
    for text in &TEXTS {
        let graph = read_action(rt.alloc(), &arena, text)?;
        let again = read_again(&rt, rt.alloc(), &arena, &graph)?;
        assert_eq!(rt; graph.nodes(), again.nodes());
        assert_eq!(rt; graph.yielders(), again.yielders());
    }
    Ok(())
}

#[test]
fn prints_canonical_texts(rt: HostRuntime) -> Result<(), Fail> {
    let table: [(&[u8], &[u8]); 8] = [
        (b"( send 1 )and then(complete)", b"send 1 and then complete"),
        (
            b"(fail or (fail)) or (fail or complete)",
            b"fail or fail or (fail or complete)",
        ),
        (
            b"((fail and fail) and then fail)",
            b"(fail and fail) and then fail",
        ),
        (
            b"unfolding(furthermore(unfold then complete))",
            b"unfolding furthermore (unfold then complete)",
        ),
        (
            b"give( the given cell#01 ,them,-0)",
            b"give (the given cell # 1, them, 0)",
        ),
        (
            b"check is less than( 1,sum ( 2 , 3))and then give()",
            b"check is less than(1, sum(2, 3)) and then give ()",
        ),
        (
            b"bind \"(\" to closure abstraction of(send 1 then fail)",
            b"bind \"(\" to closure abstraction of (send 1 then fail)",
        ),
        (
            b"enact application of the abstraction bound to \"f\" to(1,2)",
            b"enact application of the abstraction bound to \"f\" to (1, 2)",
        ),
    ];
    let arena = Bump::new(rt.alloc());
    for (text, canonical) in table {
        let graph = read_action(rt.alloc(), &arena, text)?;
        let printed = print_action(rt.alloc(), &graph)?;
        assert_eq!(rt; printed.as_slice(), canonical);
    }
    Ok(())
}

// An action node without data and token.
fn plain(kind: Kind) -> NewAction<'static> {
    NewAction {
        kind,
        items: 0,
        token: b"",
    }
}

#[test]
fn prints_a_branch(rt: HostRuntime) -> Result<(), Fail> {
    let arena = Bump::new(rt.alloc());
    let mut builder = GraphBuilder::new(rt.alloc(), &arena)?;
    builder.push_action(plain(Kind::Branch))?;
    builder.push_yielder(NewYielder {
        kind: YKind::Truth(true),
        token: b"",
    })?;
    builder.push_action(plain(Kind::Or))?;
    builder.push_action(plain(Kind::Fail))?;
    builder.push_action(plain(Kind::Complete))?;
    builder.push_action(plain(Kind::Commit))?;
    assert!(rt; builder.is_whole());
    let printed = print_action(rt.alloc(), &builder.seal()?)?;
    let text = b"branch(true, (fail or complete), commit)";
    assert_eq!(rt; printed.as_slice(), text.as_slice());
    Ok(())
}
