//! Calls on the machine: what actions with `unfolding` send, and where they find no room.

use crate::tools::{action, action_of, code_for, graph_of, yielder};
use acg_base::{Capacity, ListSink};
use action_terms::pushed::Pushed;
use action_terms::{Kind, Sort, YKind};
use bumpalo::Bump;
use rv_machine::{Image, Input, Machine, Run, Segment};
use std::alloc::Global;
use std::process::Abort;
use std::test::Fail;

// The integer that is given, or one of those that are.
fn given(place: u32) -> Pushed<'static> {
    yielder(YKind::Given {
        sort: Sort::Integer,
        place,
    })
}

// The integer that is given alone.
fn the_given() -> Pushed<'static> {
    given(0)
}

// The image of code, in a region for a stack of so many words and one unit.
fn image_of(rt: &impl Abort, alloc: Global, words: &[u32], stack: u64) -> Result<Image, Fail> {
    let mut bytes = Vec::new(alloc);
    for word in words {
        bytes.extend_from_slice(&word.to_le_bytes())?;
    }
    let size = bytes.len() as u64;
    assert!(rt; size <= 4096);
    assert!(rt; stack <= 65536);
    let mut segments = Vec::new(alloc);
    segments.push(Segment {
        address: 65536,
        flags: 1,
        bytes,
        size,
    })?;
    segments.push(Segment {
        address: 69632,
        flags: 6,
        bytes: Vec::new(alloc),
        size: 4096 + 8 * stack + 16,
    })?;
    Ok(Image {
        entry: 65536,
        segments,
    })
}

// Whether the action of these nodes, with a stack of so many words, is where it is said to be after at most so many
// instructions, with these messages sent.
fn runs(
    rt: &impl Abort,
    alloc: Global,
    nodes: &[Pushed<'_>],
    stack: u64,
    budget: u64,
    wanted: Run,
    messages: &[i64],
) -> Result<(), Fail> {
    let arena = Bump::new(alloc);
    let graph = graph_of(rt, alloc, &arena, nodes)?;
    let capacity = Capacity { stack, units: 1 };
    let words = code_for(rt, alloc, &arena, &graph, capacity)?.words;
    let image = image_of(rt, alloc, words.as_slice(), stack)?;
    let mut machine = Machine::load(alloc, image).ok().ok_or("memory")?;
    let mut input = Input { bytes: b"", at: 0 };
    let mut sink = ListSink::new(alloc, 256, Vec::new(alloc))
        .ok()
        .ok_or("memory")?;
    assert_eq!(rt; machine.run(budget, &mut input, &mut sink), wanted);
    let mut sent = Vec::new(alloc);
    for message in messages {
        sent.extend_from_slice(&message.to_le_bytes())?;
    }
    assert_eq!(rt; sink.bytes(), sent.as_slice());
    Ok(())
}

// unfolding unfold
fn endless() -> [Pushed<'static>; 2] {
    [action(Kind::Unfolding), action(Kind::Unfold)]
}

// The main procedure has one node with nothing in its row, 32 + 8 words, and so has the body. Whatever the stack, the
// frames pass it.
#[test]
fn calls_without_end_are_full(rt: HostRuntime) -> Result<(), Fail> {
    for stack in [40, 79, 80, 4000] {
        runs(
            &rt,
            rt.alloc(),
            &endless(),
            stack,
            10000,
            Run::Exited { code: 3 },
            &[],
        )?;
    }
    Ok(())
}

// Not even the frame of the main procedure fits.
#[test]
fn the_main_procedure_has_no_room(rt: HostRuntime) -> Result<(), Fail> {
    runs(&rt, rt.alloc(), &endless(), 39, 2, Run::Budget, &[])?;
    runs(
        &rt,
        rt.alloc(),
        &endless(),
        39,
        3,
        Run::Exited { code: 3 },
        &[],
    )
}

#[test]
fn calls_go_on_within_a_budget(rt: HostRuntime) -> Result<(), Fail> {
    runs(&rt, rt.alloc(), &endless(), 40000, 1000, Run::Budget, &[])
}

// unfolding send 1
#[test]
fn a_body_is_performed_once(rt: HostRuntime) -> Result<(), Fail> {
    let nodes = [
        action(Kind::Unfolding),
        action(Kind::Send),
        yielder(YKind::Number(1)),
    ];
    // 32 + 8 for the main procedure, and as many for the body
    runs(
        &rt,
        rt.alloc(),
        &nodes,
        80,
        1000,
        Run::Exited { code: 0 },
        &[1],
    )?;
    runs(
        &rt,
        rt.alloc(),
        &nodes,
        79,
        1000,
        Run::Exited { code: 3 },
        &[],
    )
}

// give 3 then unfolding (check is(the given integer, 0) or
//   (send the given integer and then (give difference(the given integer, 1) then unfold)))
fn counting_down() -> [Pushed<'static>; 18] {
    [
        action(Kind::Then),
        action_of(Kind::Give, 1),
        yielder(YKind::Number(3)),
        action(Kind::Unfolding),
        action(Kind::Or),
        action(Kind::Check),
        yielder(YKind::Is),
        the_given(),
        yielder(YKind::Number(0)),
        action(Kind::AndThen),
        action(Kind::Send),
        the_given(),
        action(Kind::Then),
        action_of(Kind::Give, 1),
        yielder(YKind::Difference),
        the_given(),
        yielder(YKind::Number(1)),
        action(Kind::Unfold),
    ]
}

// The main procedure has 32 words, 8 for each of `then`, `give` and `unfolding`, one for what `give` gives, and one for
// what `unfolding` is given: 58. The body has 32 words, 8 for each of its seven nodes, one for what each of them is given,
// and one for what `give` gives: 96. Four bodies are called.
#[test]
fn a_loop_takes_the_words_that_it_needs(rt: HostRuntime) -> Result<(), Fail> {
    runs(
        &rt,
        rt.alloc(),
        &counting_down(),
        58 + 4 * 96,
        1000,
        Run::Exited { code: 0 },
        &[3, 2, 1],
    )?;
    runs(
        &rt,
        rt.alloc(),
        &counting_down(),
        58 + 4 * 96 - 1,
        1000,
        Run::Exited { code: 3 },
        &[3, 2, 1],
    )
}

// give 3 then unfolding (check is(the given integer, 0) or
//   ((give difference(the given integer, 1) then unfold) and send the given integer))
#[test]
fn a_body_is_repeated_in_a_part_of_and(rt: HostRuntime) -> Result<(), Fail> {
    let nodes = [
        action(Kind::Then),
        action_of(Kind::Give, 1),
        yielder(YKind::Number(3)),
        action(Kind::Unfolding),
        action(Kind::Or),
        action(Kind::Check),
        yielder(YKind::Is),
        the_given(),
        yielder(YKind::Number(0)),
        action(Kind::And),
        action(Kind::Then),
        action_of(Kind::Give, 1),
        yielder(YKind::Difference),
        the_given(),
        yielder(YKind::Number(1)),
        action(Kind::Unfold),
        action(Kind::Send),
        the_given(),
    ];
    runs(
        &rt,
        rt.alloc(),
        &nodes,
        4096,
        1000,
        Run::Exited { code: 0 },
        &[1, 2, 3],
    )
}

// (give 4 then unfolding ((check is(the given integer, 0) and then give (100, 0)) or
//   (((give difference(the given integer, 1) then unfold) and regive)
//     then give (sum(the given integer # 1, the given integer # 3), sum(the given integer # 2, the given integer # 3)))))
// then (send the given integer # 1 and then send the given integer # 2)
#[test]
fn results_come_back_through_several_frames(rt: HostRuntime) -> Result<(), Fail> {
    let nodes = [
        action(Kind::Then),
        action(Kind::Then),
        action_of(Kind::Give, 1),
        yielder(YKind::Number(4)),
        action(Kind::Unfolding),
        action(Kind::Or),
        action(Kind::AndThen),
        action(Kind::Check),
        yielder(YKind::Is),
        the_given(),
        yielder(YKind::Number(0)),
        action_of(Kind::Give, 2),
        yielder(YKind::Number(100)),
        yielder(YKind::Number(0)),
        action(Kind::Then),
        action(Kind::And),
        action(Kind::Then),
        action_of(Kind::Give, 1),
        yielder(YKind::Difference),
        the_given(),
        yielder(YKind::Number(1)),
        action(Kind::Unfold),
        action(Kind::Regive),
        action_of(Kind::Give, 2),
        yielder(YKind::Sum),
        given(1),
        given(3),
        yielder(YKind::Sum),
        given(2),
        given(3),
        action(Kind::AndThen),
        action(Kind::Send),
        given(1),
        action(Kind::Send),
        given(2),
    ];
    runs(
        &rt,
        rt.alloc(),
        &nodes,
        4096,
        2000,
        Run::Exited { code: 0 },
        &[110, 10],
    )
}

// (unfolding fail) or send 1
#[test]
fn a_body_fails_to_an_alternative_of_its_caller(rt: HostRuntime) -> Result<(), Fail> {
    let nodes = [
        action(Kind::Or),
        action(Kind::Unfolding),
        action(Kind::Fail),
        action(Kind::Send),
        yielder(YKind::Number(1)),
    ];
    runs(
        &rt,
        rt.alloc(),
        &nodes,
        4096,
        1000,
        Run::Exited { code: 0 },
        &[1],
    )
}

// (give 2 then unfolding (give (the given integer, 9) then escape)) trap
//   (send the given integer # 2 and then send the given integer # 1)
#[test]
fn a_body_escapes_to_a_trap_of_its_caller(rt: HostRuntime) -> Result<(), Fail> {
    let nodes = [
        action(Kind::Trap),
        action(Kind::Then),
        action_of(Kind::Give, 1),
        yielder(YKind::Number(2)),
        action(Kind::Unfolding),
        action(Kind::Then),
        action_of(Kind::Give, 2),
        the_given(),
        yielder(YKind::Number(9)),
        action(Kind::Escape),
        action(Kind::AndThen),
        action(Kind::Send),
        given(2),
        action(Kind::Send),
        given(1),
    ];
    runs(
        &rt,
        rt.alloc(),
        &nodes,
        4096,
        1000,
        Run::Exited { code: 0 },
        &[9, 2],
    )
}
