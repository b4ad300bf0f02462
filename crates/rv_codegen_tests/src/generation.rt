//! The code of an action with a node of each built kind, and the first node of another.

use crate::tools::{action, code_of, graph_of, yielder};
use action_terms::pushed::Pushed;
use action_terms::{Kind, YKind};
use bumpalo::Bump;
use rv_codegen::first_unbuilt;
use std::alloc::Global;
use std::process::Abort;
use std::test::Fail;

// The words of (send 7 and send -1) and then (complete and fail), for a stack of 1024 words and one unit. They are
// those that llvm-mc gives for the first instructions, the entries and the blocks written in its notation.
const WORDS: [u32; 121] = [
    0x00000197, 0x1e418193, 0x7ff18193, 0x7ff18193, 0x00118193, 0x00c1d193, 0x00c19193, 0x00001137,
    0x00310133, 0x000032b7, 0x00028293, 0x003282b3, 0x0251b423, 0x0251b823, 0x01000313, 0x00530333,
    0x0261bc23, 0x00000f97, 0x160f8067, 0x00000513, 0x05d00893, 0x00000073, 0x00100513, 0x05d00893,
    0x00000073, 0x00200513, 0x05d00893, 0x00000073, 0x00300513, 0x05d00893, 0x00000073, 0x0081b283,
    0x00029663, 0x00000f97, 0xfd4f8067, 0x0002b303, 0x0061b423, 0x0102b303, 0x0061b823, 0x0182b303,
    0x0061bc23, 0x0202b103, 0x0082b283, 0x00028067, 0x0101b283, 0x00029663, 0x00000f97, 0xfacf8067,
    0x0181b303, 0x00000393, 0x00031663, 0x0002b383, 0x0182b303, 0x0071b423, 0x0102b383, 0x0071b823,
    0x0061bc23, 0x0202b103, 0x0082b283, 0x00028067, 0x0001b423, 0x00100293, 0x0051bc23, 0x00008067,
    0x00a1b023, 0x00018593, 0x00800613, 0x04000893, 0x00100513, 0x00000073, 0x0001b423, 0x00100293,
    0x0051bc23, 0x00008067, 0x00018593, 0x00800613, 0x03f00893, 0x00000513, 0x00000073, 0x00800293,
    0x00550663, 0x00000f97, 0xf38f8067, 0x0001b503, 0x0001b423, 0x00100293, 0x0051bc23, 0x00008067,
    0x0201b283, 0x0301b403, 0x0381b383, 0x00429313, 0x00640433, 0x01040313, 0x0063f663, 0x00000f97,
    0xef4f8067, 0x00128293, 0x0251b023, 0x00043023, 0x00040513, 0x0001b423, 0x00100293, 0x0051bc23,
    0x00008067, 0x00700513, 0x00000097, 0x01008093, 0x00000f97, 0xf50f8067, 0xfff00513, 0x00000097,
    0x01008093, 0x00000f97, 0xf3cf8067, 0x00000f97, 0xeb0f8067, 0x00000f97, 0xe78f8067, 0x00013283,
    0x00028067,
];

#[test]
fn words_of_another_assembler(rt: HostRuntime) -> Result<(), Fail> {
    let arena = Bump::new(rt.alloc());
    let nodes = [
        action(Kind::AndThen),
        action(Kind::And),
        action(Kind::Send),
        yielder(YKind::Number(7)),
        action(Kind::Send),
        yielder(YKind::Number(-1)),
        action(Kind::And),
        action(Kind::Complete),
        action(Kind::Fail),
    ];
    let graph = graph_of(&rt, rt.alloc(), &arena, &nodes)?;
    let code = code_of(&rt, rt.alloc(), &arena, &graph)?;
    assert_eq!(rt; code.words.as_slice(), WORDS.as_slice());
    Ok(())
}

// How many words the code of these nodes has.
fn count_words(rt: &impl Abort, alloc: Global, nodes: &[Pushed<'_>]) -> Result<usize, Fail> {
    let arena = Bump::new(alloc);
    let graph = graph_of(rt, alloc, &arena, nodes)?;
    let code = code_of(rt, alloc, &arena, &graph)?;
    Ok(code.words.len())
}

// A chain of three sends has 19 words of first instructions and 86 of entries before it, and a jump and
// the way back of bodies, of two words, behind it. A send
// of a small number has one word for the number, two for the address to return to and two for the jump to the entry,
// and no jump stands between the parts, however they are grouped.
#[test]
fn no_jump_between_sends(rt: HostRuntime) -> Result<(), Fail> {
    let to_the_right = [
        action(Kind::AndThen),
        action(Kind::Send),
        yielder(YKind::Number(1)),
        action(Kind::AndThen),
        action(Kind::Send),
        yielder(YKind::Number(2)),
        action(Kind::Send),
        yielder(YKind::Number(3)),
    ];
    assert_eq!(rt;
        count_words(&rt, rt.alloc(), &to_the_right)?,
        19 + 86 + 3 * (1 + 2 + 2) + 2 + 2
    );

    let to_the_left = [
        action(Kind::AndThen),
        action(Kind::AndThen),
        action(Kind::Send),
        yielder(YKind::Number(1)),
        action(Kind::Send),
        yielder(YKind::Number(2)),
        action(Kind::Send),
        yielder(YKind::Number(3)),
    ];
    assert_eq!(rt;
        count_words(&rt, rt.alloc(), &to_the_left)?,
        19 + 86 + 3 * (1 + 2 + 2) + 2 + 2
    );
    Ok(())
}

// complete and then ((furthermore complete) and receive an integer)
#[test]
fn first_of_two_unbuilt_nodes(rt: HostRuntime) -> Result<(), Fail> {
    let arena = Bump::new(rt.alloc());
    let nodes = [
        action(Kind::AndThen),
        action(Kind::Complete),
        action(Kind::And),
        action(Kind::Furthermore),
        action(Kind::Complete),
        action(Kind::Receive),
    ];
    let graph = graph_of(&rt, rt.alloc(), &arena, &nodes)?;
    assert_eq!(rt; first_unbuilt(rt.alloc(), &graph)?, Some(3));
    Ok(())
}
