//! Texts and their graphs, as the rules of the notation give them.
use action_terms::kinds::{Kind, Sort, YKind};
use action_text::action_reader::read_action;
use action_text::errors::TextError;
use action_text::printing::print_action;
use bumpalo::Bump;
use std::test::Fail;

#[test]
fn reads_a_chain_and_its_yielders(rt: HostRuntime) -> Result<(), Fail> {
    let arena = Bump::new(rt.alloc());
    let text = b"give (1, the given cell # 01) then (check is(2, 3) and send 4) then complete";
    let graph = read_action(rt.alloc(), &arena, text)?;
    let nodes = graph.nodes();
    let kinds = [
        Kind::Then,
        Kind::Then,
        Kind::Give,
        Kind::And,
        Kind::Check,
        Kind::Send,
        Kind::Complete,
    ];
    assert_eq!(rt; nodes.len(), kinds.len());
    for (node, kind) in nodes.iter().zip(kinds) {
        assert_eq!(rt; node.kind, kind);
    }
    let yielders = graph.yielders();
    assert_eq!(rt; yielders.len(), 6);
    assert_eq!(rt; yielders[0].kind, YKind::Number(1));
    let place = YKind::Given {
        sort: Sort::Cell,
        place: 1,
    };
    assert_eq!(rt; yielders[1].kind, place);
    Ok(())
}

#[test]
fn refuses_at_the_first_bad_token(rt: HostRuntime) {
    let arena = Bump::new(rt.alloc());
    let bad: [(&[u8], u32); 12] = [
        (b"send 1 and send 2 or send 3", 18),
        (b"send 1 and then send 2 and send 3", 27),
        (b"send 1 and send 2 and then send 3", 22),
        (b"give ", 5),
        (b"give (1)", 7),
        (b"send them", 5),
        (b"give the given integer # 0", 25),
        (b"give the given integer # 65", 25),
        (b"send 9223372036854775808", 5),
        (b"bind x to 1", 5),
        (b"complete complete", 9),
        (b"", 0),
    ];
    for (text, offset) in bad {
        let refused = read_action(rt.alloc(), &arena, text).err();
        assert_eq!(rt; refused, Some(TextError::NotAction { offset }));
    }
}

#[test]
fn refuses_bytes_and_stray_nodes(rt: HostRuntime) {
    let arena = Bump::new(rt.alloc());
    let bytes = read_action(rt.alloc(), &arena, b"send ?").err();
    assert_eq!(rt; bytes, Some(TextError::BadByte { offset: 5 }));
    let stray = read_action(rt.alloc(), &arena, b"unfold").err();
    assert_eq!(rt; stray, Some(TextError::StrayUnfold { node: 0 }));
}

#[test]
fn reads_and_prints_deep_nesting(rt: HostRuntime) -> Result<(), Fail> {
    let mut text = Vec::new(rt.alloc());
    for _ in 0..65535 {
        text.extend_from_slice(b"furthermore ")?;
    }
    text.extend_from_slice(b"complete")?;
    assert_eq!(rt; text.len(), 65535 * 12 + 8);
    let arena = Bump::new(rt.alloc());
    let graph = read_action(rt.alloc(), &arena, text.as_slice())?;
    assert_eq!(rt; graph.nodes().len(), 65536);
    let printed = print_action(rt.alloc(), &graph)?;
    assert_eq!(rt; printed.as_slice(), text.as_slice());
    Ok(())
}
