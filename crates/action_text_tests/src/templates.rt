//! Templates and their nodes.
ghost use Rattle.std.specs.Prelude.{◌<◌, length};

use action_terms::kinds::Kind;
use action_text::template_reader::{TemplateError, read_template};
use bumpalo::Bump;
use meta_lex::lex::tokens;
use meta_terms::{Template, TemplateNode};
use std::alloc::Global;
use std::test::Fail;

// The template that a text with tokens spells.
fn template<'a>(alloc: Global, arena: &'a Bump, text: &[u8]) -> Result<Template<'a>, TemplateError>
    requires { length text.now < 4294967295 }
{
    match tokens(alloc, arena, text) {
        Ok(read) => match u32::try_from(read.list.len()) {
            Ok(count) => read_template(alloc, arena, &read, 0, count),
            Err(_) => Err(TemplateError::Memory),
        },
        Err(_) => Err(TemplateError::Memory),
    }
}

// How many nodes the template has.
fn count(alloc: Global, text: &[u8]) -> Result<usize, TemplateError>
    requires { length text.now < 4294967295 }
{
    let arena = Bump::new(alloc);
    Ok(template(alloc, &arena, text)?.list.len())
}

// The first bad token.
fn bad_token(alloc: Global, text: &[u8]) -> Option<u32>
    requires { length text.now < 4294967295 }
{
    match count(alloc, text) {
        Err(TemplateError::At { token }) => Some(token),
        _ => None,
    }
}

#[test]
fn counts_nodes(rt: HostRuntime) -> Result<(), Fail> {
    let alloc = rt.alloc();
    assert_eq!(rt; count(alloc, b"evaluate X then send the given integer")?, 4);
    assert_eq!(rt;
        count(alloc, b"(evaluate X and evaluate Y) then give sum(1, 2)")?,
        8
    );
    assert_eq!(rt; count(alloc, b"give value of N")?, 2);
    assert_eq!(rt; count(alloc, b"bind token of I to the given cell # 2")?, 2);
    assert_eq!(rt;
        count(alloc, b"store 1 in the cell bound to token of I")?,
        3
    );
    Ok(())
}

// The kind of an action node without parameters.
fn kind_of(node: &TemplateNode<'_>) -> Option<Kind> {
    match node {
        TemplateNode::Action(action) => Some(action.kind),
        _ => None,
    }
}

// The variable of a node that has one.
fn variable_of<'a>(node: &TemplateNode<'a>) -> &'a [u8] {
    match *node {
        TemplateNode::ActionTokenOf { variable, .. } => variable,
        TemplateNode::YielderTokenOf { variable, .. } => variable,
        TemplateNode::Apply { variable, .. } => variable,
        TemplateNode::ValueOf { variable } => variable,
        _ => b"",
    }
}

#[test]
fn reads_nodes_in_preorder(rt: HostRuntime) -> Result<(), Fail> {
    let alloc = rt.alloc();
    let arena = Bump::new(alloc);
    let text = b"run X then bind token of I to value of N";
    let read = template(alloc, &arena, text)?;
    let nodes = read.list;
    assert_eq!(rt; nodes.len(), 4);
    assert_eq!(rt; kind_of(&nodes[0]), Some(Kind::Then));
    assert_eq!(rt; variable_of(&nodes[1]), b"X".as_slice());
    assert_eq!(rt; variable_of(&nodes[2]), b"I".as_slice());
    assert_eq!(rt; variable_of(&nodes[3]), b"N".as_slice());
    Ok(())
}

#[test]
fn refuses_templates_at_the_first_bad_token(rt: HostRuntime) {
    let alloc = rt.alloc();
    assert_eq!(rt; bad_token(alloc, b"evaluate X Y"), Some(2));
    assert_eq!(rt; bad_token(alloc, b"evaluate x"), Some(1));
    assert_eq!(rt; bad_token(alloc, b"evaluate"), Some(1));
    assert_eq!(rt; bad_token(alloc, b"give value N"), Some(2));
    assert_eq!(rt; bad_token(alloc, b"give evaluate X"), Some(1));
    assert_eq!(rt; bad_token(alloc, b"semantics X"), Some(0));
    assert_eq!(rt; bad_token(alloc, b"bind token of to to 1"), Some(3));
    assert_eq!(rt; bad_token(alloc, b"bind X to 1"), Some(1));
}
