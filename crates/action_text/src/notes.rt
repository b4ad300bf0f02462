//! What is noted and written while a text is read.
ghost use Rattle.std.specs.Prelude.{◌≡◌, ◌∷◌, OnOk, drop};
ghost use Rattle.meta_terms.specs.Templates.{ActionNode, YielderNode, ActionTokenOf, YielderTokenOf};
ghost use Rattle.action_text.specs.Notes.{kept, kept_if, counted, one_more, noted_sort, unquoted, value_of, place_of, marked, begins_quoted, action_with, yielder_with};
ghost use Rattle.meta_terms.specs.Nodes.{label_of};
ghost use Rattle.action_text.specs.Views.{plain_note, notes_of, noting_of, HasMore};
ghost use Rattle.action_text.specs.declared.table.Mark.TheVariants as mark;

use crate::table::Mark;
use acg_base::read_decimal;
use action_terms::kinds::{Kind, Sort, YKind};
use action_terms::pushed::{NewAction, NewYielder};
use meta_terms::TemplateNode;
use std::alloc::AllocError;

/// What is remembered until its node is written.
#[derive(Clone, Copy)]
pub enum Note<'t> {
    /// A token.
    Kept(&'t [u8]),
    /// How many items data has so far.
    Items(u32),
    /// A sort.
    Noted(Sort),
}

// Takes the last note, and answers the token that it is.
fn take_token<'t>(notes: &mut Vec<Note<'t>>) -> &'t [u8]
    ensures token { result.now ≡ kept (notes_of notes.old.items) }
    ensures rest { notes_of notes.new.items ≡ drop 1 (notes_of notes.old.items) }
{
    match notes.pop() {
        Some(Note::Kept(token)) => token,
        _ => &[],
    }
}

// Takes the last note, and answers the number of items that it is.
fn take_items(notes: &mut Vec<Note<'_>>) -> u32
    ensures items { result ≡ counted (notes_of notes.old.items) }
    ensures rest { notes_of notes.new.items ≡ drop 1 (notes_of notes.old.items) }
{
    match notes.pop() {
        Some(Note::Items(items)) => items,
        _ => 0,
    }
}

// Takes the last note, and answers the sort that it is.
fn take_sort(notes: &mut Vec<Note<'_>>) -> Sort
    ensures sort { result ≡ noted_sort (notes_of notes.old.items) }
    ensures rest { notes_of notes.new.items ≡ drop 1 (notes_of notes.old.items) }
{
    match notes.pop() {
        Some(Note::Noted(sort)) => sort,
        _ => Sort::Integer,
    }
}

// The bytes between the quotes.
fn unquoted(token: &[u8]) -> &[u8]
    ensures { result.now ≡ unquoted token.now }
{
    if token.len() < 2 {
        &[]
    } else {
        &token[1..token.len() - 1]
    }
}

// Tells whether a token begins with a quote.
fn begins_quoted(token: &[u8]) -> bool
    ensures { result ≡ begins_quoted token.now }
{
    match token {
        [first, ..] => *first == b'"',
        [] => false,
    }
}

// An action node with the token that was kept.
fn action_with(kind: Kind, token: &[u8]) -> TemplateNode<'_>
    ensures { label_of result ≡ action_with kind token.now }
{
    if begins_quoted(token) {
        TemplateNode::Action(NewAction {
            kind,
            items: 0,
            token: unquoted(token),
        })
    } else {
        TemplateNode::ActionTokenOf {
            node: NewAction {
                kind,
                items: 0,
                token: &[],
            },
            variable: token,
        }
    }
}

// A yielder with the token that was kept.
fn yielder_with(kind: YKind, token: &[u8]) -> TemplateNode<'_>
    ensures { label_of result ≡ yielder_with kind token.now }
{
    if begins_quoted(token) {
        TemplateNode::Yielder(NewYielder {
            kind,
            token: unquoted(token),
        })
    } else {
        TemplateNode::YielderTokenOf {
            node: NewYielder { kind, token: &[] },
            variable: token,
        }
    }
}

// The value of a number of 64 signed bits.
fn value_of(token: &[u8]) -> i64
    ensures { result ≡ value_of token.now }
{
    read_decimal(token).unwrap_or(0)
}

// The place among the transients that a number names, or 0.
fn place_of(value: i64) -> u32
    ensures { result ≡ place_of value }
{
    if 0 <= value && value <= 64 {
        value as u32
    } else {
        0
    }
}

// Writes the label of an action node.
fn write_action<'t>(
    labels: &mut Vec<TemplateNode<'t>>,
    kind: Kind,
    items: u32,
    token: &'t [u8],
) -> Result<(), AllocError>
    ensures { OnOk result
        (HasMore labels.old.items labels.new.items (ActionNode kind items token.now)) }
{
    labels.push(TemplateNode::Action(NewAction { kind, items, token }))?;
    Ok(())
}

// Writes the label of a yielder.
fn write_yielder<'t>(
    labels: &mut Vec<TemplateNode<'t>>,
    kind: YKind,
    token: &'t [u8],
) -> Result<(), AllocError>
    ensures { OnOk result
        (HasMore labels.old.items labels.new.items (YielderNode kind token.now)) }
{
    labels.push(TemplateNode::Yielder(NewYielder { kind, token }))?;
    Ok(())
}

// Notes one thing more.
fn remember<'t>(notes: &mut Vec<Note<'t>>, note: Note<'t>) -> Result<(), AllocError>
    ensures { OnOk result
        (notes_of notes.new.items ≡ plain_note note.entry ∷ notes_of notes.old.items) }
{
    notes.push(note)?;
    Ok(())
}

// Counts one item more. There is no memory for more than 4294967295 items.
fn count_item(notes: &mut Vec<Note<'_>>) -> Result<(), AllocError>
    ensures { OnOk result (notes_of notes.new.items ≡ one_more (notes_of notes.old.items)) }
{
    let items = take_items(notes);
    match items.checked_add(1) {
        Some(more) => remember(notes, Note::Items(more)),
        None => Err(AllocError),
    }
}

/// Notes the token, where it is kept.
pub fn keep_if<'t>(
    notes: &mut Vec<Note<'t>>,
    keeps: bool,
    token: &'t [u8],
) -> Result<(), AllocError>
    ensures { OnOk result
        (notes_of notes.new.items ≡ kept_if keeps token.now (notes_of notes.old.items)) }
{
    if keeps {
        remember(notes, Note::Kept(token))
    } else {
        Ok(())
    }
}

// Writes an action node with the items that were counted last.
fn write_with_items<'t>(
    kind: Kind,
    notes: &mut Vec<Note<'t>>,
    labels: &mut Vec<TemplateNode<'t>>,
) -> Result<(), AllocError>
    ensures { OnOk result (noting_of notes.new.items labels.new.items
        ≡ marked (mark.ActionWithItems kind) (noting_of notes.old.items labels.old.items)) }
{
    let items = take_items(notes);
    write_action(labels, kind, items, &[])
}

// Writes an action node with the token that was kept last.
fn write_with_token<'t>(
    kind: Kind,
    notes: &mut Vec<Note<'t>>,
    labels: &mut Vec<TemplateNode<'t>>,
) -> Result<(), AllocError>
    ensures { OnOk result (noting_of notes.new.items labels.new.items
        ≡ marked (mark.ActionWithToken kind) (noting_of notes.old.items labels.old.items)) }
{
    let node = action_with(kind, take_token(notes));
    labels.push(node)?;
    Ok(())
}

// Writes the number that was kept last.
fn write_number<'t>(
    notes: &mut Vec<Note<'t>>,
    labels: &mut Vec<TemplateNode<'t>>,
) -> Result<(), AllocError>
    ensures { OnOk result (noting_of notes.new.items labels.new.items
        ≡ marked mark.Number (noting_of notes.old.items labels.old.items)) }
{
    let value = value_of(take_token(notes));
    write_yielder(labels, YKind::Number(value), &[])
}

// Writes `the given S # n`.
fn write_given_at<'t>(
    notes: &mut Vec<Note<'t>>,
    labels: &mut Vec<TemplateNode<'t>>,
) -> Result<(), AllocError>
    ensures { OnOk result (noting_of notes.new.items labels.new.items
        ≡ marked mark.GivenAt (noting_of notes.old.items labels.old.items)) }
{
    let place = place_of(value_of(take_token(notes)));
    let sort = take_sort(notes);
    write_yielder(labels, YKind::Given { sort, place }, &[])
}

// Writes `the S bound to T`.
fn write_bound<'t>(
    notes: &mut Vec<Note<'t>>,
    labels: &mut Vec<TemplateNode<'t>>,
) -> Result<(), AllocError>
    ensures { OnOk result (noting_of notes.new.items labels.new.items
        ≡ marked mark.Bound (noting_of notes.old.items labels.old.items)) }
{
    let token = take_token(notes);
    let sort = take_sort(notes);
    labels.push(yielder_with(YKind::Bound { sort }, token))?;
    Ok(())
}

/// Does what the mark says: notes something, or takes notes and writes the label of a node.
pub fn follow<'t>(
    mark: Mark,
    notes: &mut Vec<Note<'t>>,
    labels: &mut Vec<TemplateNode<'t>>,
) -> Result<(), AllocError>
    ensures { OnOk result (noting_of notes.new.items labels.new.items
        ≡ marked mark (noting_of notes.old.items labels.old.items)) }
{
    match mark {
        Mark::Action(kind) => write_action(labels, kind, 0, &[]),
        Mark::ActionWithItems(kind) => write_with_items(kind, notes, labels),
        Mark::ActionWithToken(kind) => write_with_token(kind, notes, labels),
        Mark::Yielder(kind) => write_yielder(labels, kind, &[]),
        Mark::Number => write_number(notes, labels),
        Mark::Given => {
            let sort = take_sort(notes);
            write_yielder(labels, YKind::Given { sort, place: 0 }, &[])
        }
        Mark::GivenAt => write_given_at(notes, labels),
        Mark::Bound => write_bound(notes, labels),
        Mark::Stored => {
            let sort = take_sort(notes);
            write_yielder(labels, YKind::Stored { sort }, &[])
        }
        Mark::NoItems => remember(notes, Note::Items(0)),
        Mark::FirstItem => remember(notes, Note::Items(1)),
        Mark::NextItem => count_item(notes),
        Mark::Sort(sort) => remember(notes, Note::Noted(sort)),
        Mark::Applied => {
            let variable = take_token(notes);
            let function = take_token(notes);
            labels.push(TemplateNode::Apply { function, variable })?;
            Ok(())
        }
        Mark::ValueOf => {
            let variable = take_token(notes);
            labels.push(TemplateNode::ValueOf { variable })?;
            Ok(())
        }
    }
}
