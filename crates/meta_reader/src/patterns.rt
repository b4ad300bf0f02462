//! Reading the pattern of an equation.
ghost use Rattle.std.specs.Prelude.{◌≡◌, ◌<◌, ◌≤◌, length, drop, map, IfOk, MatchOption, None, option_map, Some, false};
ghost use Rattle.meta_terms.specs.PlainItems.{plain_pattern_part};
ghost use Rattle.action_text.specs.Texts.{texts};
ghost use Rattle.meta_reader.specs.ItemForms.{closing};
ghost use Rattle.meta_reader.specs.Parsing.{begins_with, named_part, part_of, pattern_of, with_pattern_part};
ghost use Rattle.gram_form.specs.Plain.{PlainLiteral};
ghost use Rattle.action_text.specs.Notes.{unquoted};

use crate::single::{is_quoted, is_token, part_of, unquoted};
use action_text::is_variable;
use bumpalo::Bump;
use gram_form::Part;
use meta_lex::token::Token;
use meta_terms::PatternPart;
use std::alloc::{AllocError, Global};

// The part that a quoted text is.
fn literal_part<'a>(token: &Token<'a>) -> PatternPart<'a>
    ensures { let part = PlainLiteral (unquoted token.now.bytes.now) in
        plain_pattern_part result ≡ record { variable = None; part = part } }
{
    PatternPart {
        variable: None,
        part: Part::Literal(unquoted(token.bytes)),
    }
}

// The part that a token is behind a variable. A literal has none.
fn named_part<'a>(variable: &'a [u8], token: &Token<'a>) -> Option<PatternPart<'a>>
    ensures { let part = part_of token.now.bytes.now in
        option_map plain_pattern_part result ≡ named_part variable.now part }
{
    let variable = Some(variable);
    match part_of(token) {
        Some(Part::Nonterm(name)) => Some(PatternPart {
            variable,
            part: Part::Nonterm(name),
        }),
        Some(Part::Identifier) => Some(PatternPart {
            variable,
            part: Part::Identifier,
        }),
        Some(Part::Numeral) => Some(PatternPart {
            variable,
            part: Part::Numeral,
        }),
        Some(Part::Literal(_)) | None => None,
    }
}

// The part of a pattern that begins at a place of a run, and the place behind it.
fn pattern_part_at<'a>(run: &[Token<'a>], at: usize) -> Option<(PatternPart<'a>, usize)>
    requires within { at < length run.now }
    requires unclosed { begins_with closing (drop at (texts run.now)) ≡ false }
    ensures within { MatchOption result Unit (λ r. (at < r.1) × (r.1 ≤ length run.now)) }
    ensures part { let all = texts run.now in
        let read = pattern_of (drop at all) in
        MatchOption result (read ≡ None) (λ r.
        read ≡ with_pattern_part (Some (plain_pattern_part r.0)) (pattern_of (drop r.1 all))) }
{
    let token = &run[at];
    if is_quoted(token) {
        return Some((literal_part(token), at + 1));
    }
    if !is_variable(token) || run.len() - at < 3 || !is_token(&run[at + 1], b":") {
        return None;
    }
    match named_part(token.bytes, &run[at + 2]) {
        Some(part) => Some((part, at + 3)),
        None => None,
    }
}

/// The parts of a pattern from a place of a run up to the closing brackets, and the place behind
/// these.
pub fn read_pattern<'a>(
    alloc: Global,
    arena: &'a Bump,
    run: &[Token<'a>],
    from: usize,
) -> Result<Option<(&'a [PatternPart<'a>], usize)>, AllocError>
    requires { from ≤ length run.now }
    ensures within { let size = length run.now in
        IfOk result (λ o. MatchOption o Unit (λ r. (from < r.1) × (r.1 ≤ size))) }
    ensures parts { let all = texts run.now in
        let read = pattern_of (drop from all) in
        IfOk result (λ o. MatchOption o (read ≡ None) (λ r.
        read ≡ Some (map plain_pattern_part r.0.now, drop r.1 all))) }
{
    let mut list = Vec::new(alloc);
    let mut at = from;
    while at < run.len() {
        if is_token(&run[at], b"]]") {
            let parts: &'a [PatternPart<'a>] = arena.try_alloc_slice_copy(list.as_slice())?;
            return Ok(Some((parts, at + 1)));
        }
        let Some((part, next)) = pattern_part_at(run, at) else {
            return Ok(None);
        };
        list.push(part)?;
        at = next;
    }
    Ok(None)
}
