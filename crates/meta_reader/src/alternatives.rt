//! Reading productions.
ghost use Rattle.std.specs.Prelude.{◌≡◌, ◌<◌, ◌≤◌, ◌∷◌, length, drop, map, IfOk, MatchOption, None, option_map};
ghost use Rattle.gram_form.specs.Plain.{plain_part, plain_alternative, plain_production};
ghost use Rattle.action_text.specs.Texts.{texts};
ghost use Rattle.meta_reader.specs.Parsing.{unopened, inside, behind, production_of};

use crate::single::{is_token, part_of};
use action_text::is_variable;
use bumpalo::Bump;
use gram_form::{Part, Production};
use meta_lex::token::Token;
use std::alloc::{AllocError, Global};

// The parts from a place of a run up to the closing brackets, and the place behind these.
fn read_parts<'a>(
    alloc: Global,
    arena: &'a Bump,
    run: &[Token<'a>],
    from: usize,
) -> Result<Option<(&'a [Part<'a>], usize)>, AllocError>
    requires { from ≤ length run.now }
    ensures within { let size = length run.now in
        IfOk result (λ o. MatchOption o Unit (λ r. (from < r.1) × (r.1 ≤ size))) }
    ensures parts { let all = texts run.now in
        let read = inside (drop from all) in
        IfOk result (λ o. MatchOption o (read ≡ None) (λ r.
        read ≡ option_map (λ more. plain_alternative r.0 ∷ more) (behind (drop r.1 all)))) }
{
    let mut list = Vec::new(alloc);
    for at in from..run.len() {
        let token = &run[at];
        if is_token(token, b"]]") {
            let parts: &'a [Part<'a>] = arena.try_alloc_slice_copy(list.as_slice())?;
            return Ok(Some((parts, at + 1)));
        }
        match part_of(token) {
            Some(part) => list.push(part)?,
            None => return Ok(None),
        }
    }
    Ok(None)
}

// The alternatives from a place of a run up to its end.
fn read_alternatives<'a>(
    alloc: Global,
    arena: &'a Bump,
    run: &[Token<'a>],
    from: usize,
) -> Result<Option<&'a [&'a [Part<'a>]]>, AllocError>
    requires { from ≤ length run.now }
    ensures { let read = unopened (drop from (texts run.now)) in
        IfOk result (λ o. option_map (λ r. map plain_alternative r.now) o ≡ read) }
{
    let mut list = Vec::new(alloc);
    let mut at = from;
    while at < run.len() && is_token(&run[at], b"[[") {
        let Some((parts, next)) = read_parts(alloc, arena, run, at + 1)? else {
            return Ok(None);
        };
        list.push(parts)?;
        if next == run.len() {
            let alternatives: &'a [&'a [Part<'a>]] = arena.try_alloc_slice_copy(list.as_slice())?;
            return Ok(Some(alternatives));
        }
        if !is_token(&run[next], b"|") {
            return Ok(None);
        }
        at = next + 1;
    }
    Ok(None)
}

/// The production that a run is.
pub fn read_production<'a>(
    alloc: Global,
    arena: &'a Bump,
    run: &[Token<'a>],
) -> Result<Option<Production<'a>>, AllocError>
    ensures { IfOk result (λ o. option_map plain_production o ≡ production_of (texts run.now)) }
{
    if run.len() < 2 || !is_variable(&run[0]) || !is_token(&run[1], b"=") {
        return Ok(None);
    }
    match read_alternatives(alloc, arena, run, 2)? {
        Some(alternatives) => Ok(Some(Production {
            name: run[0].bytes,
            alternatives,
        })),
        None => Ok(None),
    }
}
