//! Copies of productions in an arena, and the literals in them.
ghost use Rattle.std.specs.Prelude.{◌≡◌, IfOk, OnOk, map, fold};
ghost use Rattle.std.specs.List.{flat_map};
ghost use Rattle.gram_form.specs.Plain.{plain_part, plain_alternative, plain_production};
ghost use Rattle.gram_form.specs.Grammars.{seen_with, literal_in, parts_in, parts_of};

use crate::literals::Literals;
use crate::part::{Part, Production};
use bumpalo::Bump;
use bumpalo::collections::into_bump_slice;
use std::alloc::AllocError;

// A copy of a text.
fn copy_text<'a>(arena: &'a Bump, bytes: &[u8]) -> Result<&'a [u8], AllocError>
    ensures { IfOk result (λ r. r.now ≡ bytes.now) }
{
    Ok(arena.try_alloc_slice_copy(bytes)?)
}

// A copy of a part. A literal is noted, where it is new.
fn copy_part<'a>(
    arena: &'a Bump,
    part: Part<'_>,
    literals: &mut Literals<'a>,
) -> Result<Part<'a>, AllocError>
    ensures part { IfOk result (λ r. plain_part r ≡ plain_part part.entry) }
    ensures seen { let own = literal_in (plain_part part.entry) in
        OnOk result (literals.new ≡ fold seen_with literals.old own) }
{
    match part {
        Part::Literal(bytes) => {
            let bytes = copy_text(arena, bytes)?;
            literals.note(bytes)?;
            Ok(Part::Literal(bytes))
        }
        Part::Nonterm(name) => Ok(Part::Nonterm(copy_text(arena, name)?)),
        Part::Identifier => Ok(Part::Identifier),
        Part::Numeral => Ok(Part::Numeral),
    }
}

// A copy of an alternative.
fn copy_parts<'a>(
    arena: &'a Bump,
    parts: &[Part<'_>],
    literals: &mut Literals<'a>,
) -> Result<&'a [Part<'a>], AllocError>
    ensures parts { IfOk result (λ r. map plain_part r.now ≡ map plain_part parts.now) }
    ensures seen { let own = flat_map literal_in (map plain_part parts.now) in
        OnOk result (literals.new ≡ fold seen_with literals.old own) }
{
    let mut list = Vec::with_capacity(arena, parts.len())?;
    for part in parts {
        list.push(copy_part(arena, *part, literals)?)?;
    }
    Ok(into_bump_slice(list))
}

// A copy of the alternatives of a production.
fn copy_alternatives<'a>(
    arena: &'a Bump,
    alternatives: &[&[Part<'_>]],
    literals: &mut Literals<'a>,
) -> Result<&'a [&'a [Part<'a>]], AllocError>
    ensures alternatives { let all = map plain_alternative alternatives.now in
        IfOk result (λ r. map plain_alternative r.now ≡ all) }
    ensures seen { let own = parts_in (map plain_alternative alternatives.now) in
        OnOk result (literals.new ≡ fold seen_with literals.old (flat_map literal_in own)) }
{
    let mut list = Vec::with_capacity(arena, alternatives.len())?;
    for parts in alternatives {
        list.push(copy_parts(arena, parts, literals)?)?;
    }
    Ok(into_bump_slice(list))
}

/// Copies of productions. Their literals are noted where they are new.
pub fn copy_productions<'a>(
    arena: &'a Bump,
    productions: &[Production<'_>],
    literals: &mut Literals<'a>,
) -> Result<&'a [Production<'a>], AllocError>
    ensures productions { let all = map plain_production productions.now in
        IfOk result (λ r. map plain_production r.now ≡ all) }
    ensures seen { let own = parts_of (map plain_production productions.now) in
        OnOk result (literals.new ≡ fold seen_with literals.old (flat_map literal_in own)) }
{
    let mut list = Vec::with_capacity(arena, productions.len())?;
    for production in productions {
        let name = copy_text(arena, production.name)?;
        let alternatives = copy_alternatives(arena, production.alternatives, literals)?;
        list.push(Production { name, alternatives })?;
    }
    Ok(into_bump_slice(list))
}
