//! Where parts of an alternative lead.
ghost use Rattle.std.specs.Prelude.{◌≡◌, ◌<◌, ◌≤◌, ◌⊎◌, ◌↔◌, ℕ, length, drop, IfOk, OnOk, IsTrue, Contains};
ghost use Rattle.chart_parse.specs.Growths.{HasPieces};
ghost use Rattle.tree_pick.specs.Runs.{AreWithin, Leads, LeadsFrom};

use crate::parse::Parse;
use crate::phrases::Span;
use acg_base::Memory;
use source_lex::Symbol;

/// Adds the place where it isn't there yet.
fn add_place(places: &mut Vec<u32>, place: u32) -> Result<(), Memory>
    ensures { OnOk result ((e : ℕ) → Contains places.new.items e
        ↔ (Contains places.old.items e ⊎ (place ≡ e))) }
{
    if !places.contains(&place) {
        places.push(place)?;
    }
    Ok(())
}

/// Adds each of the places.
fn add_places(places: &mut Vec<u32>, more: &[u32]) -> Result<(), Memory>
    ensures { OnOk result ((e : ℕ) → Contains places.new.items e
        ↔ (Contains places.old.items e ⊎ Contains more.now e)) }
{
    for k in 0..more.len() {
        add_place(places, more[k])?;
    }
    Ok(())
}

/// Adds the places to which the part leads from the place.
fn advance(parse: &Parse<'_>, part: Symbol, at: u32, places: &mut Vec<u32>) -> Result<(), Memory>
    requires at { at ≤ length parse.now.kinds }
    requires short { length parse.now.kinds < 4294967296 }
    ensures { OnOk result ((e : ℕ) → Contains places.new.items e
        ↔ (Contains places.old.items e ⊎ Leads parse.now.grammar parse.now.kinds part at e)) }
{
    match part {
        Symbol::Word(kind) => {
            if parse.is_kind(at, kind) {
                add_place(places, at + 1)?;
            }
            Ok(())
        }
        Symbol::Phrase(nonterm) => {
            let ends = parse.ends(nonterm, at)?;
            add_places(places, &ends)
        }
    }
}

/// The places to which the part leads from any of the places.
fn follow(parse: &Parse<'_>, part: Symbol, from: &[u32]) -> Result<Vec<u32>, Memory>
    requires within { AreWithin parse.now.kinds from.now }
    requires short { length parse.now.kinds < 4294967296 }
    ensures { IfOk result (λ r. (e : ℕ) → Contains r.items e
        ↔ LeadsFrom parse.now.grammar parse.now.kinds part from.now e) }
{
    let mut places = Vec::new(parse.alloc());
    for k in 0..from.len() {
        advance(parse, part, from[k], &mut places)?;
    }
    Ok(places)
}

/// The places to which the first parts lead from the start, as many of them as the count says.
fn run_front(
    parse: &Parse<'_>,
    parts: &[Symbol],
    count: usize,
    start: u32,
) -> Result<Vec<u32>, Memory>
    requires count { count ≤ length parts.now }
    requires start { start ≤ length parse.now.kinds }
    requires short { length parse.now.kinds < 4294967296 }
    ensures within { IfOk result (λ r. AreWithin parse.now.kinds r.items) }
    ensures places { IfOk result (λ r. (e : ℕ)
        → HasPieces parse.now.grammar parse.now.kinds parts.now start e
        ↔ ((k : ℕ) × Contains r.items k
        × HasPieces parse.now.grammar parse.now.kinds (drop count parts.now) k e)) }
{
    let mut places = Vec::new(parse.alloc());
    places.push(start)?;
    for p in 0..count {
        places = follow(parse, parts[p], &places)?;
    }
    Ok(places)
}

/// The ends of the parts from the start.
pub fn run_ends(parse: &Parse<'_>, parts: &[Symbol], start: u32) -> Result<Vec<u32>, Memory>
    requires start { start ≤ length parse.now.kinds }
    requires short { length parse.now.kinds < 4294967296 }
    ensures within { IfOk result (λ r. AreWithin parse.now.kinds r.items) }
    ensures ends { IfOk result (λ r. (e : ℕ) → Contains r.items e
        ↔ HasPieces parse.now.grammar parse.now.kinds parts.now start e) }
{
    run_front(parse, parts, parts.len(), start)
}

/// Whether the part leads from the one place to the other.
fn leads(parse: &Parse<'_>, part: Symbol, at: u32, end: u32) -> bool
    requires places { (at ≤ length parse.now.kinds) × (end ≤ length parse.now.kinds) }
    requires short { length parse.now.kinds < 4294967296 }
    ensures { IsTrue result ↔ Leads parse.now.grammar parse.now.kinds part at end }
{
    match part {
        Symbol::Word(kind) => parse.is_kind(at, kind) && at + 1 == end,
        Symbol::Phrase(nonterm) => parse.has(Span {
            nonterm,
            start: at,
            end,
        }),
    }
}

/// Whether the part leads to the end from one of the places.
fn leads_from(parse: &Parse<'_>, part: Symbol, places: &[u32], end: u32) -> bool
    requires within { AreWithin parse.now.kinds places.now }
    requires end { end ≤ length parse.now.kinds }
    requires short { length parse.now.kinds < 4294967296 }
    ensures { IsTrue result ↔ LeadsFrom parse.now.grammar parse.now.kinds part places.now end }
{
    for k in 0..places.len() {
        if leads(parse, part, places[k], end) {
            return true;
        }
    }
    false
}

/// Whether the parts lead from the start to the end.
pub fn reaches(parse: &Parse<'_>, parts: &[Symbol], start: u32, end: u32) -> Result<bool, Memory>
    requires places { (start ≤ length parse.now.kinds) × (end ≤ length parse.now.kinds) }
    requires short { length parse.now.kinds < 4294967296 }
    ensures { IfOk result (λ yes. IsTrue yes
        ↔ HasPieces parse.now.grammar parse.now.kinds parts.now start end) }
{
    if parts.is_empty() {
        return Ok(start == end);
    }
    let last = parts.len() - 1;
    let places = run_front(parse, parts, last, start)?;
    Ok(leads_from(parse, parts[last], &places, end))
}
