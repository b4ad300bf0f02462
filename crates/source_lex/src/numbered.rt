//! Grammars with numbers in the place of names and literals.
ghost use Rattle.std.specs.Prelude.{◌≡◌, ◌<◌, IfOk, length, map};
ghost use Rattle.gram_form.specs.Plain.{texts, plain_part, plain_alternative, plain_production};
ghost use Rattle.gram_form.specs.Grammars.{names_of, HaveDistinctNames};
ghost use Rattle.source_lex.specs.Numbered.{symbol_of, alternatives_of, numbered, plain_alternatives, plain_numbered};

use crate::lexeme::LexKind;
use crate::places::{place_of, places};
use bumpalo::Bump;
use bumpalo::collections::into_bump_slice;
use gram_form::{Grammar, Part, Production};
use indexmap::IndexSet;
use std::alloc::{AllocError, Global};
use std::marker::Model;

/// A part of an alternative.
#[derive(Clone, Copy, Debug, PartialEq, Eq)]
pub enum Symbol {
    /// A lexeme of that kind.
    Word(LexKind),
    /// A phrase of the nonterminal with this number.
    Phrase(u32),
}

/// A grammar, with numbers for its nonterminals and literals. Contracts see its alternatives as lists.
#[derive(Drop)]
pub struct NumberedGrammar<'a> {
    /// The alternatives of each nonterminal, by its number.
    pub nonterminals: &'a [&'a [&'a [Symbol]]],
}

impl<'a> Model for NumberedGrammar<'a> {
    ghost use Rattle.source_lex.specs.Numbered.{Numbered, plain_numbered};

    ghost Value = { Numbered };

    ghost view = { λ g. plain_numbered g.nonterminals.now };
}

// The names of nonterminals and the literals, each by its bytes.
#[derive(Drop)]
struct Numbers<'g> {
    names: IndexSet<&'g [u8]>,
    literals: IndexSet<&'g [u8]>,
}

impl Numbers<'_> {
    // The symbol of a part.
    fn symbol(&self, part: Part<'_>) -> Symbol
        requires names { length self.now.names.keys < 4294967296 }
        requires literals { length self.now.literals.keys < 4294967296 }
        ensures { result ≡ symbol_of (texts self.now.names.keys) (texts self.now.literals.keys) (plain_part part.entry) }
    {
        match part {
            Part::Literal(bytes) => Symbol::Word(LexKind::Literal(place_of(&self.literals, bytes))),
            Part::Nonterm(name) => Symbol::Phrase(place_of(&self.names, name)),
            Part::Identifier => Symbol::Word(LexKind::Identifier),
            Part::Numeral => Symbol::Word(LexKind::Numeral),
        }
    }

    // The symbols of an alternative.
    fn symbols<'a>(&self, arena: &'a Bump, parts: &[Part<'_>]) -> Result<&'a [Symbol], AllocError>
        requires names { length self.now.names.keys < 4294967296 }
        requires literals { length self.now.literals.keys < 4294967296 }
        ensures { IfOk result (λ r. r.now ≡ map (symbol_of (texts self.now.names.keys)
            (texts self.now.literals.keys)) (map plain_part parts.now)) }
    {
        let mut list = Vec::with_capacity(arena, parts.len())?;
        for part in parts {
            list.push(self.symbol(*part))?;
        }
        Ok(into_bump_slice(list))
    }

    // The alternatives of a production.
    fn alternatives<'a>(
        &self,
        arena: &'a Bump,
        production: &Production<'_>,
    ) -> Result<&'a [&'a [Symbol]], AllocError>
        requires names { length self.now.names.keys < 4294967296 }
        requires literals { length self.now.literals.keys < 4294967296 }
        ensures { IfOk result (λ r. plain_alternatives r ≡ alternatives_of (texts self.now.names.keys)
            (texts self.now.literals.keys) (plain_production production.now)) }
    {
        let mut list = Vec::with_capacity(arena, production.alternatives.len())?;
        for parts in production.alternatives {
            list.push(self.symbols(arena, parts)?)?;
        }
        Ok(into_bump_slice(list))
    }

    // The alternatives of all productions.
    fn nonterminals<'a>(
        &self,
        arena: &'a Bump,
        productions: &[Production<'_>],
    ) -> Result<&'a [&'a [&'a [Symbol]]], AllocError>
        requires names { length self.now.names.keys < 4294967296 }
        requires literals { length self.now.literals.keys < 4294967296 }
        ensures { IfOk result (λ r. plain_numbered r.now ≡ map (alternatives_of (texts self.now.names.keys)
            (texts self.now.literals.keys)) (map plain_production productions.now)) }
    {
        let mut list = Vec::with_capacity(arena, productions.len())?;
        for production in productions {
            list.push(self.alternatives(arena, production)?)?;
        }
        Ok(into_bump_slice(list))
    }
}

// The names of productions.
fn names<'g>(alloc: Global, list: &[Production<'g>]) -> Result<IndexSet<&'g [u8]>, AllocError>
    requires { HaveDistinctNames (map plain_production list.now) }
    ensures { IfOk result (λ r. texts r.keys ≡ names_of (map plain_production list.now)) }
{
    let mut names = IndexSet::new(alloc);
    for production in list {
        names.insert(production.name)?;
    }
    Ok(names)
}

impl<'a> NumberedGrammar<'a> {
    /// The grammar with numbers: a nonterminal's is the place of its production, and a literal's the
    /// place among the literals of the grammar. The lists lie in the arena.
    pub fn new(
        alloc: Global,
        arena: &'a Bump,
        grammar: &Grammar<'_>,
    ) -> Result<NumberedGrammar<'a>, AllocError>
        requires productions { length grammar.now.productions < 4294967296 }
        requires literals { length grammar.now.literals < 4294967296 }
        ensures { IfOk result (λ g. g ≡ numbered grammar.now) }
    {
        let numbers = Numbers {
            names: names(alloc, grammar.productions)?,
            literals: places(alloc, grammar.literals)?,
        };
        Ok(NumberedGrammar {
            nonterminals: numbers.nonterminals(arena, grammar.productions)?,
        })
    }
}
