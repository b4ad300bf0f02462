//! Grammars.
ghost use Rattle.std.specs.Prelude.{◌≡◌, ◌∷◌, map, fold, IfOk, IfErr};
ghost use Rattle.gram_form.specs.Plain.{texts, plain_production};
ghost use Rattle.gram_form.specs.Grammars.{IsGrammar, HaveDistinctNames, HaveSame, names_of};
ghost use Rattle.gram_form.specs.GrammarErrors.{AreFew, IsGramError};

use crate::copying::copy_productions;
use crate::errors::GramError;
use crate::literals::Literals;
use crate::part::Production;
use crate::undefined::{FoundPart, first_undefined};
use bumpalo::Bump;
use std::alloc::{AllocError, Global};
use std::collections::BTreeSet;
use std::marker::Model;

/// A grammar: productions with distinct names, in which every nonterminal has a production. The
/// number of a nonterminal is the place of its production, and that of a literal its place among the
/// literals.
#[derive(Drop)]
pub struct Grammar<'a> {
    /// The productions.
    pub productions: &'a [Production<'a>],
    /// The literals of the productions, each once, in the order of their first places.
    pub literals: &'a [&'a [u8]],
}

impl<'a> Model for Grammar<'a> {
    ghost use Rattle.gram_form.specs.Plain.{PlainGrammar, plain_grammar};
    ghost use Rattle.gram_form.specs.Grammars.{IsGrammar};

    ghost Value = { PlainGrammar };

    ghost view = { λ g. plain_grammar g.productions.now g.literals.now };

    ghost invariant = { λ g. IsGrammar (plain_grammar g.productions.now g.literals.now) };
}

// The names of productions.
fn names_of<'t>(alloc: Global, list: &[Production<'t>]) -> Result<BTreeSet<&'t [u8]>, AllocError>
    ensures { let all = names_of (map plain_production list.now) in
        IfOk result (λ names. HaveSame (texts names.keys) all) }
{
    let mut names = BTreeSet::new(alloc);
    for production in list {
        names.insert(production.name)?;
    }
    Ok(names)
}

impl<'a> Grammar<'a> {
    /// The grammar of productions with distinct names, copied into the arena.
    ///
    /// Unless `GramError::Memory` is answered, where no memory is left, `GramError::Empty` comes
    /// exactly where there is no production, and `GramError::Undefined` exactly where a nonterminal
    /// has none, with the first one.
    pub fn build(
        alloc: Global,
        arena: &'a Bump,
        list: &[Production<'_>],
    ) -> Result<Grammar<'a>, GramError>
        requires distinct { HaveDistinctNames (map plain_production list.now) }
        requires few { AreFew (map plain_production list.now) }
        ensures grammar { IfOk result (λ g. IsGrammar g) }
        ensures productions { IfOk result (λ g. g.productions ≡ map plain_production list.now) }
        ensures error { IfErr result (λ e. IsGramError (map plain_production list.now) e) }
    {
        if list.is_empty() {
            return Err(GramError::Empty);
        }
        let names = names_of(alloc, list)?;
        if let Some(found) = first_undefined(list, &names) {
            return Err(GramError::Undefined {
                production: found.production as u32,
                alternative: found.alternative as u32,
                part: found.part as u32,
            });
        }
        let mut noted = Literals::new(alloc);
        let productions = copy_productions(arena, list, &mut noted)?;
        let literals: &'a [&'a [u8]] = arena.try_alloc_slice_copy(noted.as_slice())?;
        Ok(Grammar {
            productions,
            literals,
        })
    }
}
