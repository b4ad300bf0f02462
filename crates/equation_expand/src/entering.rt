//! Phrases of a source, with the equations of functions for them.
ghost use Rattle.std.specs.Prelude.{◌≡◌, ◌<◌, length, map, option_map, IfOk, IfErr};
ghost use Rattle.gram_form.specs.Trees.{plain_tree};
ghost use Rattle.source_lex.specs.Lexemes.{plain_lexeme};
ghost use Rattle.meta_check.specs.Checked.{IsChecked};
ghost use Rattle.equation_expand.specs.Kept.{HasWholeTemplates};
ghost use Rattle.equation_expand.specs.Meaning.{lexeme_of};
ghost use Rattle.equation_expand.specs.Seen.{seen_part, IsGapError};
ghost use Rattle.equation_expand.specs.Sources.{expansion_of, meaning_in};
ghost use Rattle.equation_expand.specs.PlainSources.{plain_source};
ghost use Rattle.equation_expand.specs.Frames.{rest_of};

use crate::errors::ExpandError;
use crate::frames::Open;
use crate::source::Source;
use crate::table::{function_number, table_of};
use bumpalo::Bump;
use gram_form::{Tree, TreePart};
use meta_check::{Description, alternatives_of_equations};
use source_lex::{Lexeme, Lexemes};
use std::alloc::{AllocError, Global};

impl<'t> Source<'t> {
    /// The source, with the table of the description's equations. Patterns are copied into the
    /// arena.
    pub fn new(
        alloc: Global,
        arena: &'t Bump,
        description: &'t Description<'t>,
        lexemes: &'t Lexemes<'t>,
        tree: &'t Tree<'t>,
    ) -> Result<Source<'t>, AllocError>
        requires few { length description.now.functions < 4294967296 }
        ensures description { IfOk result (λ s. s.description.now ≡ description.now) }
        ensures lexemes { IfOk result (λ s. map plain_lexeme s.lexemes.now ≡ lexemes.now) }
        ensures tree { IfOk result (λ s. s.tree.now ≡ tree.now) }
        ensures checked { IfOk result (λ s. IsChecked description.now) }
        ensures templates { IfOk result (λ s. HasWholeTemplates description.now.equations) }
    {
        let alternatives = alternatives_of_equations(alloc, arena, description)?;
        let equations = table_of(alloc, description.equations, alternatives.as_slice())?;
        Ok(Source {
            description,
            lexemes: lexemes.list,
            tree,
            equations,
        })
    }

    /// The lexeme that a part is.
    pub fn lexeme(&self, part: Option<TreePart<'_>>) -> Option<Lexeme<'t>>
        ensures { option_map plain_lexeme result
            ≡ lexeme_of (option_map (seen_part (plain_source self.now)) part.entry) }
    {
        match part? {
            TreePart::Word(number) => self.lexemes.get(number as usize).copied(),
            TreePart::Sub(_) => None,
        }
    }

    /// A phrase, of which the template of the function's equation is to be filled.
    /// `ExpandError::Uncovered` comes where there is no equation.
    pub fn enter(&self, function: &'t [u8], tree: &'t Tree<'t>) -> Result<Open<'t>, ExpandError>
        ensures function { IfOk result (λ o. o.function.now ≡ function.now) }
        ensures tree { IfOk result (λ o. o.tree.now ≡ tree.now) }
        ensures left { let s = plain_source self.now in
            IfOk result (λ o. meaning_in s (plain_tree tree.now) function.now ≡ rest_of s o) }
        ensures uncovered { let s = plain_source self.now in
            IfErr result (IsGapError (meaning_in s (plain_tree tree.now) function.now)) }
    {
        let description = self.description;
        match self.equations.get(&(function, tree.alternative as usize)) {
            Some(equation) => Ok(Open {
                function,
                tree,
                equation: *equation,
                next: 0,
            }),
            None => Err(ExpandError::Uncovered {
                function: function_number(description.functions, function),
                production: tree.production,
                alternative: tree.alternative,
            }),
        }
    }

    /// The tree of the source, by the main function.
    pub fn root(&self) -> Result<Open<'t>, ExpandError>
        ensures tree { IfOk result (λ o. plain_tree o.tree.now ≡ (plain_source self.now).tree) }
        ensures function { let s = plain_source self.now in
            IfOk result (λ o. meaning_in s s.tree o.function.now ≡ expansion_of s) }
        ensures left { let s = plain_source self.now in
            IfOk result (λ o. expansion_of s ≡ rest_of s o) }
        ensures uncovered { IfErr result (IsGapError (expansion_of (plain_source self.now))) }
    {
        let description = self.description;
        self.enter(description.functions[0].function, self.tree)
    }
}
