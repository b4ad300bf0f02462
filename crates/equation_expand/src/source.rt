//! A source with its tree, and the table of the equations of its language.
ghost use Rattle.std.specs.Prelude.{◌<◌, length};
ghost use Rattle.equation_expand.specs.Sources.{TellEquations};

use gram_form::Tree;
use meta_check::Description;
use meta_terms::Equation;
use source_lex::Lexeme;
use std::collections::BTreeMap;

/// A checked description with a table of its equations, and the lexemes of a source with their
/// tree.
#[derive(Drop)]
pub struct Source<'t> {
    /// The description.
    pub description: &'t Description<'t>,
    /// The lexemes.
    pub lexemes: &'t [Lexeme<'t>],
    /// The tree over the lexemes.
    pub tree: &'t Tree<'t>,
    /// The equations by their functions and the numbers of their alternatives.
    pub equations: BTreeMap<(&'t [u8], usize), Equation<'t>>,
    // The table has the equation of each function for each alternative.
    pub ghost told: { TellEquations description.now equations.entries },
    // The functions have numbers of 32 bits.
    pub ghost few: { length description.now.functions < 4294967296 },
}
