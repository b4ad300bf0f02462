//! Checked descriptions.
use gram_form::Grammar;
use meta_terms::{Declaration, Equation};
use std::marker::Model;

/// A description whose items meet the rules. The first production's name is the start, and the
/// first function is the main one.
#[derive(Drop)]
pub struct Description<'a> {
    /// The productions, and the literals in them.
    pub grammar: Grammar<'a>,
    /// The functions, each with its nonterminal. There is at least one.
    pub functions: &'a [Declaration<'a>],
    /// The equations.
    pub equations: &'a [Equation<'a>],
}

impl<'a> Model for Description<'a> {
    ghost use Rattle.meta_check.specs.Checked.{IsChecked, PlainDescription, plain_description};

    ghost Value = { PlainDescription };

    ghost view = { λ d. plain_description d.grammar d.functions.now d.equations.now };

    ghost invariant = { λ d. IsChecked (plain_description d.grammar d.functions.now d.equations.now) };
}
