//! Items of a description.

use crate::template::Template;
use gram_form::{Part, Production};
use std::marker::Model;

/// `f _ : Name`: the function gives each phrase of the nonterminal an action.
#[derive(Clone, Copy, Debug)]
pub struct Declaration<'a> {
    /// The name of the function.
    pub function: &'a [u8],
    /// The name of the nonterminal.
    pub nonterminal: &'a [u8],
}

/// A part of a pattern, with a variable or without.
#[derive(Clone, Copy, Debug)]
pub struct PatternPart<'a> {
    /// The variable that stands for the part. A literal has none.
    pub variable: Option<&'a [u8]>,
    /// The part.
    pub part: Part<'a>,
}

/// `f [[ pattern ]] = Action`: the action that the function gives phrases of the pattern.
#[derive(Clone, Copy, Debug)]
pub struct Equation<'a> {
    /// The name of the function.
    pub function: &'a [u8],
    /// The parts of the pattern.
    pub pattern: &'a [PatternPart<'a>],
    /// The action.
    pub action: Template<'a>,
}

/// An item.
#[derive(Clone, Copy, Debug)]
pub enum Item<'a> {
    /// A production.
    Production(Production<'a>),
    /// A declaration.
    Declaration(Declaration<'a>),
    /// An equation.
    Equation(Equation<'a>),
}

/// The items of a description, in the order of the text. Contracts see them without their places in
/// memory.
#[derive(Drop)]
pub struct Items<'a> {
    /// The items.
    pub list: &'a [Item<'a>],
}

impl<'a> Model for Items<'a> {
    ghost use Rattle.std.specs.Prelude.{List, map};
    ghost use Rattle.meta_terms.specs.PlainItems.{PlainItem, plain_item};

    ghost Value = { List PlainItem };

    ghost view = { λ items. map plain_item items.list.now };
}
