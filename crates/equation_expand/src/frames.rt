//! Phrases whose templates are being filled, node by node.
ghost use Rattle.std.specs.Prelude.{◌≡◌, ◌<◌, ◌+◌, ◌++◌, ◌∷◌, [], length, Err, IfOk, IfErr, OnOk};
ghost use Rattle.equation_expand.specs.Meaning.{Meaning, Misfit};
ghost use Rattle.equation_expand.specs.Seen.{IsGapError};
ghost use Rattle.equation_expand.specs.PlainSources.{plain_source};
ghost use Rattle.equation_expand.specs.Frames.{IsNext, rest_of, rest_after};

use crate::errors::ExpandError;
use crate::filled::{Filled, stands_for};
use crate::source::Source;
use gram_form::Tree;
use meta_terms::Equation;

/// A phrase whose template is being filled.
#[derive(Clone, Copy)]
pub struct Open<'t> {
    /// The function whose meaning of the phrase it is.
    pub function: &'t [u8],
    /// The phrase.
    pub tree: &'t Tree<'t>,
    /// The function's equation for the alternative of the phrase.
    pub equation: Equation<'t>,
    /// How many nodes of the template are filled.
    pub next: usize,
}

impl<'t> Open<'t> {
    /// What stands for the next node, and nothing behind the last one. `ExpandError::BigNumeral`
    /// comes where that is a numeral whose value passes 64 signed bits.
    pub fn next_in(&self, source: &Source<'t>) -> Result<Option<Filled<'t>>, ExpandError>
        requires fit { rest_of (plain_source source.now) self.now ≡ Err Misfit → ⊥ }
        ensures next { IfOk result (IsNext (plain_source source.now) self.now) }
        ensures large { IfErr result (IsGapError (rest_of (plain_source source.now) self.now)) }
    {
        let Some(node) = self.equation.action.list.get(self.next) else {
            return Ok(None);
        };
        match stands_for(source, &self.equation, self.tree, node) {
            Ok(Some(item)) => Ok(Some(item)),
            Ok(None) => unreachable!(),
            Err(error) => Err(error),
        }
    }

    /// The phrase with one node more filled.
    pub fn after(self) -> Open<'t>
        requires { self.next < length self.equation.action.list.now }
        ensures equation { result.equation ≡ self.entry.equation }
        ensures function { result.function.now ≡ self.entry.function.now }
        ensures tree { result.tree.now ≡ self.entry.tree.now }
        ensures next { result.next ≡ self.entry.next + 1 }
    {
        Open {
            function: self.function,
            tree: self.tree,
            equation: self.equation,
            next: self.next + 1,
        }
    }
}

/// Puts a phrase on top of a stack.
pub fn push_open<'t>(stack: &mut Vec<Open<'t>>, phrase: Open<'t>) -> Result<(), ExpandError>
    ensures pushed { OnOk result (stack.new.items ≡ stack.old.items ++ phrase.entry ∷ []) }
    ensures memory { (m : Meaning) → IfErr result (IsGapError m) }
{
    stack.push(phrase)?;
    Ok(())
}
