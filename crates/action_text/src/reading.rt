//! Reading tokens as an action text: one loop over a stack of what is still expected.
ghost use Rattle.std.specs.Prelude.{◌≡◌, ◌↔◌, map, IsTrue, OnOk, OnErr, IfErr, MatchResult};
ghost use Rattle.meta_terms.specs.Nodes.{label_of};
ghost use Rattle.action_text.specs.Numbers.{class_number};
ghost use Rattle.action_text.specs.Rows.{StandsAt};
ghost use Rattle.action_text.specs.Reading.{AreLabelsOf, FailsAt};
ghost use Rattle.action_text.specs.Texts.{texts};
ghost use Rattle.action_text.specs.declared.reading.PlaceError.TheVariants.{Memory, At};

use crate::classes::Class;
use crate::lookup::{find_other, push_reversed, row_at};
use crate::names::Name;
use crate::notes::{Note, follow, keep_if};
use crate::table::Symbol;
use crate::token_class::classes_of;
use meta_lex::token::Token;
use meta_terms::TemplateNode;
use std::alloc::{AllocError, AllocFailed, Global};

/// Why tokens are no action text.
#[derive(Clone, Copy, Debug, PartialEq, Eq, Drop)]
pub enum PlaceError {
    /// No memory was left.
    Memory,
    /// The place of the first token with which the tokens so far begin no action text, or the
    /// number of tokens where they end too early.
    At(usize),
}

impl From<AllocError> for PlaceError {
    ghost from_gives = { λ _ e. e ≡ Memory };

    fn from(_error: AllocError) -> PlaceError {
        PlaceError::Memory
    }
}

impl<T: Drop> From<AllocFailed<T>> for PlaceError {
    ghost from_gives = { λ _ e. e ≡ Memory };

    fn from(_error: AllocFailed<T>) -> PlaceError {
        PlaceError::Memory
    }
}

// Whether a token of the class stands at the place.
fn is_at(classes: &[Class], at: usize, class: Class) -> bool
    ensures { IsTrue result ↔ StandsAt (map class_number classes.now) at (class_number class) }
{
    at < classes.len() && classes[at].is(class)
}

// Refuses the place where no token of the class stands there.
fn expect(classes: &[Class], at: usize, class: Class) -> Result<(), PlaceError>
    ensures there { OnOk result (StandsAt (map class_number classes.now) at (class_number class)) }
    ensures missing { OnErr result
        (¬ (StandsAt (map class_number classes.now) at (class_number class))) }
    ensures place { IfErr result (λ e. e ≡ At at) }
{
    if is_at(classes, at, class) {
        Ok(())
    } else {
        Err(PlaceError::At(at))
    }
}

/// The labels, in postorder, of the action that the tokens spell.
pub fn read_labels<'t>(
    alloc: Global,
    tokens: &[Token<'t>],
    parameters: bool,
) -> Result<Vec<TemplateNode<'t>>, PlaceError>
    ensures { MatchResult result
        (λ labels. AreLabelsOf parameters (texts tokens.now) (map label_of labels.items))
        (λ e. FailsAt parameters (texts tokens.now) e) }
{
    let list = classes_of(alloc, tokens, parameters)?;
    let classes = list.as_slice();
    let mut stack = Vec::new(alloc);
    stack.push(Symbol::Name(Name::Action))?;
    let mut notes: Vec<Note<'t>> = Vec::new(alloc);
    let mut labels: Vec<TemplateNode<'t>> = Vec::new(alloc);
    let mut at = 0;
    while let Some(top) = stack.pop() {
        match top {
            Symbol::Emit(mark) => follow(mark, &mut notes, &mut labels)?,
            Symbol::Read(class) => {
                expect(classes, at, class)?;
                at += 1;
            }
            Symbol::Keep(class) => {
                expect(classes, at, class)?;
                keep_if(&mut notes, true, tokens[at].bytes)?;
                at += 1;
            }
            Symbol::Name(name) => {
                if let Some(row) = row_at(classes, at, name) {
                    keep_if(&mut notes, row.keeps, tokens[at].bytes)?;
                    at += 1;
                    push_reversed(&mut stack, row.right)?;
                } else if let Some(other) = find_other(name) {
                    push_reversed(&mut stack, other.right)?;
                } else {
                    return Err(PlaceError::At(at));
                }
            }
        }
    }
    if at == tokens.len() {
        Ok(labels)
    } else {
        Err(PlaceError::At(at))
    }
}
