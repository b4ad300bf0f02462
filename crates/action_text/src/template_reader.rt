//! Reading tokens as a template.
ghost use Rattle.std.specs.Prelude.{◌≡◌, ◌≤◌, true, length, map, slice_range, IfOk, IfErr};
ghost use Rattle.meta_terms.specs.Nodes.{label_of};
ghost use Rattle.action_text.specs.Answers.{token_bytes};
ghost use Rattle.action_text.specs.TemplateAnswers.{IsTemplateOf, IsTemplateError};
ghost use Rattle.action_text.specs.Reading.{FailsAt};
ghost use Rattle.action_text.specs.Texts.{texts};
ghost use Rattle.action_text.specs.declared.template_reader.TemplateError.TheVariants.{Memory};

use crate::preorder::preorder_of;
use crate::reading::{PlaceError, read_labels};
use bumpalo::Bump;
use meta_lex::token::Token;
use meta_lex::token_list::Tokens;
use meta_terms::{Template, TemplateNode};
use std::alloc::{AllocError, Global};
use thiserror::Error;

/// Why tokens are no template.
#[derive(Clone, Copy, Debug, PartialEq, Eq, Drop, Error)]
pub enum TemplateError {
    /// No memory was left.
    #[error("out of memory")]
    Memory,
    /// The first token with which the tokens so far begin no template, or the end of tokens that end
    /// too early.
    #[error("the template goes wrong at token {token}")]
    At {
        /// How many tokens of the list stand before it.
        token: u32,
    },
}

impl From<AllocError> for TemplateError {
    ghost from_gives = { λ _ e. e ≡ Memory };

    fn from(_error: AllocError) -> TemplateError {
        TemplateError::Memory
    }
}

// The nodes, in preorder, of the template that the tokens spell.
fn read_nodes<'t>(alloc: Global, tokens: &[Token<'t>]) -> Result<Vec<TemplateNode<'t>>, PlaceError>
    ensures nodes { IfOk result (λ v. IsTemplateOf (texts tokens.now) (map label_of v.items)) }
    ensures error { IfErr result (λ e. FailsAt true (texts tokens.now) e) }
{
    let labels = read_labels(alloc, tokens, true)?;
    Ok(preorder_of(alloc, labels.as_slice())?)
}

/// Reads the tokens from the one place of the list up to the other as a template, whose list lies in
/// the arena.
///
/// `TemplateError::At` comes exactly where they are none, with the first token with which they begin
/// none, or with `to` where they end too early; `TemplateError::Memory` where no memory is left.
pub fn read_template<'a>(
    alloc: Global,
    arena: &'a Bump,
    tokens: &Tokens<'a>,
    from: u32,
    to: u32,
) -> Result<Template<'a>, TemplateError>
    requires ordered { from ≤ to }
    requires within { to ≤ length tokens.now }
    ensures template { let ts = slice_range (token_bytes tokens.now) from to in
        IfOk result (λ t. IsTemplateOf ts (map label_of t.list.now)) }
    ensures error { IfErr result
        (λ e. IsTemplateError (slice_range (token_bytes tokens.now) from to) from e) }
{
    let list = tokens.list;
    let nodes = match read_nodes(alloc, &list[from as usize..to as usize]) {
        Ok(nodes) => nodes,
        Err(PlaceError::Memory) => return Err(TemplateError::Memory),
        Err(PlaceError::At(place)) => {
            let token = from + place as u32;
            return Err(TemplateError::At { token });
        }
    };
    let list: &'a [TemplateNode<'a>] = arena.try_alloc_slice_copy(nodes.as_slice())?;
    Ok(Template { list })
}
