//! Tokens with a mark on those that something asks for.
ghost use Rattle.std.specs.Prelude.{◌≡◌, ◌++◌, [], IfOk, OnOk};
ghost use Rattle.sort_rules.specs.Measures.{has_token};
ghost use Rattle.sort_rules.specs.Parts.{same_token};
ghost use Rattle.sort_rules.specs.Shapes.{domain};
ghost use Rattle.sort_rules.specs.Views.{binds_of};
ghost use Rattle.binding_capture.specs.Asked.{tokens_of};
ghost use Rattle.binding_capture.specs.Captures.{asked_of, marked_of, marks, with_asked};

use acg_base::Memory;
use bumpalo::Bump;
use bumpalo::collections::into_bump_slice;
use sort_rules::BindSort;
use std::alloc::Global;

/// A token of the bindings that a body receives, and whether something asks for it.
#[derive(Clone, Copy)]
pub(crate) struct Candidate<'a> {
    /// The token.
    pub(crate) token: &'a [u8],
    /// Whether something asks for it.
    pub(crate) asked: bool,
}

// whether two tokens are the same
fn same_token(first: &[u8], second: &[u8]) -> bool
    ensures { result ≡ same_token first.now second.now }
{
    first == second
}

// whether the token stands in the list
fn has_token(tokens: &[&[u8]], token: &[u8]) -> bool
    ensures { result ≡ has_token token.now (tokens_of tokens.now) }
{
    for i in 0..tokens.len() {
        if same_token(token, tokens[i]) {
            return true;
        }
    }
    false
}

/// Puts the domain of bindings behind a list.
pub(crate) fn push_domain<'a>(tokens: &mut Vec<&'a [u8]>, sort: BindSort<'a>) -> Result<(), Memory>
    ensures { OnOk result (tokens_of tokens.new.items ≡ tokens_of tokens.old.items
        ++ domain (binds_of sort.entry)) }
{
    if let BindSort::Map(pairs) = sort {
        for i in 0..pairs.len() {
            let pair = pairs[i];
            tokens.push(pair.0)?;
        }
    }
    Ok(())
}

/// Tokens for none of which anything asks yet.
pub(crate) fn unmarked<'a>(alloc: Global, tokens: &[&'a [u8]]) -> Result<Vec<Candidate<'a>>, Memory>
    ensures { IfOk result (λ cs. marked_of cs.items ≡ marks (tokens_of tokens.now) []) }
{
    let mut candidates = Vec::new(alloc);
    for i in 0..tokens.len() {
        candidates.push(Candidate {
            token: tokens[i],
            asked: false,
        })?;
    }
    Ok(candidates)
}

/// The tokens, with a mark on these too.
pub(crate) fn with_asked<'a>(
    alloc: Global,
    candidates: &[Candidate<'a>],
    asked: &[&[u8]],
) -> Result<Vec<Candidate<'a>>, Memory>
    ensures { IfOk result (λ cs. marked_of cs.items
        ≡ with_asked (tokens_of asked.now) (marked_of candidates.now)) }
{
    let mut marked = Vec::new(alloc);
    for i in 0..candidates.len() {
        let candidate = candidates[i];
        let asked = has_token(asked, candidate.token) || candidate.asked;
        marked.push(Candidate {
            token: candidate.token,
            asked,
        })?;
    }
    Ok(marked)
}

/// The tokens with a mark, in their order.
pub(crate) fn marked_tokens<'a>(
    arena: &'a Bump,
    candidates: &[Candidate<'_>],
) -> Result<&'a [&'a [u8]], Memory>
    ensures { IfOk result (λ ts. tokens_of ts.now ≡ asked_of (marked_of candidates.now)) }
{
    let mut tokens: Vec<&'a [u8], &'a Bump> = Vec::new(arena);
    for i in 0..candidates.len() {
        let candidate = candidates[i];
        if candidate.asked {
            let token = arena.try_alloc_slice_copy(candidate.token)?;
            tokens.push(token)?;
        }
    }
    Ok(into_bump_slice(tokens))
}
