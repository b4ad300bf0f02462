//! The run of a description, in its phase.
ghost use Rattle.std.specs.Prelude.{◌≡◌, ◌∷◌, ◌≤◌, codes, length, option_map, slice_range, IfOk, IsTrue, [], ◌↔◌};
ghost use Rattle.meta_terms.specs.PlainItems.{plain_item};
ghost use Rattle.action_text.specs.Answers.{token_bytes};
ghost use Rattle.action_text.specs.Texts.{texts};
ghost use Rattle.meta_reader.specs.ItemForms.{IsOfGrammar};
ghost use Rattle.meta_reader.specs.Parsing.{Finds, begins_with};
ghost use Rattle.meta_reader.specs.Steps.{FindsStep, plain_step, step_by};
ghost use Rattle.meta_reader.specs.declared.phase.Phase.TheVariants.{Heading, Productions, Equations};

use crate::alternatives::read_production;
use crate::phase::Phase;
use crate::rules::read_rule;
use crate::single::is_token;
use bumpalo::Bump;
use meta_lex::token::Token;
use meta_lex::token_list::Tokens;
use meta_terms::Item;
use std::alloc::{AllocError, Global};

/// A run of a description: its item, where it has one, and the phase behind it.
#[derive(Clone, Copy)]
pub struct Step<'a> {
    pub item: Option<Item<'a>>,
    pub next: Phase,
}

// Tells whether a run begins with a word.
fn begins_with(run: &[Token<'_>], word: &[u8]) -> bool
    ensures { result ≡ begins_with word.now (texts run.now) }
{
    match run {
        [first, ..] => is_token(first, word),
        [] => false,
    }
}

// Tells whether a run is `end` alone.
fn is_end(run: &[Token<'_>]) -> bool
    ensures { IsTrue result ↔ (texts run.now ≡ codes "end" ∷ []) }
{
    run.len() == 1 && begins_with(run, b"end")
}

// The step to a phase by an item, where there is one.
fn step_to<'a>(item: Option<Item<'a>>, next: Phase) -> Option<Step<'a>>
    ensures { let read = option_map plain_item item.entry in
        option_map plain_step result ≡ option_map (step_by next) read }
{
    match item {
        Some(item) => Some(Step {
            item: Some(item),
            next,
        }),
        None => None,
    }
}

// The production that the tokens from the one place to the other are.
fn production_at<'a>(
    alloc: Global,
    arena: &'a Bump,
    tokens: &Tokens<'a>,
    from: u32,
    to: u32,
) -> Result<Option<Item<'a>>, AllocError>
    requires ordered { from ≤ to }
    requires within { to ≤ length tokens.now }
    ensures { let run = slice_range (token_bytes tokens.now) from to in
        IfOk result (λ o. Finds (IsOfGrammar run) (option_map plain_item o)) }
{
    let list = tokens.list;
    match read_production(alloc, arena, &list[from as usize..to as usize])? {
        Some(production) => Ok(Some(Item::Production(production))),
        None => Ok(None),
    }
}

// The first run: `grammar`, and a production.
fn read_heading<'a>(
    alloc: Global,
    arena: &'a Bump,
    tokens: &Tokens<'a>,
    from: u32,
    to: u32,
) -> Result<Option<Step<'a>>, AllocError>
    requires ordered { from ≤ to }
    requires within { to ≤ length tokens.now }
    ensures { let run = slice_range (token_bytes tokens.now) from to in
        IfOk result (λ o. FindsStep Heading run (option_map plain_step o)) }
{
    let list = tokens.list;
    if !begins_with(&list[from as usize..to as usize], b"grammar") {
        return Ok(None);
    }
    let item = production_at(alloc, arena, tokens, from + 1, to)?;
    Ok(step_to(item, Phase::Productions))
}

// A run behind a production: another one, or `semantics` and a declaration or an equation.
fn read_next<'a>(
    alloc: Global,
    arena: &'a Bump,
    tokens: &Tokens<'a>,
    from: u32,
    to: u32,
) -> Result<Option<Step<'a>>, AllocError>
    requires ordered { from ≤ to }
    requires within { to ≤ length tokens.now }
    ensures { let run = slice_range (token_bytes tokens.now) from to in
        IfOk result (λ o. FindsStep Productions run (option_map plain_step o)) }
{
    let list = tokens.list;
    if begins_with(&list[from as usize..to as usize], b"semantics") {
        let item = read_rule(alloc, arena, tokens, from + 1, to)?;
        return Ok(step_to(item, Phase::Equations));
    }
    let item = production_at(alloc, arena, tokens, from, to)?;
    Ok(step_to(item, Phase::Productions))
}

// A run behind a declaration or an equation: another one, or `end`.
fn read_last<'a>(
    alloc: Global,
    arena: &'a Bump,
    tokens: &Tokens<'a>,
    from: u32,
    to: u32,
) -> Result<Option<Step<'a>>, AllocError>
    requires ordered { from ≤ to }
    requires within { to ≤ length tokens.now }
    ensures { let run = slice_range (token_bytes tokens.now) from to in
        IfOk result (λ o. FindsStep Equations run (option_map plain_step o)) }
{
    let list = tokens.list;
    if is_end(&list[from as usize..to as usize]) {
        return Ok(Some(Step {
            item: None,
            next: Phase::Ended,
        }));
    }
    let item = read_rule(alloc, arena, tokens, from, to)?;
    Ok(step_to(item, Phase::Equations))
}

/// The run that the tokens from the one place to the other are in a phase, or none where they are
/// none there.
pub fn read_run<'a>(
    alloc: Global,
    arena: &'a Bump,
    phase: Phase,
    tokens: &Tokens<'a>,
    from: u32,
    to: u32,
) -> Result<Option<Step<'a>>, AllocError>
    requires ordered { from ≤ to }
    requires within { to ≤ length tokens.now }
    ensures { let run = slice_range (token_bytes tokens.now) from to in
        IfOk result (λ o. FindsStep phase run (option_map plain_step o)) }
{
    match phase {
        Phase::Heading => read_heading(alloc, arena, tokens, from, to),
        Phase::Productions => read_next(alloc, arena, tokens, from, to),
        Phase::Equations => read_last(alloc, arena, tokens, from, to),
        Phase::Ended => Ok(None),
    }
}
