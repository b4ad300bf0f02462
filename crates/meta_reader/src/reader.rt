//! Reading the items of a description.
ghost use Rattle.std.specs.Prelude.{◌≡◌, ◌<◌, ◌≤◌, ◌++◌, length, List, map, option_map, IfOk, IfErr, IsTrue, OnOk, ◌↔◌};
ghost use Rattle.meta_reader.specs.declared.phase.Phase.TheVariants.{Ended};
ghost use Rattle.std.specs.Option.{option_to_list};
ghost use Rattle.std.specs.List.{prefix_len};
ghost use Rattle.meta_terms.specs.PlainItems.{PlainItem, plain_item};
ghost use Rattle.action_text.specs.Answers.{token_bytes};
ghost use Rattle.meta_reader.specs.Descriptions.{IsDescription};
ghost use Rattle.meta_reader.specs.Parsing.{is_inside};
ghost use Rattle.meta_reader.specs.ReadErrors.{IsReadError};
ghost use Rattle.meta_reader.specs.declared.reader.ReadError.TheVariants.{Memory};

use crate::phase::Phase;
use crate::runs::read_run;
use crate::single::is_token;
use bumpalo::Bump;
use meta_lex::token::Token;
use meta_lex::token_list::Tokens;
use meta_terms::{Item, Items};
use std::alloc::{AllocError, AllocFailed, Global};
use thiserror::Error;

/// Why tokens are those of no description.
#[derive(Clone, Copy, Debug, PartialEq, Eq, Drop, Error)]
pub enum ReadError {
    /// No memory was left.
    #[error("out of memory")]
    Memory,
    /// The first run with which the runs so far begin no description. A run ends before each full
    /// stop; what stands behind the last one is such a run, and where the runs end before `end` it
    /// is the one that is missing.
    #[error("item {index} is none of a description")]
    BadItem {
        /// The number of the run, from 0.
        index: u32,
    },
}

impl From<AllocError> for ReadError {
    ghost from_gives = { λ _ e. e ≡ Memory };

    fn from(_error: AllocError) -> ReadError {
        ReadError::Memory
    }
}

impl<T: Drop> From<AllocFailed<T>> for ReadError {
    ghost from_gives = { λ _ e. e ≡ Memory };

    fn from(_error: AllocFailed<T>) -> ReadError {
        ReadError::Memory
    }
}

// Tells whether a description may stop here.
fn is_ended(phase: Phase) -> bool
    ensures { IsTrue result ↔ (phase ≡ Ended) }
{
    match phase {
        Phase::Ended => true,
        Phase::Heading | Phase::Productions | Phase::Equations => false,
    }
}

// How many tokens stand before the first full stop.
fn run_length(rest: &[Token<'_>]) -> usize
    ensures value { result ≡ prefix_len is_inside rest.now }
    ensures within { result ≤ length rest.now }
{
    rest.iter()
        .take_while(|token| !is_token(token, b"."))
        .count()
}

// One more item, where there is one.
fn push_item<'a>(items: &mut Vec<Item<'a>>, item: Option<Item<'a>>) -> Result<(), AllocError>
    ensures { let more = option_to_list (option_map plain_item item.entry) in
        OnOk result (map plain_item items.new.items ≡ map plain_item items.old.items ++ more) }
{
    if let Some(item) = item {
        items.push(item)?;
    }
    Ok(())
}

/// Reads the items of a description, which lie in the arena.
///
/// Unless `ReadError::Memory` is answered, where no memory is left, `ReadError::BadItem` comes
/// exactly where the tokens are those of no description, with the first run with which the runs so
/// far begin none.
pub fn read<'a>(alloc: Global, arena: &'a Bump, tokens: &Tokens<'a>) -> Result<Items<'a>, ReadError>
    requires { length tokens.now < 4294967295 }
    ensures items { IfOk result (λ items. IsDescription (token_bytes tokens.now) items) }
    ensures no_others { let all = token_bytes tokens.now in
        IfOk result (λ items. (others : List PlainItem) → IsDescription all others → others ≡ items) }
    ensures error { IfErr result (λ e. IsReadError (token_bytes tokens.now) e) }
{
    let list = tokens.list;
    let mut items = Vec::new(alloc);
    let mut phase = Phase::Heading;
    let mut index = 0;
    let mut at = 0;
    while at < list.len() {
        let stop = at + run_length(&list[at..]);
        if stop == list.len() {
            return Err(ReadError::BadItem { index });
        }
        let Some(step) = read_run(alloc, arena, phase, tokens, at as u32, stop as u32)? else {
            return Err(ReadError::BadItem { index });
        };
        push_item(&mut items, step.item)?;
        phase = step.next;
        index += 1;
        at = stop + 1;
    }
    if !is_ended(phase) {
        return Err(ReadError::BadItem { index });
    }
    let list: &'a [Item<'a>] = arena.try_alloc_slice_copy(items.as_slice())?;
    Ok(Items { list })
}
