//! Reading and checking the description of a language.

ghost use Rattle.std.specs.Prelude.{IfOk, IfErr};
ghost use Rattle.acg_driver.specs.Descriptions.{Describes};
ghost use Rattle.acg_driver.specs.Sources.{RefusesDescription};

use crate::sources::SourceError;
use acg_base::LIMIT_DESCRIPTION;
use bumpalo::Bump;
use meta_check::{Description, MetaError, check};
use meta_lex::lex::{LexError, tokens};
use meta_reader::reader::{ReadError, read};
use std::alloc::Global;

/// Reads and checks a description, which lies in the arena. `alloc` is for what is given back before the answer.
///
/// The errors that come are `SourceError::Memory` and those from `SourceError::LimitDescription` to
/// `SourceError::DescriptionRule`, each only where none before it does.
pub(crate) fn read_description<'a>(
    alloc: Global,
    arena: &'a Bump,
    bytes: &[u8],
) -> Result<Description<'a>, SourceError>
    ensures description { IfOk result (λ d. Describes bytes.now d) }
    ensures refused { IfErr result (RefusesDescription bytes.now) }
{
    if bytes.len() > LIMIT_DESCRIPTION as usize {
        return Err(SourceError::LimitDescription);
    }
    let tokens = match tokens(alloc, arena, bytes) {
        Ok(tokens) => tokens,
        Err(LexError::Memory) => return Err(SourceError::Memory),
        Err(LexError::BadByte { offset }) => return Err(SourceError::DescriptionByte { offset }),
    };
    let items = match read(alloc, arena, &tokens) {
        Ok(items) => items,
        Err(ReadError::Memory) => return Err(SourceError::Memory),
        Err(ReadError::BadItem { index }) => return Err(SourceError::DescriptionItem { index }),
    };
    match check(alloc, arena, items) {
        Ok(description) => Ok(description),
        Err(MetaError::Memory) => Err(SourceError::Memory),
        Err(MetaError::Rule { rule, item }) => Err(SourceError::DescriptionRule { rule, item }),
    }
}
