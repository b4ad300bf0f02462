//! Bytes that are read as an action.

ghost use Rattle.std.specs.Prelude.{IfOk, IfErr};
ghost use Rattle.acg_driver.specs.Texts.{Reads, RefusesText};

use acg_base::LIMIT_ACTION;
use acg_words::Line;
use action_terms::Graph;
use action_text::action_reader::read_action;
use action_text::errors::TextError;
use bumpalo::Bump;
use std::alloc::Global;

/// Reads bytes as an action, and answers its graph, which lies in the arena, or the line with which they are refused.
pub fn read_graph<'a>(alloc: Global, arena: &'a Bump, bytes: &[u8]) -> Result<Graph<'a>, Line>
    ensures graph { IfOk result (λ g. Reads bytes.now g) }
    ensures refusal { IfErr result (λ line. RefusesText bytes.now line) }
{
    if bytes.len() > LIMIT_ACTION as usize {
        return Err(Line::LimitAction);
    }
    match read_action(alloc, arena, bytes) {
        Ok(graph) => Ok(graph),
        Err(TextError::Memory) => Err(Line::Memory),
        Err(TextError::BadByte { offset }) => Err(Line::ActionByte { offset }),
        Err(TextError::NotAction { offset }) => Err(Line::ActionText { offset }),
        Err(TextError::Nodes) => Err(Line::LimitNodes),
        Err(TextError::StrayUnfold { node }) => Err(Line::StrayUnfold { node }),
    }
}
