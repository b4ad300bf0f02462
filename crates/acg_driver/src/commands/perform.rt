//! The command `perform`.

ghost use Rattle.std.specs.Prelude.{Some, option_map};
ghost use Rattle.acg_words.specs.Commands.{perform_asked};
ghost use Rattle.acg_driver.specs.Files.{files_of, Gathered};
ghost use Rattle.acg_driver.specs.Commands.Perform.{GoesOnPerform, RefusesPerform, StartsPerform};
ghost use Rattle.acg_driver.specs.Serving.{Handled};

use crate::files::read_file;
use crate::inputs::read_input;
use crate::messages::integers;
use crate::performance::take_steps;
use crate::text::read_graph;
use acg_base::{LIMIT_ACTION, Sink, Status, Store};
use acg_words::{Line, Perform};
use action_sos::Performer;
use bumpalo::Bump;
use std::alloc::Global;

// Reads the action and its input, and starts the performance.
fn prepare<'a, S: Store>(
    alloc: Global,
    arena: &'a Bump,
    command: Perform<'_>,
    store: &mut S,
) -> Result<Performer<'a>, Line>
    ensures { let input = option_map (λ file. file.now) command.entry.input in
        Gathered S.Store (files_of (perform_asked command.entry)) GoesOnPerform
        (RefusesPerform command.entry.action.now input) (StartsPerform input)
        store.old store.new result }
{
    let bytes = read_file(alloc, command.action, LIMIT_ACTION, store)?;
    let graph = read_graph(alloc, arena, &bytes)?;
    let input = read_input(alloc, command.input, store)?;
    let input = integers(alloc, &input)?;
    Ok(Performer::start(alloc, arena, &graph, &input)?)
}

/// Reads the file with the action, and then its input; performs it by the schedule of the number.
pub fn perform<S: Store, K: Sink>(
    alloc: Global,
    command: Perform<'_>,
    store: &mut S,
    out: &mut K,
) -> Status
    ensures { Handled S.Store K.Sink (Some (perform_asked command.entry))
        store.old store.new out.old out.new result }
{
    let arena = Bump::new(alloc);
    match prepare(alloc, &arena, command, store) {
        Ok(mut performer) => take_steps(&mut performer, command.number, out),
        Err(line) => line.answer(out),
    }
}
