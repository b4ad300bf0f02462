//! The command `act`.

ghost use Rattle.std.specs.Prelude.{◌⊎◌, ◌≡◌, Some, IfOk, IfErr, option_map};
ghost use Rattle.action_terms.specs.Meaning.{action_of};
ghost use Rattle.sort_rules.specs.Tables.{MarkedTable};
ghost use Rattle.acg_words.specs.Commands.{act_asked};
ghost use Rattle.acg_driver.specs.Texts.{RefusesText};
ghost use Rattle.acg_driver.specs.Files.{files_of, Gathered};
ghost use Rattle.acg_words.specs.Settings.{IsCapacity};
ghost use Rattle.acg_driver.specs.Compiling.{IsCompiled};
ghost use Rattle.acg_driver.specs.Commands.Act.{IsCompileLine, IsUncompiled, BuildsAct, GoesOnAct, RefusesAct, StartsAct};
ghost use Rattle.acg_driver.specs.Serving.{Handled};

use crate::compiling::{Built, CompileError, compile_action};
use crate::files::read_file;
use crate::inputs::read_input;
use crate::running::{Ready, load, run};
use crate::text::read_graph;
use acg_base::{Capacity, LIMIT_ACTION, Sink, Status, Store};
use acg_words::{Act, Line};
use action_terms::Graph;
use bumpalo::Bump;
use std::alloc::Global;

// Compiles a graph's action, or answers the line with which it is refused.
fn compile(alloc: Global, graph: &Graph<'_>, capacity: Capacity) -> Result<Built, Line>
    requires { IsCapacity capacity }
    ensures built { IfOk result (λ built. (t : MarkedTable) × IsCompiled graph.now t capacity built) }
    ensures refused { IfErr result (IsCompileLine (action_of graph.now)) }
{
    match compile_action(alloc, graph, capacity) {
        Ok(built) => Ok(built),
        Err(CompileError::Memory) => Err(Line::Memory),
        Err(CompileError::IllSorted { node }) => Err(Line::IllSorted { node }),
        Err(CompileError::Unbuilt { node }) => Err(Line::Unbuilt { node }),
    }
}

// Compiles the action that the bytes spell, or answers the line with which it is refused.
fn build_text(alloc: Global, bytes: &[u8], capacity: Capacity) -> Result<Built, Line>
    requires { IsCapacity capacity }
    ensures builds { IfOk result (BuildsAct bytes.now capacity) }
    ensures refused { IfErr result (λ line. RefusesText bytes.now line
        ⊎ IsUncompiled bytes.now line) }
{
    let arena = Bump::new(alloc);
    let graph = read_graph(alloc, &arena, bytes)?;
    compile(alloc, &graph, capacity)
}

// Reads and compiles the action, reads its input, and loads the image.
fn prepare<S: Store>(alloc: Global, command: Act<'_>, store: &mut S) -> Result<Ready, Line>
    requires { IsCapacity command.capacity }
    ensures { let input = option_map (λ file. file.now) command.entry.input in
        Gathered S.Store (files_of (act_asked command.entry)) GoesOnAct
        (RefusesAct command.entry.action.now input) (StartsAct command.entry.capacity input)
        store.old store.new result }
{
    let bytes = read_file(alloc, command.action, LIMIT_ACTION, store)?;
    let built = build_text(alloc, &bytes, command.capacity)?;
    let input = read_input(alloc, command.input, store)?;
    let loaded = load(alloc, built)?;
    Ok(Ready { loaded, input })
}

/// Reads the file with the action, compiles it, reads its input, and runs its image.
pub fn act<S: Store, K: Sink>(alloc: Global, command: Act<'_>, store: &mut S, out: &mut K) -> Status
    requires { IsCapacity command.capacity }
    ensures { Handled S.Store K.Sink (Some (act_asked command.entry))
        store.old store.new out.old out.new result }
{
    match prepare(alloc, command, store) {
        Ok(mut ready) => run(
            &mut ready.loaded,
            command.capacity,
            command.budget,
            &ready.input,
            out,
        ),
        Err(line) => line.answer(out),
    }
}
