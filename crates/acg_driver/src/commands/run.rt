//! The command `run`.

ghost use Rattle.std.specs.Prelude.{[], Some, option_map};
ghost use Rattle.rv_machine.specs.Machines.{state_of};
ghost use Rattle.acg_words.specs.Commands.{run_asked};
ghost use Rattle.acg_driver.specs.Files.{files_of, Gathered};
ghost use Rattle.acg_driver.specs.Commands.Run.{IsRunFrom, GoesOnRun, RefusesRun, StartsRun};
ghost use Rattle.acg_driver.specs.Says.{Said};
ghost use Rattle.acg_driver.specs.Serving.{Handled};

use crate::files::read_file;
use crate::image_bytes::image_of;
use crate::inputs::read_input;
use acg_base::{LIMIT_IMAGE, Sink, Status, Store};
use acg_words::{Line, Run};
use rv_machine::{Input, Machine, Run as Ending};
use std::alloc::Global;

/// A machine before its run, and the bytes of its input.
#[derive(Drop)]
pub struct Ready {
    machine: Machine,
    input: Vec<u8>,
}

// Reads the image and its input, and loads the machine. Takes all memory of the run.
fn prepare<S: Store>(alloc: Global, command: Run<'_>, store: &mut S) -> Result<Ready, Line>
    ensures { let input = option_map (λ file. file.now) command.entry.input in
        Gathered S.Store (files_of (run_asked command.entry)) GoesOnRun
        (RefusesRun command.entry.image.now input) (StartsRun input)
        store.old store.new result }
{
    let bytes = read_file(alloc, command.image, LIMIT_IMAGE, store)?;
    let image = image_of(alloc, bytes)?;
    let input = read_input(alloc, command.input, store)?;
    let machine = Machine::load(alloc, image)?;
    Ok(Ready { machine, input })
}

// Runs at most so many instructions, passes on what the machine sends, byte for byte, and prints how
// the run ended. Takes no memory.
fn run_ready<K: Sink>(ready: &mut Ready, budget: u64, out: &mut K) -> Status
    ensures { Said K.Sink (IsRunFrom budget (state_of ready.old.machine ready.old.input.items []))
        out.old out.new result }
{
    let mut input = Input {
        bytes: &ready.input,
        at: 0,
    };
    match ready.machine.run(budget, &mut input, out) {
        Ending::Exited { code } => Line::Exited { code }.answer(out),
        Ending::Trapped { cause, pc } => Line::Trapped { cause, pc }.answer(out),
        Ending::Budget => Line::Running.answer(out),
        Ending::SinkFault => Status::WriteFault,
    }
}

/// Reads the file with the image, and then its input; runs the image.
pub fn run<S: Store, K: Sink>(alloc: Global, command: Run<'_>, store: &mut S, out: &mut K) -> Status
    ensures { Handled S.Store K.Sink (Some (run_asked command.entry))
        store.old store.new out.old out.new result }
{
    match prepare(alloc, command, store) {
        Ok(mut ready) => run_ready(&mut ready, command.budget, out),
        Err(line) => line.answer(out),
    }
}
