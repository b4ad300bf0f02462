//! Running the image of an action.

ghost use Rattle.std.specs.Prelude.{◌≡◌, IfOk};
ghost use Rattle.acg_base.specs.declared.capacity.Capacity.{Capacity as CapacityValue};
ghost use Rattle.action_terms.specs.Numbering.{Listed};
ghost use Rattle.rv_code.specs.Images.{Image as ImageValue};
ghost use Rattle.elf_image.specs.Reading.{IsFileOf};
ghost use Rattle.sort_rules.specs.Tables.{MarkedTable};
ghost use Rattle.acg_driver.specs.Compiling.{IsCompiled};
ghost use Rattle.acg_driver.specs.Says.{Said};
ghost use Rattle.acg_driver.specs.Runs.{IsRun, IsLoaded};

use crate::compiling::Built;
use crate::machine_run::run_machine;
use acg_base::{Capacity, Memory, Sink, SinkError, Status};
use acg_words::print_header;
use elf_image::{Image, ImageError, read_image};
use rv_machine::Machine;
use std::alloc::Global;

/// An action that is compiled and loaded.
#[derive(Drop)]
pub struct Loaded {
    machine: Machine,
    factor: u64,
}

// Reads bytes that are known to be a file of an image.
fn read_made(alloc: Global, bytes: &[u8]) -> Result<Image, Memory>
    requires { (x : ImageValue) × IsFileOf bytes.now x }
    ensures { (x : ImageValue) → IsFileOf bytes.now x → IfOk result (λ image. image ≡ x) }
{
    match read_image(alloc, bytes) {
        Ok(image) => Ok(image),
        Err(ImageError::Memory) => Err(Memory),
        Err(_refused) => unreachable!(),
    }
}

/// An action that is loaded, and the bytes of its input.
#[derive(Drop)]
pub struct Ready {
    pub(crate) loaded: Loaded,
    pub(crate) input: Vec<u8>,
}

/// Reads the image of an action that is compiled from its bytes, and loads it. Takes all memory of
/// the run.
pub fn load(alloc: Global, built: Built) -> Result<Loaded, Memory>
    requires { (g : Listed) × (t : MarkedTable) × (c : CapacityValue) × IsCompiled g t c built }
    ensures { (g : Listed) (t : MarkedTable) (c : CapacityValue) → IsCompiled g t c built →
        IfOk result (λ loaded. IsLoaded g c loaded) }
{
    let image = read_made(alloc, &built.image)?;
    let machine = Machine::load(alloc, image)?;
    Ok(Loaded {
        machine,
        factor: built.factor,
    })
}

/// Prints the header with the capacity and the factor of the graph's action, and runs on the bytes of an input within the
/// budget. Takes no memory.
pub fn run<K: Sink>(
    loaded: &mut Loaded,
    capacity: Capacity,
    budget: u64,
    input: &[u8],
    out: &mut K,
) -> Status
    requires { (g : Listed) × IsLoaded g capacity loaded.old }
    ensures { (g : Listed) → IsLoaded g capacity loaded.old →
        Said K.Sink (IsRun g capacity budget input.now) out.old out.new result }
{
    match print_header(out, capacity.stack, capacity.units, loaded.factor) {
        Ok(()) => run_machine(&mut loaded.machine, budget, input, out),
        Err(SinkError::Failed) => Status::WriteFault,
    }
}
