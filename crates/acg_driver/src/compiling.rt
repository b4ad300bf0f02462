//! Compiling an action to the bytes of an image.

ghost use Rattle.std.specs.Prelude.{◌≡◌, [], IfOk, IfErr};
ghost use Rattle.action_terms.specs.Meaning.{action_of};
ghost use Rattle.rv_code.specs.Images.{IsImage};
ghost use Rattle.rv_asm.specs.Conventions.{instruction_bytes};
ghost use Rattle.elf_image.specs.Files.{file_of};
ghost use Rattle.elf_image.specs.Reading.{IsFileOf};
ghost use Rattle.rv_codegen.specs.Built.{unbuilt};
ghost use Rattle.rv_codegen.specs.RightImage.{compiled_image};
ghost use Rattle.sort_rules.specs.Admissible.{IsLeast};
ghost use Rattle.sort_rules.specs.Rows.{IsTableOf, unmarked};
ghost use Rattle.sort_rules.specs.Tables.{MarkedTable};
ghost use Rattle.acg_words.specs.Settings.{IsCapacity};
ghost use Rattle.acg_driver.specs.Compiling.{IsCompiled, IsUncompiledFor};
ghost use Rattle.acg_driver.specs.declared.compiling.CompileError.TheVariants as compile_error;

use crate::image::compiled_image;
use acg_base::{Capacity, Memory};
use action_terms::Graph;
use bumpalo::Bump;
use elf_image::write_image;
use frame_layout::layout;
use rv_codegen::{first_unbuilt, generate};
use sort_infer::{SortError, infer};
use sort_rules::{Table, factor};
use std::alloc::Global;
use thiserror::Error;

/// An action that is compiled.
#[derive(Debug, Drop)]
pub struct Built {
    /// The bytes of its image.
    pub image: Vec<u8>,
    /// The factor: the image spends at most so many instructions for each step of a performance.
    pub factor: u64,
}

/// Why an action isn't compiled.
#[derive(Clone, Copy, Debug, PartialEq, Eq, Drop, Error)]
pub enum CompileError {
    /// Want of memory.
    #[error("out of memory")]
    Memory,
    /// No table of sorts is admissible for it.
    #[error("ill-sorted at node {node}")]
    IllSorted {
        /// The least node with a clash in the least marked table.
        node: u32,
    },
    /// It is well-sorted, and a node of it has no code yet.
    #[error("no code yet for node {node}")]
    Unbuilt {
        /// The least such node.
        node: u32,
    },
}

impl From<Memory> for CompileError {
    ghost from_gives = { λ _ error. error ≡ compile_error.Memory };

    fn from(_error: Memory) -> CompileError {
        CompileError::Memory
    }
}

// The least table of the sorts of a graph's action, in the arena.
fn least_table<'a>(
    alloc: Global,
    arena: &'a Bump,
    graph: &Graph<'a>,
) -> Result<Table<'a>, CompileError>
    ensures least { IfOk result (λ t. IsLeast (action_of graph.now) (unmarked t)) }
    ensures proper { IfOk result (λ t. IsTableOf (action_of graph.now) t) }
    ensures refused { IfErr result (IsUncompiledFor (action_of graph.now)) }
{
    match infer(alloc, arena, graph) {
        Ok(table) => Ok(table),
        Err(SortError::Memory) => Err(CompileError::Memory),
        Err(SortError::IllSorted { node }) => Err(CompileError::IllSorted { node }),
    }
}

// The file of the image of compiled code.
fn image_file(alloc: Global, words: &[u32], capacity: Capacity) -> Result<Vec<u8>, Memory>
    requires capacity { IsCapacity capacity }
    requires image { IsImage
        (compiled_image (instruction_bytes words.now) capacity.stack capacity.units) }
    ensures exact { IfOk result (λ file. file.items ≡
        file_of (compiled_image (instruction_bytes words.now) capacity.stack capacity.units)) }
    ensures read { IfOk result (λ file. IsFileOf file.items
        (compiled_image (instruction_bytes words.now) capacity.stack capacity.units)) }
{
    let image = compiled_image(alloc, words, capacity)?;
    write_image(alloc, &image)
}

// Compiles a graph's action, whose nodes have code. The factor is taken from the table.
fn build(
    alloc: Global,
    graph: &Graph<'_>,
    table: &Table<'_>,
    capacity: Capacity,
) -> Result<Built, Memory>
    requires capacity { IsCapacity capacity }
    requires whole { unbuilt (action_of graph.now) ≡ [] }
    requires least { IsLeast (action_of graph.now) (unmarked table.now) }
    requires proper { IsTableOf (action_of graph.now) table.now }
    ensures { IfOk result (λ built. IsCompiled graph.now (unmarked table.now) capacity built) }
{
    let arena = Bump::new(alloc);
    let frames = layout(alloc, &arena, graph, table)?;
    let code = generate(alloc, graph, table, &frames, capacity)?;
    let image = image_file(alloc, &code.words, capacity)?;
    let factor = factor(alloc, graph, table)?;
    Ok(Built { image, factor })
}

/// Compiles a graph's action to the bytes of an image for the capacity, in memory of its own. The
/// words of the capacity, of 8 bytes, are from 1 to 16777216, and its units, of 16 bytes, from 1 to
/// 4194304.
///
/// `IllSorted` comes exactly where no table of its sorts is admissible, and `Unbuilt` where there is
/// one, and a node has no code yet; `Memory` may stand in place of all else.
pub fn compile_action(
    alloc: Global,
    graph: &Graph<'_>,
    capacity: Capacity,
) -> Result<Built, CompileError>
    requires { IsCapacity capacity }

    // The bytes are exactly the file of the code's image, and right for the action, the least table of
    // its sorts and the capacity; the factor is that of the action by this table.
    ensures built { IfOk result (λ built. (t : MarkedTable) × IsCompiled graph.now t capacity built) }

    // When each error comes.
    ensures refused { IfErr result (IsUncompiledFor (action_of graph.now)) }
{
    let arena = Bump::new(alloc);
    let table = least_table(alloc, &arena, graph)?;
    if let Some(node) = first_unbuilt(alloc, graph)? {
        return Err(CompileError::Unbuilt { node });
    }
    Ok(build(alloc, graph, &table, capacity)?)
}
