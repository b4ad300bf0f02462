//! The input of a command: a file, or nothing.

ghost use Rattle.std.specs.Prelude.{option_map};
ghost use Rattle.acg_driver.specs.Files.{input_files, Gathered, never};
ghost use Rattle.acg_driver.specs.Inputs.{RefusesInput, IsBytesOf};

use crate::files::read_file;
use acg_base::{LIMIT_INPUT, Store};
use acg_words::Line;
use std::alloc::Global;

/// Reads the bytes of an input, or answers the line with which they are refused. Without a file there are none.
pub fn read_input<S: Store>(
    alloc: Global,
    input: Option<&str>,
    store: &mut S,
) -> Result<Vec<u8>, Line>
    ensures { let name = option_map (λ file. file.now) input.entry in
        Gathered S.Store (input_files name) never (RefusesInput name)
        (λ givens bytes. IsBytesOf name givens bytes.items) store.old store.new result }
{
    let Some(name) = input else {
        return Ok(Vec::new(alloc));
    };
    let bytes = read_file(alloc, name, LIMIT_INPUT, store)?;
    if bytes.len() > LIMIT_INPUT as usize {
        return Err(Line::LimitInput);
    }
    Ok(bytes)
}
