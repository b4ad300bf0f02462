//! The equations of a description by their functions and alternatives, and the numbers of
//! functions.
ghost use Rattle.std.specs.Prelude.{◌≡◌, ◌<◌, length, map, IfOk};
ghost use Rattle.std.specs.List.{position_or_len};
ghost use Rattle.std.specs.Str.{bytes_eq};
ghost use Rattle.meta_check.specs.Checked.{PlainDescription, items_of};
ghost use Rattle.meta_check.specs.Views.{alternative_of};
ghost use Rattle.meta_terms.specs.PlainItems.{plain_equation};
ghost use Rattle.equation_expand.specs.Sources.{TellEquations};

use meta_terms::{Declaration, Equation};
use std::alloc::{AllocError, Global};
use std::collections::BTreeMap;

/// The table of equations by their functions and the numbers of their alternatives.
pub fn table_of<'t>(
    alloc: Global,
    equations: &[Equation<'t>],
    alternatives: &[Option<usize>],
) -> Result<BTreeMap<(&'t [u8], usize), Equation<'t>>, AllocError>
    requires { length alternatives.now ≡ length equations.now }
    ensures { (d : PlainDescription) → d.equations ≡ map plain_equation equations.now
        → alternatives.now ≡ map (alternative_of (items_of d)) d.equations
        → IfOk result (λ m. TellEquations d m.entries) }
{
    let mut table = BTreeMap::new(alloc);
    for (number, equation) in equations.iter().enumerate() {
        if let Some(alternative) = alternatives[number] {
            let key = (equation.function, alternative);
            if !table.contains_key(&key) {
                table.insert(key, *equation)?;
            }
        }
    }
    Ok(table)
}

/// The number of a function: how many stand before the first that has the name.
pub fn function_number(functions: &[Declaration<'_>], function: &[u8]) -> u32
    requires { length functions.now < 4294967296 }
    ensures { let names = map (λ f. f.function.now) functions.now in
        result ≡ position_or_len (bytes_eq function.now) names }
{
    for (number, declaration) in functions.iter().enumerate() {
        if *function == *declaration.function {
            return number as u32;
        }
    }
    functions.len() as u32
}
