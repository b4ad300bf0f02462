//! The items of each kind.
ghost use Rattle.std.specs.Prelude.{◌≡◌, map, IfOk};
ghost use Rattle.gram_form.specs.Plain.{plain_production};
ghost use Rattle.meta_terms.specs.PlainItems.{plain_item, plain_declaration, plain_equation};
ghost use Rattle.meta_check.specs.Views.{productions_of, declarations_of, equations_of};

use gram_form::Production;
use meta_terms::{Declaration, Equation, Item};
use std::alloc::{AllocError, Global};

/// The productions among items.
pub fn productions<'t>(alloc: Global, items: &[Item<'t>]) -> Result<Vec<Production<'t>>, AllocError>
    ensures { let all = productions_of (map plain_item items.now) in
        IfOk result (λ v. map plain_production v.items ≡ all) }
{
    let mut list = Vec::new(alloc);
    for item in items {
        if let Item::Production(production) = *item {
            list.push(production)?;
        }
    }
    Ok(list)
}

/// The declarations among items.
pub fn declarations<'t>(
    alloc: Global,
    items: &[Item<'t>],
) -> Result<Vec<Declaration<'t>>, AllocError>
    ensures { let all = declarations_of (map plain_item items.now) in
        IfOk result (λ v. map plain_declaration v.items ≡ all) }
{
    let mut list = Vec::new(alloc);
    for item in items {
        if let Item::Declaration(declaration) = *item {
            list.push(declaration)?;
        }
    }
    Ok(list)
}

/// The equations among items.
pub fn equations<'t>(alloc: Global, items: &[Item<'t>]) -> Result<Vec<Equation<'t>>, AllocError>
    ensures { let all = equations_of (map plain_item items.now) in
        IfOk result (λ v. map plain_equation v.items ≡ all) }
{
    let mut list = Vec::new(alloc);
    for item in items {
        if let Item::Equation(equation) = *item {
            list.push(equation)?;
        }
    }
    Ok(list)
}
