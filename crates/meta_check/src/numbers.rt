//! Numbers of nonterminals. A name is compared once where it stands, and its number from then on.
ghost use Rattle.std.specs.Prelude.{◌≡◌, map, IfOk};
ghost use Rattle.gram_form.specs.Grammars.{names_of};
ghost use Rattle.gram_form.specs.Plain.{plain_production};
ghost use Rattle.meta_check.specs.Tables.{AreNumbers, number_by};

use gram_form::Production;
use std::alloc::{AllocError, Global};
use std::collections::BTreeMap;

/// The names of productions, each with its number: the place of the first production that has it.
#[derive(Drop)]
pub struct Numbers<'t> {
    places: BTreeMap<&'t [u8], usize>,
    count: usize,
}

impl<'t> Numbers<'t> {
    /// The numbers of these productions.
    pub fn of(alloc: Global, productions: &[Production<'t>]) -> Result<Numbers<'t>, AllocError>
        ensures { let names = names_of (map plain_production productions.now) in
            IfOk result (λ n. AreNumbers names (number_by n)) }
    {
        let mut places = BTreeMap::new(alloc);
        for (number, production) in productions.iter().enumerate() {
            if !places.contains_key(&production.name) {
                places.insert(production.name, number)?;
            }
        }
        Ok(Numbers {
            places,
            count: productions.len(),
        })
    }

    /// The number of a nonterminal. One without a production has the number of productions.
    pub fn number(&self, name: &'t [u8]) -> usize
        ensures { result ≡ number_by self.now name.now }
    {
        match self.places.get(&name) {
            Some(number) => *number,
            None => self.count,
        }
    }
}
