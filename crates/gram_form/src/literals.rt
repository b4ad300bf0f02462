//! Literals in the order of their first places.
ghost use Rattle.std.specs.Prelude.{◌≡◌, [], OnOk};
ghost use Rattle.gram_form.specs.Plain.{texts};
ghost use Rattle.gram_form.specs.Grammars.{seen_with};

use std::alloc::{AllocError, Global};
use std::collections::BTreeSet;
use std::marker::Model;

/// Literals, each once, in the order in which they were noted first. Contracts see the list of
/// them.
#[derive(Drop)]
pub struct Literals<'a> {
    known: BTreeSet<&'a [u8]>,
    list: Vec<&'a [u8]>,
}

impl<'a> Model for Literals<'a> {
    ghost use Rattle.std.specs.Prelude.{ℕ, List};
    ghost use Rattle.gram_form.specs.Plain.{texts};
    ghost use Rattle.gram_form.specs.Grammars.{HaveSame};

    ghost Value = { List (List ℕ) };

    ghost view = { λ l. texts l.list.items };

    ghost invariant = { λ l. HaveSame (texts l.known.keys) (texts l.list.items) };
}

impl<'a> Literals<'a> {
    /// No literals.
    pub fn new(alloc: Global) -> Literals<'a>
        ensures { result ≡ [] }
    {
        Literals {
            known: BTreeSet::new(alloc),
            list: Vec::new(alloc),
        }
    }

    /// Notes a literal, where it is new.
    pub fn note(&mut self, bytes: &'a [u8]) -> Result<(), AllocError>
        ensures { OnOk result (self.new ≡ seen_with self.old bytes.now) }
    {
        self.list.reserve(1)?;
        if self.known.insert(bytes)? {
            self.list.push_reserved(bytes);
        }
        Ok(())
    }

    /// The literals.
    pub fn as_slice(&self) -> &[&'a [u8]]
        ensures { texts result.now ≡ self.now }
    {
        self.list.as_slice()
    }
}
