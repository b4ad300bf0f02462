//! The places of texts in a list, by their bytes.
ghost use Rattle.std.specs.Prelude.{◌≡◌, ◌≢◌, ◌<◌, AllPairs, IfOk, length};
ghost use Rattle.gram_form.specs.Plain.{texts};
ghost use Rattle.source_lex.specs.Numbered.{place_of};

use indexmap::IndexSet;
use std::alloc::{AllocError, Global};

/// Distinct texts by their bytes.
pub(crate) fn places<'g>(alloc: Global, list: &[&'g [u8]]) -> Result<IndexSet<&'g [u8]>, AllocError>
    requires { AllPairs (λ x y. x ≢ y) (texts list.now) }
    ensures { IfOk result (λ r. texts r.keys ≡ texts list.now) }
{
    let mut places = IndexSet::new(alloc);
    for text in list {
        places.insert(*text)?;
    }
    Ok(places)
}

/// The place of a text, or the count of all where it isn't there.
pub(crate) fn place_of(list: &IndexSet<&[u8]>, text: &[u8]) -> u32
    requires { length list.now.keys < 4294967296 }
    ensures { result ≡ place_of (texts list.now.keys) text.now }
{
    match list.get_index_of(&text) {
        None => list.len() as u32,
        Some(place) => place as u32,
    }
}
