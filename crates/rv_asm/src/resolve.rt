//! Where labels stand.

ghost use Rattle.std.specs.Prelude.{◌≡◌, ℕ, ◌<◌, ◌^◌, IfOk, All, vec_len, slice_index, length};
ghost use Rattle.rv_asm.specs.Assembly.{total, spot, NamesBelow};

use crate::item::{Item, words_of};
use std::alloc::{AllocError, Global};

/// How many instructions the items become.
#[tactic(auto, using(crate::proofs::Labels::item_steps))]
pub(crate) fn total_words(items: &[Item]) -> u32
    requires { total items.now < 2 ^ 28 }
    ensures { result ≡ total items.now }
{
    let mut words = 0;
    for item in items {
        words += words_of(*item);
    }
    words
}

/// How many instructions stand before each label.
#[tactic(auto, using(crate::proofs::Labels::item_steps))]
pub(crate) fn spots(alloc: Global, items: &[Item], labels: usize) -> Result<Vec<u32>, AllocError>
    requires size { total items.now < 2 ^ 28 }
    requires labels { All (NamesBelow labels) items.now }
    ensures len { IfOk result (λ spots. vec_len spots ≡ labels) }
    ensures spots { IfOk result (λ spots. (l : ℕ) → l < labels
        → slice_index spots.items l ≡ spot items.now l) }
{
    let mut before = total_words(items);
    let mut spots = vec![in alloc; before; labels]?;
    for index in (0..items.len()).rev() {
        match items[index] {
            Item::Mark(label) => spots[label.number] = before,
            item => before -= words_of(item),
        }
    }
    Ok(spots)
}
