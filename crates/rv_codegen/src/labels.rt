//! The labels of nodes, four for each.

ghost use Rattle.std.specs.Prelude.{◌≡◌, ℕ, ◌+◌, ◌*◌, ◌<◌, IfOk, OnOk, length, vec_len, slice_index};
ghost use Rattle.rv_codegen.specs.Blocks.{first_label, front_of, start_of, stop_of, joint_of};

use acg_base::Memory;
use rv_asm::{Asm, Label};
use std::alloc::Global;

/// The labels of nodes in a row, four for each node, in the order in which they stand in the code.
#[derive(Clone, Copy)]
pub(crate) struct NodeLabels<'a> {
    pub(crate) row: &'a [Label],
    ghost numbers: { (i : ℕ) → i < length row.now → slice_index row.now i ≡ first_label + i },
}

impl NodeLabels<'_> {
    /// Where the part before node k goes on.
    pub(crate) fn front(self, k: usize) -> Label
        requires { 4 * k + 3 < length self.row.now }
        ensures { result ≡ front_of k }
    {
        self.row[4 * k]
    }

    /// Where node k starts.
    pub(crate) fn start(self, k: usize) -> Label
        requires { 4 * k + 3 < length self.row.now }
        ensures { result ≡ start_of k }
    {
        self.row[4 * k + 1]
    }

    /// The place behind what node k calls.
    pub(crate) fn stop(self, k: usize) -> Label
        requires { 4 * k + 3 < length self.row.now }
        ensures { result ≡ stop_of k }
    {
        self.row[4 * k + 2]
    }

    /// Where the trap k copies what was caught for its handler, or the place behind what node k does
    /// with the word that an entry returned.
    pub(crate) fn joint(self, k: usize) -> Label
        requires { 4 * k + 3 < length self.row.now }
        ensures { result ≡ joint_of k }
    {
        self.row[4 * k + 3]
    }
}

/// So many new labels, with numbers that follow one another.
pub(crate) fn make_labels(alloc: Global, asm: &mut Asm, count: usize) -> Result<Vec<Label>, Memory>
    ensures len { IfOk result (λ labels. vec_len labels ≡ count) }
    ensures numbers { IfOk result (λ labels. (i : ℕ) → i < count
        → slice_index labels.items i ≡ asm.old.labels + i) }
    ensures asm { OnOk result (asm.new ≡ record asm.old { labels = asm.old.labels + count }) }
{
    let mut labels = Vec::with_capacity(alloc, count)?;
    for _ in 0..count {
        labels.push(asm.label()?)?;
    }
    Ok(labels)
}
