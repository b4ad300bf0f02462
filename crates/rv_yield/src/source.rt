//! What the code of yielders is made from.

ghost use Rattle.std.specs.Prelude.{◌<◌, All};
ghost use Rattle.rv_yield.specs.Holding.{slots_of};
ghost use Rattle.rv_yield.specs.Registers.{AreNeeds};

use action_terms::Graph;
use rv_asm::Label;

/// The yielders of an action, and where their code finds what is given and what tokens are bound
/// to.
#[derive(Clone, Copy)]
pub struct Source<'a> {
    /// The action.
    pub graph: &'a Graph<'a>,
    /// How many registers each yielder needs, by the yielder's number.
    pub needs: &'a [usize],
    /// Where the data that are given stand, one for each: offsets from the frame, in words.
    pub given: &'a [u32],
    /// Where what tokens are bound to stands, by the token's bytes: offsets from the frame, in
    /// words. A token that isn't there counts as not bound.
    pub bound: &'a [(&'a [u8], u32)],
    /// The label for a yielder that yields nothing.
    pub nothing: Label,
    ghost needed: { AreNeeds graph.now.yielders needs.now },
    ghost near: { All (λ offset. offset < 33554432) given.now },
    ghost slots_near: { All (λ slot. slot.offset < 33554432) (slots_of bound.now) },
}
