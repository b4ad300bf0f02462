//! The captured tokens of bodies, as they are handed out.
ghost use Rattle.std.specs.Prelude.{◌≡◌, ◌<◌, length, map, slice_get, Some};
ghost use Rattle.binding_capture.specs.Asked.{tokens_of};

use std::marker::Model;

/// The captured tokens of each closure's body.
#[derive(Drop)]
pub struct Captures<'a> {
    // by the number of the body's root; none for a node that is no such root
    tokens: &'a [&'a [&'a [u8]]],
}

impl<'a> Model for Captures<'a> {
    ghost use Rattle.std.specs.Prelude.{List, map};
    ghost use Rattle.action_terms.specs.Information.{Token};
    ghost use Rattle.binding_capture.specs.Asked.{tokens_of};

    ghost Value = { List (List Token) };

    ghost view = { λ c. map (λ ts. tokens_of ts.now) c.tokens.now };
}

impl<'a> Captures<'a> {
    // those with these tokens, by the numbers of nodes
    pub(crate) fn make(tokens: &'a [&'a [&'a [u8]]]) -> Captures<'a>
        ensures { result ≡ map (λ ts. tokens_of ts.now) tokens.now }
    {
        Captures { tokens }
    }

    /// The captured tokens of the body with this root, in the order of the bindings that it receives.
    pub fn tokens(&self, body: u32) -> &'a [&'a [u8]]
        requires body { body < length self.now }
        ensures tokens { slice_get self.now body ≡ Some (tokens_of result.now) }
    {
        self.tokens[body as usize]
    }
}
