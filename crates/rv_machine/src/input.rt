//! What a machine reads.

use std::marker::Model;

/// An input. The bytes from `at` on are those that are left.
#[derive(Debug, Drop)]
pub struct Input<'a> {
    /// All of its bytes, also those that are taken.
    pub bytes: &'a [u8],
    /// How many bytes are taken: at most as many as there are.
    pub at: usize,
}

impl<'a> Model for Input<'a> {
    ghost use Rattle.std.specs.Prelude.{◌≤◌, length};
    ghost use Rattle.rv_machine.specs.Machines.{InputValue};

    ghost Value = { InputValue };

    ghost view = { λ input. record { bytes = input.bytes.now; at = input.at } };

    ghost invariant = { λ input. input.at ≤ length input.bytes.now };
}

impl<'a> Input<'a> {
    ghost use Rattle.std.specs.Prelude.{◌≡◌, ◌+◌, ◌≤◌, length, take};
    ghost use Rattle.rv_machine.specs.Machines.{left};

    // How many bytes are left.
    pub(crate) fn count(&self) -> usize
        ensures { result ≡ length (left self.now) }
    {
        self.bytes.len() - self.at
    }

    // Takes so many bytes, and copies them over the whole of a slice.
    pub(crate) fn take_into(&mut self, out: &mut [u8])
        requires { length out.old ≤ length (left self.old) }
        ensures copied { out.new ≡ take (length out.old) (left self.old) }
        ensures taken { self.new ≡ record self.old { at = self.old.at + length out.old } }
    {
        let from = self.at;
        let to = from + out.len();
        out.copy_from_slice(&self.bytes[from..to]);
        self.at = to;
    }
}
