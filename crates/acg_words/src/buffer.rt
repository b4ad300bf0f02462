//! A line in the making.

ghost use Rattle.std.specs.Prelude.{◌≡◌, ◌+◌, ◌≤◌, List, [], ◌++◌, length, take};
ghost use Rattle.acg_base.specs.Decimals.{decimal_of, unsigned_decimal_of};

use acg_base::{decimal_into, unsigned_into};
use std::marker::Model;

/// A line in the making, of at most 128 bytes. A contract sees the list of its bytes.
#[derive(Drop)]
pub(crate) struct Buffer {
    bytes: [u8; 128],
    end: usize,
}

impl Model for Buffer {
    ghost use Rattle.std.specs.Prelude.{ℕ, ◌≤◌, List, take};

    ghost Value = { List ℕ };

    ghost view = { λ line. take line.end line.bytes };

    ghost invariant = { λ line. line.end ≤ 128 };
}

impl Buffer {
    /// A line with no bytes.
    pub(crate) fn new() -> Buffer
        ensures { result ≡ [] }
    {
        Buffer {
            bytes: [0; 128],
            end: 0,
        }
    }

    /// Lends the bytes.
    pub(crate) fn as_slice(&self) -> &[u8]
        ensures { result.now ≡ self.now }
    {
        &self.bytes[..self.end]
    }

    /// Appends the piece.
    pub(crate) fn put(&mut self, piece: &[u8])
        requires { length self.old + length piece.now ≤ 128 }
        ensures { self.new ≡ self.old ++ piece.now }
    {
        let end = self.end + piece.len();
        self.bytes[self.end..end].copy_from_slice(piece);
        self.end = end;
    }

    /// Appends the decimal of the number.
    pub(crate) fn put_unsigned(&mut self, number: u64)
        requires { length self.old + 20 ≤ 128 }
        ensures appended { self.new ≡ self.old ++ unsigned_decimal_of number }
        ensures bound { length self.new ≤ length self.old + 20 }
    {
        let mut digits = [0; 20];
        let count = unsigned_into(number, &mut digits);
        self.put(&digits[..count]);
    }

    /// Appends the decimal of the integer.
    pub(crate) fn put_signed(&mut self, integer: i64)
        requires { length self.old + 20 ≤ 128 }
        ensures appended { self.new ≡ self.old ++ decimal_of integer }
        ensures bound { length self.new ≤ length self.old + 20 }
    {
        let mut digits = [0; 20];
        let count = decimal_into(integer, &mut digits);
        self.put(&digits[..count]);
    }
}
