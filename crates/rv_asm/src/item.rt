//! What an assembler holds until labels have their places.

ghost use Rattle.std.specs.Prelude.{◌≡◌, ◌≤◌};
ghost use Rattle.rv_asm.specs.Assembly.{size};

use rv_code::{BranchOp, Inst, Reg};
use std::marker::Model;

/// A place in the code. Contracts see it as its number: the labels of one assembler are numbered from 0 on.
#[derive(Clone, Copy, PartialEq, Eq)]
pub struct Label {
    pub(crate) number: usize,
}

impl Model for Label {
    ghost use Rattle.std.specs.Prelude.{ℕ};

    ghost Value = { ℕ };

    ghost view = { λ l. l.number };

    ghost inverse = { λ n. record { number = n } };
}

/// What one call of an assembler appended.
#[derive(Clone, Copy)]
pub enum Item {
    /// One instruction, as it is.
    Plain(Inst),
    /// The place of a label.
    Mark(Label),
    /// A jump to a label.
    Jump(Label),
    /// A jump to a label where the comparison of the two registers holds.
    BranchTo(BranchOp, Reg, Reg, Label),
    /// The address of a label, put into a register.
    Address(Reg, Label),
}

/// How many instructions an item becomes.
pub(crate) fn words_of(item: Item) -> u32
    ensures is { result ≡ size item }
    ensures few { result ≤ 3 }
{
    match item {
        Item::Plain(_) => 1,
        Item::Mark(_) => 0,
        Item::Jump(_) => 2,
        Item::BranchTo(..) => 3,
        Item::Address(..) => 2,
    }
}
