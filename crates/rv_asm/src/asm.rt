//! The assembler: instructions and labels in, words out.

ghost use Rattle.std.specs.Prelude.{◌≡◌, ◌≢◌, ℕ, ◌<◌, ◌+◌, ◌*◌, [], ◌∷◌, ◌++◌, IfOk, OnOk, OnErr, IsTrue, All, Ok, Some, false, map, vec_len};
ghost use Rattle.rv_code.specs.Encode.{is_in_format, encode};
ghost use Rattle.rv_asm.specs.Assembly.{total, is_placed, is_mark, code_of, NamesBelow, IsSound};
ghost use Rattle.rv_asm.specs.Arrivals.{LabelsStand, JumpsArrive, TakenBranchesArrive, OtherBranchesPass, AddressesLoad};
ghost use Rattle.rv_asm.specs.declared.item.Item.TheVariants.{Plain, Mark, Jump, BranchTo, Address};

use crate::assemble::words_of_items;
use crate::item::{Item, Label};
use crate::resolve::spots;
use acg_base::Memory;
use rv_code::{BranchOp, Inst, Reg};
use std::alloc::{AllocError, Global};
use std::marker::Model;

/// Assembled code: words of 32 bits, each the encoding of one instruction.
#[derive(Drop)]
pub struct Code {
    pub words: Vec<u32>,
}

/// Code under way. Contracts see it as what was emitted and how many labels were made.
#[derive(Drop)]
pub struct Asm {
    alloc: Global,
    items: Vec<Item>,
    labels: usize,
    // How many labels aren't placed yet. The items have room for as many marks.
    open_count: usize,
}

impl Model for Asm {
    ghost use Rattle.std.specs.Prelude.{vec_capacity};
    ghost use Rattle.rv_asm.specs.Assembly.{Listing, IsKept};

    ghost Value = { Listing };

    ghost view = { λ a. record { items = a.items.items; labels = a.labels } };

    ghost invariant = { λ a. IsKept a.items.items a.labels a.open_count (vec_capacity a.items) };
}

impl Asm {
    /// No code yet.
    pub fn new(alloc: Global) -> Result<Asm, Memory>
        ensures { result ≡ Ok (record { items = []; labels = 0 }) }
    {
        Ok(Asm {
            alloc,
            items: Vec::new(alloc),
            labels: 0,
            open_count: 0,
        })
    }

    /// A label of its own, which isn't placed yet. An `Err` says want of memory, here and below.
    pub fn label(&mut self) -> Result<Label, Memory>
        ensures label { IfOk result (λ label. label ≡ self.old.labels) }
        ensures ok { OnOk result (self.new ≡ record self.old { labels = self.old.labels + 1 }) }
        ensures err { OnErr result (self.new ≡ self.old) }
    {
        self.items.reserve(self.open_count + 1)?;
        let label = Label {
            number: self.labels,
        };
        self.labels += 1;
        self.open_count += 1;
        Ok(label)
    }

    // Appends what is no mark, and keeps room for the marks to come.
    fn append(&mut self, item: Item) -> Result<(), AllocError>
        requires unmarked { is_mark item ≡ false }
        requires sound { IsSound item }
        requires names { NamesBelow self.old.labels item }
        ensures ok { OnOk result
            (self.new ≡ record self.old { items = self.old.items ++ item ∷ [] }) }
        ensures err { OnErr result (self.new ≡ self.old) }
    {
        let _known: Option<Inst> = None;
        self.items.reserve(self.open_count + 1)?;
        self.items.push(item)?;
        Ok(())
    }

    /// The label stands here: in front of what is emitted next.
    pub fn place(&mut self, label: Label)
        requires made { label < self.old.labels }
        requires once { is_placed self.old.items label ≡ false }
        ensures { self.new ≡ record self.old { items = self.old.items ++ Mark label ∷ [] } }
    {
        let _known: Option<Inst> = None;
        self.items.push(Item::Mark(label)).unwrap();
        self.open_count -= 1;
    }

    /// Appends an instruction.
    pub fn emit(&mut self, inst: Inst) -> Result<(), Memory>
        requires { IsTrue (is_in_format inst) }
        ensures ok { OnOk result
            (self.new ≡ record self.old { items = self.old.items ++ Plain inst ∷ [] }) }
        ensures err { OnErr result (self.new ≡ self.old) }
    {
        self.append(Item::Plain(inst))?;
        Ok(())
    }

    /// Appends a jump to a label: two words, which may change register 31.
    pub fn jump(&mut self, label: Label) -> Result<(), Memory>
        requires { label < self.old.labels }
        ensures ok { OnOk result
            (self.new ≡ record self.old { items = self.old.items ++ Jump label ∷ [] }) }
        ensures err { OnErr result (self.new ≡ self.old) }
    {
        self.append(Item::Jump(label))?;
        Ok(())
    }

    /// Appends a jump to a label for where the comparison of two registers holds: three words, which may change
    /// register 31.
    pub fn branch(&mut self, op: BranchOp, rs1: Reg, rs2: Reg, label: Label) -> Result<(), Memory>
        requires { label < self.old.labels }
        ensures ok { OnOk result
            (self.new ≡ record self.old { items = self.old.items ++ BranchTo op rs1 rs2 label ∷ [] }) }
        ensures err { OnErr result (self.new ≡ self.old) }
    {
        self.append(Item::BranchTo(op, rs1, rs2, label))?;
        Ok(())
    }

    /// Appends two words that put the address of a label into a register.
    pub fn address(&mut self, rd: Reg, label: Label) -> Result<(), Memory>
        requires rd { rd ≢ 0 }
        requires label { label < self.old.labels }
        ensures ok { OnOk result
            (self.new ≡ record self.old { items = self.old.items ++ Address rd label ∷ [] }) }
        ensures err { OnErr result (self.new ≡ self.old) }
    {
        self.append(Item::Address(rd, label))?;
        Ok(())
    }

    /// The words of all that was emitted, for a place from address 65536 on. A label that was not placed stands at
    /// their end.
    pub fn finish(self) -> Result<Code, Memory>
        requires { 4 * total self.items < 1073741824 }
        ensures words { IfOk result
            (λ code. map Some code.words.items ≡ map encode (code_of self.items)) }
        ensures size { IfOk result (λ code. vec_len code.words ≡ total self.items) }

        // What a machine that runs these words does at the items.
        ensures labels { OnOk result (LabelsStand self.items) }
        ensures jumps { OnOk result (JumpsArrive self.items) }
        ensures taken { OnOk result (TakenBranchesArrive self.items) }
        ensures passed { OnOk result (OtherBranchesPass self.items) }
        ensures addresses { OnOk result (AddressesLoad self.items) }
    {
        let spots = spots(self.alloc, &self.items, self.labels)?;
        let words = words_of_items(self.alloc, &self.items, &spots)?;
        Ok(Code { words })
    }
}
