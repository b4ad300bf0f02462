//! The world of a performance: storage, messages and input.
ghost use Rattle.std.specs.Prelude.{◌≡◌, [], IfOk, OnOk, OnErr};
ghost use Rattle.action_terms.specs.Steps.{world_after};
ghost use Rattle.action_sos.specs.Moves.{effect_of, IsOutside};
ghost use Rattle.action_sos.specs.Performed.{world_of};

use crate::moves::{Change, Outside};
use acg_base::Memory;
use action_values::Datum;
use std::alloc::Global;

/// The storage, the messages so far, and the input.
#[derive(Drop)]
pub struct World<'a> {
    /// What each cell holds, by its number: nothing where it is unset.
    pub cells: Vec<Option<Datum<'a>>>,
    /// The messages so far.
    pub output: Vec<i64>,
    /// The integers of the input.
    pub input: Vec<i64>,
    /// How many of them are taken.
    pub taken: usize,
}

impl<'a> World<'a> {
    /// The world before a performance over the input.
    pub fn new(alloc: Global, input: &[i64]) -> Result<World<'a>, Memory>
        ensures { IfOk result (λ w. world_of w ≡ record { cells = []; output = []; input = input.now }) }
    {
        Ok(World {
            cells: Vec::new(alloc),
            output: Vec::new(alloc),
            input: Vec::from_slice(alloc, input)?,
            taken: 0,
        })
    }

    /// The storage, and the integers that are left.
    pub fn outside(&self) -> Outside<'_, 'a>
        ensures { IsOutside result (world_of self.now) }
    {
        let taken = self.taken.min(self.input.len());
        Outside {
            cells: self.cells.as_slice(),
            input: &self.input[taken..],
        }
    }

    #[tactic(auto, using(crate::proofs::Worlds::worlds))]
    /// Does what a step does beside the tree. After `Memory` the world is as before.
    pub fn change(&mut self, change: Change<'a>) -> Result<(), Memory>
        ensures changed { OnOk result (world_of self.new ≡ world_after (effect_of change.entry) (world_of self.old)) }
        ensures kept { OnErr result (world_of self.new ≡ world_of self.old) }
    {
        match change {
            Change::Silent | Change::Commits | Change::Misses => {}
            Change::Allocates => self.cells.push(None)?,
            Change::Takes => {
                if self.taken < self.input.len() {
                    self.taken += 1;
                }
            }
            Change::Puts { cell, datum } => {
                if cell < self.cells.len() {
                    self.cells[cell] = Some(datum);
                }
            }
            Change::Sends(message) => self.output.push(message)?,
        }
        Ok(())
    }
}
