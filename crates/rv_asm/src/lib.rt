//! An assembler for compiled code: instructions and labels in, words out. The definitions and lemmas about compiled
//! code that runs, on a machine of words and on that of the instruction table, stand in specs/ and proofs/.
#![tactic(auto)]

pub mod asm;
mod assemble;
mod far;
pub mod item;
pub mod pieces;
#[cfg(test)]
mod pieces_tests;
pub mod program;
mod resolve;
#[cfg(test)]
mod tests;

pub use asm::{Asm, Code};
pub use item::{Item, Label};
