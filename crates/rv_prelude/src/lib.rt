//! The prelude of compiled code: its first instructions, the entries for what nodes share, and the
//! pieces by which nodes commit, open and close records, and take units.
#![tactic(auto)]

mod emitting;
pub mod entries;
pub mod pieces;
mod resuming;
mod returning;
mod starting;

pub use entries::{Entries, prelude};
