//! Where the procedures of an action keep their data, their bindings and their records: offsets in
//! their frames.
#![tactic(auto)]

mod frames;
mod lengths;
pub mod places;
mod roots;
mod rows;

pub use frames::layout;
pub use places::{Layout, NodePlaces, Procedure};
