//! The code of actions: the words of an image that performs an action, with the theorem that such an
//! image is right.
#![tactic(auto)]

mod arms;
mod built;
mod calls;
mod checks;
mod commits;
mod data;
mod data_tables;
mod entries;
mod escapes;
mod exits;
mod fetches;
mod generation;
mod gives;
mod handlers;
mod jumps;
mod labels;
mod node;
mod node_places;
mod plan;
mod room;
mod sends;
mod storage;

pub use built::first_unbuilt;
pub use generation::generate;
