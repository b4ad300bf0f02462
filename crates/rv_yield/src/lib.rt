//! The code of yielders: instructions that leave the word of a yielder's datum in a register or
//! in a frame, or go on by a truth-value.
#![tactic(auto)]

mod conditions;
mod counts;
mod emitting;
mod needs;
mod operations;
mod source;
mod tasks;
mod values;
mod words;

pub use conditions::condition_code;
pub use counts::yielder_counts;
pub use needs::{integral_yielders, registers_needed, registers_of};
pub use source::Source;
pub use values::{Slots, stored_code, value_code, yield_code};
pub use words::{append_load, append_store};
