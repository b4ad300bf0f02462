//! The machine that runs images: RV64IM over segments of memory, with an input and a sink.
#![tactic(auto)]

mod answers;
mod arithmetic;
mod block;
mod input;
mod machine;
mod registers;
mod table;

pub use answers::{Quiet, QuietEnd, Run, Step};
pub use elf_image::{Image, Segment};
pub use input::Input;
pub use machine::Machine;
pub use rv_code::Cause;
