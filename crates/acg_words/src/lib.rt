//! Command lines, and the lines that are printed.
#![tactic(auto)]

mod buffer;
mod command;
mod line;
mod number;
mod parser;
mod prints;
mod settings;
mod table;
mod usage;

pub use command::{Act, Command, Perform, Run};
pub use line::Line;
pub use parser::parse_command;
pub use prints::{print_header, print_message};
pub use usage::{print_usage, print_version};
