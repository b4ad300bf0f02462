//! The commands.

pub mod act;
pub mod help;
pub mod perform;
pub mod run;
