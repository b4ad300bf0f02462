//! The top call: a command line, a store and a sink in, a status out.
#![tactic(auto)]

mod commands;
mod compiling;
mod descriptions;
mod files;
mod image;
mod image_bytes;
mod inputs;
mod machine_run;
mod messages;
mod performance;
mod running;
mod serving;
mod sources;
mod text;

pub use compiling::{Built, CompileError, compile_action};
pub use serving::serve;
pub use sources::{SourceError, compile_source};
