//! The report of a sort table: what each node of an action may be given, receive, complete and escape with.
#![tactic(auto)]

mod error;
mod lines;
mod parts;
mod reporting;

pub use error::ReportError;
pub use reporting::report;
