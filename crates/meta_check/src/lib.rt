//! Descriptions checked: whether their items meet the rules between them.
#![tactic(auto)]

mod breaches;
mod categories;
pub mod checking;
pub mod description;
mod equations;
pub mod errors;
mod kinds;
pub mod matching;
mod names;
mod numbers;
mod templates;

pub use checking::check;
pub use description::Description;
pub use errors::MetaError;
pub use matching::alternatives_of_equations;
