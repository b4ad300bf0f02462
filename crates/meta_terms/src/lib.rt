//! The items of a description as plain data; which words are names, and what a template is.
#![tactic(auto)]

pub mod items;
pub mod laws;
pub mod template;

pub use items::{Declaration, Equation, Item, Items, PatternPart};
pub use template::{Template, TemplateNode};
