//! Which tokens the closures of an action capture: those of the bindings where a closure is made that
//! something in its body asks for.
#![tactic(auto)]

mod body_tokens;
mod capturing;
mod holders;
mod marking;
pub mod named;

pub use body_tokens::Captures;
pub use capturing::captures;
