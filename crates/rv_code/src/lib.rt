//! The instructions of RV64IM, their words of 32 bits, and the definition of the machine that runs them.
#![tactic(auto)]

pub mod cause;
pub mod decoding;
pub mod encoding;
pub mod instruction;

pub use cause::Cause;
pub use decoding::decode;
pub use encoding::encode;
pub use instruction::{BranchOp, Inst, LoadOp, OpImmOp, OpOp, Reg, ShiftOp, StoreOp, UpperOp};
