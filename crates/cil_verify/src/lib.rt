//! Which methods verify: the types on the stack at each offset that is reached (ECMA-335 III.1.8.1), merged where
//! flows meet (III.1.8.1.3).
//!
//! [`verify`] goes over the instructions in rounds until nothing changes, and then asks whether what it found is a typing. A round takes
//! a step for each instruction that is reached. An offset's stack is found without a search.
#![tactic(auto)]

mod code;
mod flow;
mod rounds;
mod rule;
mod search;
mod stack;
mod stacks;
mod step;
mod typing;
mod verifier;

pub use cil_meaning::Kind;
pub use verifier::{Typed, VerifyRefusal, verify};
