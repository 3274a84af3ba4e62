//! What a worker keeps beside its frames as it runs: today the lines that it printed.
//!
//! [`Memory::reserve`] takes all memory at once. No other call takes any.
#![tactic(auto)]

mod memory;

pub use memory::{Memory, OUTPUT_LIMIT, OutputFull};
