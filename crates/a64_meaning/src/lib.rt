//! What the words of A64 do: the machine, its memory and one step (Arm Architecture Reference Manual, C6.2).
#![tactic(auto)]

mod laws;

pub use laws::{code_is_run, steps_are_whole, straight_code_runs, words_stay};
