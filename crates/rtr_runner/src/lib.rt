//! Workers: each runs an entry with its numbers, and has the lines that were printed and how the run ended.
//!
//! [`Worker::plain`] takes all memory of a worker, and [`Bodies::prepare`] that of the methods. A run takes none.
#![tactic(auto)]

mod laws;
mod running;
mod worker;

pub use cil_interp::Bodies;
pub use laws::runs_end;
pub use worker::{Worker, run_all};
