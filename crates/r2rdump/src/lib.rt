//! The text of a dump.
//!
//! [`dump_text`] prints the records of a file: its PE headers, its CLI header, its ReadyToRun part, and its types with
//! their methods. The text is made whole in memory, as an `rtr_outside::Text`, before any of it is written.
#![tactic(auto)]

mod dump;
mod headers;
mod image;
mod laws;
mod rows;
mod text;
mod types;

pub use dump::{DumpRefusal, dump_text, read_file};
pub use laws::fault_is_the_lower;
