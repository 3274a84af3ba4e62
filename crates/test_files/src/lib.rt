//! Files that tests make from texts: bytes at places, and assemblies row by row. Only test crates depend on it.
#![tactic(auto)]

mod draft;
mod pieces;

pub use draft::assembly_of;
pub use pieces::{file_of, number, put_piece};
