//! The commands of `r2r`: the one public call [`r2r`], which runs a command over files and an output, and
//! [`program::run`], which runs that of a program's arguments. Today `dump` prints assemblies and images, and `run` runs assemblies
//! from their CIL.
#![tactic(auto)]

mod checked;
mod command;
mod dump_file;
mod inputs;
mod loading;
mod output;
mod printing;
pub mod program;
mod refusals;
mod run_file;
mod run_words;
mod starting;
mod status;
mod top;
mod values;

pub use top::r2r;
