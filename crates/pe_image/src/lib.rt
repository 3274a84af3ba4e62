//! The PE headers of an assembly and its CLI header (PE/COFF 2 to 4, ECMA-335 II.25.3.3).
#![tactic(auto)]

mod check;
mod cli;
mod file;
mod finder;
mod layout;
mod numbers;
mod pe;
mod places;
mod room;
mod section;
mod table;
mod values;
mod written;

pub use pe::Pe;
pub use room::{can_write_pe, cod_rva, dat_rva};
pub use section::PeSection;
pub use written::write_pe;
