//! Makes assemblies with given rows (ECMA-335 II.22 to II.25).
//!
//! A [`Builder`] is seen as what was asked of it: one record, `Asked` of `specs/Asked.antt`. What its rows hold is a table of cells
//! (`specs/Cells.antt`); the numbers and heaps that spell them are `specs/Content.antt`, and the file's bytes `specs/File.antt`.
//! `specs/Built.antt` says what an assembly has that was built.
//!
//! The calls of a `Builder` have conditions that its caller proves. A [`Draft`] has the same calls and tests them, so a test takes a
//! draft (`src/example.rt`).
#![tactic(auto)]

mod asked;
mod builder;
mod content;
mod draft;
mod file;
mod finish;
mod headers;
mod layout;
mod room;
mod tested;
mod tokens;
mod user_strings;

pub use asked::{Attribute, Field, MemberRef, Method, TypeDef, TypeRef};
pub use builder::Builder;
pub use draft::{Draft, DraftRefusal};
pub use finish::BuildRefusal;
pub use tested::can_new;
