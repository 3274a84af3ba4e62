//! The interpreter of CIL (ECMA-335 III): the code of each method in the profile as it is run, and the frames of a worker.
//!
//! [`Bodies::prepare`] verifies each method once, and lowers it: tokens are resolved, the widths of numbers are chosen by the typing, and
//! branches lead to places in the code. A step looks nothing up by name, and takes no memory.
#![tactic(auto)]

mod act;
mod arithmetic;
mod bodies;
mod body;
mod code;
mod enter;
mod following;
mod frames;
mod fused;
mod fusing;
mod instruction;
mod lower;
mod meter;
mod offsets;
mod printing;
mod run;
mod running;
mod stack;

pub use act::Activation;
pub use bodies::Bodies;
pub use body::Body;
pub use code::{Call, Code, Width};
pub use frames::{CilFrames, step};
pub use meter::{Event, Meter};
pub use printing::built_in;
pub use stack::FRAMES;
