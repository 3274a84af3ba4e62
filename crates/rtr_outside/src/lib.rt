//! The outside: files, an output, and the moment before an import cell is bound.
//!
//! Code that is generic over these traits sees the outside by their ghost members alone. A failed call is one
//! that the object itself has recorded, so such code cannot make one up.
//!
//! Files and sinks come in three kinds: [`MemFiles`] and [`MemSink`] in memory, which expose their bytes and of which
//! chosen calls fail; [`SureFiles`] and [`SureSink`], which never fail and expose no bytes; and [`RealFiles`] and
//! [`RealSink`] of the system, which expose no bytes, record their failed calls and count their faults.
//!
//! A [`Text`] is made whole in memory before any of it is written.
#![tactic(auto)]

mod calls;
mod files;
mod gate;
mod mem_files;
mod mem_sink;
mod named;
mod real_files;
mod real_sink;
mod sink;
mod sure;
mod text;
mod transfer;

pub use files::{FILE_LIMIT, FileRefusal, Files};
pub use gate::{Gate, OpenGate};
pub use mem_files::MemFiles;
pub use mem_sink::MemSink;
pub use real_files::RealFiles;
pub use real_sink::RealSink;
pub use sink::{Sink, SinkFailed, write_all};
pub use sure::{SureFiles, SureSink};
pub use text::Text;
