//! `r2r`: a compiler, loader and dumper of .NET ReadyToRun images. Today it dumps images, and runs
//! assemblies from their CIL.
#![tactic(auto)]

use r2r_commands::program;
use rtr_outside::{OpenGate, RealFiles, RealSink};
use std::process::ExitCode;
use std::{env, io};

/// Makes the files and the standard output of the system, and runs the command of the program's arguments.
fn main(rt: HostRuntime) -> ExitCode {
    let alloc = rt.alloc();
    let mut files = RealFiles::new(alloc, &rt);
    let mut out = RealSink::new(io::writer(&rt));
    program::run(&rt, alloc, env::args(&rt), &mut files, &mut out, &OpenGate)
}
