//! Tests of worlds: typings of methods, runs of methods, and the output of a worker.
#![tactic(auto)]

#[cfg(test)]
mod memory;
#[cfg(test)]
mod runs;
#[cfg(test)]
mod typings;
