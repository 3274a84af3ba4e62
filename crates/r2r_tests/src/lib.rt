//! Tests of the commands, through the one public call and the program's own entry: dumps, a broken file for each check, written
//! images, made assemblies, runs, and the arguments of the program.
#![tactic(auto)]

#[cfg(test)]
mod assembly_tests;
#[cfg(test)]
mod fixtures;
#[cfg(test)]
mod plans;
#[cfg(test)]
mod run_tests;
#[cfg(test)]
mod tests;
#[cfg(test)]
mod write_tests;
