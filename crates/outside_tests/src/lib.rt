//! Tests of files and outputs (`rtr_outside`): those in memory, those that never fail, and those of a system.
#![tactic(auto)]

#[cfg(test)]
mod tests;
