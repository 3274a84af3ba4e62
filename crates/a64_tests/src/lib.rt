//! Tests of what code runs on: the words of A64, and the cells that workers share.
#![tactic(auto)]

#[cfg(test)]
mod cells;
#[cfg(test)]
mod words;
