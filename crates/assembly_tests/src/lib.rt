//! Tests of assemblies: metadata, instructions, the record of an assembly with its signatures, and assemblies that are made.
#![tactic(auto)]

#[cfg(test)]
mod assemblies;
#[cfg(test)]
mod built;
#[cfg(test)]
mod instructions;
#[cfg(test)]
mod shown;
#[cfg(test)]
mod signatures;
#[cfg(test)]
mod tables;
