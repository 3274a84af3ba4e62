//! Tests of the formats of files: numbers and lists, PE files, the ReadyToRun part, and the text of a dump.
#![tactic(auto)]

#[cfg(test)]
mod dumps;
#[cfg(test)]
mod fields;
#[cfg(test)]
mod fixups;
#[cfg(test)]
mod headers;
#[cfg(test)]
mod leaves;
#[cfg(test)]
mod parts;
#[cfg(test)]
mod written_parts;
