//! Command lines and how they are read, the lines of faults, how files are loaded, and sinks that fail. `tools/answers` and
//! `tools/endings` run the built program.
#![tactic(auto)]

#[cfg(test)]
mod lines;
#[cfg(test)]
mod sinks;
#[cfg(test)]
mod stores;
