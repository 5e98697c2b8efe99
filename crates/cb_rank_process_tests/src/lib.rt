//! Tests of processes: all processes of a grid in one, each letter between them as a head and lists.
#![tactic(auto)]

#[cfg(test)]
mod answers;
#[cfg(test)]
mod calls;
#[cfg(test)]
mod crews;
#[cfg(test)]
mod refusals;
#[cfg(test)]
mod searches;
