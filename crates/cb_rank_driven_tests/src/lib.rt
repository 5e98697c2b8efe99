//! Tests of ranks that another program drives: all ranks of a plan in one process, and each letter between them as a head and
//! lists.
#![tactic(auto)]

#[cfg(test)]
mod calls;
#[cfg(test)]
mod carriers;
#[cfg(test)]
mod letters;
#[cfg(test)]
mod operands;
#[cfg(test)]
mod runs;
