//! Tests of products, operations and selections that several threads share, and of the columns that each of them makes.
//!
//! Expected values are the results of one thread, which `cb_block_tests` compares with results worked out by hand. Tests named
//! for refused memory accept the right result or the error for want of memory; the others need ample memory.
#![tactic(auto)]

#[cfg(test)]
mod masked_panels;
#[cfg(test)]
mod operands;
#[cfg(test)]
mod panels;
#[cfg(test)]
mod shares;
#[cfg(test)]
mod sums;
