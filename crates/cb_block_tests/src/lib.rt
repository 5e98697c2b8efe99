//! Tests of semirings, matrices, doubly compressed blocks and the kernels over them.
//!
//! Each module tests one library through its public calls alone. Expected values are worked out by hand or by a slow
//! reference. Tests named for refused memory accept the right result or the error for want of memory; the others need
//! ample memory.
#![tactic(auto)]

#[cfg(test)]
mod calls;
#[cfg(test)]
mod dcsc;
#[cfg(test)]
mod dense;
#[cfg(test)]
mod elementwise;
#[cfg(test)]
mod masked;
#[cfg(test)]
mod matrix;
#[cfg(test)]
mod product;
#[cfg(test)]
mod reductions;
#[cfg(test)]
mod reshape;
#[cfg(test)]
mod samples;
#[cfg(test)]
mod selections;
#[cfg(test)]
mod semirings;
#[cfg(test)]
mod updates;
