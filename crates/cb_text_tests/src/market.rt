//! Texts read and written on one thread.
mod faults;
mod lines;
mod matrices;
mod memory;
pub(crate) mod pages;
