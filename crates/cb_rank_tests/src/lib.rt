//! Tests of ranks, through their public calls alone: one rank by itself, two ranks in a world and on their own threads, and
//! the ranks of plans over grids.
//!
//! For a grid, the factors of a product are scattered to the slots of the ranks, which then run their programs: in a
//! world, one event at a time and in any order, or on threads, in parallel. In every order they leave the blocks of the
//! product.
#![tactic(auto)]

#[cfg(test)]
mod crews;
#[cfg(test)]
mod events;
#[cfg(test)]
mod examples;
#[cfg(test)]
mod grids;
#[cfg(test)]
mod losses;
#[cfg(test)]
mod meetings;
#[cfg(test)]
mod plans;
#[cfg(test)]
mod rank;
#[cfg(test)]
mod ranks;
#[cfg(test)]
mod traces;
#[cfg(test)]
mod world;
