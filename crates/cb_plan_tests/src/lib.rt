//! Tests of grids and plans: how a matrix is distributed over a grid; how plans are built, checked and run; the acts that
//! collectives append; and what plans over a grid leave.
#![tactic(auto)]

#[cfg(test)]
mod collectives;
#[cfg(test)]
mod distribution;
#[cfg(test)]
mod kernels;
#[cfg(test)]
mod layout;
#[cfg(test)]
mod plan;
#[cfg(test)]
mod samples;
#[cfg(test)]
mod summa;
