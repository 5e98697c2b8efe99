//! Operations on matrices over a grid, run by engines.
//!
//! [`run`] does any operation by any engine: it checks the shapes of the operands, makes a plan for them ([`cb_planner`]),
//! and runs the plan ([`cb_rank_engines`]). [`run_matrices`] takes and returns whole matrices. What an operation computes, and
//! when shapes agree, is defined in [`cb_operations`] alone. [`multiply_vector`] multiplies a matrix by vectors,
//! by a plan that is made once. [`levels`] and [`distances`] search a graph over a grid.
#![tactic(auto)]

mod operation_faults;
mod products;
mod runs;
mod spread_vectors;
mod walks;

pub use operation_faults::OperationFault;
pub use products::{Multiplied, multiply_vector};
pub use runs::{run, run_matrices};
pub use walks::{distances, levels};
