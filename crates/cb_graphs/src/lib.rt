//! Tasks on the graph of a square matrix, in which a stored entry (i, j) is an edge from i to j: connected components, triangles
//! and degrees, and any [`GraphTask`](cb_operations::GraphTask) by [`compute`].
//!
//! Each call takes one block and makes no plan. Time and memory grow with the entries, however many vertices have none.
#![tactic(auto)]

mod connected;
mod degrees;
mod graph_tasks;
mod marks;
mod neighbours;
mod symmetry;
mod triangle_counts;

pub use connected::components;
pub use degrees::{column_degrees, row_degrees};
pub use graph_tasks::{GraphAnswer, GraphOperand, GraphSemiring, block_of, compute};
pub use triangle_counts::{triangles, triangles_of};
