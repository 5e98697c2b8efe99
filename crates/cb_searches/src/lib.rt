//! Searches in the graph of a square matrix, in which a stored entry (i, j) is an edge from i to j.
//!
//! A [`Search`] is a state: the vertices' numbers so far, which approach the least weights of walks from one vertex,
//! round by round. The holder of the matrix makes the rounds: in one block by [`Search::round`], or by
//! [`Search::advance`] with the product of the transposed matrix and a column, however it is computed. [`distances`]
//! searches in one block: it makes a few rounds, and then settles the remaining vertices one after another. [`levels`] are
//! found by a breadth-first search, and [`parents`] are the vertices from which they were reached. These three take the
//! transpose from a caller who has it.
//! [`distances_from`] and [`levels_from`] search from several sources; [`distances_given`] and [`levels_given`] from all
//! vertices that have an initial value. [`Numbers`] holds a search's numbers of vertices; other kernels that number vertices
//! use it too.
#![tactic(auto)]

mod breadth_first;
mod dijkstra;
mod given_numbers;
mod least_parents;
mod numbers;
mod one_block;
mod relaxations;
mod searches;
mod several_sources;

pub use given_numbers::{distances_given, levels_given};
pub use least_parents::parents;
pub use numbers::Numbers;
pub use one_block::{distances, levels};
pub use searches::{Search, column_shape, vector_product};
pub use several_sources::{distances_from, levels_from};
