//! Tasks on the graph of a text, or on the pattern of a matrix: levels and distances from a source, from several sources
//! or from initial values, parents, components, triangles and degrees.
//!
//! [`graph_answer`](graph_tasks::graph_answer) does any of them. Several threads read a large text. The caller's thread computes
//! the answer.
#![tactic(auto)]

pub mod graph_answers;
pub mod graph_tasks;
