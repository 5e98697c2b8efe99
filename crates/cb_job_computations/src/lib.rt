//! What is computed of the matrices of texts: operations and selections, and rows and columns by lists.
//!
//! [`computed_answer`](computed_answers::computed_answer) and [`extract_answer`](extract_texts::extract_answer) read the texts,
//! dropping each once it is read, and compute the result over any semiring; `named_computations` has the calls that write it
//! over the distributive semiring of a name. Threads read, and share what can be computed by columns.
#![tactic(auto)]

pub mod computed_answers;
pub mod extract_texts;
pub mod named_computations;
