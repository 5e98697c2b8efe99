//! Sparse matrices for programs in other languages: kept matrices, each over one of the semirings.
//!
//! A kept matrix is made of lists in compressed columns ([`Columns`](cb_lists::Columns), which a call reads and neither
//! changes nor keeps), of triples or of a text, and gives its lists and its text back. A call takes [`Kept`] matrices, reads
//! their blocks where they are, and returns its result or the first [`Fault`]. It looks for all faults before it takes
//! memory, except for those of a text, which it finds while it reads.
//!
//! The lists of a result belong to the caller. This crate never frees them.
//!
//! A semiring is given by its number in `cb_semirings::SemiringName`: 0 (plus-times), 1 (min-plus), 2 (or-and), 3
//! (max-min), and so on.
#![tactic(auto)]

mod faults;
mod kept;
mod kept_calls;
mod kept_computations;
mod kept_extracts;
mod kept_lists;
mod kept_matrices;
mod kept_panels;
mod kept_shares;
mod kept_sums;
mod kept_texts;
mod kept_turned;
mod kept_updates;
mod kept_values;
mod misfits;
mod triples;

pub use faults::Fault;
pub use kept::{Keep, Kept, keep_block};
pub use kept_computations::kept_computation;
pub use kept_extracts::kept_extract;
pub use kept_lists::{columns_of, keep_lists};
pub use kept_matrices::{KeptMatrix, kept_join};
pub use kept_shares::{kept_ends, kept_entry_ends};
pub use kept_sums::{
    Sums, kept_add_share, kept_column_of_sums, kept_share_of_sum, kept_total, sum_of,
};
pub use kept_texts::{KeptText, read_kept, text_of};
pub use kept_turned::kept_turned_product;
pub use kept_updates::{kept_update, write_back_of};
pub use kept_values::{Summary, summary_of, value_at};
pub use misfits::{first_outside, misfit_of_lists, misfit_of_triples};
pub use triples::{Triple, keep_triples};
