//! Sparse matrices read from Matrix Market texts.
//!
//! A text consists of lines of words. The first line, the header, names a coordinate matrix. It states whether entries
//! have values (`integer`) or not (`pattern`), and whether each entry also gives the mirrored one (`symmetric`,
//! `skew-symmetric`) or not (`general`). The size line has the numbers of rows, columns and entries. Each further line is
//! an entry. Empty lines and comments are skipped. The format is defined in Boisvert, Pozo and Remington, The Matrix
//! Market Exchange Formats (NISTIR 5935).
//!
//! `cb_market_lines` reads lines, and defines when a text reads as a matrix and which of its faults is the first. Every text
//! either has a first fault or reads as exactly one matrix; `read` returns the fault or the matrix. `cb_market_pages` writes
//! matrices as texts.
//!
//! The reader visits each byte a few times at most. It keeps only the entries. A size line that announces more
//! entries than the text can hold doesn't make it allocate more.
#![tactic(auto)]

mod entries;
mod gathered;
mod growing_matrices;
mod openings;
mod pieces;
mod whole_texts;

pub use cb_market_lines::{Field, Header, Kind, ReadFault, Size, Symmetry};
pub use entries::room_for_entries;
pub use openings::Opening;
pub use pieces::{Piece, parted, read_piece};
pub use whole_texts::{read, read_distributed};
