//! Sparse matrices written as Matrix Market texts.
//!
//! [`text`] writes a matrix as a text that reads back as the same matrix. [`TextPages`] has the text of a matrix over a grid or
//! in panels, or the lines of a column in a [`LineForm`]: it is written page by page, or in [`Share`]s that several threads write on
//! [`Sheet`]s. The format is defined in Boisvert, Pozo and Remington, The Matrix Market Exchange Formats (NISTIR 5935);
//! `cb_market_lines` says what a text means.
#![tactic(auto)]

mod line_forms;
mod pages;
mod runs;
mod sheets;
mod text_pages;
mod writing;

pub use line_forms::LineForm;
pub use pages::Page;
pub use sheets::{MOST_LINES, Share, Sheet};
pub use text_pages::TextPages;
pub use writing::{text, text_of_pages};
