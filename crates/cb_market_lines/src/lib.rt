//! The lines of Matrix Market texts, as they are read: words, headers, size lines, the lines of entries, and faults.
//!
//! `specs/Reads.antt` defines line by line when a text reads as a matrix, and `specs/Faults.antt` which fault of a text
//! is the first. Every text either has a first fault or reads as exactly one matrix.
//!
//! The reader is a cursor ([`Scanner`](scanner::Scanner)) that visits each byte a few times at most. It takes no memory.
//! `cb_market` reads texts with it into matrices.
#![tactic(auto)]

ghost use Rattle.std.specs.Prelude.{◌≡◌};
ghost use Rattle.cb_market_lines.specs.Kinds.{kind_text};

use std::fmt;
use thiserror::Error;

/// The kinds of faults that a text can have.
#[derive(Clone, Copy, Debug, PartialEq, Eq)]
pub enum Kind {
    /// The first line is not five words that begin with `%%MatrixMarket`.
    BadHeader,
    /// An object, format, field or symmetry that is not supported, or not by this semiring.
    Unsupported,
    /// The size line is missing, or is not three numbers.
    BadSize,
    /// More than 2,147,483,647 rows, columns or entries are announced.
    TooLarge,
    /// A symmetric or skew-symmetric matrix that isn't square.
    NotSquare,
    /// The line of an entry has too few or too many words.
    BadLine,
    /// A row or a column is not digits alone, or a value is not digits after an optional sign.
    BadNumber,
    /// A row or a column is 0, or more than the size line announces.
    IndexRange,
    /// An entry of a symmetric or skew-symmetric matrix above the diagonal.
    AboveDiagonal,
    /// The value is 2^64 or more, or isn't a value of the semiring.
    ValueRange,
    /// More entries follow than the size line announces.
    ExtraEntry,
    /// Fewer entries follow than the size line announces.
    MissingEntries,
    /// Memory was refused.
    Memory,
    /// An entry of a skew-symmetric matrix on the diagonal.
    OnDiagonal,
}

impl Kind {
    /// Returns the kind in words.
    pub fn text(&self) -> &'static str
        ensures { result.now ≡ kind_text self.now }
    {
        match self {
            Kind::BadHeader => "not a Matrix Market header",
            Kind::Unsupported => "header not supported",
            Kind::BadSize => "bad size line",
            Kind::TooLarge => "number too large",
            Kind::NotSquare => "matrix not square",
            Kind::BadLine => "wrong number of words",
            Kind::BadNumber => "not a whole number",
            Kind::IndexRange => "index out of range",
            Kind::AboveDiagonal => "entry above the diagonal",
            Kind::ValueRange => "value out of range",
            Kind::ExtraEntry => "more entries than announced",
            Kind::MissingEntries => "fewer entries than announced",
            Kind::Memory => "out of memory",
            Kind::OnDiagonal => "entry on the diagonal",
        }
    }
}

impl fmt::Display for Kind {
    fn fmt<W: fmt::Write>(&self, f: &mut fmt::Formatter<W>) -> fmt::Result {
        f.write_str(self.text())
    }
}

impl std::error::Error for Kind {}

/// The first fault of a text, or that memory was refused before one was found.
#[derive(Clone, Copy, Debug, PartialEq, Eq, Error)]
#[error("line {line}: {kind}")]
pub struct ReadFault {
    /// The line, counted from 1. If something is missing at the end, it is the line past the last.
    pub line: u64,
    pub kind: Kind,
}

pub mod entry_lines;
mod header;
mod plain_lines;
pub mod scanner;
mod short_numbers;
mod size;
pub mod words;

pub use header::{Field, Header, Symmetry};
pub use size::Size;
