//! The lines of entries.
ghost use Rattle.std.specs.Prelude.{◌≡◌, ◌+◌, ◌^◌, ◌<◌, IsTrue, IfOk, IfErr, IfSome, OnSome, IfNone, [], ◌∷◌};
ghost use Rattle.cb_semirings.specs.Arithmetic.{IsValue};
ghost use Rattle.cb_market_lines.specs.Lines.{is_number, number, past_last, kept_from};
ghost use Rattle.cb_market_lines.specs.Cursor.{words_at, after_line};
ghost use Rattle.cb_market_lines.specs.Checks.{is_above, is_on_diagonal, place_in, place_fault, mirrored, negative_of};
ghost use Rattle.cb_market_lines.specs.Checks.{NamesPlace, WritesEntry, HasEntryFault};
ghost use Rattle.cb_market_lines.specs.Checks.{WriteInteger, HaveIntegerFault, WritePattern, HavePatternFault, PlaceWrites, NumbersWrite, numbers_fault};
ghost use Rattle.cb_market_lines.specs.Faults.{IsNextEntry};

use crate::Kind;
use crate::header::{Field, Header, Symmetry};
use crate::plain_lines::{plain_line, plain_place};
use crate::scanner::Scanner;
use crate::words::Word;
use cb_matrix::{Entry, Shape};
use cb_semirings::Semiring;

/// Returns whether a place is above the diagonal of a matrix whose entries are mirrored.
fn is_above(symmetry: Symmetry, row: u32, column: u32) -> bool
    ensures { result ≡ is_above symmetry row column }
{
    match symmetry {
        Symmetry::General => false,
        Symmetry::Symmetric => row < column,
        Symmetry::SkewSymmetric => row < column,
    }
}

/// Returns whether a place is on the diagonal of a skew-symmetric matrix.
fn is_on_diagonal(symmetry: Symmetry, row: u32, column: u32) -> bool
    ensures { result ≡ is_on_diagonal symmetry row column }
{
    match symmetry {
        Symmetry::General => false,
        Symmetry::Symmetric => false,
        Symmetry::SkewSymmetric => row == column,
    }
}

/// Returns the place that a number names, counted from 0, if it is below the limit.
fn place_in(limit: u32, number: u64) -> Option<u32>
    ensures { result ≡ place_in limit number }
{
    if 1 <= number && number <= limit as u64 {
        Some((number - 1) as u32)
    } else {
        None
    }
}

/// Returns the place of an entry, given its row and its column, counted from 1.
#[inline(always)]
fn place_at(symmetry: Symmetry, shape: Shape, row: u64, column: u64) -> Result<(u32, u32), Kind>
    ensures ok { IfOk result (NamesPlace symmetry shape row column) }
    ensures fault { IfErr result (λ k. place_fault symmetry shape row column ≡ Some k) }
{
    let Some(row) = place_in(shape.rows(), row) else {
        return Err(Kind::IndexRange);
    };
    let Some(column) = place_in(shape.cols(), column) else {
        return Err(Kind::IndexRange);
    };
    if is_above(symmetry, row, column) {
        return Err(Kind::AboveDiagonal);
    }
    if is_on_diagonal(symmetry, row, column) {
        return Err(Kind::OnDiagonal);
    }
    Ok((row, column))
}

/// Reads the place of an entry from words that are numbers.
fn place_of(
    symmetry: Symmetry,
    shape: Shape,
    row: &Word<'_>,
    column: &Word<'_>,
) -> Result<(u32, u32), Kind>
    requires row { IsTrue (is_number row.now.bytes.now) }
    requires column { IsTrue (is_number column.now.bytes.now) }
    ensures ok { IfOk result (NamesPlace symmetry shape (number row.now.bytes.now) (number column.now.bytes.now)) }
    ensures fault { IfErr result (λ k. place_fault symmetry shape (number row.now.bytes.now) (number column.now.bytes.now) ≡ Some k) }
{
    let Some(row) = row.whole() else {
        return Err(Kind::IndexRange);
    };
    let Some(column) = column.whole() else {
        return Err(Kind::IndexRange);
    };
    place_at(symmetry, shape, row, column)
}

/// Reads the entry of a row and a column.
#[inline(always)]
fn place_entry<S: Semiring>(
    symmetry: Symmetry,
    shape: Shape,
    row: u64,
    column: u64,
) -> Result<Entry, Kind>
    ensures ok { IfOk result (PlaceWrites S.arithmetic symmetry shape row column) }
    ensures fault { IfErr result (λ k. place_fault symmetry shape row column ≡ Some k) }
{
    let (row, column) = place_at(symmetry, shape, row, column)?;
    Ok(Entry {
        row,
        column,
        value: S::pattern(),
    })
}

/// Reads the entry of a row, a column and a value.
#[inline(always)]
fn numbers_entry<S: Semiring>(
    symmetry: Symmetry,
    shape: Shape,
    row: u64,
    column: u64,
    value: u64,
) -> Result<Entry, Kind>
    ensures ok { IfOk result (NumbersWrite S.arithmetic symmetry shape row column value) }
    ensures fault { IfErr result (λ k. numbers_fault S.arithmetic symmetry shape row column value ≡ Some k) }
{
    let (row, column) = place_at(symmetry, shape, row, column)?;
    let Some(value) = S::accept(false, value) else {
        return Err(Kind::ValueRange);
    };
    Ok(Entry { row, column, value })
}

/// Reads the entry that three words write.
fn integer_entry<S: Semiring>(
    symmetry: Symmetry,
    shape: Shape,
    row: &Word<'_>,
    column: &Word<'_>,
    value: &Word<'_>,
) -> Result<Entry, Kind>
    ensures ok { IfOk result (WriteInteger S.arithmetic symmetry shape row.now.bytes.now column.now.bytes.now value.now.bytes.now) }
    ensures fault { IfErr result (HaveIntegerFault S.arithmetic symmetry shape row.now.bytes.now column.now.bytes.now value.now.bytes.now) }
{
    if !(row.is_number() && column.is_number() && value.is_value()) {
        return Err(Kind::BadNumber);
    }
    let (row, column) = place_of(symmetry, shape, row, column)?;
    let Some(value) = value.value::<S>() else {
        return Err(Kind::ValueRange);
    };
    Ok(Entry { row, column, value })
}

/// Reads the entry that two words write.
fn pattern_entry<S: Semiring>(
    symmetry: Symmetry,
    shape: Shape,
    row: &Word<'_>,
    column: &Word<'_>,
) -> Result<Entry, Kind>
    ensures ok { IfOk result (WritePattern S.arithmetic symmetry shape row.now.bytes.now column.now.bytes.now) }
    ensures fault { IfErr result (HavePatternFault S.arithmetic symmetry shape row.now.bytes.now column.now.bytes.now) }
{
    if !(row.is_number() && column.is_number()) {
        return Err(Kind::BadNumber);
    }
    let (row, column) = place_of(symmetry, shape, row, column)?;
    Ok(Entry {
        row,
        column,
        value: S::pattern(),
    })
}

/// Returns an entry with this value at the mirrored place.
pub fn mirrored(value: u64, entry: Entry) -> Entry
    ensures { result ≡ mirrored value entry }
{
    Entry {
        row: entry.column,
        column: entry.row,
        value,
    }
}

/// Returns the negative of a value, or zero if it has none.
pub fn negative_of<S: Semiring>(value: u64) -> u64
    requires { IsValue S.arithmetic value }
    ensures { result ≡ negative_of S.arithmetic value }
{
    S::negative(value).unwrap_or(S::zero())
}

impl<'a> Scanner<'a> {
    /// Reads the entry of the line with this first word.
    fn entry<S: Semiring>(
        &mut self,
        header: Header,
        shape: Shape,
        first: &Word<'_>,
    ) -> Result<Entry, Kind>
        ensures ok { IfOk result (WritesEntry S.arithmetic header shape (first.now.bytes.now ∷ words_at self.old.rest.now)) }
        ensures fault { IfErr result (HasEntryFault S.arithmetic header shape (first.now.bytes.now ∷ words_at self.old.rest.now)) }
        ensures after { after_line self.new.rest.now ≡ after_line self.old.rest.now }
        ensures line { self.new.line ≡ self.old.line }
    {
        let Some(second) = self.word() else {
            return Err(Kind::BadLine);
        };
        match header.field {
            Field::Integer => {
                let Some(third) = self.word() else {
                    return Err(Kind::BadLine);
                };
                if self.word().is_some() {
                    return Err(Kind::BadLine);
                }
                integer_entry::<S>(header.symmetry, shape, first, &second, &third)
            }
            Field::Pattern => {
                if self.word().is_some() {
                    return Err(Kind::BadLine);
                }
                pattern_entry::<S>(header.symmetry, shape, first, &second)
            }
        }
    }

    /// Reads the entry of the current line or its fault, if the line is plain, and moves to the next line. Otherwise
    /// returns None and doesn't move.
    #[inline(always)]
    fn plain_entry<S: Semiring>(
        &mut self,
        header: Header,
        shape: Shape,
    ) -> Option<Result<Entry, Kind>>
        requires { past_last self.old.line self.old.rest.now < 2 ^ 64 }
        ensures some { IfSome result (λ found. IsNextEntry S.arithmetic header shape self.old.line self.old.rest.now self.old.line found self.new.rest.now) }
        ensures line { OnSome result (self.new.line ≡ self.old.line + 1) }
        ensures none { IfNone result ((self.new.line ≡ self.old.line) × (self.new.rest.now ≡ self.old.rest.now)) }
    {
        match header.field {
            Field::Pattern => {
                let Some(line) = plain_place(self.rest) else {
                    return None;
                };
                self.rest = line.rest;
                self.line += 1;
                let found = place_entry::<S>(header.symmetry, shape, line.row, line.column);
                Some(found)
            }
            Field::Integer => {
                let Some(line) = plain_line(self.rest) else {
                    return None;
                };
                self.rest = line.rest;
                self.line += 1;
                let found = numbers_entry::<S>(
                    header.symmetry,
                    shape,
                    line.row,
                    line.column,
                    line.value,
                );
                Some(found)
            }
        }
    }

    /// Reads the entry of the next line that isn't skipped, or its fault, and moves to the line after it. Returns it with
    /// the number of its line. None if there is no such line.
    #[inline(always)]
    pub fn next_entry<S: Semiring>(
        &mut self,
        header: Header,
        shape: Shape,
    ) -> Option<(u64, Result<Entry, Kind>)>
        requires { past_last self.old.line self.old.rest.now < 2 ^ 64 }
        ensures none { IfNone result (kept_from self.old.line self.old.rest.now ≡ []) }
        ensures end { IfNone result (self.new.line ≡ past_last self.old.line self.old.rest.now) }
        ensures some { IfSome result (λ p. IsNextEntry S.arithmetic header shape self.old.line self.old.rest.now p.0 p.1 self.new.rest.now) }
        ensures line { IfSome result (λ p. self.new.line ≡ p.0 + 1) }
    {
        let start = self.line;
        if let Some(found) = self.plain_entry::<S>(header, shape) {
            return Some((start, found));
        }
        let Some(first) = self.kept_line() else {
            return None;
        };
        let line = self.line;
        let found = self.entry::<S>(header, shape, &first);
        self.next_line();
        Some((line, found))
    }
}
