//! Runs of entries of one column, and their lines in a buffer.
ghost use Rattle.std.specs.Prelude.{◌≡◌, ℕ, ◌+◌, ◌*◌, ◌^◌, ◌≤◌, ◌<◌, [], ◌++◌, length, take, drop, min, vec_len, vec_capacity, IfSome, IfNone};
ghost use Rattle.cb_layout.specs.Segments.{entries_of};
ghost use Rattle.cb_market_pages.specs.Text.{column_lines, segment_lines, line_with, lines_in};

use crate::LineForm;
use crate::pages::{put_bytes, put_next_number, put_number};
use crate::text_pages::{EntriesLeft, begun, rest_of};
use cb_layout::Segment;
use cb_semirings::Semiring;
use itoa::Buffer;

/// The most bytes that the line of an entry can have: a row and a column of 10 digits each, a value of 20, and a byte
/// after each.
pub(crate) const LONGEST_LINE: usize = 43;

impl<'a, S: Semiring> EntriesLeft<'a, S> {
    /// Copies the iterator.
    pub(crate) fn fork(&self) -> EntriesLeft<'a, S>
        ensures { result ≡ self.now }
    {
        EntriesLeft {
            segment: self.segment,
            segments: self.segments.fork(),
        }
    }

    /// Removes and returns the next run: at most this many entries of one column in one block. None if no entry is left.
    fn next_run(&mut self, most: usize) -> Option<Segment<'a>>
        requires { 0 < most }
        ensures some { IfSome result (λ g. self.old ≡ entries_of g ++ self.new) }
        ensures none { IfNone result ((self.old ≡ []) × (self.new ≡ [])) }
        ensures lengths { IfSome result (λ g. length g.values.now ≡ length g.rows.now) }
        ensures limits { IfSome result (λ g. (0 < length g.rows.now) × (length g.rows.now ≤ most)) }
    {
        let Some(segment) = begun(self.segment, &mut self.segments) else {
            return None;
        };
        let count = segment.rows.len().min(most);
        self.segment = rest_of(segment, count);
        Some(first_of(segment, count))
    }

    /// Skips the next entries, at most this many, and returns how many. The cost is one step per segment.
    pub(crate) fn skip(&mut self, most: usize) -> usize
        ensures rest { self.new ≡ drop most self.old }
        ensures count { result ≡ min most (length self.old) }
    {
        let mut left = most;
        while left > 0 {
            let Some(run) = self.next_run(left) else {
                break;
            };
            left -= run.rows.len();
        }
        most - left
    }

    /// Writes the lines of the next entries, at most this many, at an offset of the buffer, and returns the offset after
    /// them. The buffer has room for these lines, and gets longer as they are written.
    pub(crate) fn put_first(
        &mut self,
        buffer: &mut Vec<u8>,
        start: usize,
        form: LineForm,
        most: usize,
    ) -> usize
        requires start { start ≤ vec_len buffer.old }
        requires room { start + most * LONGEST_LINE ≤ vec_capacity buffer.old }
        ensures lines { take result buffer.new.items ≡ take start buffer.old.items ++ lines_in form (take most self.old) }
        ensures limit { result ≤ start + most * LONGEST_LINE }
        ensures length { (result ≤ vec_len buffer.new) × (vec_len buffer.old ≤ vec_len buffer.new) }
        ensures capacity { vec_capacity buffer.old ≤ vec_capacity buffer.new }
    {
        let mut end = start;
        let mut left = most;
        while left > 0 {
            let Some(run) = self.next_run(left) else {
                break;
            };
            left -= run.rows.len();
            lengthen(buffer, end + run.rows.len() * LONGEST_LINE);
            end = put_run(buffer, end, form, run);
        }
        end
    }
}

/// How many bytes a buffer gets longer by at least, if it has room for them.
const SLACK: usize = 65_536;

/// Appends zeros to a list, which has room for this many bytes, until it has as many. So memory for what isn't written is
/// never touched.
fn lengthen(list: &mut Vec<u8>, least: usize)
    requires { least ≤ vec_capacity list.old }
    ensures enough { least ≤ vec_len list.new }
    ensures longer { vec_len list.old ≤ vec_len list.new }
    ensures same { (n : ℕ) → n ≤ vec_len list.old → take n list.new.items ≡ take n list.old.items }
    ensures capacity { vec_capacity list.old ≤ vec_capacity list.new }
{
    let len = list.len();
    if least <= len {
        return;
    }
    let wanted = least.max(len.saturating_add(SLACK)).min(list.capacity());
    match list.resize(wanted, 0) {
        Ok(()) => {}
        Err(_) => unreachable!(),
    }
}

/// Returns the first entries of a segment.
fn first_of(segment: Segment<'_>, count: usize) -> Segment<'_>
    requires rows { count ≤ length segment.rows.now }
    requires values { count ≤ length segment.values.now }
    ensures place { (result.top ≡ segment.entry.top) × (result.column ≡ segment.entry.column) }
    ensures rows { result.rows.now ≡ take count segment.entry.rows.now }
    ensures values { result.values.now ≡ take count segment.entry.values.now }
{
    Segment {
        column: segment.column,
        top: segment.top,
        rows: &segment.rows[..count],
        values: &segment.values[..count],
    }
}

/// Writes the lines of a run at an offset of the buffer, and returns the offset after them.
fn put_run(buffer: &mut [u8], start: usize, form: LineForm, run: Segment<'_>) -> usize
    requires lengths { length run.values.now ≡ length run.rows.now }
    requires room { start + length run.rows.now * LONGEST_LINE ≤ length buffer.old }
    ensures lines { take result buffer.new ≡ take start buffer.old ++ segment_lines form run.entry }
    ensures limit { result ≤ start + length run.entry.rows.now * LONGEST_LINE }
{
    let (top, column) = (run.top, run.column);
    put_rows(buffer, start, form, top, column, run.rows, run.values)
}

/// The same for the entries of a column, whose rows count from `top`. The digits of the column are computed once.
fn put_rows(
    buffer: &mut [u8],
    start: usize,
    form: LineForm,
    top: u32,
    column: u32,
    rows: &[u32],
    values: &[u64],
) -> usize
    requires lengths { length values.now ≡ length rows.now }
    requires room { start + length rows.now * LONGEST_LINE ≤ length buffer.old }
    ensures lines { take result buffer.new ≡ take start buffer.old ++ column_lines form top column rows.now values.now }
    ensures limit { result ≤ start + length rows.now * LONGEST_LINE }
{
    let mut digits = Buffer::new();
    let digits = digits.format(u64::from(column) + 1).as_bytes();
    let mut end = start;
    for n in 0..rows.len() {
        let row = u64::from(top) + u64::from(rows[n]) + 1;
        end = put_one(buffer, end, form, row, digits, values[n]);
    }
    end
}

/// Writes the line of an entry at an offset of the buffer, with the digits of its column, and returns the offset after
/// it.
fn put_one(
    buffer: &mut [u8],
    start: usize,
    form: LineForm,
    row: u64,
    column: &[u8],
    value: u64,
) -> usize
    requires room { start + LONGEST_LINE ≤ length buffer.old }
    requires row { row < 10 ^ 10 }
    requires column { length column.now ≤ 10 }
    ensures line { take result buffer.new ≡ take start buffer.old ++ line_with form row column.now value }
    ensures limit { result ≤ start + LONGEST_LINE }
{
    let end = put_number(buffer, start, row, b' ');
    match form {
        LineForm::Place => put_bytes(buffer, end, column, b'\n'),
        LineForm::PlaceAndValue => {
            let end = put_bytes(buffer, end, column, b' ');
            put_number(buffer, end, value, b'\n')
        }
        LineForm::RowAndValue => put_number(buffer, end, value, b'\n'),
        LineForm::RowAndVertex => put_next_number(buffer, end, value, b'\n'),
    }
}
