//! The text of a matrix over a grid, in panels or in a block, or the lines of a block, page by page, without gathering the matrix.
ghost use Rattle.std.specs.Prelude.{◌≡◌, ◌+◌, ◌≤◌, ◌<◌, [], ◌++◌, length, flat_map, take, drop, true, false, IfSome, IfNone};
ghost use Rattle.cb_layout.specs.Segments.{entries_of};
ghost use Rattle.cb_market_pages.specs.Text.{text_of, column_lines, entry_line, first_lines, line_with, lines_in, vertex_pairs_text_of, vertex_text_of};
ghost use Rattle.cb_market_pages.specs.declared.line_forms.LineForm.TheVariants as form_is;

use crate::LineForm;
use crate::pages::{LINE, Page, SIZE};
use crate::writing::put_head;
use cb_dcsc::Block;
use cb_layout::{DistributedMatrix, PanelledMatrix, Segment, Segments};
use cb_matrix::Shape;
use cb_semirings::Semiring;
use itoa::Buffer;
use std::marker::Model;

/// The rest of the text of a matrix over a grid, in panels or in a block, or of the lines of a block, still to be written. In
/// contracts it is these bytes.
///
/// The entries are read from the blocks in place, column by column. The digits of a column are computed once per block.
/// The cost is proportional to the stored entries, and no call takes memory.
#[derive(Drop)]
pub struct TextPages<'a, S: Semiring> {
    pub(crate) shape: Shape,
    /// The number of entries of the matrix.
    pub(crate) len: usize,
    /// Whether the header and the size line are left.
    pub(crate) has_head: bool,
    /// The form of a line.
    pub(crate) form: LineForm,
    pub(crate) entries: EntriesLeft<'a, S>,
}

impl<'a, S: Semiring> Model for TextPages<'a, S> {
    ghost use Rattle.std.specs.Prelude.{ℕ, List};
    ghost use Rattle.cb_market_pages.specs.Text.{text_left};

    ghost Value = { List ℕ };

    ghost view = { λ t. text_left S.arithmetic t.form t.has_head t.shape t.len t.entries };
}

impl<'a, S: Semiring> TextPages<'a, S> {
    /// Starts the text of a matrix, the same that [`text`](crate::text) makes of the gathered matrix.
    pub fn new(matrix: &'a DistributedMatrix<S>) -> TextPages<'a, S>
        ensures { result ≡ text_of S.arithmetic matrix.now.matrix }
    {
        TextPages {
            shape: matrix.shape(),
            len: matrix.len(),
            has_head: true,
            form: LineForm::of_matrix::<S>(),
            entries: EntriesLeft::new(matrix.segments()),
        }
    }

    /// Starts the text of a block, the same that [`text`](crate::text) makes of it.
    pub fn of_block(matrix: &'a Block<S>) -> TextPages<'a, S>
        ensures { result ≡ text_of S.arithmetic matrix.now }
    {
        TextPages {
            shape: matrix.shape(),
            len: matrix.len(),
            has_head: true,
            form: LineForm::of_matrix::<S>(),
            entries: EntriesLeft::new(Segments::of_block(matrix)),
        }
    }

    /// Starts the lines of a block's entries: its text without the header and the size line.
    pub fn lines_of(block: &'a Block<S>) -> TextPages<'a, S>
        ensures { result ≡ flat_map (entry_line S.arithmetic.writes_pattern) block.now.entries }
    {
        TextPages::lines_in(block, LineForm::of_matrix::<S>())
    }

    /// Starts the lines of a block's entries in a form. Those of a column are its text: the number of each vertex that has an
    /// entry, and its value or the number of the vertex that is its value.
    pub fn lines_in(block: &'a Block<S>, form: LineForm) -> TextPages<'a, S>
        ensures lines { result ≡ lines_in form block.now.entries }
        ensures values { form ≡ form_is.RowAndValue → result ≡ vertex_text_of block.now }
        ensures vertices { form ≡ form_is.RowAndVertex → result ≡ vertex_pairs_text_of block.now }
    {
        TextPages {
            shape: block.shape(),
            len: block.len(),
            has_head: false,
            form,
            entries: EntriesLeft::new(Segments::of_block(block)),
        }
    }

    /// Starts the text of a matrix in panels, the same that [`text`](crate::text) makes of the joined matrix.
    pub fn of_panels(matrix: &'a PanelledMatrix<S>) -> TextPages<'a, S>
        ensures { result ≡ text_of S.arithmetic matrix.now }
    {
        TextPages {
            shape: matrix.shape(),
            len: matrix.len(),
            has_head: true,
            form: LineForm::of_matrix::<S>(),
            entries: EntriesLeft::new(matrix.segments()),
        }
    }

    /// Returns the number of entries of the matrix, whether their lines are written or not.
    pub fn entry_count(&self) -> usize {
        self.len
    }

    /// Clears a page, writes as many of the next lines on it as there is room for, and returns whether there were any. If
    /// there were none, the whole text has been written.
    pub fn next_page(&mut self, page: &mut Page) -> bool
        ensures page { self.old ≡ page.new ++ self.new }
        ensures some { result ≡ true → 0 < length page.new }
        ensures none { result ≡ false → self.old ≡ [] }
    {
        page.clear();
        if self.has_head {
            put_head(page, S::writes_pattern(), self.shape, self.len);
            self.has_head = false;
        }
        self.entries.put_lines(page, self.form);
        !page.written().is_empty()
    }
}

/// An iterator over the entries of a matrix, of which one segment may be partly done. In contracts it is the remaining
/// entries.
#[derive(Drop)]
pub(crate) struct EntriesLeft<'a, S: Semiring> {
    pub(crate) segment: Segment<'a>,
    pub(crate) segments: Segments<'a, S>,
}

impl<'a, S: Semiring> Model for EntriesLeft<'a, S> {
    ghost use Rattle.std.specs.Prelude.{◌≡◌, ◌++◌, List, length};
    ghost use Rattle.cb_matrix.specs.declared.Entry.{Entry};
    ghost use Rattle.cb_layout.specs.Segments.{entries_of};

    ghost Value = { List Entry };

    ghost view = { λ a. entries_of a.segment ++ a.segments };

    ghost invariant = { λ a. length a.segment.values.now ≡ length a.segment.rows.now };
}

impl<'a, S: Semiring> EntriesLeft<'a, S> {
    /// Starts with all entries of some segments.
    fn new(segments: Segments<'a, S>) -> EntriesLeft<'a, S>
        ensures { result ≡ segments.entry }
    {
        EntriesLeft {
            segment: Segment {
                column: 0,
                top: 0,
                rows: &[],
                values: &[],
            },
            segments,
        }
    }

    /// Writes the lines of the next entries, until the page has no room or no entry is left.
    fn put_lines(&mut self, page: &mut Page, form: LineForm)
        ensures lines { page.new ++ lines_in form self.new ≡ page.old ++ lines_in form self.old }
        ensures all { length page.new + LINE ≤ SIZE → self.new ≡ [] }
    {
        while page.has_room() {
            if !self.put_some(page, form) {
                return;
            }
        }
    }

    /// Writes lines of the current segment, or of the next one if the current one is done: at least one line, and as many
    /// as there is room for. Returns false if no entry is left.
    fn put_some(&mut self, page: &mut Page, form: LineForm) -> bool
        requires { length page.old + LINE ≤ SIZE }
        ensures lines { page.new ++ lines_in form self.new ≡ page.old ++ lines_in form self.old }
        ensures some { result ≡ true → length self.new < length self.old }
        ensures none { result ≡ false → self.new ≡ [] }
    {
        let Some(segment) = begun(self.segment, &mut self.segments) else {
            return false;
        };
        let done = put_segment(page, form, segment);
        self.segment = rest_of(segment, done);
        true
    }
}

/// Returns the segment, or the next one if it is empty. None if no entry is left.
pub(crate) fn begun<'a, S: Semiring>(
    segment: Segment<'a>,
    segments: &mut Segments<'a, S>,
) -> Option<Segment<'a>>
    requires { length segment.values.now ≡ length segment.rows.now }
    ensures some { IfSome result (λ g. entries_of segment.entry ++ segments.old ≡ entries_of g ++ segments.new) }
    ensures none { IfNone result (entries_of segment.entry ++ segments.new ≡ []) }
    ensures kept { IfNone result (segments.old ≡ segments.new) }
    ensures lengths { IfSome result (λ g. length g.values.now ≡ length g.rows.now) }
    ensures entries { IfSome result (λ g. 0 < length g.rows.now) }
{
    if segment.rows.is_empty() {
        segments.next_segment()
    } else {
        Some(segment)
    }
}

/// Returns a segment without its first entries.
pub(crate) fn rest_of(segment: Segment<'_>, done: usize) -> Segment<'_>
    requires rows { done ≤ length segment.rows.now }
    requires values { done ≤ length segment.values.now }
    ensures place { (result.top ≡ segment.entry.top) × (result.column ≡ segment.entry.column) }
    ensures rows { result.rows.now ≡ drop done segment.entry.rows.now }
    ensures values { result.values.now ≡ drop done segment.entry.values.now }
{
    Segment {
        column: segment.column,
        top: segment.top,
        rows: &segment.rows[done..],
        values: &segment.values[done..],
    }
}

/// Writes the lines of the first entries of a segment, as many as there is room for, and returns how many.
fn put_segment(page: &mut Page, form: LineForm, segment: Segment<'_>) -> usize
    requires lengths { length segment.values.now ≡ length segment.rows.now }
    requires room { length page.old + LINE ≤ SIZE }
    ensures lines { page.new ≡ page.old ++ first_lines form result segment.entry }
    ensures limit { result ≤ length segment.entry.rows.now }
    ensures some { 0 < length segment.entry.rows.now → 0 < result }
{
    let (top, column) = (segment.top, segment.column);
    put_column(page, form, top, column, segment.rows, segment.values)
}

/// The same for the entries of a column, whose rows count from `top`. The digits of the column are computed once.
fn put_column(
    page: &mut Page,
    form: LineForm,
    top: u32,
    column: u32,
    rows: &[u32],
    values: &[u64],
) -> usize
    requires lengths { length values.now ≡ length rows.now }
    requires room { length page.old + LINE ≤ SIZE }
    ensures lines { page.new ≡ page.old ++ column_lines form top column (take result rows.now) (take result values.now) }
    ensures limit { result ≤ length rows.now }
    ensures some { 0 < length rows.now → 0 < result }
{
    let mut buffer = Buffer::new();
    let digits = buffer.format(u64::from(column) + 1).as_bytes();
    for n in 0..rows.len() {
        if !page.has_room() {
            return n;
        }
        let row = u64::from(top) + u64::from(rows[n]) + 1;
        put_entry(page, form, row, digits, values[n]);
    }
    rows.len()
}

/// Writes the line of an entry, with the digits of its column.
fn put_entry(page: &mut Page, form: LineForm, row: u64, column: &[u8], value: u64)
    requires room { length page.old + LINE ≤ SIZE }
    requires digits { length column.now ≤ 20 }
    ensures line { page.new ≡ page.old ++ line_with form row column.now value }
{
    page.put(row, b' ');
    match form {
        LineForm::Place => page.append(column, b'\n'),
        LineForm::PlaceAndValue => {
            page.append(column, b' ');
            page.put(value, b'\n');
        }
        LineForm::RowAndValue => page.put(value, b'\n'),
        LineForm::RowAndVertex => page.put_next(value, b'\n'),
    }
}
