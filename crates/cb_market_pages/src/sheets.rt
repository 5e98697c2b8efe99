//! Shares of a text, and sheets that they are written on.
//!
//! A text has a head and one line per entry, so consecutive entries have consecutive lines. A share is the lines of the next
//! entries of a text, and its head if that is left. It can be written independently of every other share, so several threads
//! can write a text.
ghost use Rattle.std.specs.Prelude.{◌≡◌, ◌≤◌, ◌<◌, [], ◌++◌, length, take, if◌then◌else◌, IfOk, IfSome, IfNone};
ghost use Rattle.cb_market_pages.specs.Text.{head_of};

use crate::pages::{put_bytes, put_number};
use crate::runs::LONGEST_LINE;
use crate::text_pages::EntriesLeft;
use crate::writing::header;
use crate::{LineForm, TextPages};
use cb_matrix::Shape;
use cb_semirings::Semiring;
use std::alloc::{AllocError, Global};
use std::marker::Model;

/// The most lines that a share has, besides the head.
pub const MOST_LINES: usize = 16_384;

/// The most bytes that the header and the size line can have: 49, and three numbers of 20 digits with a byte after each.
const LONGEST_HEAD: usize = 112;

/// The most bytes that a share can have: 704,624.
const LONGEST_SHARE: usize = LONGEST_HEAD + MOST_LINES * LONGEST_LINE;

/// A part of a text, at least one byte and at most 16,384 lines and the head. In contracts it is its bytes.
#[derive(Drop)]
pub struct Share<'a, S: Semiring> {
    shape: Shape,
    /// The number of entries of the matrix.
    len: usize,
    /// Whether the share begins with the head.
    has_head: bool,
    form: LineForm,
    /// The first `count` of these entries are those whose lines the share has.
    entries: EntriesLeft<'a, S>,
    count: usize,
}

impl<'a, S: Semiring> Model for Share<'a, S> {
    ghost use Rattle.std.specs.Prelude.{ℕ, ◌≤◌, List, take};
    ghost use Rattle.cb_market_pages.specs.Text.{text_left};
    ghost use Rattle.cb_market_pages.specs.declared.sheets.TheConstants.{MOST_LINES};

    ghost Value = { List ℕ };

    ghost view = { λ t. text_left S.arithmetic t.form t.has_head t.shape t.len (take t.count t.entries) };

    ghost invariant = { λ t. t.count ≤ MOST_LINES };
}

impl<'a, S: Semiring> TextPages<'a, S> {
    /// Removes the next share of a text: at most this many lines, and the head if it is left. None if nothing is left, or no
    /// line was asked for. The cost is one step per segment, and no memory is taken.
    pub fn next_share(&mut self, most: usize) -> Option<Share<'a, S>>
        ensures text { IfSome result (λ share. self.old ≡ share ++ self.new) }
        ensures some { IfSome result (λ share. 0 < length share) }
        ensures none { IfNone result (0 < most → self.old ≡ []) }
        ensures kept { IfNone result (self.new ≡ self.old) }
    {
        let has_head = self.has_head;
        let entries = self.entries.fork();
        let count = self.entries.skip(most.min(MOST_LINES));
        if !has_head && count == 0 {
            return None;
        }
        self.has_head = false;
        Some(Share {
            shape: self.shape,
            len: self.len,
            has_head,
            form: self.form,
            entries,
            count,
        })
    }
}

/// A buffer for a share. In contracts a sheet is what is written on it.
#[derive(Drop)]
pub struct Sheet {
    /// The buffer, of which the first `end` bytes are written. It has room for any share, and is as long as was needed.
    bytes: Vec<u8>,
    end: usize,
}

impl Model for Sheet {
    ghost use Rattle.std.specs.Prelude.{ℕ, List, take, length, vec_capacity};
    ghost use Rattle.cb_market_pages.specs.Sheets.{HasRoom, IsBegun};

    ghost Value = { List ℕ };

    ghost view = { λ t. take t.end t.bytes.items };

    ghost invariant = { λ t. HasRoom (vec_capacity t.bytes) × IsBegun (length t.bytes.items) t.end };
}

impl Sheet {
    /// Makes an empty sheet. Writing on it takes no memory; what isn't written isn't touched.
    pub fn new(alloc: Global) -> Result<Sheet, AllocError>
        ensures { IfOk result (λ sheet. sheet ≡ []) }
    {
        let mut bytes = Vec::with_capacity(alloc, LONGEST_SHARE)?;
        bytes.resize(LONGEST_HEAD, 0)?;
        Ok(Sheet { bytes, end: 0 })
    }

    /// Replaces what is written by a share.
    pub fn write<S: Semiring>(&mut self, share: &Share<'_, S>)
        ensures { self.new ≡ share.now }
    {
        let pattern = S::writes_pattern();
        let start = put_head_if(
            share.has_head,
            &mut self.bytes,
            pattern,
            share.shape,
            share.len,
        );
        let mut entries = share.entries.fork();
        self.end = entries.put_first(&mut self.bytes, start, share.form, share.count);
    }

    /// Returns what is written.
    pub fn written(&self) -> &[u8]
        ensures { result.now ≡ self.now }
    {
        &self.bytes[..self.end]
    }
}

/// Writes the header and the size line at the start of a buffer, if they are left, and returns their length.
fn put_head_if(
    is_left: bool,
    buffer: &mut [u8],
    is_pattern: bool,
    shape: Shape,
    entries: usize,
) -> usize
    requires { LONGEST_HEAD ≤ length buffer.old }
    ensures head { take result buffer.new ≡ (if is_left then head_of is_pattern shape entries else []) }
    ensures limit { result ≤ LONGEST_HEAD }
{
    if is_left {
        put_head(buffer, is_pattern, shape, entries)
    } else {
        0
    }
}

/// Writes the header and the size line at the start of a buffer, and returns their length.
fn put_head(buffer: &mut [u8], is_pattern: bool, shape: Shape, entries: usize) -> usize
    requires { LONGEST_HEAD ≤ length buffer.old }
    ensures head { take result buffer.new ≡ head_of is_pattern shape entries }
    ensures limit { result ≤ LONGEST_HEAD }
{
    let end = put_bytes(buffer, 0, header(is_pattern), b'\n');
    let end = put_number(buffer, end, shape.rows() as u64, b' ');
    let end = put_number(buffer, end, shape.cols() as u64, b' ');
    put_number(buffer, end, entries as u64, b'\n')
}
