//! Writing a text in memory, page by page.
ghost use Rattle.std.specs.Prelude.{◌≡◌, ◌≤◌, ◌++◌, IfOk, OnOk, [], ◌∷◌, length};
ghost use Rattle.cb_market_lines.specs.Reads.{Reads};
ghost use Rattle.cb_market_pages.specs.Text.{text_of, head_of, header_line};

use crate::TextPages;
use crate::pages::{Page, digits};
use cb_dcsc::Block;
use cb_matrix::{LIMIT, Shape};
use cb_semirings::Semiring;
use std::alloc::{AllocError, Global};

/// Returns the bytes of a header and this many lines. A line is taken to have the last row, the last column and a value of two
/// digits.
fn room_for_lines(shape: Shape, lines: usize) -> usize {
    let line = digits(shape.rows().into()) + digits(shape.cols().into()) + 5;
    lines.saturating_mul(line).saturating_add(80)
}

/// Returns the header without its line feed.
pub(crate) fn header(is_pattern: bool) -> &'static [u8]
    ensures line { result.now ++ 10 ∷ [] ≡ header_line is_pattern }
    ensures length { length result.now ≡ 48 }
{
    if is_pattern {
        b"%%MatrixMarket matrix coordinate pattern general"
    } else {
        b"%%MatrixMarket matrix coordinate integer general"
    }
}

/// Writes the header and the size line.
pub(crate) fn put_head(page: &mut Page, is_pattern: bool, shape: Shape, entries: usize)
    requires { page.old ≡ [] }
    ensures { page.new ≡ head_of is_pattern shape entries }
{
    page.append(header(is_pattern), b'\n');
    page.put(shape.rows() as u64, b' ');
    page.put(shape.cols() as u64, b' ');
    page.put(entries as u64, b'\n');
}

/// Appends the pages of a text.
fn put_pages<S: Semiring>(
    text: &mut Vec<u8>,
    page: &mut Page,
    pages: TextPages<'_, S>,
) -> Result<(), AllocError>
    ensures { OnOk result (text.new.items ≡ text.old.items ++ pages.entry) }
{
    let mut pages = pages;
    while pages.next_page(page) {
        text.extend_from_slice(page.written())?;
    }
    Ok(())
}

/// Writes what is left of a text. Memory for so many bytes is taken first, and more if there are more.
pub fn text_of_pages<S: Semiring>(
    alloc: Global,
    pages: TextPages<'_, S>,
    room: usize,
) -> Result<Vec<u8>, AllocError>
    ensures { IfOk result (λ text. text.items ≡ pages.entry) }
{
    let mut page = Page::new(alloc)?;
    let mut text = Vec::with_capacity(alloc, room)?;
    put_pages(&mut text, &mut page, pages)?;
    Ok(text)
}

/// Writes the text of a matrix: the header, the size line, and a line for each entry, by column and then by row. It reads
/// back as the same matrix if there are at most 2,147,483,647 entries. No entry is copied.
pub fn text<S: Semiring>(alloc: Global, matrix: &Block<S>) -> Result<Vec<u8>, AllocError>
    ensures text { IfOk result (λ bytes. bytes.items ≡ text_of S.arithmetic matrix.now) }
    ensures law { IfOk result (λ bytes. length matrix.now.entries ≤ LIMIT → Reads S.arithmetic bytes.items matrix.now) }
{
    let room = room_for_lines(matrix.shape(), matrix.len());
    let text = text_of_pages(alloc, TextPages::of_block(matrix), room)?;
    Ok(text)
}
