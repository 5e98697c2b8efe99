//! A fast path for plain lines: two or three numbers below 10^19 with single spaces between them. Most lines of most texts
//! are plain.
ghost use Rattle.std.specs.Prelude.{◌≡◌, ◌+◌, ◌^◌, ◌<◌, ◌≤◌, IfSome};
ghost use Rattle.cb_market_lines.specs.Cursor.{IsMask, IsNumberBefore, IsShortNumber, IsShortPlace, IsPlainPlace, IsPlainLine};

use crate::short_numbers::Masked;

/// A number below this one stays below 2^64 with another digit.
const SMALL: u64 = 1_000_000_000_000_000_000;

/// The numbers of a plain line without a value, and the text after it.
#[derive(Clone, Copy)]
pub struct PlainPlace<'a> {
    pub row: u64,
    pub column: u64,
    pub rest: &'a [u8],
}

/// The numbers of a plain line with a value, and the text after it.
#[derive(Clone, Copy)]
pub struct PlainLine<'a> {
    pub row: u64,
    pub column: u64,
    pub value: u64,
    pub rest: &'a [u8],
}

/// Returns the number at the front of a text and the text after it, if the number is followed by this byte. None if
/// there is no digit, if another byte follows, or if the number has more than 19 digits after its leading zeros.
#[inline(always)]
fn number_before<'a>(text: &'a [u8], end: u8) -> Option<(u64, &'a [u8])>
    ensures { IfSome result (λ p. IsNumberBefore text.now end p.0 p.1.now) }
{
    let mut rest = text;
    let mut number: u64 = 0;
    while let [byte, after @ ..] = rest {
        if !byte.is_ascii_digit() {
            if *byte != end || rest.len() == text.len() {
                return None;
            }
            return Some((number, after));
        }
        if number >= SMALL {
            return None;
        }
        number = number * 10 + (*byte - b'0') as u64;
        rest = after;
    }
    None
}

/// Returns the row at the front of a text, if it is a short number before a space, and what comes after it. None if fewer
/// than 32 bytes are left.
#[inline(always)]
fn short_row<'a>(text: &'a [u8]) -> Option<(u64, Masked<'a>)>
    ensures { IfSome result (λ p. IsShortNumber text.now 32 p.0 p.1.text.now p.1.nondigits) }
{
    Masked::of(text)?.short_number(b' ')
}

/// Returns the row and the column at the front of a text, if each is a short number before a space, and what comes after
/// them. None if fewer than 32 bytes are left, or if the two aren't among the first 32.
#[inline(always)]
fn short_place<'a>(text: &'a [u8]) -> Option<(u64, u64, Masked<'a>)>
    ensures { IfSome result (λ p. IsShortPlace text.now p.0 p.1 p.2.text.now p.2.nondigits) }
{
    let (row, rest) = short_row(text)?;
    let (column, rest) = rest.short_number(b' ')?;
    Some((row, column, rest))
}

/// Returns the number at the front of a masked text and the text after it, if a line feed follows.
#[inline(always)]
fn last_number<'a>(text: &Masked<'a>) -> Option<(u64, &'a [u8])>
    requires { IsMask text.now.text.now text.now.nondigits }
    ensures { IfSome result (λ p. IsNumberBefore text.now.text.now 10 p.0 p.1.now) }
{
    if let Some((value, rest)) = text.short_number(b'\n') {
        return Some((value, rest.text));
    }
    let (value, rest) = number_before(text.text, b'\n')?;
    Some((value, rest))
}

/// Returns the first line of a text, if it is plain and has no value, digit by digit.
#[inline(always)]
fn place_by_digits<'a>(text: &'a [u8]) -> Option<PlainPlace<'a>>
    ensures { IfSome result (λ p. IsPlainPlace text.now p.row p.column p.rest.now) }
{
    let (row, rest) = number_before(text, b' ')?;
    let (column, rest) = number_before(rest, b'\n')?;
    Some(PlainPlace { row, column, rest })
}

/// Returns the first line of a text, if it is plain and has no value. All that it calls is inlined, since a call would return
/// every plain line through memory.
#[inline(always)]
pub fn plain_place<'a>(text: &'a [u8]) -> Option<PlainPlace<'a>>
    ensures { IfSome result (λ p. IsPlainPlace text.now p.row p.column p.rest.now) }
{
    let Some((row, after)) = short_row(text) else {
        return place_by_digits(text);
    };
    let (column, rest) = last_number(&after)?;
    Some(PlainPlace { row, column, rest })
}

/// Returns the first line of a text, if it is plain and has a value, digit by digit.
#[inline(always)]
fn line_by_digits<'a>(text: &'a [u8]) -> Option<PlainLine<'a>>
    ensures { IfSome result (λ p. IsPlainLine text.now p.row p.column p.value p.rest.now) }
{
    let (row, rest) = number_before(text, b' ')?;
    let (column, rest) = number_before(rest, b' ')?;
    let (value, rest) = number_before(rest, b'\n')?;
    Some(PlainLine {
        row,
        column,
        value,
        rest,
    })
}

/// Returns the first line of a text, if it is plain and has a value. All that it calls is inlined, as in `plain_place`.
#[inline(always)]
pub fn plain_line<'a>(text: &'a [u8]) -> Option<PlainLine<'a>>
    ensures { IfSome result (λ p. IsPlainLine text.now p.row p.column p.value p.rest.now) }
{
    let Some((row, column, after)) = short_place(text) else {
        return line_by_digits(text);
    };
    let (value, rest) = last_number(&after)?;
    Some(PlainLine {
        row,
        column,
        value,
        rest,
    })
}
