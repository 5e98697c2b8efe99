//! A cursor over the bytes of a text. A plain line is read at once, any other word by word.
//!
//! The cursor is the rest of the text. The contract of each step is stated over the lines and words of the rest
//! (`specs/Cursor.antt`).
ghost use Rattle.std.specs.Prelude.{◌≡◌, ◌+◌, ◌^◌, ◌<◌, ◌≤◌, MatchOption, IfSome, IfNone, [], ◌∷◌, length};
ghost use Rattle.cb_market_lines.specs.Lines.{is_blank, number, past_last, kept_from};
ghost use Rattle.cb_market_lines.specs.Cursor.{is_line_end, words_at, after_line, IsNextWord, IsKeptWord, is_word_end, front_digits, after_digits};
ghost use Rattle.cb_market_lines.specs.Cursor.{front_word, after_word, after_blanks, after_sign, if_small, number_of};

use crate::words::{Number, Word, whole_number, with_digit};
use crate::{Kind, ReadFault};

/// The rest of a text, and the number of the line in which it begins.
#[derive(Drop)]
pub struct Scanner<'a> {
    pub rest: &'a [u8],
    pub line: u64,
}

fn is_blank(byte: u8) -> bool
    ensures { result ≡ is_blank byte }
{
    byte == b' ' || byte == b'\t'
}

/// Returns whether a line ends before these bytes.
fn is_line_end(rest: &[u8]) -> bool
    ensures { result ≡ is_line_end rest.now }
{
    match rest {
        [] => true,
        [byte] => *byte == b'\n' || *byte == b'\r',
        [byte, next, ..] => *byte == b'\n' || *byte == b'\r' && *next == b'\n',
    }
}

/// Returns whether a word ends before these bytes.
pub fn is_word_end(rest: &[u8]) -> bool
    ensures { result ≡ is_word_end rest.now }
{
    match rest {
        [] => true,
        [byte, ..] => is_blank(*byte) || is_line_end(rest),
    }
}

impl<'a> Scanner<'a> {
    pub fn new(text: &'a [u8]) -> Scanner<'a>
        ensures rest { result.rest.now ≡ text.now }
        ensures line { result.line ≡ 1 }
    {
        Scanner {
            rest: text,
            line: 1,
        }
    }

    fn skip_blanks(&mut self)
        ensures rest { self.new.rest.now ≡ after_blanks self.old.rest.now }
        ensures line { self.new.line ≡ self.old.line }
    {
        while let [byte, rest @ ..] = self.rest {
            if !is_blank(*byte) {
                break;
            }
            self.rest = rest;
        }
    }

    fn skip_digits(&mut self)
        ensures rest { self.new.rest.now ≡ after_digits self.old.rest.now }
        ensures line { self.new.line ≡ self.old.line }
    {
        while let [byte, rest @ ..] = self.rest {
            if !byte.is_ascii_digit() {
                break;
            }
            self.rest = rest;
        }
    }

    /// Skips the digits at the front, and returns their number if it is below 2^64.
    fn digits(&mut self) -> Option<u64>
        ensures number { result ≡ if_small (number (front_digits self.old.rest.now)) }
        ensures rest { self.new.rest.now ≡ after_digits self.old.rest.now }
        ensures line { self.new.line ≡ self.old.line }
    {
        let mut number: u64 = 0;
        while let [byte, rest @ ..] = self.rest {
            if !byte.is_ascii_digit() {
                break;
            }
            let Some(next) = with_digit(number, *byte) else {
                self.skip_digits();
                return None;
            };
            number = next;
            self.rest = rest;
        }
        Some(number)
    }

    /// Skips the rest of a word.
    fn skip_word(&mut self)
        ensures rest { self.new.rest.now ≡ after_word self.old.rest.now }
        ensures line { self.new.line ≡ self.old.line }
    {
        while let [_byte, rest @ ..] = self.rest {
            if is_word_end(self.rest) {
                break;
            }
            self.rest = rest;
        }
    }

    /// Skips a sign, if there is one.
    fn skip_sign(&mut self)
        ensures rest { self.new.rest.now ≡ after_sign self.old.rest.now }
        ensures line { self.new.line ≡ self.old.line }
    {
        if let [byte, rest @ ..] = self.rest {
            if *byte == b'+' || *byte == b'-' {
                self.rest = rest;
            }
        }
    }

    /// Skips the word at the front, and returns its number.
    #[inline(always)]
    fn number(&mut self) -> Number
        ensures number { result ≡ number_of (front_word self.old.rest.now) }
        ensures rest { self.new.rest.now ≡ after_word self.old.rest.now }
        ensures line { self.new.line ≡ self.old.line }
    {
        self.skip_sign();
        let before = self.rest.len();
        let digits = self.digits();
        if self.rest.len() < before && is_word_end(self.rest) {
            return whole_number(digits);
        }
        self.skip_word();
        Number::NotWhole
    }

    /// Returns the next word of the line, if there is one.
    #[inline(always)]
    pub fn word(&mut self) -> Option<Word<'a>>
        ensures word { MatchOption result (words_at self.old.rest.now ≡ []) (λ w. IsNextWord self.old.rest.now w.bytes.now self.new.rest.now) }
        ensures after { after_line self.new.rest.now ≡ after_line self.old.rest.now }
        ensures line { self.new.line ≡ self.old.line }
    {
        self.skip_blanks();
        let start = self.rest;
        if is_line_end(start) {
            return None;
        }
        let number = self.number();
        Some(Word {
            bytes: &start[..start.len() - self.rest.len()],
            number,
        })
    }

    /// Returns the next two words of the line, if there are two.
    pub fn two_words(&mut self) -> Option<(Word<'a>, Word<'a>)>
        ensures some { IfSome result (λ p. words_at self.old.rest.now ≡ p.0.bytes.now ∷ p.1.bytes.now ∷ words_at self.new.rest.now) }
        ensures none { IfNone result (length (words_at self.old.rest.now) < 2) }
        ensures after { after_line self.new.rest.now ≡ after_line self.old.rest.now }
        ensures line { self.new.line ≡ self.old.line }
    {
        let Some(first) = self.word() else {
            return None;
        };
        let Some(second) = self.word() else {
            return None;
        };
        Some((first, second))
    }

    /// Skips the rest of a line and its line feed.
    fn skip_line(&mut self)
        ensures rest { self.new.rest.now ≡ after_line self.old.rest.now }
        ensures line { self.new.line ≡ self.old.line }
    {
        while let [byte, rest @ ..] = self.rest {
            self.rest = rest;
            if *byte == b'\n' {
                return;
            }
        }
    }

    /// Moves to the next line.
    pub fn next_line(&mut self)
        requires { self.old.line + 1 < 2 ^ 64 }
        ensures rest { self.new.rest.now ≡ after_line self.old.rest.now }
        ensures line { self.new.line ≡ self.old.line + 1 }
    {
        self.skip_line();
        self.line += 1;
    }

    /// Moves to the next line that isn't skipped, this one included, and returns its first word.
    pub fn kept_line(&mut self) -> Option<Word<'a>>
        requires { past_last self.old.line self.old.rest.now < 2 ^ 64 }
        ensures none { IfNone result (kept_from self.old.line self.old.rest.now ≡ []) }
        ensures later { self.old.line ≤ self.new.line }
        ensures end { IfNone result (self.new.line ≡ past_last self.old.line self.old.rest.now) }
        ensures some { IfSome result (λ w. IsKeptWord self.old.line self.old.rest.now self.new.line w.bytes.now self.new.rest.now) }
        ensures count { IfSome result (λ w. past_last (self.new.line + 1) (after_line self.new.rest.now) ≡ past_last self.old.line self.old.rest.now) }
        ensures shorter { IfSome result (λ w. length (after_line self.new.rest.now) < length self.old.rest.now) }
    {
        while !self.rest.is_empty() {
            if let Some(word) = self.word() {
                if !word.is_comment() {
                    return Some(word);
                }
            }
            self.next_line();
        }
        None
    }

    /// Makes a fault of this line.
    pub fn fault(&self, kind: Kind) -> ReadFault
        ensures { result ≡ record { line = self.now.line; kind = kind } }
    {
        ReadFault {
            line: self.line,
            kind,
        }
    }
}
