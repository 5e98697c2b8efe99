//! The first line of a text.
ghost use Rattle.std.specs.Prelude.{◌≡◌, ◌≢◌, IfOk, IfErr, IfSome, IfNone, Some, false, [], ◌∷◌, length};
ghost use Rattle.cb_semirings.specs.Arithmetic.{has_negatives};
ghost use Rattle.cb_market_lines.specs.Lines.{begins_blank};
ghost use Rattle.cb_market_lines.specs.Cursor.{line_at, words_at, after_line};
ghost use Rattle.cb_market_lines.specs.Checks.{field_in, symmetry_in, is_supported, are_read, MakeHeader, header_fault, MakesHeader};

use crate::Kind;
use crate::scanner::{Scanner, is_word_end};
use crate::words::Word;
use cb_semirings::Semiring;

/// Whether entries have values.
#[derive(Clone, Copy)]
pub enum Field {
    Integer,
    Pattern,
}

/// Whether each entry also gives the mirrored one.
#[derive(Clone, Copy)]
pub enum Symmetry {
    General,
    Symmetric,
    /// The mirrored entry has the negated value.
    SkewSymmetric,
}

/// The content of the first line.
#[derive(Clone, Copy)]
pub struct Header {
    pub field: Field,
    pub symmetry: Symmetry,
}

/// Returns the field that a word names.
fn field_of(word: &Word<'_>) -> Option<Field>
    ensures { result ≡ field_in word.now.bytes.now }
{
    if word.is_name(b"integer") {
        Some(Field::Integer)
    } else if word.is_name(b"pattern") {
        Some(Field::Pattern)
    } else {
        None
    }
}

/// Returns the symmetry that a word names.
fn symmetry_of(word: &Word<'_>) -> Option<Symmetry>
    ensures { result ≡ symmetry_in word.now.bytes.now }
{
    if word.is_name(b"general") {
        Some(Symmetry::General)
    } else if word.is_name(b"symmetric") {
        Some(Symmetry::Symmetric)
    } else if word.is_name(b"skew-symmetric") {
        Some(Symmetry::SkewSymmetric)
    } else {
        None
    }
}

/// Returns whether the semiring has negatives.
fn has_negatives<S: Semiring>() -> bool
    ensures { result ≡ has_negatives S.arithmetic }
{
    S::negative(S::zero()).is_some()
}

/// Returns whether matrices with this field and symmetry are supported over the semiring.
fn is_supported<S: Semiring>(field: Field, symmetry: Symmetry) -> bool
    ensures { result ≡ is_supported S.arithmetic field symmetry }
{
    match symmetry {
        Symmetry::General => true,
        Symmetry::Symmetric => true,
        Symmetry::SkewSymmetric => match field {
            Field::Integer => has_negatives::<S>(),
            Field::Pattern => false,
        },
    }
}

/// Returns the header that the four words after the banner make, if it is supported.
fn header_of<S: Semiring>(
    object: &Word<'_>,
    format: &Word<'_>,
    field: &Word<'_>,
    symmetry: &Word<'_>,
) -> Option<Header>
    ensures none { IfNone result (are_read S.arithmetic object.now.bytes.now format.now.bytes.now field.now.bytes.now symmetry.now.bytes.now ≡ false) }
    ensures some { IfSome result (MakeHeader S.arithmetic object.now.bytes.now format.now.bytes.now field.now.bytes.now symmetry.now.bytes.now) }
{
    if !(object.is_name(b"matrix") && format.is_name(b"coordinate")) {
        return None;
    }
    let Some(field) = field_of(field) else {
        return None;
    };
    let Some(symmetry) = symmetry_of(symmetry) else {
        return None;
    };
    if !is_supported::<S>(field, symmetry) {
        return None;
    }
    Some(Header { field, symmetry })
}

impl<'a> Scanner<'a> {
    /// Reads the header from the current line.
    pub fn header<S: Semiring>(&mut self) -> Result<Header, Kind>
        ensures ok { IfOk result (MakesHeader S.arithmetic (line_at self.old.rest.now)) }
        ensures fault { IfErr result (λ k. header_fault S.arithmetic (begins_blank (line_at self.old.rest.now)) (words_at self.old.rest.now) ≡ Some k) }
        ensures after { after_line self.new.rest.now ≡ after_line self.old.rest.now }
        ensures line { self.new.line ≡ self.old.line }
    {
        if is_word_end(self.rest) {
            return Err(Kind::BadHeader);
        }
        let Some(banner) = self.word() else {
            return Err(Kind::BadHeader);
        };
        let Some((object, format, field, symmetry)) = self.last_four() else {
            return Err(Kind::BadHeader);
        };
        if !banner.is_exactly(b"%%MatrixMarket") {
            return Err(Kind::BadHeader);
        }
        let Some(header) = header_of::<S>(&object, &format, &field, &symmetry) else {
            return Err(Kind::Unsupported);
        };
        Ok(header)
    }

    /// Returns the other words of the line, if there are four.
    fn last_four(&mut self) -> Option<(Word<'a>, Word<'a>, Word<'a>, Word<'a>)>
        ensures some { IfSome result (λ p. words_at self.old.rest.now ≡ p.0.bytes.now ∷ p.1.bytes.now ∷ p.2.bytes.now ∷ p.3.bytes.now ∷ []) }
        ensures none { IfNone result (length (words_at self.old.rest.now) ≢ 4) }
        ensures after { after_line self.new.rest.now ≡ after_line self.old.rest.now }
        ensures line { self.new.line ≡ self.old.line }
    {
        let Some((object, format)) = self.two_words() else {
            return None;
        };
        let Some((field, symmetry)) = self.two_words() else {
            return None;
        };
        if self.word().is_some() {
            return None;
        }
        Some((object, format, field, symmetry))
    }
}
