//! The size line of a text.
ghost use Rattle.std.specs.Prelude.{◌≡◌, IfOk, IfErr, [], ◌∷◌, Some, None};
ghost use Rattle.cb_market_lines.specs.Cursor.{words_at, after_line};
ghost use Rattle.cb_market_lines.specs.Checks.{is_shape, size_fault, size_of, AnnouncesSize};

use crate::header::{Header, Symmetry};
use crate::scanner::Scanner;
use crate::words::Word;
use crate::{Kind, ReadFault};
use cb_matrix::Shape;

/// The content of the size line.
#[derive(Clone, Copy)]
pub struct Size {
    pub shape: Shape,
    /// The number of entries that follow.
    pub count: u32,
}

/// Returns whether a matrix with this symmetry can have this shape.
fn is_shape(symmetry: Symmetry, shape: Shape) -> bool
    ensures { result ≡ is_shape symmetry shape }
{
    match symmetry {
        Symmetry::General => true,
        Symmetry::Symmetric => shape.rows() == shape.cols(),
        Symmetry::SkewSymmetric => shape.rows() == shape.cols(),
    }
}

/// Reads the size that three words announce.
fn size_of(header: Header, rows: &Word<'_>, cols: &Word<'_>, count: &Word<'_>) -> Result<Size, Kind>
    ensures ok { IfOk result (AnnouncesSize header (rows.now.bytes.now ∷ cols.now.bytes.now ∷ count.now.bytes.now ∷ [])) }
    ensures fault { IfErr result (λ k. size_fault header (rows.now.bytes.now ∷ cols.now.bytes.now ∷ count.now.bytes.now ∷ []) ≡ Some k) }
{
    if !(rows.is_number() && cols.is_number() && count.is_number()) {
        return Err(Kind::BadSize);
    }
    let Some(rows) = rows.limited() else {
        return Err(Kind::TooLarge);
    };
    let Some(cols) = cols.limited() else {
        return Err(Kind::TooLarge);
    };
    let Some(count) = count.limited() else {
        return Err(Kind::TooLarge);
    };
    let Some(shape) = Shape::new(rows, cols) else {
        return Err(Kind::TooLarge);
    };
    if !is_shape(header.symmetry, shape) {
        return Err(Kind::NotSquare);
    }
    Ok(Size { shape, count })
}

impl<'a> Scanner<'a> {
    /// Reads the size that the line with this first word announces.
    fn size(&mut self, header: Header, first: &Word<'_>) -> Result<Size, Kind>
        ensures ok { IfOk result (AnnouncesSize header (first.now.bytes.now ∷ words_at self.old.rest.now)) }
        ensures fault { IfErr result (λ k. size_fault header (first.now.bytes.now ∷ words_at self.old.rest.now) ≡ Some k) }
        ensures after { after_line self.new.rest.now ≡ after_line self.old.rest.now }
        ensures line { self.new.line ≡ self.old.line }
    {
        let Some((second, third)) = self.two_words() else {
            return Err(Kind::BadSize);
        };
        if self.word().is_some() {
            return Err(Kind::BadSize);
        }
        size_of(header, first, &second, &third)
    }

    /// The same, with the number of the line if it has a fault.
    pub fn size_line(&mut self, header: Header, first: &Word<'_>) -> Result<Size, ReadFault>
        ensures none { IfOk result (λ z. size_fault header (first.now.bytes.now ∷ words_at self.old.rest.now) ≡ None) }
        ensures size { IfOk result (λ z. z ≡ size_of (first.now.bytes.now ∷ words_at self.old.rest.now)) }
        ensures fault { IfErr result (λ f. size_fault header (first.now.bytes.now ∷ words_at self.old.rest.now) ≡ Some f.kind) }
        ensures place { IfErr result (λ f. f.line ≡ self.old.line) }
        ensures after { after_line self.new.rest.now ≡ after_line self.old.rest.now }
        ensures line { self.new.line ≡ self.old.line }
    {
        let line = self.line;
        match self.size(header, first) {
            Ok(size) => Ok(size),
            Err(kind) => Err(ReadFault { line, kind }),
        }
    }
}
