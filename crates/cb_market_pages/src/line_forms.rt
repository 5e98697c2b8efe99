//! What the lines of a text say of entries.
ghost use Rattle.std.specs.Prelude.{◌≡◌};
ghost use Rattle.cb_market_pages.specs.Text.{matrix_form};

use cb_semirings::Semiring;

/// What a line says of an entry. Rows, columns and vertices count from 1.
#[derive(Clone, Copy, Drop)]
pub enum LineForm {
    /// Its row and its column, in the text of a matrix without values.
    Place,
    /// Its row, its column and its value, in the text of a matrix.
    PlaceAndValue,
    /// Its row and its value, in the text of a column.
    RowAndValue,
    /// Its row and its value, which is a vertex counted from 0.
    RowAndVertex,
}

impl LineForm {
    /// Returns the form of the lines of a matrix over a semiring.
    pub(crate) fn of_matrix<S: Semiring>() -> LineForm
        ensures { result ≡ matrix_form S.arithmetic.writes_pattern }
    {
        if S::writes_pattern() {
            LineForm::Place
        } else {
            LineForm::PlaceAndValue
        }
    }
}
