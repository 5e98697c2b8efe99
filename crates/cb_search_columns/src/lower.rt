//! The rule that keeps values below those of another block.
ghost use Rattle.std.specs.Prelude.{◌≡◌};
ghost use Rattle.cb_semirings.specs.Tables.{min_plus};

use cb_dcsc::Block;
use cb_elementwise::ValueRule;
use cb_semirings::MinPlus;

/// Keeps a value if it is below that of a block at its place.
#[derive(Drop)]
pub(crate) struct Lower<'a> {
    pub(crate) known: &'a Block<MinPlus>,
}

impl<'a> ValueRule<MinPlus> for Lower<'a> {
    ghost use Rattle.std.specs.Prelude.{ℕ};
    ghost use Rattle.cb_semirings.specs.Tables.{min_plus};
    ghost use Rattle.cb_matrix.specs.Sparse.{at};
    ghost use Rattle.cb_search_columns.specs.SearchColumns.{if_lower, if_lower-value};

    ghost fits = { λ rule i j. Unit {0} };

    ghost made = { λ rule i j x. if_lower (at min_plus rule.known.now i j) x };

    ghost values = { λ rule i j x f h. if_lower-value (at min_plus rule.known.now i j) x h };

    fn make(&self, row: u32, column: u32, value: u64) -> u64 {
        if value < self.known.get(row, column) {
            value
        } else {
            u64::MAX
        }
    }
}
