//! Products of two kept matrices, of which each may be transposed first. The result is kept.
ghost use Rattle.std.specs.Prelude.{◌≡◌, ◌↔◌, IsTrue};
ghost use Rattle.cb_selections.specs.TurnedProducts.{turned_shape};
ghost use Rattle.cb_kept.specs.Answers.{IsAnswer};
ghost use Rattle.cb_kept.specs.KeptTurned.{turned_faults, IsKeptTurned};

use crate::faults::Fault;
use crate::kept::{Keep, Kept, keep_block};
use crate::kept_calls::{KeptCall, kept_call};
use cb_layout::PanelledMatrix;
use cb_matrix::Shape;
use cb_selections::multiply_turned;
use std::alloc::Global;

/// Which factors of a product are transposed first.
#[derive(Clone, Copy)]
struct Turns {
    left: bool,
    right: bool,
}

/// Whether two shapes, each turned if its flag is set, have a product.
fn agree(turns: Turns, left: Shape, right: Shape) -> bool
    ensures { IsTrue result ↔ ((turned_shape turns.left left).cols ≡ (turned_shape turns.right right).rows) }
{
    let inner = if turns.left { left.rows() } else { left.cols() };
    let rows = if turns.right {
        right.cols()
    } else {
        right.rows()
    };
    inner == rows
}

impl KeptCall for Turns {
    ghost use Rattle.std.specs.Prelude.{◌≡◌};
    ghost use Rattle.cb_operations.specs.OperationAnswers.{matrix_at};
    ghost use Rattle.cb_selections.specs.TurnedProducts.{turned_product};
    ghost use Rattle.cb_kept.specs.declared.faults.Fault.TheVariants.{Shapes};
    ghost use Rattle.cb_kept.specs.Kept.{Keeps};
    ghost use Rattle.cb_kept.specs.KeptTurned.{AgreeTurned};
    ghost use Rattle.cb_kept.specs.Refusals.{Unless, IsMemory};

    type Answer = Kept;

    ghost takes = { λ _ n. n ≡ 2 };

    ghost faults = { λ t s ms. Unless (AgreeTurned t.left t.right ms) Shapes IsMemory };

    ghost gives = { λ t name s ms. Keeps name (turned_product s t.left t.right (matrix_at ms 0) (matrix_at ms 1)) };

    fn over<S: Keep>(&self, alloc: Global, operands: &[&PanelledMatrix<S>]) -> Result<Kept, Fault> {
        let [a, b] = operands else { unreachable!() };
        if !agree(*self, a.shape(), b.shape()) {
            return Err(Fault::Shapes);
        }
        let a = a.whole()?;
        let b = b.whole()?;
        let block = multiply_turned(alloc, a.block(), self.left, b.block(), self.right)?;
        Ok(keep_block::<S>(alloc, block))
    }
}

/// Multiplies two kept matrices over one semiring, and keeps the product. `turn_left` and `turn_right` say whether the first
/// and the second are transposed first; their shapes have to agree after that.
pub fn kept_turned_product(
    alloc: Global,
    left: &Kept,
    turn_left: bool,
    right: &Kept,
    turn_right: bool,
) -> Result<Kept, Fault>
    ensures { IsAnswer (turned_faults turn_left turn_right left.now right.now) (IsKeptTurned turn_left turn_right left.now right.now) result }
{
    let turns = Turns {
        left: turn_left,
        right: turn_right,
    };
    kept_call(alloc, &turns, &[left, right])
}
