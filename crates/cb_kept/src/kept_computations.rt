//! Computations on kept matrices, whose result is kept, whole or some columns of it.
ghost use Rattle.std.specs.Prelude.{◌≡◌, length, IfSome};
ghost use Rattle.cb_operations.specs.Computations.{answer_of, operand_count_of};
ghost use Rattle.cb_operations.specs.Operands.{lent_in};
ghost use Rattle.cb_kept.specs.CallsOver.{refusal_faults};
ghost use Rattle.cb_kept.specs.KeptAnswers.{IsColumnsAnswer};

use crate::faults::Fault;
use crate::kept::{Keep, Kept, keep_block};
use crate::kept_calls::{KeptCall, kept_call};
use crate::kept_shares::Share;
use cb_layout::PanelledMatrix;
use cb_operations::Computation;
use cb_shares::computed_columns;
use std::alloc::Global;

impl KeptCall for Share<Computation> {
    ghost use Rattle.std.specs.Prelude.{◌≡◌};
    ghost use Rattle.cb_operations.specs.Computations.{answer_of, operand_count_of};
    ghost use Rattle.cb_kept.specs.CallsOver.{refusal_faults};
    ghost use Rattle.cb_kept.specs.KeptShares.{KeepsColumns};

    type Answer = Kept;

    ghost takes = { λ c n. n ≡ operand_count_of c.call };

    ghost faults = { λ c s ms. refusal_faults c.call s ms };

    ghost gives = { λ c name s ms. KeepsColumns name (answer_of c.call s ms) c.first c.end };

    fn over<S: Keep>(&self, alloc: Global, operands: &[&PanelledMatrix<S>]) -> Result<Kept, Fault> {
        prove_eq!(operands[0].shape(), operands[0].shape());
        let block = computed_columns(alloc, self.call, operands, self.first, self.end)?;
        Ok(keep_block::<S>(alloc, block))
    }
}

/// Keeps the columns from `first` up to, but not including, `end` of what is computed of kept matrices, in the shape of the whole
/// result. `None` stands for an unknown number, or for a power without factors. The faults are those of the whole result. Costs
/// what [`cb_shares::computed_columns`] costs; for all columns, that is what the kernel costs.
#[tactic(auto, unfolding(crate::specs::KeptAnswers::numbered_faults))]
pub fn kept_computation(
    alloc: Global,
    computation: Option<Computation>,
    operands: &[&Kept],
    first: u32,
    end: u32,
) -> Result<Kept, Fault>
    requires { IfSome computation (λ c. length operands.now ≡ operand_count_of c) }
    ensures { IsColumnsAnswer refusal_faults answer_of computation first end (lent_in operands.now) result }
{
    match computation {
        Some(call) => kept_call(alloc, &Share { call, first, end }, operands),
        None => Err(Fault::Test),
    }
}
