//! A kept matrix updated by another one, under a mask that is kept too, whole or some columns of it.
ghost use Rattle.std.specs.Prelude.{◌≡◌, ◌≤◌, length, IfOk, IfErr, option_copied};
ghost use Rattle.cb_operations.specs.Operands.{lent_in};
ghost use Rattle.cb_shares.specs.Shares.{panel};
ghost use Rattle.cb_kept.specs.Answers.{NoFault};
ghost use Rattle.cb_kept.specs.KeptAnswers.{IsColumnsAnswer};
ghost use Rattle.cb_kept.specs.KeptUpdates.{write_back_of, operands_of, HaveOneShape, shape_faults, update_of};

use crate::faults::Fault;
use crate::kept::{Keep, Kept, keep_block};
use crate::kept_calls::{KeptCall, kept_call};
use crate::kept_shares::Share;
use cb_dcsc::Block;
use cb_layout::PanelledMatrix;
use cb_selections::WriteBack;
use cb_semirings::Semiring;
use cb_shares::update_columns;
use std::alloc::{AllocError, Global};

/// Returns the update of a number: the sum of 1 if it accumulates, 2 if the mask is complemented, and 4 if it replaces. No
/// number above 7 has one.
pub fn write_back_of(flags: u32) -> Option<WriteBack>
    ensures { result ≡ write_back_of flags }
{
    if flags >= 8 {
        return None;
    }
    Some(WriteBack {
        accumulate: flags % 2 == 1,
        complement: flags / 2 % 2 == 1,
        replace: flags / 4 == 1,
    })
}

/// Refuses matrices of different shapes.
fn check_update<S: Semiring>(operands: &[&PanelledMatrix<S>]) -> Result<(), Fault>
    requires some { 2 ≤ length operands.now }
    requires few { length operands.now ≤ 3 }
    ensures shape { IfOk result (λ _. HaveOneShape (lent_in operands.now)) }
    ensures none { IfOk result (λ _. NoFault (shape_faults S.arithmetic (lent_in operands.now))) }
    ensures fault { IfErr result (shape_faults S.arithmetic (lent_in operands.now)) }
{
    let same = match operands {
        [old, new, mask] => new.shape() == old.shape() && mask.shape() == old.shape(),
        [old, new] => new.shape() == old.shape(),
        _ => unreachable!(),
    };
    if same { Ok(()) } else { Err(Fault::Shapes) }
}

/// Some columns of a matrix, updated by another one, under a mask if there is one.
fn updated_columns<'a, S: Semiring>(
    alloc: Global,
    share: &Share<WriteBack>,
    operands: &[&'a PanelledMatrix<S>],
) -> Result<Block<S>, AllocError>
    requires some { 2 ≤ length operands.now }
    requires few { length operands.now ≤ 3 }
    requires shape { HaveOneShape (lent_in operands.now) }
    ensures { IfOk result (λ m. m ≡ panel (update_of share.now.call S.arithmetic (lent_in operands.now)) share.now.first share.now.end) }
{
    let (how, first, end) = (share.call, share.first, share.end);
    match operands {
        [old, new, mask] => update_columns(alloc, how, old, new, Some(*mask), first, end),
        [old, new] => {
            let no_mask: Option<&'a PanelledMatrix<S>> = None;
            update_columns(alloc, how, old, new, no_mask, first, end)
        }
        _ => unreachable!(),
    }
}

impl KeptCall for Share<WriteBack> {
    ghost use Rattle.std.specs.Prelude.{◌≤◌};
    ghost use Rattle.cb_kept.specs.KeptShares.{KeepsColumns};
    ghost use Rattle.cb_kept.specs.KeptUpdates.{shape_faults, update_of};

    type Answer = Kept;

    ghost takes = { λ _ n. (2 ≤ n) × (n ≤ 3) };

    ghost faults = { λ _ s ms. shape_faults s ms };

    ghost gives = { λ c name s ms. KeepsColumns name (update_of c.call s ms) c.first c.end };

    fn over<S: Keep>(&self, alloc: Global, operands: &[&PanelledMatrix<S>]) -> Result<Kept, Fault> {
        check_update(operands)?;
        let block = updated_columns(alloc, self, operands)?;
        Ok(keep_block::<S>(alloc, block))
    }
}

/// Keeps the columns from `first` up to, but not including, `end` of a kept matrix that is updated by a new one at the places
/// that the mask allows ([`cb_selections::update`]), in the shape of the whole. `None` for how it writes stands for an unknown
/// number. The faults are those of the whole update. Costs what [`cb_shares::update_columns`] costs.
#[tactic(auto, unfolding(crate::specs::KeptAnswers::numbered_faults))]
pub fn kept_update(
    alloc: Global,
    how: Option<WriteBack>,
    old: &Kept,
    new: &Kept,
    mask: Option<&Kept>,
    first: u32,
    end: u32,
) -> Result<Kept, Fault>
    ensures { IsColumnsAnswer (λ _. shape_faults) update_of how first end (operands_of old.now new.now (option_copied mask.entry)) result }
{
    let Some(call) = how else {
        return Err(Fault::Test);
    };
    let share = Share { call, first, end };
    match mask {
        Some(mask) => kept_call(alloc, &share, &[old, new, mask]),
        None => kept_call(alloc, &share, &[old, new]),
    }
}
