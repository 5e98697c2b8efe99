//! Stacks: the sheets that one thread writes in a round.
ghost use Rattle.std.specs.Prelude.{◌≡◌, ℕ, ◌<◌, [], List, get_or, IfOk, IfSome};
ghost use Rattle.cb_job_output.specs.Rounds.{AreOf};

use cb_job_threads::gates::Gate;
use cb_job_threads::turns::Turns;
use cb_market_pages::{Share, Sheet};
use cb_semirings::Semiring;
use std::alloc::{AllocError, Global};
use std::marker::Model;

/// A sheet, and the number of the share that is written on it.
#[derive(Drop)]
pub(crate) struct Numbered {
    number: usize,
    sheet: Sheet,
}

/// The sheets of a thread. In contracts a stack is those that are written in this round.
#[derive(Drop)]
pub(crate) struct Stack {
    /// The sheets, of which the first `used` are written.
    sheets: Vec<Numbered>,
    used: usize,
}

impl Model for Stack {
    ghost use Rattle.std.specs.Prelude.{◌≤◌, List, length, take};
    ghost use Rattle.cb_job_output.specs.declared.stacks.Numbered.{Numbered};

    ghost Value = { List Numbered };

    ghost view = { λ s. take s.used s.sheets.items };

    ghost invariant = { λ s. s.used ≤ length s.sheets.items };
}

impl Stack {
    /// Makes a stack with this many sheets, of which none is written.
    pub(crate) fn new(alloc: Global, count: usize) -> Result<Stack, AllocError>
        ensures { IfOk result (λ stack. stack ≡ []) }
    {
        let mut sheets = Vec::with_capacity(alloc, count)?;
        for _ in 0..count {
            let sheet = Sheet::new(alloc)?;
            sheets.push_reserved(Numbered { number: 0, sheet });
        }
        Ok(Stack { sheets, used: 0 })
    }

    /// Writes shares on the sheets, as long as there is a turn and a sheet for it.
    pub(crate) fn make<S: Semiring, G: Gate>(
        &mut self,
        shares: &[Share<'_, S>],
        turns: &Turns<'_, G>,
    )
        ensures { AreOf shares.now self.new }
    {
        self.used = 0;
        while self.used < self.sheets.len() {
            let Some(number) = turns.take(shares.len()) else {
                return;
            };
            write_on(&mut self.sheets[self.used], number, &shares[number]);
            self.used += 1;
        }
    }

    /// Discards what is written.
    pub(crate) fn clear(&mut self)
        ensures { self.new ≡ [] }
    {
        self.used = 0;
    }

    /// Returns the sheet on which the share with a number is written, if it is on one.
    pub(crate) fn find(&self, number: usize) -> Option<&[u8]>
        ensures { IfSome result (λ bytes. (shares : List (List ℕ)) → AreOf shares self.now → (d : List ℕ) → bytes.now ≡ get_or shares number d) }
    {
        for n in 0..self.used {
            let written = &self.sheets[n];
            if written.number == number {
                return Some(written.sheet.written());
            }
        }
        None
    }
}

/// Writes a share on a sheet.
fn write_on<S: Semiring>(written: &mut Numbered, number: usize, share: &Share<'_, S>)
    ensures number { written.new.number ≡ number }
    ensures sheet { written.new.sheet ≡ share.now }
{
    written.sheet.write(share);
    written.number = number;
}
