//! What a process does of its plan, half by half.
ghost use Rattle.std.specs.Prelude.{◌≡◌, IfOk, OnOk, OnErr};
ghost use Rattle.cb_rank_driven.specs.DrivenRanks.{DoesNext};
ghost use Rattle.cb_rank_process.specs.Processes.{Moves, HandsOut, IsKeptBack, TakesIn, wanted_by};

use crate::faults::ProcessFault;
use crate::processes::Process;
use cb_letters::Letter;
use cb_lists::Columns;
use cb_messages::{Head, Message, letter_of};
use cb_plan::SharedBlock;
use cb_rank::Want;
use cb_semirings::Semiring;
use std::alloc::Global;

impl<S: Semiring> Process<S> {
    /// The next half of the plan; Done if no plan was begun.
    pub fn want(&self) -> Want
        ensures { result ≡ wanted_by self.now.task }
    {
        match &self.task {
            Some(task) => task.rank.want(),
            None => Want::Done,
        }
    }

    /// The next letter: that which a refusal of memory kept back, or that of a Post or a Shut, which is then done.
    fn next_letter(&mut self) -> Result<Letter<SharedBlock<S>>, ProcessFault>
        ensures out { IfOk result (λ letter. HandsOut S.arithmetic self.old letter self.new) }
        ensures unchanged { OnErr result (self.new ≡ self.old) }
    {
        if let Some(letter) = self.unsent.take() {
            return Ok(letter);
        }
        match &mut self.task {
            Some(task) => Ok(task.rank.post()?),
            None => Err(ProcessFault::NotNow),
        }
    }

    /// Does a Post or a Shut, and hands out its letter. If memory for the list of starts is refused, the half is done, and the
    /// next call hands out its letter.
    pub fn post(&mut self, alloc: Global) -> Result<Message<S>, ProcessFault>
        ensures out { IfOk result (λ letter. HandsOut S.arithmetic self.old letter self.new) }
        ensures kept_back { OnErr result (IsKeptBack S.arithmetic self.old self.new) }
    {
        let letter = self.next_letter()?;
        match Message::new(alloc, letter) {
            Ok(message) => Ok(message),
            Err((letter, error)) => {
                self.unsent = Some(letter);
                Err(ProcessFault::from(error))
            }
        }
    }

    /// Does a Take or an End with what arrived. If that isn't the letter for which the half waits, nothing changes.
    pub fn take(&mut self, alloc: Global, head: &Head, lists: &Columns) -> Result<(), ProcessFault>
        ensures takes { OnOk result (TakesIn S.arithmetic self.old head.now lists.now self.new) }
        ensures unchanged { OnErr result (self.new ≡ self.old) }
    {
        let Some(task) = &mut self.task else {
            return Err(ProcessFault::NotNow);
        };
        let letter = letter_of::<S>(alloc, head, lists)?;
        task.rank.take(letter)?;
        Ok(())
    }

    /// Does a Work.
    pub fn work(&mut self) -> Result<(), ProcessFault>
        ensures does { OnOk result (Moves (λ a b. DoesNext S.arithmetic a b) self.old self.new) }
        ensures unchanged { OnErr result (self.new ≡ self.old) }
    {
        match &mut self.task {
            Some(task) => {
                task.rank.work()?;
                Ok(())
            }
            None => Err(ProcessFault::NotNow),
        }
    }
}
