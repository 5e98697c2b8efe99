//! The registers of a process: what they lend to a plan, and how they give it up.
ghost use Rattle.std.specs.Prelude.{◌≡◌, ◌↔◌, ◌<◌, length, get_or, slice_set, Some, None, IsSome, IsTrue, IfSome, IfNone, IfOk, IfErr, OnOk, OnErr, OnSome};
ghost use Rattle.cb_plan.specs.declared.stores.Slot.TheVariants.{Sheet};
ghost use Rattle.cb_rank_process.specs.Processes.{register_at, given_up, with_registers};
ghost use Rattle.cb_rank_process.specs.VertexNumbers.{Copies, IsCopyFault, IsRegister};
ghost use Rattle.cb_rank_process.specs.Begun.{all_given_up, block_in, slot_from};

use crate::faults::ProcessFault;
use crate::processes::{Kept, Process};
use cb_plan::{RankStore, SLOTS, SharedBlock};
use cb_semirings::Semiring;
use std::alloc::{AllocError, Global};

impl<S: Semiring> Kept<S> {
    /// A copy of the block, which shares its lists.
    fn share(&mut self, alloc: Global) -> Result<SharedBlock<S>, AllocError>
        ensures copy { IfOk result (λ block. block ≡ self.old.block) }
        ensures same { self.new ≡ self.old }
    {
        self.block.lend(alloc)?;
        self.block.try_clone()
    }
}

impl<S: Semiring> Process<S> {
    /// Whether there is a register of this number.
    pub(crate) fn has_register(&self, register: u32) -> bool
        ensures { IsTrue result ↔ IsRegister self.now register }
    {
        (register as usize) < self.registers.len()
    }

    /// Copies the matrix in a register to another one, in place of what that had. The two share the lists of the block. Refused,
    /// nothing changes.
    #[tactic(auto, using(crate::proofs::FirstRegisters::register_inside))]
    pub fn copy(&mut self, alloc: Global, from: u32, to: u32) -> Result<(), ProcessFault>
        ensures copies { OnOk result (Copies from to self.old self.new) }
        ensures fault { IfErr result (IsCopyFault from to self.old) }
        ensures unchanged { OnErr result (self.new ≡ self.old) }
    {
        if !self.has_register(to) {
            return Err(ProcessFault::Absent);
        }
        let Some(kept) = self.kept(from) else {
            return Err(ProcessFault::Absent);
        };
        let shape = kept.shape;
        let block = shared(alloc, &mut self.registers, from as usize)?;
        self.put(to, Kept { shape, block });
        Ok(())
    }

    /// Puts the block in a register into a slot. The register keeps it too, until it gives it up.
    #[tactic(auto, using(crate::proofs::FirstRegisters::register_inside))]
    pub(crate) fn lay(
        &mut self,
        alloc: Global,
        store: &mut RankStore<S>,
        register: u32,
        slot: u16,
    ) -> Result<(), AllocError>
        requires slot { slot < SLOTS }
        requires filled { IsSome (register_at self.old register) }
        ensures slots { OnOk result (store.new ≡ slot_from self.old register slot store.old) }
        ensures same { self.new ≡ self.old }
    {
        let block = shared(alloc, &mut self.registers, register as usize)?;
        store.put_shared(slot, block);
        Ok(())
    }

    /// Takes a matrix out of a register.
    pub(crate) fn take_out(&mut self, register: u32) -> Option<Kept<S>>
        ensures kept { IfSome result (λ kept. register_at self.old register ≡ Some kept) }
        ensures given_up { OnSome result (self.new ≡ with_registers self.old (given_up register self.old.registers)) }
        ensures none { IfNone result (register_at self.old register ≡ None) }
        ensures unchanged { IfNone result (self.new ≡ self.old) }
    {
        match self.registers.get_mut(register as usize) {
            Some(place) => place.take(),
            None => None,
        }
    }

    /// Puts a matrix into a register, if there is such a one.
    pub(crate) fn put(&mut self, register: u32, kept: Kept<S>)
        ensures { self.new ≡ with_registers self.old (slice_set self.old.registers register (Some kept)) }
    {
        if let Some(place) = self.registers.get_mut(register as usize) {
            *place = Some(kept);
        }
    }

    /// A register gives up its matrix.
    pub(crate) fn give_up(&mut self, register: u32)
        ensures { self.new ≡ with_registers self.old (given_up register self.old.registers) }
    {
        empty(&mut self.registers, register as usize);
    }

    /// The first registers give up their matrices.
    pub(crate) fn give_up_first(&mut self, count: usize)
        ensures { self.new ≡ with_registers self.old (all_given_up count self.old.registers) }
    {
        empty_first(&mut self.registers, count);
    }
}

/// A copy of the block in a register, which shares its lists.
#[tactic(auto, using(crate::proofs::FirstRegisters::same_register))]
fn shared<S: Semiring>(
    alloc: Global,
    registers: &mut [Option<Kept<S>>],
    register: usize,
) -> Result<SharedBlock<S>, AllocError>
    requires inside { register < length registers.old }
    requires filled { IsSome (get_or registers.old register None) }
    ensures copy { IfOk result (λ block. block ≡ block_in (get_or registers.old register None)) }
    ensures same { registers.new ≡ registers.old }
{
    match &mut registers[register] {
        Some(kept) => kept.share(alloc),
        None => unreachable!(),
    }
}

/// Empties a register, if there is such a one.
fn empty<S: Semiring>(registers: &mut [Option<Kept<S>>], register: usize)
    ensures { registers.new ≡ given_up register registers.old }
{
    if register < registers.len() {
        registers[register] = None;
    }
}

/// Empties the first registers.
fn empty_first<S: Semiring>(registers: &mut [Option<Kept<S>>], count: usize)
    ensures { registers.new ≡ all_given_up count registers.old }
{
    for register in 0..count {
        empty(registers, register);
    }
}
