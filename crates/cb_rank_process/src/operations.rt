//! Operations on the matrices of all processes of a grid.
ghost use Rattle.std.specs.Prelude.{◌≡◌, ◌≤◌, length, IfOk, IfErr, OnOk, OnErr};
ghost use Rattle.cb_operations.specs.OperationAnswers.{operand_count_of};
ghost use Rattle.cb_rank_process.specs.Begun.{BringsAnswer, BringsPanels, HaveMatrices, IsGatherFault, IsLack, IsOperateFault, Gathers, Operates, OperatesOn, operand_shapes, operand_slots};

use crate::faults::ProcessFault;
use crate::processes::Process;
use cb_matrix::Shape;
use cb_operations::{MOST_OPERANDS, Operation};
use cb_plan::RankStore;
use cb_plan_parts::{LEFT, RIGHT};
use cb_plan_summa::MASK;
use cb_plan_transfers::panels_plan;
use cb_planner::plan_of;
use cb_semirings::Semiring;
use std::alloc::{AllocError, Global};

impl<S: Semiring> Process<S> {
    /// The shapes of the matrices in the first registers.
    fn shapes(&self, alloc: Global, count: usize) -> Result<Vec<Shape>, ProcessFault>
        requires { count ≤ MOST_OPERANDS }
        ensures shapes { IfOk result (λ shapes. shapes.items ≡ operand_shapes self.now count) }
        ensures count { IfOk result (λ shapes. length shapes.items ≡ count) }
        ensures filled { OnOk result (HaveMatrices self.now count) }
        ensures fault { IfErr result (IsLack self.now count) }
    {
        let mut shapes = Vec::with_capacity(alloc, count)?;
        for n in 0..count {
            let Some(kept) = self.kept(n as u32) else {
                return Err(ProcessFault::Absent);
            };
            if shapes.push(kept.shape).is_err() {
                return Err(ProcessFault::Memory);
            }
        }
        Ok(shapes)
    }

    /// The slots of this rank, with the blocks of the matrices in the first registers.
    fn laid_out(&mut self, alloc: Global, operation: Operation) -> Result<RankStore<S>, AllocError>
        requires { HaveMatrices self.old (operand_count_of operation) }
        ensures slots { IfOk result (λ store. store ≡ operand_slots self.old (operand_count_of operation)) }
        ensures same { self.new ≡ self.old }
    {
        let count = operation.operand_count();
        let mut store = RankStore::new(alloc)?;
        self.lay(alloc, &mut store, 0, LEFT)?;
        if count > 1 {
            self.lay(alloc, &mut store, 1, RIGHT)?;
        }
        if count > 2 {
            self.lay(alloc, &mut store, 2, MASK)?;
        }
        Ok(store)
    }

    /// Begins an operation on the matrices in the first registers, in order. They give up their matrices. Refused, nothing
    /// changes.
    ///
    /// All processes of the grid have to begin the same one. [`Process::end`] then keeps this process's block of the answer.
    pub fn operate(&mut self, alloc: Global, operation: Operation) -> Result<(), ProcessFault>
        ensures begins { OnOk result (Operates operation self.old self.new) }
        ensures on { OnOk result (OperatesOn S.arithmetic operation self.old self.new) }
        ensures brings { OnOk result (BringsAnswer S.arithmetic operation self.old self.new) }
        ensures fault { IfErr result (IsOperateFault operation self.old) }
        ensures unchanged { OnErr result (self.new ≡ self.old) }
    {
        if !self.is_free() {
            return Err(ProcessFault::NotNow);
        }
        let count = operation.operand_count();
        let shapes = self.shapes(alloc, count)?;
        let Some(shape) = operation.shape_of(&shapes) else {
            return Err(ProcessFault::Shapes);
        };
        let planned = plan_of(alloc, &self.grid, operation, &shapes)?;
        let (plan, slot) = planned.into_checked();
        let store = self.laid_out(alloc, operation)?;
        self.begin(alloc, &plan, slot, shape, store)?;
        self.give_up_first(count);
        Ok(())
    }

    /// Begins to bring a matrix into the order of its text: in the end each process has some whole columns of it, in the shape
    /// of the matrix. By column of the grid, and in it by row, these are the matrix from left to right. [`Process::end`] then
    /// keeps this process's panel of the matrix.
    ///
    /// The register gives up its matrix. Refused, nothing changes.
    pub fn gather_columns(&mut self, alloc: Global, register: u32) -> Result<(), ProcessFault>
        ensures begins { OnOk result (Gathers register self.old self.new) }
        ensures brings { OnOk result (BringsPanels S.arithmetic register self.old self.new) }
        ensures fault { IfErr result (IsGatherFault register self.old) }
        ensures unchanged { OnErr result (self.new ≡ self.old) }
    {
        if !self.is_free() {
            return Err(ProcessFault::NotNow);
        }
        let Some(kept) = self.kept(register) else {
            return Err(ProcessFault::Absent);
        };
        let shape = kept.shape;
        let (plan, slot) = panels_plan(alloc, &self.grid, shape)?;
        let mut store = RankStore::new(alloc)?;
        self.lay(alloc, &mut store, register, 0)?;
        self.begin(alloc, &plan, slot, shape, store)?;
        self.give_up(register);
        Ok(())
    }
}
