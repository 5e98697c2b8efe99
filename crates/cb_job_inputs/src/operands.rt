//! The operands of an operation or a selection.
ghost use Rattle.std.specs.Prelude.{◌≡◌, ◌≤◌, length, vec_len, IfOk, IfErr};
ghost use Rattle.cb_operations.specs.Operands.{list_of};
ghost use Rattle.cb_job_inputs.specs.Inputs.{AreEach, AreMatrices, IsReadFault, whole_operands};

use crate::inputs::{read_beside, read_one};
use cb_bases::Based;
use cb_job_ends::faults::JobFault;
use cb_job_ends::texts::Text;
use cb_layout::{DistributedMatrix, Grid, PanelledMatrix};
use cb_operations::Operands;
use cb_semirings::Semiring;
use std::alloc::Global;
use std::thread::Threads;

/// Reads one, two or three texts as operands in order, each into the blocks of a grid. At most `threads` threads read; each text
/// is dropped once it is read.
pub fn read_operands<S: Based + Send + Sync, R: Threads + Sync>(
    rt: &R,
    alloc: Global,
    grid: &Grid,
    threads: u32,
    texts: Vec<Text>,
) -> Result<Operands<DistributedMatrix<S>>, JobFault>
    requires some { 1 ≤ vec_len texts }
    requires few { vec_len texts ≤ 3 }
    ensures count { IfOk result (λ o. length (list_of o) ≡ vec_len texts) }
    ensures ok { IfOk result (λ o. AreMatrices S.arithmetic texts.items (whole_operands o)) }
    ensures sides { IfOk result (AreEach (λ m. m.side ≡ grid.now.side)) }
    ensures fault { IfErr result (IsReadFault S.arithmetic texts.items) }
{
    if texts.len() == 1 {
        let matrix = read_one(rt, alloc, grid, threads, texts)?;
        return Ok(Operands::One(matrix));
    }
    let (left, right, third) = read_beside(rt, alloc, grid, threads, texts)?;
    match third {
        Some(mask) => Ok(Operands::Three(left, right, mask)),
        None => Ok(Operands::Two(left, right)),
    }
}

/// The only block of a matrix, as a panel.
fn panelled<S: Semiring>(alloc: Global, matrix: DistributedMatrix<S>) -> PanelledMatrix<S>
    requires { matrix.side ≡ 1 }
    ensures { result ≡ matrix.matrix }
{
    PanelledMatrix::from_block(alloc, matrix.into_block())
}

/// Reads the same, each into one panel.
pub fn read_panels<S: Based + Send + Sync, R: Threads + Sync>(
    rt: &R,
    alloc: Global,
    threads: u32,
    texts: Vec<Text>,
) -> Result<Operands<PanelledMatrix<S>>, JobFault>
    requires some { 1 ≤ vec_len texts }
    requires few { vec_len texts ≤ 3 }
    ensures count { IfOk result (λ o. length (list_of o) ≡ vec_len texts) }
    ensures ok { IfOk result (λ o. AreMatrices S.arithmetic texts.items (list_of o)) }
    ensures fault { IfErr result (IsReadFault S.arithmetic texts.items) }
{
    match read_operands(rt, alloc, &Grid::single(), threads, texts)? {
        Operands::One(matrix) => Ok(Operands::One(panelled(alloc, matrix))),
        Operands::Two(left, right) => {
            Ok(Operands::Two(panelled(alloc, left), panelled(alloc, right)))
        }
        Operands::Three(left, right, mask) => {
            let (left, right) = (panelled(alloc, left), panelled(alloc, right));
            Ok(Operands::Three(left, right, panelled(alloc, mask)))
        }
    }
}
