//! What is computed of the matrices of texts, over any semiring.
ghost use Rattle.std.specs.Prelude.{◌≡◌, ℕ, List, length, vec_len};
ghost use Rattle.cb_operations.specs.Computations.{operand_count_of};
ghost use Rattle.cb_operations.specs.Operands.{lent_in};
ghost use Rattle.cb_job_inputs.specs.Inputs.{AreMatrices};
ghost use Rattle.cb_job_computations.specs.ComputedTexts.{IsAnsweredOver};

use cb_bases::Based;
use cb_job_ends::faults::JobFault;
use cb_job_ends::texts::Text;
use cb_job_inputs::operands::read_panels;
use cb_job_output::answers::Answer;
use cb_layout::PanelledMatrix;
use cb_operations::{Computation, Operands};
use cb_panels::{Panels, compute};
use cb_product::LEAST_PRODUCTS;
use cb_semirings::Semiring;
use std::alloc::Global;
use std::thread::Threads;

/// Computes something of borrowed matrices by up to this many threads, as [`compute`] does, or refuses it.
fn computed<S: Semiring + Send + Sync, R: Threads + Sync>(
    rt: &R,
    alloc: Global,
    threads: u32,
    computation: Computation,
    operands: &[&PanelledMatrix<S>],
) -> Result<Answer<S>, JobFault>
    requires { length operands.now ≡ operand_count_of computation }
    ensures { (texts : List (List ℕ)) → AreMatrices S.arithmetic texts (lent_in operands.now) → IsAnsweredOver computation S.arithmetic texts result }
{
    let panels = Panels {
        most: threads,
        least: LEAST_PRODUCTS,
    };
    let matrix = compute(rt, alloc, panels, computation, operands)?;
    Ok(Answer::Matrix(matrix))
}

/// Reads the operands of a computation over a semiring, and computes it: the answer whose text is that of the result. At most
/// `threads` threads do both.
///
/// The first fault in this order is returned: a text that isn't a matrix; a refusal; want of memory. Each text is dropped once it
/// is read, so that its memory is free for the computation.
pub fn computed_answer<S: Based + Send + Sync, R: Threads + Sync>(
    rt: &R,
    alloc: Global,
    threads: u32,
    computation: Computation,
    texts: Vec<Text>,
) -> Result<Answer<S>, JobFault>
    requires { vec_len texts ≡ operand_count_of computation }
    ensures { IsAnsweredOver computation S.arithmetic texts.items result }
{
    match read_panels::<S, R>(rt, alloc, threads, texts)? {
        Operands::One(a) => computed(rt, alloc, threads, computation, &[&a]),
        Operands::Two(a, b) => computed(rt, alloc, threads, computation, &[&a, &b]),
        Operands::Three(a, b, c) => computed(rt, alloc, threads, computation, &[&a, &b, &c]),
    }
}
