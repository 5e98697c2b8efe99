//! Answers of computations on the matrices of texts, and of rows and columns by lists, written over the distributive semiring of
//! a name.
ghost use Rattle.std.specs.Prelude.{◌≡◌, ◌+◌, vec_len, true, false};
ghost use Rattle.cb_semirings.specs.Names.{arithmetic_of};
ghost use Rattle.cb_operations.specs.Computations.{operand_count_of};
ghost use Rattle.cb_command_line.specs.Jobs.{is_distributive, list_count_of};
ghost use Rattle.cb_job_computations.specs.ComputedTexts.{IsEndOver};
ghost use Rattle.cb_job_computations.specs.Extracts.{IsExtractEnd};

use crate::computed_answers::computed_answer;
use crate::extract_texts::put_extract;
use cb_bases::Based;
use cb_command_line::{Lists, over_distributive};
use cb_job_ends::faults::JobFault;
use cb_job_ends::sinks::Sink;
use cb_job_ends::texts::Text;
use cb_job_output::answers::put_answer;
use cb_operations::Computation;
use cb_semirings::SemiringName;
use std::alloc::Global;
use std::thread::Threads;

/// Writes the answer of a computation over a semiring.
#[tactic(auto, unfolding(crate::specs::ComputedTexts::IsEndOver))]
fn put_computation<S: Based + Send + Sync, R: Threads + Sync, K: Sink>(
    rt: &R,
    alloc: Global,
    threads: u32,
    computation: Computation,
    texts: Vec<Text>,
    out: &mut K,
) -> Result<(), JobFault>
    requires texts { vec_len texts ≡ operand_count_of computation }
    requires works { K.has_failed out.old ≡ false }
    ensures { IsEndOver computation S.arithmetic texts.items (K.written out.old) (K.written out.new) (K.has_failed out.new) result }
{
    let answer = computed_answer::<S, R>(rt, alloc, threads, computation, texts)?;
    put_answer(rt, alloc, threads, answer, out)
}

/// Writes the answer of a computation, over the distributive semiring of a name.
pub fn execute_distributive_computation<R: Threads + Sync, K: Sink>(
    rt: &R,
    alloc: Global,
    threads: u32,
    computation: Computation,
    semiring: SemiringName,
    texts: Vec<Text>,
    out: &mut K,
) -> Result<(), JobFault>
    requires distributive { is_distributive semiring ≡ true }
    requires texts { vec_len texts ≡ operand_count_of computation }
    requires works { K.has_failed out.old ≡ false }
    ensures { IsEndOver computation (arithmetic_of semiring) texts.items (K.written out.old) (K.written out.new) (K.has_failed out.new) result }
{
    over_distributive!(
        semiring,
        put_computation::<_, R, K>(rt, alloc, threads, computation, texts, out)
    )
}

/// Writes the listed rows and columns of a matrix, over the distributive semiring of a name.
pub fn execute_distributive_extract<R: Threads + Sync, K: Sink>(
    rt: &R,
    alloc: Global,
    threads: u32,
    lists: Lists,
    semiring: SemiringName,
    texts: Vec<Text>,
    out: &mut K,
) -> Result<(), JobFault>
    requires distributive { is_distributive semiring ≡ true }
    requires texts { vec_len texts ≡ 1 + list_count_of lists }
    requires works { K.has_failed out.old ≡ false }
    ensures { IsExtractEnd lists (arithmetic_of semiring) texts.items (K.written out.old) (K.written out.new) (K.has_failed out.new) result }
{
    over_distributive!(
        semiring,
        put_extract::<_, R, K>(rt, alloc, threads, lists, texts, out)
    )
}
