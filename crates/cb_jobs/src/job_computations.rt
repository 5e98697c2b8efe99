//! What is computed of the matrices of texts, by ranks or without any.
ghost use Rattle.std.specs.Prelude.{◌≡◌, ◌≢◌, ◌+◌, vec_len, false, Some, IfOk, IfErr};
ghost use Rattle.cb_semirings.specs.Names.{arithmetic_of};
ghost use Rattle.cb_operations.specs.Computations as computations;
ghost use Rattle.cb_operations.specs.OperationAnswers.{operand_count_of};
ghost use Rattle.cb_operations.specs.declared.computations.Computation.TheVariants as computation_is;
ghost use Rattle.cb_command_line.specs.Jobs.{list_count_of};
ghost use Rattle.cb_job_computations.specs.Extracts.{IsExtractEnd};
ghost use Rattle.cb_jobs.specs.Answers.{IsOutcomeOver, IsRanksFaultOver};
ghost use Rattle.cb_jobs.specs.Engines.{engine_of};
ghost use Rattle.cb_jobs.specs.JobEnds.{IsComputationAnswered, IsComputationEnd};

use crate::ranks::{Ranks, job_fault, ranks_of};
use crate::trace_lines::lines_of;
use cb_bases::Based;
use cb_command_line::{Job, Lists};
use cb_job_computations::computed_answers::computed_answer;
use cb_job_computations::extract_texts::put_extract;
use cb_job_ends::faults::JobFault;
use cb_job_ends::sinks::Sink;
use cb_job_ends::texts::Text;
use cb_job_inputs::operands::read_operands;
use cb_job_output::answers::{Answer, put_answer};
use cb_operations::{Computation, Operation};
use cb_rank_engines::Outcome;
use cb_rank_operations::run;
use cb_semirings::{SemiringName, over_semiring};
use std::alloc::Global;
use std::sync::Wait;
use std::thread::Threads;

/// Reads the operands of an operation, and computes it by ranks.
#[tactic(auto, using(crate::proofs::GridOperands::lie_over))]
fn outcome_of<S: Based + Send + Sync, R: Threads + Wait + Sync>(
    rt: &R,
    alloc: Global,
    ranks: &Ranks<'_>,
    operation: Operation,
    texts: Vec<Text>,
) -> Result<Outcome<S>, JobFault>
    requires { vec_len texts ≡ operand_count_of operation }
    ensures ok { IfOk result (IsOutcomeOver operation S.arithmetic ranks.now.engine ranks.now.grid.side texts.items) }
    ensures fault { IfErr result (IsRanksFaultOver operation S.arithmetic ranks.now.engine ranks.now.grid.side texts.items) }
    ensures unwritten { IfErr result (λ f. f ≢ JobFault.Output) }
{
    let operands = read_operands::<S, R>(rt, alloc, &ranks.grid, ranks.threads, texts)?;
    match run(rt, alloc, ranks.engine, &ranks.grid, operation, operands) {
        Ok(outcome) => Ok(outcome),
        Err(fault) => Err(job_fault(fault)),
    }
}

/// Reads the operands of an operation over a semiring, and computes its result by ranks: the answer whose text is that of the
/// result and then, if the engine keeps a trace, a line for each event.
fn ranks_answer<S: Based + Send + Sync, R: Threads + Wait + Sync>(
    rt: &R,
    alloc: Global,
    ranks: &Ranks<'_>,
    operation: Operation,
    texts: Vec<Text>,
) -> Result<Answer<S>, JobFault>
    requires { vec_len texts ≡ operand_count_of operation }
    ensures { IsComputationAnswered (Some ranks.now.engine) ranks.now.grid.side (computation_is.Operation operation) S.arithmetic texts.items result }
{
    let done = outcome_of::<S, R>(rt, alloc, ranks, operation, texts)?;
    let lines = lines_of(alloc, &done.trace)?;
    Ok(Answer::Blocks(done.answer, lines))
}

/// The answer of a computation over a semiring: of an operation by the ranks of a job, if it has any, and otherwise without.
fn computation_answer_by<S: Based + Send + Sync, R: Threads + Wait + Sync>(
    rt: &R,
    alloc: Global,
    job: &Job,
    computation: Computation,
    texts: Vec<Text>,
) -> Result<Answer<S>, JobFault>
    requires { vec_len texts ≡ computations.operand_count_of computation }
    ensures { IsComputationAnswered (engine_of job.now.engine) job.now.side computation S.arithmetic texts.items result }
{
    match (ranks_of(job), computation) {
        (Some(ranks), Computation::Operation(operation)) => {
            ranks_answer::<S, R>(rt, alloc, &ranks, operation, texts)
        }
        _ => computed_answer::<S, R>(rt, alloc, job.threads, computation, texts),
    }
}

/// Writes the answer of a computation over a semiring.
fn put_computation<S: Based + Send + Sync, R: Threads + Wait + Sync, K: Sink>(
    rt: &R,
    alloc: Global,
    job: &Job,
    computation: Computation,
    texts: Vec<Text>,
    out: &mut K,
) -> Result<(), JobFault>
    requires texts { vec_len texts ≡ computations.operand_count_of computation }
    requires works { K.has_failed out.old ≡ false }
    ensures { IsComputationEnd job.now computation S.arithmetic texts.items (K.written out.old) (K.written out.new) (K.has_failed out.new) result }
{
    let answer = computation_answer_by::<S, R>(rt, alloc, job, computation, texts)?;
    put_answer(rt, alloc, job.threads, answer, out)
}

/// Writes the answer of a computation over the semiring of a name.
pub fn execute_computation<R: Threads + Wait + Sync, K: Sink>(
    rt: &R,
    alloc: Global,
    job: &Job,
    computation: Computation,
    semiring: SemiringName,
    texts: Vec<Text>,
    out: &mut K,
) -> Result<(), JobFault>
    requires texts { vec_len texts ≡ computations.operand_count_of computation }
    requires works { K.has_failed out.old ≡ false }
    ensures { IsComputationEnd job.now computation (arithmetic_of semiring) texts.items (K.written out.old) (K.written out.new) (K.has_failed out.new) result }
{
    over_semiring!(
        semiring,
        put_computation::<_, R, K>(rt, alloc, job, computation, texts, out)
    )
}

/// Writes the listed rows and columns of a matrix over the semiring of a name.
pub fn execute_extract<R: Threads + Sync, K: Sink>(
    rt: &R,
    alloc: Global,
    threads: u32,
    lists: Lists,
    semiring: SemiringName,
    texts: Vec<Text>,
    out: &mut K,
) -> Result<(), JobFault>
    requires texts { vec_len texts ≡ 1 + list_count_of lists }
    requires works { K.has_failed out.old ≡ false }
    ensures { IsExtractEnd lists (arithmetic_of semiring) texts.items (K.written out.old) (K.written out.new) (K.has_failed out.new) result }
{
    over_semiring!(
        semiring,
        put_extract::<_, R, K>(rt, alloc, threads, lists, texts, out)
    )
}
