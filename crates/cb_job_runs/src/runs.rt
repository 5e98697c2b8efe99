//! A run of a program, from a command line that was read to the exit status.
ghost use Rattle.std.specs.Prelude.{◌≡◌, ℕ, List, Result, vec_len, false};
ghost use Rattle.std.specs.Thread.{IsSync};
ghost use Rattle.cb_job_ends.specs.WriteEnds.{IsEndOn};
ghost use Rattle.cb_job_ends.specs.declared.faults.JobFault.{JobFault};
ghost use Rattle.cb_command_line.specs.Lines.{IsReading};
ghost use Rattle.cb_command_line.specs.declared.jobs.Job.{Job};
ghost use Rattle.cb_command_line.specs.declared.jobs.UsageFault.{UsageFault};
ghost use Rattle.cb_job_runs.specs.Endings.{IsEnding, IsJobEnding, IsRun, names_of};

use crate::endings::{Ending, Status, finish, unloaded, usage_ending};
use cb_command_line::{CommandLine, Job, UsageFault, asked};
use cb_job_ends::faults::JobFault;
use cb_job_ends::sinks::Sink;
use cb_job_ends::texts::Text;
use cb_job_files::files::{FileSource, texts_of};
use std::alloc::Global;
use std::thread::Threads;

/// A program, by the answers that it has to jobs. It computes them by threads of a runtime.
pub trait Program<R: Threads + Sync> {
    /// A text is the answer of a job on the texts of its files.
    ghost answers: { Job → List (List ℕ) → List ℕ → Type 0 };

    /// Why a job on the texts of its files has no answer, or why the answer wasn't written.
    ghost faults: { Job → List (List ℕ) → JobFault → Type 0 };

    /// Writes the answer of a job on the texts of its files.
    fn answer<K: Sink>(
        rt: &R,
        alloc: Global,
        job: &Job,
        texts: Vec<Text>,
        out: &mut K,
    ) -> Result<(), JobFault>
        requires sync { IsSync R.row }
        requires texts { vec_len texts ≡ vec_len job.now.files }
        requires works { K.has_failed out.old ≡ false }
        ensures { IsEndOn (answers job.now) (faults job.now) texts.items (K.written out.old) (K.written out.new) (K.has_failed out.new) result };
}

/// Loads the files of a job, and writes its answer.
fn job_ending<P: Program<R>, R: Threads + Sync, F: FileSource<R>, K: Sink>(
    rt: &R,
    alloc: Global,
    job: &Job,
    files: &F,
    out: &mut K,
) -> Ending
    requires { K.has_failed out.old ≡ false }
    ensures { IsJobEnding P.answers P.faults (F.holds files.now) (F.refuses files.now) job.now (K.written out.old) (K.written out.new) result }
{
    let texts = match texts_of(rt, alloc, files, job.files(), job.threads) {
        Ok(texts) => texts,
        Err(fault) => return unloaded(fault),
    };
    match P::answer(rt, alloc, job, texts, out) {
        Ok(()) => Ending::Done,
        Err(fault) => Ending::Fault(fault),
    }
}

/// Runs a program on a command line that was read. The answer or the help goes to `out`, the text of a fault to `err`.
///
/// The files are loaded in the job's order before any text is parsed, and the first fault ends the run. The status and
/// the text on `err` are those of the ending. If memory for that text is refused, the line that memory was is printed; if `err`
/// fails, only a beginning is.
pub fn run<P: Program<R>, R: Threads + Sync, F: FileSource<R>, K: Sink, E: Sink>(
    rt: &R,
    alloc: Global,
    asked: Result<Job, UsageFault>,
    files: &F,
    out: &mut K,
    err: &mut E,
) -> Status
    requires out { K.has_failed out.old ≡ false }
    requires err { E.has_failed err.old ≡ false }
    ensures { let ends = IsEnding P.answers P.faults (F.holds files.now) (F.refuses files.now) asked (K.written out.old) (K.written out.new) in
        IsRun ends (names_of asked) (E.written err.old) (E.written err.new) (E.has_failed err.new) result }
{
    match asked {
        Ok(job) => {
            let ending = job_ending::<P, R, F, K>(rt, alloc, &job, files, out);
            finish(alloc, job.files(), &ending, err)
        }
        Err(fault) => {
            let ending = usage_ending(fault, out);
            finish(alloc, &[], &ending, err)
        }
    }
}

/// Runs a program on the job that a command line asks for, as [`run`] does.
pub fn run_on_line<
    P: Program<R>,
    R: Threads + Sync,
    L: CommandLine,
    F: FileSource<R>,
    K: Sink,
    E: Sink,
>(rt: &R, alloc: Global, line: &L, files: &F, out: &mut K, err: &mut E) -> Status
    requires out { K.has_failed out.old ≡ false }
    requires err { E.has_failed err.old ≡ false }
    ensures { (asked : Result Job UsageFault) × IsReading (L.holds line.now) asked
        × (let ends = IsEnding P.answers P.faults (F.holds files.now) (F.refuses files.now) asked (K.written out.old) (K.written out.new) in
        IsRun ends (names_of asked) (E.written err.old) (E.written err.new) (E.has_failed err.new) result) }
{
    let job = asked(rt, alloc, line);
    run::<P, R, F, K, E>(rt, alloc, job, files, out, err)
}
