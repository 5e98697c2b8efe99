//! How a run of the program ends: what goes to standard output, the text for standard error, and the exit status.
ghost use Rattle.std.specs.Prelude.{◌≡◌, IfOk, false};
ghost use Rattle.std.specs.Process.{exit_status};
ghost use Rattle.cb_job_runs.specs.Endings.{message_of, ending_status, unloaded_ending, IsPrinted, IsTold, IsUsageEnding};
ghost use Rattle.cb_job_runs.specs.Statuses.{status_code};

use crate::fault_lines::{fault_line, unreadable_line};
use crate::statuses::status;
use cb_command_line::UsageFault;
use cb_job_ends::faults::JobFault;
use cb_job_ends::sinks::{Sink, put_all};
use cb_job_files::files::{LoadFault, name_at};
use std::alloc::{AllocError, Global};
use std::process::{ExitCode, Termination};

/// How a run ended.
#[derive(Drop)]
pub enum Ending {
    /// The answer, or the help that was asked for, has been written.
    Done,
    /// The command line is wrong. The text says why.
    Usage(String),
    /// Memory was refused before a text was read.
    Memory,
    /// The file at this position in the job's list can't be read.
    Unreadable(usize),
    /// The job has no answer, or the answer or help can't be written.
    Fault(JobFault),
}

impl Ending {
    /// The exit status of the program.
    pub fn status(&self) -> u8
        ensures { result ≡ ending_status self.now }
    {
        match self {
            Ending::Done => 0,
            Ending::Usage(_) => 2,
            Ending::Memory => 6,
            Ending::Unreadable(_) => 3,
            Ending::Fault(fault) => status(fault),
        }
    }

    /// The text for standard error, for a job with these files.
    pub fn message(&self, alloc: Global, names: &[String]) -> Result<Vec<u8>, AllocError>
        ensures { IfOk result (λ v. v.items ≡ message_of names.now self.now) }
    {
        match self {
            Ending::Done => Ok(Vec::new(alloc)),
            Ending::Usage(text) => Vec::from_slice(alloc, text.as_bytes()),
            Ending::Memory => fault_line(alloc, names, &JobFault::Memory),
            Ending::Unreadable(which) => unreadable_line(alloc, name_at(names, *which)),
            Ending::Fault(fault) => fault_line(alloc, names, fault),
        }
    }
}

/// The exit status of a run. Only [`finish`] makes one, so a program whose `main` returns it ends as its run did.
#[derive(Clone, Copy)]
pub struct Status {
    code: u8,
}

impl Status {
    /// The number that the program ends with.
    pub fn code(&self) -> u8
        ensures { result ≡ status_code self.now }
    {
        self.code
    }
}

impl Termination for Status {
    fn report<R: Eprint>(self, _rt: &R) -> ExitCode
        ensures { exit_status result ≡ status_code self }
    {
        ExitCode::from(self.code)
    }
}

/// The ending of a job whose files can't all be loaded.
pub fn unloaded(fault: LoadFault) -> Ending
    ensures { result ≡ unloaded_ending fault }
{
    match fault {
        LoadFault::Unreadable(which) => Ending::Unreadable(which),
        LoadFault::Memory => Ending::Memory,
    }
}

/// Writes the help that was asked for, or keeps a usage text for standard error.
pub fn usage_ending<K: Sink>(fault: UsageFault, out: &mut K) -> Ending
    requires { K.has_failed out.old ≡ false }
    ensures { IsUsageEnding fault (K.written out.old) (K.written out.new) result }
{
    match fault {
        UsageFault::Help(text) => match put_all(out, text.as_bytes()) {
            Ok(()) => Ending::Done,
            Err(_) => Ending::Fault(JobFault::Output),
        },
        UsageFault::Usage(text) => Ending::Usage(text),
        UsageFault::Memory => Ending::Memory,
    }
}

/// Prints the text of an ending. If memory for it is refused, prints that memory was. If `err` fails, only a beginning of either
/// is printed.
fn print_message<E: Sink>(alloc: Global, names: &[String], ending: &Ending, err: &mut E)
    requires { E.has_failed err.old ≡ false }
    ensures { IsTold names.now ending.now (E.written err.old) (E.written err.new) (E.has_failed err.new) }
{
    match ending.message(alloc, names) {
        Ok(text) => print_all(err, text.as_slice()),
        Err(_) => print_all(err, b"cbgrid: out of memory\n"),
    }
}

/// Prints a text, or if `err` fails a beginning of it.
fn print_all<E: Sink>(err: &mut E, text: &[u8])
    requires { E.has_failed err.old ≡ false }
    ensures { IsPrinted (E.written err.old) (E.written err.new) (E.has_failed err.new) text.now }
{
    let _ = put_all(err, text);
}

/// Prints the text of an ending for a job with these files, and returns the status, which is that of the ending whatever is
/// printed. If memory for the text is refused, prints that memory was. If `err` fails, only a beginning of either is printed.
pub fn finish<E: Sink>(alloc: Global, names: &[String], ending: &Ending, err: &mut E) -> Status
    requires { E.has_failed err.old ≡ false }
    ensures message { IsTold names.now ending.now (E.written err.old) (E.written err.new) (E.has_failed err.new) }
    ensures status { status_code result ≡ ending_status ending.now }
{
    print_message(alloc, names, ending, err);
    Status {
        code: ending.status(),
    }
}
