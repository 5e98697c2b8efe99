//! A run of a program on the system.
use crate::endings::Status;
use crate::runs::{Program, run_on_line};
use cb_command_line::SystemLine;
use cb_job_ends::sinks::WriterSink;
use cb_job_files::files::FileSource;
use std::io;
use std::io::Write;
use std::rt::Env;
use std::thread::Threads;

/// Runs a program on the command line of the system and on the files of a source. The answer goes to standard output, the
/// text of a fault to `errors`.
pub fn run_on_system<
    P: Program<R>,
    R: Threads + Sync + Env + Print + AllocGlobal,
    F: FileSource<R>,
    W: Write + Drop,
>(rt: &R, files: &F, errors: W) -> Status {
    let mut out = WriterSink::new(io::writer(rt));
    let mut errors = WriterSink::new(errors);
    let line = SystemLine::new(rt);
    run_on_line::<P, R, _, F, _, _>(rt, rt.alloc(), &line, files, &mut out, &mut errors)
}
