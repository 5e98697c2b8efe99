//! Reads a command line. `clap` checks its words: an unknown command or option, a missing file, a surplus one, a repeated
//! option and an unknown value are usage errors.
ghost use Rattle.std.specs.Prelude.{◌≢◌, String, ◌≡◌, ◌+◌, ◌<◌, IfOk, IfSome, length, map, string_bytes, vec_len};
ghost use Rattle.clap.specs.Words.{kind_of, subcommand_rows_of};
ghost use Rattle.cb_command_line.specs.Asked.{IsJobIn, IsJobOf};
ghost use Rattle.cb_command_line.specs.Jobs.{AsksForText, file_count_of};
ghost use Rattle.cb_command_line.specs.Lines.{IsAskedBy, IsReadAs, IsReading, joined_at};
ghost use Rattle.cb_command_line.specs.Options.{rows_in};

use crate::command_lines::CommandLine;
use crate::commands::program;
use crate::conflicts::conflict_in;
use crate::engine_words::{engine_of, side_of, threads_of};
use crate::file_words::{arguments, files_of};
use crate::jobs::{Job, UsageFault};
use crate::negative_words::{negative_place, push_words};
use crate::task_words::task_of;
use clap::ArgMatches;
use clap::error::ErrorKind;
use std::alloc::{AllocError, Global};
use std::convert::AsStr;
use std::thread;
use std::thread::Threads;

/// A usage error with a text.
pub fn usage(alloc: Global, text: &str) -> UsageFault
    ensures { (told : String Global) → result ≢ UsageFault.Help told }
{
    match String::from_str(alloc, text) {
        Ok(text) => UsageFault::Usage(text),
        Err(_) => UsageFault::Memory,
    }
}

/// The fault of an error of `clap`. Help and the version go to standard output, any other text to standard error.
fn fault_of(alloc: Global, error: &clap::Error) -> UsageFault
    ensures memory { kind_of error.now ≡ ErrorKind.OutOfMemory → result ≡ UsageFault.Memory }
    ensures help { ¬ AsksForText (kind_of error.now) → (text : String Global) → result ≢ UsageFault.Help text }
    ensures usage { AsksForText (kind_of error.now) → (text : String Global) → result ≢ UsageFault.Usage text }
{
    if error.kind() == ErrorKind::OutOfMemory {
        return UsageFault::Memory;
    }
    match error.to_string(alloc) {
        Err(_) => UsageFault::Memory,
        Ok(text) => {
            if error.use_stderr() {
                UsageFault::Usage(text)
            } else {
                UsageFault::Help(text)
            }
        }
    }
}

/// The job of a command and its options.
fn job_of(
    alloc: Global,
    command: &str,
    found: &ArgMatches<'_>,
    processors: usize,
) -> Result<Option<Job>, AllocError>
    ensures { IfOk result (λ job. IfSome job (IsJobOf processors command.now (rows_in found.now))) }
{
    let (Some(task), Some(side)) = (task_of(command, found), side_of(found, processors)) else {
        return Ok(None);
    };
    let Some(files) = files_of(alloc, found, arguments(task))? else {
        return Ok(None);
    };
    Ok(Some(Job {
        task,
        side,
        engine: engine_of(found),
        threads: threads_of(found, side, processors),
        files,
    }))
}

/// The number of available processors, or 4 if the system doesn't report it.
fn processors<R: Threads>(rt: &R) -> usize {
    match thread::available_parallelism(rt) {
        Ok(processors) => processors.get(),
        Err(_) => 4,
    }
}

/// What words that are no job of a known form get.
const UNREAD: &str = "error: the command line can't be read\n";

/// Reads what `clap` found in a command line.
fn job_in(alloc: Global, matches: &ArgMatches<'_>, processors: usize) -> Result<Job, UsageFault>
    ensures count { IfOk result (λ job. vec_len job.files ≡ file_count_of job.task) }
    ensures asked { IfOk result (IsJobIn processors (subcommand_rows_of matches.now)) }
{
    if let Some(conflict) = conflict_in(matches) {
        return Err(usage(alloc, conflict));
    }
    let Some((command, found)) = matches.subcommand() else {
        return Err(usage(alloc, UNREAD));
    };
    match job_of(alloc, command, found, processors)? {
        Some(job) => Ok(job),
        None => Err(usage(alloc, UNREAD)),
    }
}

/// Reads words that `clap` takes as they are.
fn read_words<S: AsStr>(alloc: Global, words: &[S], processors: usize) -> Result<Job, UsageFault>
    ensures count { IfOk result (λ job. vec_len job.files ≡ file_count_of job.task) }
    ensures asked { IfOk result (IsReadAs processors (map S.text words.now)) }
{
    let program = program(alloc)?;
    match program.try_get_matches_from(words) {
        Ok(matches) => job_in(alloc, &matches, processors),
        Err(error) => Err(fault_of(alloc, &error)),
    }
}

/// Reads words whose word at a place is `--diagonal` and whose next one is a negative number, both as one word.
fn read_joined(
    alloc: Global,
    words: &[String],
    place: usize,
    processors: usize,
) -> Result<Job, UsageFault>
    requires { place + 1 < length words.now }
    ensures count { IfOk result (λ job. vec_len job.files ≡ file_count_of job.task) }
    ensures asked { IfOk result (IsReadAs processors (joined_at (map string_bytes words.now) (Some place))) }
{
    let mut number = String::from_str(alloc, "--diagonal=")?;
    number.push_str(words[place + 1].as_str())?;
    let mut joined = Vec::with_capacity(alloc, words.len())?;
    push_words(&mut joined, &words[..place])?;
    joined.push(number.as_str())?;
    push_words(&mut joined, &words[place + 2..])?;
    read_words(alloc, joined.as_slice(), processors)
}

/// Reads the words of a command line. The first word is the program's name.
///
/// The job names as many files as its task reads. Defaults depend on the command and on the number of processors. If the
/// words aren't a job, the `UsageFault` holds the text to print.
#[tactic(auto, unfolding(crate::specs::Lines::joined))]
pub fn read_job(alloc: Global, words: &[String], processors: usize) -> Result<Job, UsageFault>
    ensures count { IfOk result (λ job. vec_len job.files ≡ file_count_of job.task) }
    ensures asked { IfOk result (IsAskedBy processors (map string_bytes words.now)) }
{
    match negative_place(words) {
        Some(place) => read_joined(alloc, words, place, processors),
        None => read_words(alloc, words, processors),
    }
}

/// Reads a command line, as [`read_job`] does.
pub fn asked<L: CommandLine, R: Threads>(rt: &R, alloc: Global, line: &L) -> Result<Job, UsageFault>
    ensures { IsReading (L.holds line.now) result }
{
    let words = line.words(alloc)?;
    read_job(alloc, words.as_slice(), processors(rt))
}
