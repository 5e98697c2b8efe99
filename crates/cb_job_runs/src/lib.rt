//! Runs of programs that answer jobs.
//!
//! [`run`](runs::run) does everything but read the command line, for any [`Program`](runs::Program). Its contract says what
//! goes to each stream, and the exit status. A whole run takes four steps, each a call of its own:
//! 1. `read_job` of `cb_command_line` reads the words of a command line: into a `Job`, a help text or a usage text.
//! 2. `texts_of` of `cb_job_files` loads the files that the job names, in the job's order, from a `FileSource`.
//! 3. The program's `answer` reads the texts into blocks, dropping each once it is read, computes the answer and writes its
//!    text to a `Sink`. All memory is taken before the first byte is written, so every fault but a failed write leaves the
//!    sink as it was. After a failed write a beginning of the text has been written.
//! 4. An `Ending` gives the exit status and the text for standard error.
#![tactic(auto)]

pub mod endings;
pub mod fault_lines;
pub mod runs;
pub mod statuses;
pub mod system_runs;
