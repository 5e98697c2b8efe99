//! The lines that report faults.
ghost use Rattle.std.specs.Prelude.{◌≡◌, ◌++◌, IfOk, codes, string_bytes};
ghost use Rattle.cb_rank_faults.specs.RanksFaults.{ranks_fault_text};
ghost use Rattle.cb_job_runs.specs.FaultLines.{line_and_text, line_of, plain_line_of, read_line_of, shown, shown_byte, unreadable_line_of};

use cb_job_ends::faults::JobFault;
use cb_job_files::files::name_at;
use cb_rank_faults::RanksFault;
use std::alloc::{AllocError, Global};

/// The line of a text.
fn line(alloc: Global, text: &str) -> Result<Vec<u8>, AllocError>
    ensures { IfOk result (λ v. v.items ≡ plain_line_of text.now) }
{
    let text = format!(in alloc; "cbgrid: {text}\n")?;
    Ok(text.into_bytes())
}

/// A byte of a name as it is shown: `?` in place of a control character.
fn shown_byte(byte: u8) -> u8
    ensures { result ≡ shown_byte byte }
{
    if byte < 32 || byte == 127 { b'?' } else { byte }
}

/// A name as it is shown.
fn shown(alloc: Global, name: &str) -> Result<Vec<u8>, AllocError>
    ensures { IfOk result (λ v. v.items ≡ shown name.now) }
{
    let bytes = name.as_bytes();
    bytes.iter().map(|byte| shown_byte(*byte)).collect(alloc)
}

/// The line of a file with this name, with this text after the name.
fn named_line(alloc: Global, name: &str, text: &str) -> Result<Vec<u8>, AllocError>
    ensures { IfOk result (λ v. v.items ≡ codes "cbgrid: " ++ shown name.now ++ text.now) }
{
    let shown = shown(alloc, name)?;
    let mut line = Vec::from_slice(alloc, b"cbgrid: ")?;
    line.extend_from_slice(&shown)?;
    line.extend_from_slice(text.as_bytes())?;
    Ok(line)
}

/// What follows a file's name: the number of a line, and what is wrong there.
fn line_and_text(alloc: Global, line: u64, text: &str) -> Result<String, AllocError>
    ensures { IfOk result (λ t. string_bytes t ≡ line_and_text line text.now) }
{
    format!(in alloc; ":{line}: {text}\n")
}

/// The line for a fault in a file.
fn read_line(alloc: Global, name: &str, line: u64, text: &str) -> Result<Vec<u8>, AllocError>
    ensures { IfOk result (λ v. v.items ≡ read_line_of name.now line text.now) }
{
    let rest = line_and_text(alloc, line, text)?;
    named_line(alloc, name, rest.as_str())
}

/// The line for a file that can't be opened or can't be read to its end.
pub fn unreadable_line(alloc: Global, name: &str) -> Result<Vec<u8>, AllocError>
    ensures { IfOk result (λ v. v.items ≡ unreadable_line_of name.now) }
{
    named_line(alloc, name, ": can't be read\n")
}

/// The line for ranks that failed.
fn ranks_line(alloc: Global, fault: RanksFault) -> Result<Vec<u8>, AllocError>
    ensures { IfOk result (λ v. v.items ≡ plain_line_of (ranks_fault_text fault)) }
{
    let text = format!(in alloc; "cbgrid: {fault}\n")?;
    Ok(text.into_bytes())
}

/// The line that reports a fault of a job with these files, with its line feed. For a text that isn't a matrix it names
/// the file and the line.
pub fn fault_line(alloc: Global, names: &[String], fault: &JobFault) -> Result<Vec<u8>, AllocError>
    ensures { IfOk result (λ v. v.items ≡ line_of names.now fault.now) }
{
    match *fault {
        JobFault::Absent => line(alloc, "not in this program"),
        JobFault::Read { which, fault } => {
            read_line(alloc, name_at(names, which), fault.line, fault.kind.text())
        }
        JobFault::Refused(refusal) => line(alloc, refusal.text()),
        JobFault::Ranks(fault) => ranks_line(alloc, fault),
        JobFault::Memory => line(alloc, "out of memory"),
        JobFault::Output => line(alloc, "can't write"),
    }
}
