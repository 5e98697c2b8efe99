//! The lines of a trace.
ghost use Rattle.std.specs.Prelude.{◌≡◌, ◌++◌, OnOk, IfOk, string_bytes};
ghost use Rattle.cb_jobs.specs.TraceTexts.{event_words, letter_line, line_of_event, mark_line, trace_lines, trace_text};

use cb_trace::{Envelope, Trace, TraceEvent};
use std::alloc::{AllocError, Global};

/// Appends the word of an event, the ranks that the letter goes from and to, and its number.
fn put_words(text: &mut String, word: &str, envelope: Envelope) -> Result<(), AllocError>
    ensures { OnOk result (string_bytes text.new ≡ string_bytes text.old ++ event_words word.now envelope) }
{
    let Envelope {
        from,
        to,
        number,
        ..
    } = envelope;
    write!(text, "% {word} {from} {to} {number}")
}

/// Appends the line of a letter, with its tag.
fn put_letter(text: &mut String, word: &str, envelope: Envelope) -> Result<(), AllocError>
    ensures { OnOk result (string_bytes text.new ≡ string_bytes text.old ++ letter_line word.now envelope) }
{
    put_words(text, word, envelope)?;
    write!(text, " {}\n", envelope.tag.0)
}

/// Appends the line of a close mark.
fn put_mark(text: &mut String, word: &str, envelope: Envelope) -> Result<(), AllocError>
    ensures { OnOk result (string_bytes text.new ≡ string_bytes text.old ++ mark_line word.now envelope) }
{
    put_words(text, word, envelope)?;
    write!(text, "\n")
}

/// Appends the line of an event.
fn put_event(text: &mut String, event: &TraceEvent) -> Result<(), AllocError>
    ensures { OnOk result (string_bytes text.new ≡ string_bytes text.old ++ line_of_event event.now) }
{
    match event {
        TraceEvent::Posted(envelope) => put_letter(text, "posted", *envelope),
        TraceEvent::Took(envelope) => put_letter(text, "took", *envelope),
        TraceEvent::Closed(envelope) => put_mark(text, "closed", *envelope),
        TraceEvent::Ended(envelope) => put_mark(text, "ended", *envelope),
    }
}

/// The lines of these events in their order, each with its line feed.
fn trace_text(alloc: Global, events: &[TraceEvent]) -> Result<String, AllocError>
    ensures { IfOk result (λ t. string_bytes t ≡ trace_text events.now) }
{
    let mut text = String::new(alloc);
    for event in events {
        put_event(&mut text, event)?;
    }
    Ok(text)
}

/// The lines of a trace, or an empty text if there is none.
pub fn lines_of(alloc: Global, trace: &Option<Trace>) -> Result<String, AllocError>
    ensures { IfOk result (λ t. string_bytes t ≡ trace_lines trace.now) }
{
    match trace {
        Some(trace) => trace_text(alloc, trace.events()),
        None => Ok(String::new(alloc)),
    }
}
