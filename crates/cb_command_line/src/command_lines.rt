//! Where the words of a command line come from.
ghost use Rattle.std.specs.Prelude.{◌≢◌, String, ◌≡◌, ℕ, List, IfOk, map, string_bytes};
ghost use Rattle.std.specs.declared.io.ErrorKind.TheVariants as io_is;

use crate::conflicts::NOT_UTF8;
use crate::jobs::UsageFault;
use crate::words::usage;
use std::alloc::Global;
use std::rt::Env;
use std::{env, io};

/// A command line.
pub trait CommandLine {
    /// The line may be these words, the program's name first.
    ghost holds: { Self → List (List ℕ) → Type 0 };

    /// All words of the line, in order.
    fn words(&self, alloc: Global) -> Result<Vec<String>, UsageFault>
        ensures { IfOk result (λ words. holds self.now (map string_bytes words.items)) };
}

/// The command line of the system. Its contract promises nothing about the words.
#[derive(Drop)]
pub struct SystemLine<'a, H: Env + AllocGlobal> {
    line: &'a H,
}

impl<'a, H: Env + AllocGlobal> SystemLine<'a, H> {
    /// The command line that this handle reaches.
    pub fn new(line: &'a H) -> SystemLine<'a, H> {
        SystemLine { line }
    }
}

impl<H: Env + AllocGlobal> CommandLine for SystemLine<'_, H> {
    ghost holds = { λ _ _. Unit {0} };

    fn words(&self, alloc: Global) -> Result<Vec<String>, UsageFault> {
        match env::args(self.line) {
            Ok(words) => Ok(words.collect(alloc)?),
            Err(error) => Err(unread_words(alloc, error.kind())),
        }
    }
}

/// The fault of words that can't be taken from the system: memory was refused, or a word isn't valid UTF-8.
fn unread_words(alloc: Global, kind: io::ErrorKind) -> UsageFault
    ensures memory { kind ≡ io_is.OutOfMemory → result ≡ UsageFault.Memory }
    ensures help { (told : String Global) → result ≢ UsageFault.Help told }
{
    if kind == io::ErrorKind::OutOfMemory {
        return UsageFault::Memory;
    }
    usage(alloc, NOT_UTF8)
}
