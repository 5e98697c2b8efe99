//! Gates: hooks that a thread passes when it takes a number.

/// A hook that runs when a thread takes a number, on that thread, before it does the work with this number. It can observe,
/// count or wait.
pub trait Gate: Sync {
    /// Runs before the work with this number. Numbers count from 0.
    fn pass(&self, number: usize);
}

/// A gate that does nothing.
#[derive(Clone, Copy, Drop)]
pub struct OpenGate;

impl Gate for OpenGate {
    fn pass(&self, number: usize) {
        let _ = number;
    }
}
