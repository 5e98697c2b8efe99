//! Numbers that threads take one by one.
ghost use Rattle.std.specs.Prelude.{◌<◌, IfSome};

use crate::gates::Gate;
use std::sync::atomic::{AtomicUsize, Ordering};

/// Numbers from 0 on, each taken at most once. Threads that take the next number when they have time for it share work as it
/// comes, and none waits long for another.
#[derive(Drop)]
pub struct Turns<'g, G: Gate> {
    next: AtomicUsize,
    gate: &'g G,
}

impl<'g, G: Gate> Turns<'g, G> {
    /// Starts from 0. Whoever takes a number passes the gate.
    pub fn new(gate: &'g G) -> Turns<'g, G> {
        Turns {
            next: AtomicUsize::new(0),
            gate,
        }
    }

    /// Takes the next number. None if it isn't below this one.
    pub fn take(&self, end: usize) -> Option<usize>
        ensures { IfSome result (λ number. number < end) }
    {
        let number = self.next.fetch_add(1, Ordering::Relaxed);
        if number >= end {
            return None;
        }
        self.gate.pass(number);
        Some(number)
    }

    /// Passes over all numbers that are left.
    pub fn stop(&self) {
        self.next.store(usize::MAX / 2, Ordering::Relaxed);
    }
}
