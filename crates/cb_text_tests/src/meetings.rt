//! Gates at which threads wait a while for one another.
use cb_job_threads::gates::Gate;
use std::sync::atomic::{AtomicBool, AtomicUsize, Ordering};

/// How often a thread checks for another one at the gate.
const LOOKS: usize = 20_000_000;

/// A gate at which each thread waits a while for another.
#[derive(Drop)]
pub struct Meeting {
    here: AtomicUsize,
    have_met: AtomicBool,
}

impl Meeting {
    pub fn new() -> Meeting {
        Meeting {
            here: AtomicUsize::new(0),
            have_met: AtomicBool::new(false),
        }
    }

    /// Whether two threads were at the gate at the same time.
    pub fn have_met(&self) -> bool {
        self.have_met.load(Ordering::SeqCst)
    }
}

impl Gate for Meeting {
    fn pass(&self, _number: usize) {
        self.here.fetch_add(1, Ordering::SeqCst);
        for _ in 0..LOOKS {
            if self.have_met.load(Ordering::SeqCst) {
                break;
            }
            if self.here.load(Ordering::SeqCst) > 1 {
                self.have_met.store(true, Ordering::SeqCst);
            }
        }
        self.here.fetch_sub(1, Ordering::SeqCst);
    }
}

/// A gate at which whoever takes the first number waits a while until all others are taken.
#[derive(Drop)]
pub struct Delay {
    /// How many numbers there are besides the first.
    all: usize,
    others: AtomicUsize,
    were_taken: AtomicBool,
}

impl Delay {
    pub fn new(all: usize) -> Delay {
        Delay {
            all,
            others: AtomicUsize::new(0),
            were_taken: AtomicBool::new(false),
        }
    }

    /// Whether all others were taken meanwhile.
    pub fn were_taken(&self) -> bool {
        self.were_taken.load(Ordering::SeqCst)
    }
}

impl Gate for Delay {
    fn pass(&self, number: usize) {
        if number > 0 {
            self.others.fetch_add(1, Ordering::SeqCst);
            return;
        }
        for _ in 0..LOOKS {
            if self.others.load(Ordering::SeqCst) == self.all {
                self.were_taken.store(true, Ordering::SeqCst);
                break;
            }
        }
    }
}
