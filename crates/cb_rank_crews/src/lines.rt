//! A line from one thread to another: a ring of one place, and a bell for who waits. What is known of an item that
//! comes is what its type says.
use cb_rings::{Bell, wait_at};
use rtrb::{Consumer, Producer, PushError, RingBuffer};
use std::alloc::{AllocError, Global};
use std::sync::Wait;

/// The end that sends.
pub(crate) struct Sender<X> {
    ring: Producer<X>,
    bell: Bell,
}

/// The end that receives.
pub(crate) struct Receiver<X> {
    ring: Consumer<X>,
    bell: Bell,
}

/// The two ends of a new line.
pub(crate) fn line<X: Drop>(alloc: Global) -> Result<(Sender<X>, Receiver<X>), AllocError> {
    let (producer, consumer) = RingBuffer::new(alloc, 1)?;
    let (bell, theirs) = Bell::pair(alloc)?;
    let sender = Sender {
        ring: producer,
        bell,
    };
    let receiver = Receiver {
        ring: consumer,
        bell: theirs,
    };
    Ok((sender, receiver))
}

impl<X: Drop> Sender<X> {
    /// Sends an item, or hands it back if the last one wasn't received yet.
    pub(crate) fn send(&mut self, item: X) -> Result<(), X> {
        match self.ring.push(item) {
            Ok(()) => {
                self.bell.ring();
                Ok(())
            }
            Err(PushError::Full(item)) => Err(item),
        }
    }
}

impl<X: Drop> Receiver<X> {
    /// Waits for an item. There is none if the sender is gone.
    pub(crate) fn receive<R: Wait>(&mut self, rt: &R) -> Option<X> {
        if !wait_at(rt, &mut self.ring, &self.bell) {
            return None;
        }
        Some(self.ring.pop_known())
    }
}

impl<X: Drop> Drop for Sender<X> {
    fn drop(self) {
        let Sender { ring, bell } = self;
        // First, so that who is woken finds it gone.
        drop(ring);
        bell.ring();
    }
}

impl<X: Drop> Drop for Receiver<X> {
    fn drop(self) {
        let Receiver { ring, bell } = self;
        drop(ring);
        drop(bell);
    }
}
