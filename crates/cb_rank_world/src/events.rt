//! The events of a world.

/// A step of one rank: it does its next half, if it can.
#[derive(Clone, Copy, Debug, PartialEq, Eq, Drop)]
pub enum Event {
    /// This rank steps.
    Step(u16),
    /// This rank steps, and is refused the memory that it asks for.
    Starve(u16),
}
