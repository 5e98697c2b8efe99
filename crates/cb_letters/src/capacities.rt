//! The capacity of a lane.
ghost use Rattle.std.specs.Prelude.{◌≡◌, ◌≤◌, ◌<◌, ◌↔◌, IsSome, IfSome};

use std::marker::Model;

/// How many letters a lane may hold: at least 1.
///
/// A lane without room would block its sender forever. Room for all letters of all lanes is allocated when they are made.
#[derive(Clone, Copy, Debug, PartialEq, Eq)]
pub struct Capacity {
    letters: usize,
}

impl Model for Capacity {
    ghost use Rattle.std.specs.Prelude.{ℕ, ◌≤◌};

    ghost Value = { ℕ };

    ghost view = { λ c. c.letters };

    ghost invariant = { λ c. 1 ≤ c.letters };

    ghost inverse = { λ n. record { letters = n } };
}

impl Capacity {
    /// Room for this many letters, or None for 0.
    pub fn new(letters: usize) -> Option<Capacity>
        ensures some { IsSome result ↔ (1 ≤ letters) }
        ensures value { IfSome result (λ capacity. capacity ≡ letters) }
    {
        if letters == 0 {
            return None;
        }
        Some(Capacity { letters })
    }

    /// Room for this many letters, brought into the range from 1 to 64.
    pub fn nearest(letters: usize) -> Capacity
        ensures none { letters ≡ 0 → result ≡ 1 }
        ensures within { 1 ≤ letters → letters ≤ 64 → result ≡ letters }
        ensures many { 64 < letters → result ≡ 64 }
    {
        Capacity {
            letters: letters.clamp(1, 64),
        }
    }

    /// The number of letters that there is room for.
    pub fn get(self) -> usize
        ensures value { result ≡ self }
        ensures some { 1 ≤ result }
    {
        self.letters
    }
}
