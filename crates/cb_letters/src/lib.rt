//! Letters and lanes: the vocabulary that every crate about messages shares.
//!
//! There is one lane from each rank to each other: a bounded queue of letters from a sender to an addressee, with room
//! for a [`Capacity`]. A letter carries a sheet, or the news that a sheet was lost, and a tag of its sender's choice.
//! Each lane numbers its letters from 0. Its last letter is its close mark, which takes a place and a number like any
//! letter, has tag 0, and ends the lane: nothing is posted after it.
//!
//! A post is refused, in this order, if the other rank is a stranger, if the lane is closed, if its numbers are spent,
//! and if it is full. A take returns the oldest letter; or the end of the lane, once the close mark is reached and ever
//! after; or that the lane is empty.
//!
//! `specs/` defines what a lane is and what its calls answer (`Lane`), what two ends that don't share a queue know of
//! their lane (`Posted`), why a post is refused (`Standing`), and which lists of posts and takes are legal (`Events`).
//! [`Ports`] are the ends of one rank's lanes, whatever they are made of.
#![tactic(auto)]

mod capacities;
mod lane_ends;

ghost use Rattle.std.specs.Prelude.{◌≡◌};
ghost use Rattle.cb_letters.specs.Letters.{is_close};

pub use capacities::Capacity;
pub use lane_ends::Ports;

/// What a letter is about, chosen by its sender. A close mark has tag 0.
#[derive(Clone, Copy, Debug, PartialEq, Eq, Drop)]
pub struct Tag(pub u32);

/// What a letter carries.
#[derive(Debug, PartialEq, Eq, Drop)]
pub enum Body<P> {
    /// What the sender sends.
    Sheet(P),
    /// Memory for the sheet was refused: the rank at which it was first lost.
    Lost(u16),
    /// The mark that ends the lane.
    Close,
}

/// A letter on the lane from one rank to another, with its number on that lane.
#[derive(Debug, PartialEq, Eq, Drop)]
pub struct Letter<P> {
    pub from: u16,
    pub to: u16,
    pub number: u64,
    pub tag: Tag,
    pub body: Body<P>,
}

/// The answer to a take.
#[derive(Debug, PartialEq, Eq, Drop)]
pub enum Taken<P> {
    /// The oldest letter of the lane, which isn't its close mark.
    Letter(Letter<P>),
    /// The close mark was taken, now or earlier.
    End,
    /// No letter is there, and the close mark wasn't taken.
    Empty,
    /// There is no such lane: the sender is the rank itself, or no rank.
    Stranger,
}

/// Why a post or a close was refused, in the order in which the reasons are checked.
#[derive(Clone, Copy, Debug, PartialEq, Eq, Drop)]
pub enum PostRefusal {
    /// There is no such lane: the other rank is the rank itself, or no rank.
    Stranger,
    /// The close mark was posted.
    Closed,
    /// All numbers of the lane have been used, up to 2^64-2.
    Spent,
    /// The lane has no free place.
    Full,
}

impl<P> Body<P> {
    /// Whether this is the mark that ends a lane.
    pub fn is_close(&self) -> bool
        ensures { result ≡ is_close self.now }
    {
        matches!(self, Body::Close)
    }
}
