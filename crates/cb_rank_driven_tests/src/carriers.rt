//! What carries letters between ranks: a list of messages, from which each rank takes those that are sent to it.
use cb_letters::Letter;
use cb_messages::{Message, letter_of};
use cb_plan::SharedBlock;
use cb_rank::Want;
use cb_rank_driven::DrivenRank;
use cb_semirings::PlusTimes;
use std::alloc::Global;

pub(crate) type Ranked = DrivenRank<PlusTimes>;

pub(crate) type Sent = Letter<SharedBlock<PlusTimes>>;

/// What a step did.
#[derive(Clone, Copy, PartialEq)]
pub(crate) enum Step {
    /// A half.
    Moved,
    /// Nothing: there is no room for its letter, or no letter has arrived.
    Waits,
    /// Nothing: every half is done.
    Done,
}

/// The messages that were posted and not taken, on all lanes, oldest first.
#[derive(Drop)]
pub(crate) struct Carrier {
    pub(crate) messages: Vec<Message<PlusTimes>>,
    /// How many messages of a lane there may be at once.
    pub(crate) room: usize,
    /// Whether the sheets of rank 0 arrive as lost there.
    pub(crate) loses: bool,
}

impl Carrier {
    /// A carrier without messages.
    pub(crate) fn new(alloc: Global, room: usize) -> Carrier {
        Carrier {
            messages: Vec::new(alloc),
            room,
            loses: false,
        }
    }

    /// How many messages of a lane there are.
    fn count(&self, from: u16, to: u16) -> usize {
        let mut count = 0usize;
        for message in &self.messages {
            let head = message.head();
            if head.from == u32::from(from) && head.to == u32::from(to) {
                count = count.saturating_add(1);
            }
        }
        count
    }

    /// The place of the oldest message of a lane.
    pub(crate) fn oldest(&self, from: u16, to: u16) -> Option<usize> {
        for n in 0..self.messages.len() {
            let head = self.messages[n].head();
            if head.from == u32::from(from) && head.to == u32::from(to) {
                return Some(n);
            }
        }
        None
    }

    /// Keeps a letter until it is taken.
    fn keep(&mut self, alloc: Global, letter: Sent) -> Option<()> {
        let message = Message::new(alloc, letter).ok()?;
        self.messages.push(message).ok()
    }

    /// Posts a letter of a rank, if there is room on its lane. None if it is refused.
    fn post(&mut self, alloc: Global, rank: &mut Ranked, me: u16, to: u16) -> Option<Step> {
        if self.count(me, to) >= self.room {
            return Some(Step::Waits);
        }
        let letter = rank.post().ok()?;
        self.keep(alloc, letter)?;
        Some(Step::Moved)
    }

    /// Hands a rank the oldest message of a lane, if there is one. None if it is refused.
    fn take(&mut self, alloc: Global, rank: &mut Ranked, me: u16, from: u16) -> Option<Step> {
        let Some(n) = self.oldest(from, me) else {
            return Some(Step::Waits);
        };
        let message = self.messages.get(n)?;
        let mut head = message.head();
        if self.loses && head.from == 0 && head.kind == 0 {
            head.kind = 1;
        }
        let letter = letter_of(alloc, &head, &message.lists()).ok()?;
        rank.take(letter).ok()?;
        drop_at(&mut self.messages, n);
        Some(Step::Moved)
    }

    /// Does the next half of rank `me`, if it can be done now. None if a call is refused.
    pub(crate) fn step(&mut self, alloc: Global, rank: &mut Ranked, me: u16) -> Option<Step> {
        match rank.want() {
            Want::Post(to) => self.post(alloc, rank, me, to),
            Want::Shut(to) => self.post(alloc, rank, me, to),
            Want::Take(from) => self.take(alloc, rank, me, from),
            Want::End(from) => self.take(alloc, rank, me, from),
            Want::Work => {
                rank.work().ok()?;
                Some(Step::Moved)
            }
            Want::Done => Some(Step::Done),
        }
    }
}

/// Drops the message at a place, if there is one.
fn drop_at(messages: &mut Vec<Message<PlusTimes>>, n: usize) {
    if n < messages.len() {
        messages.remove(n);
    }
}
