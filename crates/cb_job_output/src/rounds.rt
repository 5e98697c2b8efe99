//! Rounds: the next shares of a text, which are written on sheets by several threads.
ghost use Rattle.std.specs.Prelude.{◌≡◌, ℕ, ◌<◌, [], ◌++◌, List, length, get_or, true, false, IfOk, IfSome, All};
ghost use Rattle.cb_job_output.specs.Rounds.{joined, AreOf, AreAllOf};

use crate::stacks::Stack;
use cb_market_pages::{MOST_LINES, Share, TextPages};
use cb_semirings::Semiring;
use std::alloc::{AllocError, Global};
use std::marker::Model;

/// How many shares a round has for each thread.
const SHARES_EACH: usize = 4;

/// The fewest lines that a share has, unless a text has fewer: fewer aren't worth a thread.
pub(crate) const FEW: usize = 4_096;

/// The form of a round: how many threads write it, how many shares it has, and how many lines each has at most. 0 counts as 1.
#[derive(Clone, Copy, Drop)]
pub struct Form {
    pub threads: usize,
    pub shares: usize,
    pub lines: usize,
}

impl Form {
    /// The form for a matrix with this many entries and for this many threads: with fewer entries, fewer lines and threads.
    pub fn for_entries(entries: usize, threads: usize) -> Form {
        let most = threads.saturating_mul(SHARES_EACH).max(1);
        let lines = entries.div_ceil(most).clamp(FEW, MOST_LINES);
        let shares = entries.div_ceil(lines).clamp(1, most);
        Form {
            threads: threads.min(shares),
            shares,
            lines,
        }
    }

    /// Returns how many sheets each thread has: half as many again as its part of the shares, for threads that get on faster
    /// than others.
    fn sheets_each(self) -> usize {
        let threads = self.threads.max(1);
        self.shares
            .saturating_mul(3)
            .div_ceil(threads.saturating_mul(2))
    }
}

/// The next shares of a text, in order. In contracts it is their texts.
#[derive(Drop)]
pub(crate) struct Dealt<'a, S: Semiring> {
    shares: Vec<Share<'a, S>>,
    /// How many lines a share has at most.
    lines: usize,
}

impl<'a, S: Semiring> Model for Dealt<'a, S> {
    ghost use Rattle.std.specs.Prelude.{ℕ, ◌<◌, List, length, vec_capacity, All};

    ghost Value = { List (List ℕ) };

    ghost view = { λ d. d.shares.items };

    ghost invariant = { λ d. (0 < d.lines) × (0 < vec_capacity d.shares) × All (λ (share : List ℕ). 0 < length share) d.shares.items };
}

impl<'a, S: Semiring> Dealt<'a, S> {
    /// Makes room for the shares of a round of this form.
    pub(crate) fn new(alloc: Global, form: Form) -> Result<Dealt<'a, S>, AllocError>
        ensures { IfOk result (λ dealt. dealt ≡ []) }
    {
        Ok(Dealt {
            shares: Vec::with_capacity(alloc, form.shares.max(1))?,
            lines: form.lines.max(1),
        })
    }

    /// Replaces the shares by the next ones of a text, as many as there is room for. The cost is one step per segment.
    pub(crate) fn deal(&mut self, text: &mut TextPages<'a, S>)
        ensures text { text.old ≡ joined self.new ++ text.new }
        ensures none { joined self.new ≡ [] → text.old ≡ [] }
    {
        self.shares.clear();
        while self.shares.len() < self.shares.capacity() {
            let Some(share) = text.next_share(self.lines) else {
                return;
            };
            self.shares.push_reserved(share);
        }
    }

    /// Returns the shares.
    pub(crate) fn shares(&self) -> &[Share<'a, S>]
        ensures { result.now ≡ self.now }
    {
        &self.shares
    }

    /// Returns whether there is none.
    pub(crate) fn is_empty(&self) -> bool
        ensures none { result ≡ true → joined self.now ≡ [] }
        ensures some { result ≡ false → 0 < length (joined self.now) }
    {
        self.shares.is_empty()
    }
}

/// Shares, and the stacks on which they are written: that of the thread that writes to the sink, and those of the others.
#[derive(Drop)]
pub(crate) struct Round<'a, S: Semiring> {
    pub(crate) dealt: Dealt<'a, S>,
    pub(crate) own: Stack,
    pub(crate) others: Vec<Stack>,
}

impl<'a, S: Semiring> Round<'a, S> {
    /// Makes a round of this form, without shares.
    pub(crate) fn new(alloc: Global, form: Form) -> Result<Round<'a, S>, AllocError>
        ensures none { IfOk result (λ round. round.dealt ≡ []) }
        ensures blank { IfOk result (λ round. AreAllOf [] round.own round.others.items) }
    {
        let sheets = form.sheets_each();
        let dealt = Dealt::new(alloc, form)?;
        let own = Stack::new(alloc, sheets)?;
        let others = blank(alloc, form.threads.saturating_sub(1), sheets)?;
        Ok(Round { dealt, own, others })
    }

    /// Returns the sheet on which the share with a number is written, if it is on one.
    pub(crate) fn find(&self, number: usize) -> Option<&[u8]>
        requires { AreAllOf self.now.dealt self.now.own self.now.others.items }
        ensures { IfSome result (λ bytes. (d : List ℕ) → bytes.now ≡ get_or self.now.dealt number d) }
    {
        if let Some(bytes) = self.own.find(number) {
            return Some(bytes);
        }
        for n in 0..self.others.len() {
            if let Some(bytes) = self.others[n].find(number) {
                return Some(bytes);
            }
        }
        None
    }
}

/// Makes this many stacks with this many sheets each, of which none is written.
fn blank(alloc: Global, count: usize, sheets: usize) -> Result<Vec<Stack>, AllocError>
    ensures { IfOk result (λ stacks. All (AreOf []) stacks.items) }
{
    let mut stacks = Vec::with_capacity(alloc, count)?;
    for _ in 0..count {
        let stack = Stack::new(alloc, sheets)?;
        stacks.push_reserved(stack);
    }
    Ok(stacks)
}
