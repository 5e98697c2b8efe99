//! Work on the items of a list, each in a thread of its own.
ghost use Rattle.std.specs.Prelude.{◌≡◌, length};
ghost use Rattle.std.specs.Fork.{ChangesAt};
ghost use Rattle.std.specs.Thread.{IsSync};
ghost use denote.Param.Send.{IsSend};
ghost use Rattle.cb_job_threads.specs.ItemCalls.{AcceptsAll, ChangesItems, ChangesFirst};

use std::thread::{Threads, join_mut};

/// Calls a function with each item and its number, from 0, each in a thread of its own. All threads are started by the
/// caller's, which then waits for them.
///
/// The kit's calls halve a list, so that threads start others. A system may keep a thread on the processor of the one that
/// started it for as long as a share takes.
#[cycle(apart)]
pub fn each_apart<R: Threads + Sync, T: Send, F: Fn(usize, &mut T) + Sync>(
    rt: &R,
    f: &F,
    items: &mut [T],
)
    requires { AcceptsAll F.Fn f.now }
    ensures { ChangesItems F.Fn f.now items.old items.new }
{
    let Some(last) = items.len().checked_sub(1) else {
        return;
    };
    let (front, back) = items.split_at_mut(last);
    both_apart(rt, f, front, last, back);
}

/// The same for some items and for the only one after them, which has this number.
#[cycle(apart)]
fn both_apart<R: Threads + Sync, T: Send, F: Fn(usize, &mut T) + Sync>(
    rt: &R,
    f: &F,
    front: &mut [T],
    number: usize,
    back: &mut [T],
)
    requires accepts { AcceptsAll F.Fn f.now }
    requires one { length back.old ≡ 1 }
    ensures front { ChangesItems F.Fn f.now front.old front.new }
    ensures back { ChangesFirst F.Fn f.now number back.old back.new }
{
    let mut there = ||
        requires { IsSync F.row × IsSend T.row × AcceptsAll F.Fn f.now × (length back.now ≡ 1) }
        ensures { ChangesFirst F.Fn f.entry.now number back.entry.now back.exit.now }
    { only(f, number, back) };
    let mut here = ||
        requires { IsSync R.row × IsSync F.row × IsSend T.row × AcceptsAll F.Fn f.now }
        ensures { ChangesItems F.Fn f.entry.now front.entry.now front.exit.now }
    { each_apart(rt, f, front) };
    join_mut(rt, &mut there, &mut here);
}

/// Calls a function with the only item and its number.
fn only<T, F: Fn(usize, &mut T)>(f: &F, number: usize, items: &mut [T])
    requires accepts { AcceptsAll F.Fn f.now }
    requires one { length items.old ≡ 1 }
    ensures { ChangesFirst F.Fn f.now number items.old items.new }
{
    call(f, number, &mut items[0]);
}

/// Calls a function with an item and its number.
fn call<T, F: Fn(usize, &mut T)>(f: &F, number: usize, item: &mut T)
    requires { AcceptsAll F.Fn f.now }
    ensures { ChangesAt F.Fn f.now number item.old item.new }
{
    f(number, item);
}
