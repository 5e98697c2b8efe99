//! Writes the text of a matrix or a column. One thread writes it page by page. Several write it in rounds: while one round is written to
//! the sink, the next is made. The thread that writes to the sink then makes shares too, as many as are left for it.
ghost use Rattle.std.specs.Prelude.{◌≡◌, ℕ, ◌+◌, ◌<◌, ◌++◌, [], List, length, true, false, All, IfOk, IfSome, OnOk};
ghost use Rattle.cb_market_pages.specs.Text.{lines_in, text_of};
ghost use Rattle.cb_job_output.specs.Rounds.{joined, AreOf, AreAllOf};
ghost use Rattle.cb_job_ends.specs.Sinks.{IsPut};
ghost use Rattle.cb_job_ends.specs.WriteEnds.{IsTextEnd, end_of_put};

use crate::rounds::{Dealt, FEW, Form, Round};
use crate::stacks::Stack;
use cb_dcsc::Block;
use cb_job_ends::faults::JobFault;
use cb_job_ends::sinks::{PutFault, Sink, put_all};
use cb_job_threads::apart::each_apart;
use cb_job_threads::gates::{Gate, OpenGate};
use cb_job_threads::turns::Turns;
use cb_layout::{DistributedMatrix, PanelledMatrix};
use cb_market_pages::{LineForm, Page, Share, Sheet, TextPages};
use cb_semirings::Semiring;
use std::alloc::{AllocError, Global};
use std::thread::Threads;
use std::{mem, thread};

/// Writes a share, from the sheet that it is on or else by this thread. At `PutFault` a beginning of it has been written.
fn put_share<S: Semiring, K: Sink>(
    share: &Share<'_, S>,
    written: Option<&[u8]>,
    spare: &mut Sheet,
    out: &mut K,
) -> Result<(), PutFault>
    requires works { K.has_failed out.old ≡ false }
    requires same { IfSome written (λ bytes. bytes.now ≡ share.now) }
    ensures { IsPut share.now (K.written out.old) (K.written out.new) (K.has_failed out.new) result }
{
    if let Some(bytes) = written {
        return put_all(out, bytes);
    }
    spare.write(share);
    put_all(out, spare.written())
}

/// Writes the shares of a round. At `PutFault` a beginning of them has been written.
fn put_round<S: Semiring, K: Sink>(
    round: &Round<'_, S>,
    spare: &mut Sheet,
    out: &mut K,
) -> Result<(), PutFault>
    requires works { K.has_failed out.old ≡ false }
    requires made { AreAllOf round.now.dealt round.now.own round.now.others.items }
    ensures { IsPut (joined round.now.dealt) (K.written out.old) (K.written out.new) (K.has_failed out.new) result }
{
    let shares = round.dealt.shares();
    for n in 0..shares.len() {
        put_share(&shares[n], round.find(n), spare, out)?;
    }
    Ok(())
}

/// What of a text isn't in a round yet, and what only the thread that writes to the sink uses.
#[derive(Drop)]
struct Rest<'a, S: Semiring> {
    text: TextPages<'a, S>,
    /// The shares of the round after the one that is made.
    coming: Dealt<'a, S>,
    spare: Sheet,
}

/// Writes a round to the sink, deals the shares of a later one, and then makes some of this one. At `PutFault` a beginning of
/// the round has been written.
///
/// It yields first, so that a thread that was just started for the others can start them and then wait: a system may keep it on
/// this processor until this thread yields.
fn put_and_make<'a, S: Semiring, G: Gate, K: Sink>(
    earlier: &Round<'a, S>,
    shares: &[Share<'a, S>],
    turns: &Turns<'_, G>,
    own: &mut Stack,
    rest: &mut Rest<'a, S>,
    out: &mut K,
) -> Result<(), PutFault>
    requires works { K.has_failed out.old ≡ false }
    requires made { AreAllOf earlier.now.dealt earlier.now.own earlier.now.others.items }
    ensures made { OnOk result (AreOf shares.now own.new) }
    ensures text { OnOk result (rest.old.text ≡ joined rest.new.coming ++ rest.new.text) }
    ensures none { OnOk result (joined rest.new.coming ≡ [] → rest.old.text ≡ []) }
    ensures put { IsPut (joined earlier.now.dealt) (K.written out.old) (K.written out.new) (K.has_failed out.new) result }
{
    thread::yield_now();
    put_round(earlier, &mut rest.spare, out)?;
    rest.coming.deal(&mut rest.text);
    own.make(shares, turns);
    Ok(())
}

/// Makes shares, each stack in a thread of its own, which this one starts and then waits for.
fn make_each<'a, S: Semiring + Send + Sync, R: Threads + Sync, G: Gate>(
    rt: &R,
    shares: &[Share<'a, S>],
    turns: &Turns<'_, G>,
    stacks: &mut [Stack],
)
    ensures { All (AreOf shares.now) stacks.new }
{
    each_apart(
        rt,
        &|_, stack: &mut Stack| stack.make(shares, turns),
        stacks,
    );
}

/// The same, while other threads make shares. One more thread starts them and waits: a system may put the first thread that
/// one starts on its own processor, where this one writes.
fn put_beside<'a, S: Semiring + Send + Sync, R: Threads + Sync, G: Gate, K: Sink>(
    rt: &R,
    earlier: &Round<'a, S>,
    shares: &[Share<'a, S>],
    turns: &Turns<'_, G>,
    own: &mut Stack,
    others: &mut [Stack],
    rest: &mut Rest<'a, S>,
    out: &mut K,
) -> Result<(), PutFault>
    requires works { K.has_failed out.old ≡ false }
    requires made { AreAllOf earlier.now.dealt earlier.now.own earlier.now.others.items }
    ensures made { OnOk result (AreAllOf shares.now own.new others.new) }
    ensures text { OnOk result (rest.old.text ≡ joined rest.new.coming ++ rest.new.text) }
    ensures none { OnOk result (joined rest.new.coming ≡ [] → rest.old.text ≡ []) }
    ensures put { IsPut (joined earlier.now.dealt) (K.written out.old) (K.written out.new) (K.has_failed out.new) result }
{
    let (_, put) = thread::join_mut(
        rt,
        &mut || make_each(rt, shares, turns, others),
        &mut ||
            requires { (K.has_failed out.now ≡ false) × AreAllOf earlier.now.dealt earlier.now.own earlier.now.others.items }
        { put_and_make(earlier, shares, turns, own, rest, out) },
    );
    put
}

/// The same, but this thread makes all shares if there is only one.
fn put_while_made<'a, S: Semiring + Send + Sync, R: Threads + Sync, G: Gate, K: Sink>(
    rt: &R,
    earlier: &Round<'a, S>,
    gate: &G,
    round: &mut Round<'a, S>,
    rest: &mut Rest<'a, S>,
    out: &mut K,
) -> Result<(), PutFault>
    requires works { K.has_failed out.old ≡ false }
    requires made { AreAllOf earlier.now.dealt earlier.now.own earlier.now.others.items }
    ensures same { OnOk result (round.new.dealt ≡ round.old.dealt) }
    ensures made { OnOk result (AreAllOf round.new.dealt round.new.own round.new.others.items) }
    ensures text { OnOk result (rest.old.text ≡ joined rest.new.coming ++ rest.new.text) }
    ensures none { OnOk result (joined rest.new.coming ≡ [] → rest.old.text ≡ []) }
    ensures put { IsPut (joined earlier.now.dealt) (K.written out.old) (K.written out.new) (K.has_failed out.new) result }
{
    let turns = Turns::new(gate);
    let shares = round.dealt.shares();
    let (own, others) = (&mut round.own, &mut round.others);
    if shares.len() > 1 {
        return put_beside(rt, earlier, shares, &turns, own, others, rest, out);
    }
    put_and_make(earlier, shares, &turns, own, rest, out)?;
    clear_all(others);
    Ok(())
}

/// Discards what is written on some stacks.
fn clear_all(stacks: &mut [Stack])
    ensures { (shares : List (List ℕ)) → All (AreOf shares) stacks.new }
{
    for n in 0..stacks.len() {
        stacks[n].clear();
    }
}

/// Returns whether there is a share among these.
fn are_left<S: Semiring>(made: &Dealt<'_, S>, coming: &Dealt<'_, S>) -> bool
    ensures none { result ≡ false → (joined made.now ≡ []) × (joined coming.now ≡ []) }
    ensures some { result ≡ true → 0 < length (joined made.now) + length (joined coming.now) }
{
    !made.is_empty() || !coming.is_empty()
}

/// Writes a text in rounds, each on the sheets that the one before isn't on. At `PutFault` a beginning of it has been
/// written.
fn put_rounds<'a, S: Semiring + Send + Sync, R: Threads + Sync, G: Gate, K: Sink>(
    rt: &R,
    gate: &G,
    round: &mut Round<'a, S>,
    next: &mut Round<'a, S>,
    rest: &mut Rest<'a, S>,
    out: &mut K,
) -> Result<(), PutFault>
    requires works { K.has_failed out.old ≡ false }
    requires blank { (round.old.dealt ≡ []) × AreAllOf [] round.old.own round.old.others.items }
    ensures { IsPut rest.old.text (K.written out.old) (K.written out.new) (K.has_failed out.new) result }
{
    next.dealt.deal(&mut rest.text);
    let mut is_left = true;
    while is_left {
        put_while_made(rt, round, gate, next, rest, out)?;
        mem::swap(round, next);
        mem::swap(&mut next.dealt, &mut rest.coming);
        is_left = are_left(&round.dealt, &next.dealt);
    }
    Ok(())
}

/// Writes a text page by page. At `PutFault` a beginning of it has been written.
fn put_pages<S: Semiring, K: Sink>(
    text: &mut TextPages<'_, S>,
    page: &mut Page,
    out: &mut K,
) -> Result<(), PutFault>
    requires { K.has_failed out.old ≡ false }
    ensures { IsPut text.old (K.written out.old) (K.written out.new) (K.has_failed out.new) result }
{
    while text.next_page(page) {
        put_all(out, page.written())?;
    }
    Ok(())
}

/// The fault of a job for a put that failed.
fn put_end(put: Result<(), PutFault>) -> Result<(), JobFault>
    ensures { result ≡ end_of_put put }
{
    match put {
        Ok(()) => Ok(()),
        Err(_) => Err(JobFault::Output),
    }
}

/// Writes a text that is made already. At `Output` a beginning of it has been written.
pub(crate) fn put_bytes<K: Sink>(text: &[u8], out: &mut K) -> Result<(), JobFault>
    requires { K.has_failed out.old ≡ false }
    ensures { IsTextEnd text.now (K.written out.old) (K.written out.new) (K.has_failed out.new) result }
{
    put_end(put_all(out, text))
}

/// Takes the memory to write a text in rounds of this form.
fn begin_rounds<'a, S: Semiring>(
    alloc: Global,
    form: Form,
    text: TextPages<'a, S>,
) -> Result<(Round<'a, S>, Round<'a, S>, Rest<'a, S>), AllocError>
    ensures none { IfOk result (λ begun. begun.0.dealt ≡ []) }
    ensures blank { IfOk result (λ begun. AreAllOf [] begun.0.own begun.0.others.items) }
    ensures text { IfOk result (λ begun. begun.2.text ≡ text.entry) }
{
    let first = Round::new(alloc, form)?;
    let second = Round::new(alloc, form)?;
    let rest = Rest {
        text,
        coming: Dealt::new(alloc, form)?,
        spare: Sheet::new(alloc)?,
    };
    Ok((first, second, rest))
}

/// Writes a text on this thread, page by page.
fn put_by_pages<S: Semiring, K: Sink>(
    alloc: Global,
    mut text: TextPages<'_, S>,
    out: &mut K,
) -> Result<(), JobFault>
    requires { K.has_failed out.old ≡ false }
    ensures { IsTextEnd text.entry (K.written out.old) (K.written out.new) (K.has_failed out.new) result }
{
    let mut page = Page::new(alloc)?;
    put_end(put_pages(&mut text, &mut page, out))
}

/// Writes a text in rounds of this form. Who takes a share to write it passes the gate. All memory is taken first: at `Memory`
/// nothing has been written, and at `Output` a beginning of the text.
pub fn put_in_rounds<S: Semiring + Send + Sync, R: Threads + Sync, G: Gate, K: Sink>(
    rt: &R,
    alloc: Global,
    form: Form,
    text: TextPages<'_, S>,
    gate: &G,
    out: &mut K,
) -> Result<(), JobFault>
    requires { K.has_failed out.old ≡ false }
    ensures { IsTextEnd text.entry (K.written out.old) (K.written out.new) (K.has_failed out.new) result }
{
    let (mut round, mut next, mut rest) = begin_rounds(alloc, form, text)?;
    put_end(put_rounds(rt, gate, &mut round, &mut next, &mut rest, out))
}

/// Writes a text. This many threads make the lines, of which the caller's writes them; or the caller's does both, if it is
/// alone or the entries are few.
fn put_text<S: Semiring + Send + Sync, R: Threads + Sync, K: Sink>(
    rt: &R,
    alloc: Global,
    threads: u32,
    text: TextPages<'_, S>,
    out: &mut K,
) -> Result<(), JobFault>
    requires { K.has_failed out.old ≡ false }
    ensures { IsTextEnd text.entry (K.written out.old) (K.written out.new) (K.has_failed out.new) result }
{
    let entries = text.entry_count();
    if threads < 2 || entries <= FEW {
        return put_by_pages(alloc, text, out);
    }
    let form = Form::for_entries(entries, threads as usize);
    put_in_rounds(rt, alloc, form, text, &OpenGate, out)
}

/// Writes the text of a matrix and some lines after it. This many threads make the lines, and the caller's writes them; or it
/// does both, if it is alone or the entries are few. All memory is taken first: at `Memory` nothing has been written, and at
/// `Output` a beginning of the whole.
pub fn put_text_and_lines<S: Semiring + Send + Sync, R: Threads + Sync, K: Sink>(
    rt: &R,
    alloc: Global,
    threads: u32,
    text: TextPages<'_, S>,
    lines: &[u8],
    out: &mut K,
) -> Result<(), JobFault>
    requires { K.has_failed out.old ≡ false }
    ensures { IsTextEnd (text.entry ++ lines.now) (K.written out.old) (K.written out.new) (K.has_failed out.new) result }
{
    match put_text(rt, alloc, threads, text, out) {
        Ok(()) => put_end(put_all(out, lines)),
        Err(fault) => Err(fault),
    }
}

/// Writes the text of a matrix, with the same faults, and then frees the matrix.
pub(crate) fn put_matrix<S: Semiring + Send + Sync, R: Threads + Sync, K: Sink>(
    rt: &R,
    alloc: Global,
    threads: u32,
    matrix: PanelledMatrix<S>,
    out: &mut K,
) -> Result<(), JobFault>
    requires { K.has_failed out.old ≡ false }
    ensures { IsTextEnd (text_of S.arithmetic matrix) (K.written out.old) (K.written out.new) (K.has_failed out.new) result }
{
    let put = put_text(rt, alloc, threads, TextPages::of_panels(&matrix), out);
    matrix.free(rt, alloc);
    put
}

/// Writes the lines of a column in a form, with the same faults, and then frees the column.
pub(crate) fn put_column<S: Semiring + Send + Sync, R: Threads + Sync, K: Sink>(
    rt: &R,
    alloc: Global,
    threads: u32,
    column: Block<S>,
    form: LineForm,
    out: &mut K,
) -> Result<(), JobFault>
    requires { K.has_failed out.old ≡ false }
    ensures { IsTextEnd (lines_in form column.entries) (K.written out.old) (K.written out.new) (K.has_failed out.new) result }
{
    put_text(rt, alloc, threads, TextPages::lines_in(&column, form), out)
}

/// Writes the text of a matrix over a grid and some lines after it, with the same faults, and then frees the matrix.
pub(crate) fn put_blocks_and_lines<S: Semiring + Send + Sync, R: Threads + Sync, K: Sink>(
    rt: &R,
    alloc: Global,
    threads: u32,
    matrix: DistributedMatrix<S>,
    lines: &[u8],
    out: &mut K,
) -> Result<(), JobFault>
    requires { K.has_failed out.old ≡ false }
    ensures { IsTextEnd (text_of S.arithmetic matrix.matrix ++ lines.now) (K.written out.old) (K.written out.new) (K.has_failed out.new) result }
{
    let put = put_text_and_lines(rt, alloc, threads, TextPages::new(&matrix), lines, out);
    matrix.free(rt, alloc);
    put
}
