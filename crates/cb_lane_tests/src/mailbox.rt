//! Worked examples of a mailbox.
ghost use Rattle.std.specs.Prelude.{◌≡◌, ◌<◌, All, IfOk, IfErr, IfSome, false};
ghost use Rattle.cb_mailbox.specs.Exchanges.{AreTakenOnce, AreForAddressee, AreInPostingOrder, NothingAcceptedAfterClose, HasGivenOutAll};
ghost use Rattle.cb_mailbox.specs.Inbox.{is_stranger};
ghost use Rattle.cb_mailbox.specs.Run.{IsPostable};

use cb_letters::{Body, Capacity, Letter, PostRefusal, Tag, Taken};
use cb_mailbox::{Call, Mailbox, Reply};
use std::alloc::{AllocError, Global};

fn post(from: u16, sheet: u64) -> Call<u64>
    ensures { IsPostable result }
{
    Call::Post {
        from,
        tag: Tag(7),
        body: Body::Sheet(sheet),
    }
}

/// The answer to a take of this letter.
macro_rules! took {
    ($from:literal, $to:literal, $number:literal, $sheet:literal) => {
        Reply::Took(Taken::Letter(Letter {
            from: $from,
            to: $to,
            number: $number,
            tag: Tag(7),
            body: Body::Sheet($sheet),
        }))
    };
}

/// The answer to a post of this sheet that was refused.
macro_rules! refused {
    ($refusal:ident, $sheet:literal) => {
        Reply::Refused(PostRefusal::$refusal, Some(Body::Sheet($sheet)))
    };
}

/// The answers to these calls. What becomes of the letters is proved, and that calls which are refused memory come back.
fn answered(
    alloc: Global,
    mailbox: &mut Mailbox<u64>,
    calls: Vec<Call<u64>>,
) -> Result<Vec<Reply<u64>>, Vec<Call<u64>>>
    requires { All IsPostable calls.items }
    ensures once { IfOk result (λ answers. AreTakenOnce mailbox.old mailbox.new calls.items answers.items) }
    ensures addressee { IfOk result (λ answers. AreForAddressee mailbox.old calls.items answers.items) }
    ensures order { IfOk result (λ answers. AreInPostingOrder mailbox.old mailbox.new calls.items answers.items) }
    ensures closed { IfOk result (λ answers. NothingAcceptedAfterClose mailbox.old calls.items answers.items) }
    ensures drained { IfOk result (λ answers. HasGivenOutAll mailbox.old mailbox.new calls.items answers.items) }
    ensures back { IfErr result (λ back. back ≡ calls) }
{
    match mailbox.run(alloc, calls) {
        Ok(answers) => Ok(answers),
        Err((back, AllocError)) => Err(back),
    }
}

/// Whether a mailbox gives these answers to these calls.
fn is_answered(
    alloc: Global,
    mailbox: &mut Mailbox<u64>,
    calls: Vec<Call<u64>>,
    expected: &[Reply<u64>],
) -> bool
    requires { All IsPostable calls.items }
{
    match answered(alloc, mailbox, calls) {
        Ok(answers) => answers.as_slice() == expected,
        Err(_) => false,
    }
}

/// Whether the mailbox of rank `me` of `ranks`, with queues of two places, gives these answers to these calls.
fn gives_answers(
    alloc: Global,
    me: u16,
    ranks: u16,
    calls: Option<Vec<Call<u64>>>,
    expected: &[Reply<u64>],
) -> Option<bool>
    requires me { me < ranks }
    requires postable { IfSome calls (λ calls. All IsPostable calls.items) }
{
    let mut mailbox = Mailbox::open(alloc, me, ranks, Capacity::nearest(2)).ok()?;
    match calls {
        Some(calls) => Some(is_answered(alloc, &mut mailbox, calls, expected)),
        None => None,
    }
}

/// Calls for one sender, which fill its queue and close it. Posts are refused then, while it is full and once it is empty.
fn calls_of_one(alloc: Global) -> Option<Vec<Call<u64>>>
    ensures { IfSome result (λ calls. All IsPostable calls.items) }
{
    vec![in alloc;
        post(1, 10),
        post(1, 11),
        post(1, 12),
        Call::Take { from: 1 },
        post(1, 13),
        Call::Close { from: 1 },
        Call::Take { from: 1 },
        Call::Close { from: 1 },
        post(1, 14),
        Call::Take { from: 1 },
        Call::Take { from: 1 },
        Call::Take { from: 1 },
        post(1, 15),
    ]
    .ok()
}

/// The expected answers.
const ANSWERS_TO_ONE: &[Reply<u64>] = &[
    Reply::Posted(0),
    Reply::Posted(1),
    refused!(Full, 12),
    took!(1, 0, 0, 10),
    Reply::Posted(2),
    Reply::Refused(PostRefusal::Full, None),
    took!(1, 0, 1, 11),
    Reply::Posted(3),
    refused!(Closed, 14),
    took!(1, 0, 2, 13),
    Reply::Took(Taken::End),
    Reply::Took(Taken::End),
    refused!(Closed, 15),
];

#[test]
fn one_sender_fills_its_queue_and_closes(rt: HostRuntime) {
    let calls = calls_of_one(rt.alloc());
    assert!(rt; gives_answers(rt.alloc(), 0, 2, calls, ANSWERS_TO_ONE) == Some(true));
}

/// Calls for two senders, and for ranks that aren't senders.
fn calls_of_two(alloc: Global) -> Option<Vec<Call<u64>>>
    ensures { IfSome result (λ calls. All IsPostable calls.items) }
{
    vec![in alloc;
        post(0, 10),
        post(1, 11),
        post(0, 12),
        Call::Take { from: 1 },
        Call::Take { from: 0 },
        Call::Take { from: 0 },
        Call::Take { from: 0 },
        Call::Take { from: 9 },
        Call::Take { from: 2 },
    ]
    .ok()
}

/// The expected answers of rank 2.
const ANSWERS_TO_TWO: &[Reply<u64>] = &[
    Reply::Posted(0),
    Reply::Posted(0),
    Reply::Posted(1),
    took!(1, 2, 0, 11),
    took!(0, 2, 0, 10),
    took!(0, 2, 1, 12),
    Reply::Took(Taken::Empty),
    Reply::Took(Taken::Stranger),
    Reply::Took(Taken::Stranger),
];

#[test]
fn two_senders_have_a_queue_each(rt: HostRuntime) {
    let calls = calls_of_two(rt.alloc());
    assert!(rt; gives_answers(rt.alloc(), 2, 3, calls, ANSWERS_TO_TWO) == Some(true));
}

/// The state of a sender's lane: whether its queue has room, how many letters were posted and taken, and whether it is
/// drained.
fn standing(mailbox: &Mailbox<u64>, from: u16) -> (bool, u64, u64, bool)
    requires { is_stranger mailbox.now from ≡ false }
{
    (
        mailbox.room(from),
        mailbox.posted(from),
        mailbox.taken(from),
        mailbox.drained(from),
    )
}

/// Whether a letter fills the only place of the lane from rank 1, so that there is no room for the close mark.
fn fills(mailbox: &mut Mailbox<u64>) -> bool
    requires { is_stranger mailbox.old 1 ≡ false }
    ensures { is_stranger mailbox.new 1 ≡ false }
{
    let mut as_expected = standing(mailbox, 1) == (true, 0, 0, false);
    as_expected &= matches!(mailbox.post(1, Tag(7), Body::Lost(1)), Ok(0));
    as_expected &= standing(mailbox, 1) == (false, 1, 0, false);
    as_expected & (mailbox.close(1) == Err(PostRefusal::Full))
}

/// Whether the letter is taken, the close mark posted, and the lane drained once the mark is taken too.
fn drains(mailbox: &mut Mailbox<u64>) -> bool
    requires { is_stranger mailbox.old 1 ≡ false }
{
    let mut as_expected = matches!(mailbox.take(1), Taken::Letter(_));
    as_expected &= mailbox.close(1) == Ok(1);
    as_expected &= standing(mailbox, 1) == (false, 2, 1, false);
    as_expected &= matches!(mailbox.take(1), Taken::End);
    as_expected & (standing(mailbox, 1) == (true, 2, 2, true))
}

/// Whether a letter that rank 0 posts to itself comes back.
fn refuses_its_own(mailbox: &mut Mailbox<u64>) -> bool {
    match mailbox.post(0, Tag(7), Body::Sheet(5)) {
        Err((PostRefusal::Stranger, Body::Sheet(sheet))) => sheet == 5,
        _ => false,
    }
}

/// Whether a new mailbox does all of that.
fn follows_the_calls(alloc: Global) -> Option<bool> {
    let mut mailbox = Mailbox::open(alloc, 0, 2, Capacity::nearest(1)).ok()?;
    Some(fills(&mut mailbox) && drains(&mut mailbox) && refuses_its_own(&mut mailbox))
}

#[test]
fn counts_and_room_follow_the_calls(rt: HostRuntime) {
    assert!(rt; follows_the_calls(rt.alloc()) == Some(true));
}

/// Posts from ranks 1 and 2, and a take.
fn three_calls(alloc: Global) -> Option<Vec<Call<u64>>>
    ensures { IfSome result (λ calls. All IsPostable calls.items) }
{
    vec![in alloc; post(1, 10), post(2, 20), Call::Take { from: 2 }].ok()
}

/// The expected answers.
const ANSWERS_TO_THREE: &[Reply<u64>] = &[Reply::Posted(0), Reply::Posted(0), took!(2, 0, 0, 20)];

/// Whether these are they.
fn are_three(answers: &[Reply<u64>]) -> bool {
    answers == ANSWERS_TO_THREE
}

/// Whether an empty mailbox gives them.
fn answers_three(alloc: Global, mailbox: &mut Mailbox<u64>, calls: Vec<Call<u64>>) -> bool
    requires first { is_stranger mailbox.old 1 ≡ false }
    requires second { is_stranger mailbox.old 2 ≡ false }
    requires postable { All IsPostable calls.items }
{
    let is_new = mailbox.posted(1) == 0 && mailbox.posted(2) == 0;
    match mailbox.run(alloc, calls) {
        Ok(answers) => is_new && are_three(&answers),
        Err(_) => false,
    }
}

/// Whether a mailbox gives them, at once or, if the run is refused for want of memory, when it is repeated.
fn answers_three_in_the_end(
    alloc: Global,
    mailbox: &mut Mailbox<u64>,
    calls: Vec<Call<u64>>,
) -> bool
    requires first { is_stranger mailbox.old 1 ≡ false }
    requires second { is_stranger mailbox.old 2 ≡ false }
    requires postable { All IsPostable calls.items }
{
    match mailbox.run(alloc, calls) {
        Ok(answers) => are_three(&answers),
        Err((calls, AllocError)) => answers_three(alloc, mailbox, calls),
    }
}

/// The same for a new mailbox, if there is memory for it and for the calls.
fn new_answers_three(alloc: Global) -> Option<bool> {
    let mut mailbox = Mailbox::open(alloc, 0, 3, Capacity::nearest(2)).ok()?;
    let calls = three_calls(alloc)?;
    Some(answers_three_in_the_end(alloc, &mut mailbox, calls))
}

/// Passes whichever single growth is refused (`rt try --test --fail-alloc N`, for each N in turn): a
/// refused `open` reports it, and a refused `run` hands back calls that can be run again.
#[test]
fn a_refused_run_can_be_made_again(rt: HostRuntime) {
    assert!(rt; new_answers_three(rt.alloc()) != Some(false));
}
