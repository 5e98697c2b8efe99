//! Calls of a mailbox as values, and lists of them.
ghost use Rattle.std.specs.Prelude.{◌≡◌, ◌≤◌, [], All, IfOk, OnOk, IfErr, length, vec_capacity};
ghost use Rattle.cb_mailbox.specs.Run.{IsPostable, answer, after, answers_to, after_all, events, IsBalanced, IsNew};
ghost use Rattle.cb_mailbox.specs.Exchanges.{AreTakenOnce, AreForAddressee, AreInPostingOrder, NothingAcceptedAfterClose, HasGivenOutAll};
ghost use Rattle.cb_letters.specs.Events.{AreLegal};

use crate::Mailbox;
use cb_letters::{Body, PostRefusal, Tag, Taken};
use std::alloc::{AllocError, Global};

/// A call of a mailbox, with the sender whose lane it uses.
#[derive(Drop)]
pub enum Call<P> {
    Post { from: u16, tag: Tag, body: Body<P> },
    Take { from: u16 },
    Close { from: u16 },
}

/// The answer to a call of a mailbox.
#[derive(PartialEq, Eq, Drop)]
pub enum Reply<P> {
    /// A post or a close was accepted, and its letter has this number.
    Posted(u64),
    /// A post or a close was refused. A post gets its body back.
    Refused(PostRefusal, Option<Body<P>>),
    Took(Taken<P>),
}

impl<P: Drop> Mailbox<P> {
    /// Makes the calls one after the other, and returns their answers in order. Memory for all answers is allocated
    /// before the first call; if it is refused, the calls come back and none was made.
    pub fn run(
        &mut self,
        alloc: Global,
        calls: Vec<Call<P>>,
    ) -> Result<Vec<Reply<P>>, (Vec<Call<P>>, AllocError)>
        requires { All IsPostable calls.items }
        ensures answers { IfOk result (λ answers. answers.items ≡ answers_to self.old calls.items) }
        ensures after { OnOk result (self.new ≡ after_all self.old calls.items) }
        ensures once { IfOk result (λ answers. AreTakenOnce self.old self.new calls.items answers.items) }
        ensures addressee { IfOk result (λ answers. AreForAddressee self.old calls.items answers.items) }
        ensures order { IfOk result (λ answers. AreInPostingOrder self.old self.new calls.items answers.items) }
        ensures closed { IfOk result (λ answers. NothingAcceptedAfterClose self.old calls.items answers.items) }
        ensures drained { IfOk result (λ answers. HasGivenOutAll self.old self.new calls.items answers.items) }
        ensures lanes { OnOk result (IsBalanced self.old self.new (events self.old calls.items)) }
        ensures legal { OnOk result (IsNew self.old → AreLegal (events self.old calls.items)) }
        ensures err { IfErr result (λ e. (e.0 ≡ calls) × (self.new ≡ self.old)) }
    {
        let _lanes = &self.lanes;
        let mut answers = match Vec::with_capacity(alloc, calls.len()) {
            Ok(answers) => answers,
            Err(refused) => return Err((calls, refused)),
        };
        self.make(calls, &mut answers);
        Ok(answers)
    }

    /// Makes the calls one after the other, and puts their answers into the list, which has room for them.
    fn make(&mut self, calls: Vec<Call<P>>, answers: &mut Vec<Reply<P>>)
        requires postable { All IsPostable calls.items }
        requires empty { answers.old.items ≡ [] }
        requires room { length calls.items ≤ vec_capacity answers.old }
        ensures answers { answers.new.items ≡ answers_to self.old calls.items }
        ensures after { self.new ≡ after_all self.old calls.items }
    {
        for call in calls {
            let answer = self.call(call);
            answers.push_reserved(answer);
        }
    }

    fn call(&mut self, call: Call<P>) -> Reply<P>
        requires { IsPostable call }
        ensures answer { result ≡ answer self.old call }
        ensures after { self.new ≡ after self.old call }
    {
        match call {
            Call::Post { from, tag, body } => match self.post(from, tag, body) {
                Ok(number) => Reply::Posted(number),
                Err((refusal, body)) => Reply::Refused(refusal, Some(body)),
            },
            Call::Take { from } => Reply::Took(self.take(from)),
            Call::Close { from } => match self.close(from) {
                Ok(number) => Reply::Posted(number),
                Err(refusal) => Reply::Refused(refusal, None),
            },
        }
    }
}
