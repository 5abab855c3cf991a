//! Who lets clients in where it is recorded.

ghost use Rattle.std.specs.Prelude.{◌≡◌, ◌<◌, length, IfOk, IfSome, IfNone, OnOk, OnErr};
ghost use Rattle.smb_wire.specs.Limits.{longest_token};
ghost use Rattle.smb_session.specs.Answers.{answered_by};
ghost use Rattle.smb_session.specs.Authenticator.{IsLawful};

use crate::given::GivenAnswer;
use crate::mailbox::Mailbox;
use smb_session::{Answer, Authenticator, Denial};
use smb_wire::limits::LONGEST_TOKEN;
use std::alloc::AllocError;
use std::collections::VecDeque;
use std::marker::Model;

/// An authenticator that gives recorded answers first, in their order, whoever asks. Behind them another one is asked, and what
/// it answers is put into a mailbox, for the recording.
#[derive(Drop)]
pub struct RecordedLogin<'a, A: Authenticator + Drop> {
    hello: Vec<u8>,
    requires_signing: bool,
    given: VecDeque<GivenAnswer>,
    behind: A,
    mailbox: &'a Mailbox,
}

impl<'a, A: Authenticator + Drop> Model for RecordedLogin<'a, A> {
    ghost use Rattle.std.specs.Prelude.{◌≤◌, length};
    ghost use Rattle.smb_wire.specs.Limits.{longest_token};
    ghost use Rattle.smb_journal.specs.Login.{RecordedState};

    ghost Value = { RecordedState A };

    ghost view = { λ l. record { hello = l.hello.items; requires_signing = l.requires_signing; given = l.given.items; behind = l.behind } };

    ghost invariant = { λ l. length l.hello.items ≤ longest_token };
}

impl<'a, A: Authenticator + Drop> RecordedLogin<'a, A> {
    /// One that offers `hello` first, of at most 4,096 bytes, and gives these answers before the other one is asked. None where
    /// `hello` is longer. It says of each session that is signed whether it has to sign its requests.
    pub fn new(
        hello: Vec<u8>,
        requires_signing: bool,
        given: VecDeque<GivenAnswer>,
        behind: A,
        mailbox: &'a Mailbox,
    ) -> Option<Self>
        ensures some { IfSome result (λ login. login ≡ record { hello = hello.items; requires_signing = requires_signing; given = given.items; behind = behind }) }
        ensures none { IfNone result (longest_token < length hello.items) }
    {
        if hello.len() > LONGEST_TOKEN {
            return None;
        }
        Some(RecordedLogin {
            hello,
            requires_signing,
            given,
            behind,
            mailbox,
        })
    }

    /// Asks the authenticator behind. Room for its answer is made first.
    fn ask(&mut self, session: u64, token: &[u8]) -> Result<Answer, AllocError>
        ensures answer { IfOk result (λ answer. answered_by answer ≡ A.meaning.answer self.old.behind session token.now) }
        ensures next { OnOk result (self.new ≡ record self.old { behind = A.meaning.next self.old.behind session token.now }) }
        ensures lawful { IfOk result (λ answer. IsLawful (answered_by answer)) }
        ensures err { OnErr result (self.new ≡ self.old) }
    {
        self.mailbox.make_room()?;
        let answer = self.behind.step(session, token)?;
        self.mailbox.put(&answer);
        Ok(answer)
    }
}

impl<A: Authenticator + Drop> Authenticator for RecordedLogin<'_, A> {
    ghost use Rattle.smb_journal.specs.Login.{by_record};

    ghost meaning = { by_record A.meaning };

    fn hello(&self) -> &[u8] {
        &self.hello
    }

    fn requires_signing(&self) -> bool {
        self.requires_signing
    }

    fn step(&mut self, session: u64, token: &[u8]) -> Result<Answer, AllocError> {
        match self.given.pop_front() {
            Some(given) => Ok(given.into_answer()),
            None => self.ask(session, token),
        }
    }

    fn denial(&self) -> Option<Denial<'_>> {
        self.behind.denial()
    }
}
