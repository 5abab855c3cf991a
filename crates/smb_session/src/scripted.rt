//! An authenticator with a script, for trials.

ghost use Rattle.std.specs.Prelude.{◌≡◌, ◌≤◌, [], length, map, IfOk};
ghost use Rattle.std.specs.List.{AllByRecursion};
ghost use Rattle.smb_wire.specs.Limits.{longest_token};
ghost use Rattle.smb_session.specs.Authenticator.{IsLawful};
ghost use Rattle.smb_session.specs.Answers.{answered_by};

use super::authenticator::{Answer, Authenticator};
use std::alloc::{AllocError, Global};
use std::collections::VecDeque;
use std::marker::Model;

/// Gives answers in turn, whatever it is asked, and then denies.
#[derive(Debug, Drop)]
pub struct Scripted {
    hello: Vec<u8>,
    answers: VecDeque<Answer>,
}

impl Model for Scripted {
    ghost use Rattle.smb_wire.specs.Limits.{longest_token};
    ghost use Rattle.smb_session.specs.Scripted.{Script};

    ghost Value = { Script };

    ghost use Rattle.std.specs.Prelude.{◌≤◌, length, map};
    ghost use Rattle.std.specs.List.{AllByRecursion};
    ghost use Rattle.smb_session.specs.Authenticator.{IsLawful};
    ghost use Rattle.smb_session.specs.Answers.{answered_by};

    ghost view = { λ s. record { hello = s.hello.items; left = map answered_by s.answers.items } };

    ghost invariant = { λ s. (length s.hello.items ≤ longest_token) × AllByRecursion (λ answer. IsLawful (answered_by answer)) s.answers.items };
}

impl Scripted {
    /// An authenticator that offers `hello` first and gives these answers in turn.
    ///
    /// Fails where the first token cannot be copied.
    pub fn new(alloc: Global, hello: &[u8], answers: Vec<Answer>) -> Result<Self, AllocError>
        requires hello { length hello.now ≤ longest_token }
        requires answers { AllByRecursion (λ answer. IsLawful (answered_by answer)) answers.items }
        ensures { IfOk result (λ scripted. scripted ≡ record { hello = hello.now; left = map answered_by answers.items }) }
    {
        let hello = Vec::from_slice(alloc, hello)?;
        Ok(Scripted {
            hello,
            answers: VecDeque::from(answers),
        })
    }
}

impl Authenticator for Scripted {
    ghost use Rattle.smb_session.specs.Scripted.{scripted};

    ghost meaning = { scripted };

    fn hello(&self) -> &[u8] {
        &self.hello
    }

    fn requires_signing(&self) -> bool {
        false
    }

    fn step(&mut self, _session: u64, _token: &[u8]) -> Result<Answer, AllocError> {
        match self.answers.pop_front() {
            Some(answer) => Ok(answer),
            None => Ok(Answer::Deny),
        }
    }
}
