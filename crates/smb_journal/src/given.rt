//! An answer that an authenticator gave once.

ghost use Rattle.std.specs.Prelude.{◌≡◌};
ghost use Rattle.smb_session.specs.Answers.{answered_by};
ghost use Rattle.smb_session.specs.Authenticator.{IsLawful};

use crate::fault::JournalFault;
use crate::line::Line;
use crate::lines::Lines;
use smb_session::Answer;
use smb_wire::limits::{LONGEST_TOKEN, LONGEST_USER_NAME};
use std::alloc::Global;
use std::collections::VecDeque;
use std::io::Read;
use std::marker::Model;

/// An answer whose user and token are no longer than any is, with flags that there are.
#[derive(Drop)]
pub struct GivenAnswer {
    answer: Answer,
}

impl Model for GivenAnswer {
    ghost use Rattle.smb_session.specs.Answers.{answered_by};
    ghost use Rattle.smb_session.specs.Authenticator.{Answered, IsLawful};

    ghost Value = { Answered };

    ghost view = { λ g. answered_by g.answer };

    ghost invariant = { λ g. IsLawful (answered_by g.answer) };
}

impl GivenAnswer {
    /// An answer, where its sizes and flags are those of one.
    pub fn of(answer: Answer) -> Option<Self> {
        match &answer {
            Answer::Continue(token) => {
                if token.len() > LONGEST_TOKEN {
                    return None;
                }
            }
            Answer::Accept {
                user,
                flags,
                token,
                ..
            } => {
                if user.len() > LONGEST_USER_NAME || *flags > 3 || token.len() > LONGEST_TOKEN {
                    return None;
                }
            }
            Answer::Deny => {}
        }
        Some(GivenAnswer { answer })
    }

    /// The answer.
    pub(crate) fn into_answer(self) -> Answer
        ensures value { answered_by result ≡ self }
        ensures lawful { IsLawful (answered_by result) }
    {
        let GivenAnswer { answer } = self;
        answer
    }
}

/// The answers of the authenticator in a recording, in order. All of its lines are read, and nothing is performed.
///
/// # Errors
/// Those of [`Lines::next_line`].
pub fn given_answers<R: Read + Drop>(
    alloc: Global,
    lines: &mut Lines<R>,
) -> Result<VecDeque<GivenAnswer>, JournalFault> {
    let mut given = VecDeque::new(alloc);
    for _ in 0..u64::MAX {
        match lines.next_line()? {
            Some(Line::Answered(answer)) => given.push_back(answer)?,
            Some(_line) => {}
            None => break,
        }
    }
    Ok(given)
}
