//! An authenticator with a list of tokens.

ghost use Rattle.std.specs.Prelude.{◌≡◌, ◌≤◌, [], length, map, find, option_copied, IfOk};
ghost use Rattle.std.specs.List.{AllByRecursion};
ghost use Rattle.std.specs.Str.{bytes_eq};
ghost use Rattle.smb_wire.specs.Limits.{longest_token, longest_user_name};
ghost use Rattle.smb_session.specs.Authenticator.{accepts, IsLawful};
ghost use Rattle.smb_session.specs.Tokens.{TokenList, token_answer, HaveOwnTokens};
ghost use Rattle.smb_session.specs.Answers.{answered_by, known_user};

use super::authenticator::{Answer, Authenticator};
use std::alloc::{AllocError, Global};
use std::marker::Model;

/// A user, and the token by which it is known.
#[derive(Debug, Drop)]
pub struct User {
    /// At most 256 bytes.
    pub name: Vec<u8>,
    pub token: Vec<u8>,
    /// Whether the user may only read.
    pub read_only: bool,
}

/// Knows users by their tokens. Any other token brings a guest, where guests may come.
#[derive(Debug, Drop)]
pub struct Tokens {
    alloc: Global,
    hello: Vec<u8>,
    guest: bool,
    guest_read_only: bool,
    users: Vec<User>,
}

impl Model for Tokens {
    ghost use Rattle.smb_wire.specs.Limits.{longest_token, longest_user_name};
    ghost use Rattle.smb_session.specs.Tokens.{TokenList};

    ghost Value = { TokenList };

    ghost use Rattle.std.specs.Prelude.{◌≤◌, length, map};
    ghost use Rattle.std.specs.List.{AllByRecursion};
    ghost use Rattle.smb_session.specs.Answers.{known_user};

    ghost view = { λ t. record { hello = t.hello.items; guest = t.guest; guest_read_only = t.guest_read_only; users = map known_user t.users.items } };

    ghost invariant = { λ t. (length t.hello.items ≤ longest_token) × AllByRecursion (λ user. length user.name.items ≤ longest_user_name) t.users.items };
}

/// The user of a token.
fn find_user<'a>(users: &'a [User], token: &[u8]) -> Option<&'a User>
    ensures { option_copied result ≡ find (λ user. bytes_eq user.token.items token.now) users.now }
{
    users.iter().find(|user| user.token.as_slice() == token)
}

/// A user accepted, with a copy of its name and no token.
fn accept(alloc: Global, user: &[u8], flags: u16, read_only: bool) -> Result<Answer, AllocError>
    requires user { length user.now ≤ longest_user_name }
    requires flags { flags ≤ 3 }
    ensures answer { IfOk result (λ answer. answered_by answer ≡ accepts user.now flags read_only None []) }
    ensures lawful { IfOk result (λ answer. IsLawful (answered_by answer)) }
{
    Ok(Answer::Accept {
        user: Vec::from_slice(alloc, user)?,
        flags,
        read_only,
        signing: None,
        token: Vec::new(alloc),
    })
}

/// What a token is answered.
#[tactic(auto, using(crate::proofs::Users::known_found, crate::proofs::Users::known_absent, crate::proofs::Users::name_found))]
fn answer_to(
    alloc: Global,
    guest: bool,
    guest_read_only: bool,
    users: &[User],
    token: &[u8],
) -> Result<Answer, AllocError>
    requires { AllByRecursion (λ user. length user.name.items ≤ longest_user_name) users.now }
    ensures answer { IfOk result (λ answer. answered_by answer ≡ token_answer guest guest_read_only (map known_user users.now) token.now) }
    ensures lawful { IfOk result (λ answer. IsLawful (answered_by answer)) }
{
    match find_user(users, token) {
        Some(user) => accept(alloc, &user.name, 0, user.read_only),
        None if guest => accept(alloc, b"guest", 1, guest_read_only),
        None => Ok(Answer::Deny),
    }
}

impl Tokens {
    /// An authenticator that offers `hello` first, of at most 4,096 bytes, and knows these users: no two of
    /// them share a token. Guests may only read where `guest_read_only` holds.
    ///
    /// Fails where the first token cannot be copied.
    pub fn new(
        alloc: Global,
        hello: &[u8],
        guest: bool,
        guest_read_only: bool,
        users: Vec<User>,
    ) -> Result<Self, AllocError>
        requires hello { length hello.now ≤ longest_token }
        requires names { AllByRecursion (λ user. length user.name.items ≤ longest_user_name) users.items }
        requires tokens { HaveOwnTokens (map known_user users.items) }
        ensures { IfOk result (λ tokens. tokens ≡ record { hello = hello.now; guest = guest; guest_read_only = guest_read_only; users = map known_user users.items }) }
    {
        let hello = Vec::from_slice(alloc, hello)?;
        Ok(Tokens {
            alloc,
            hello,
            guest,
            guest_read_only,
            users,
        })
    }
}

impl Authenticator for Tokens {
    ghost use Rattle.smb_session.specs.Tokens.{by_tokens};

    ghost meaning = { by_tokens };

    fn hello(&self) -> &[u8] {
        &self.hello
    }

    fn requires_signing(&self) -> bool {
        false
    }

    fn step(&mut self, _session: u64, token: &[u8]) -> Result<Answer, AllocError> {
        answer_to(
            self.alloc,
            self.guest,
            self.guest_read_only,
            &self.users,
            token,
        )
    }
}
