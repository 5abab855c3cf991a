//! Who lets clients in where it is noted how logins end.

use smb_session::{Answer, Authenticator, Denial};
use smb_tcp::Logins;
use std::alloc::AllocError;
use std::marker::Model;

/// Another authenticator, which answers as it does by itself. The peers, whose piece a login came in, learn how
/// it ended.
#[derive(Drop)]
pub struct HeardLogin<'a, A: Authenticator + Drop> {
    behind: A,
    logins: &'a Logins,
}

impl<'a, A: Authenticator + Drop> Model for HeardLogin<'a, A> {
    ghost Value = { A };

    ghost view = { λ l. l.behind };
}

impl<'a, A: Authenticator + Drop> HeardLogin<'a, A> {
    /// This authenticator, with the place where it is noted how logins end.
    pub fn new(behind: A, logins: &'a Logins) -> Self {
        HeardLogin { behind, logins }
    }
}

impl<A: Authenticator + Drop> Authenticator for HeardLogin<'_, A> {
    ghost meaning = { A.meaning };

    fn hello(&self) -> &[u8] {
        self.behind.hello()
    }

    fn requires_signing(&self) -> bool {
        self.behind.requires_signing()
    }

    fn step(&mut self, session: u64, token: &[u8]) -> Result<Answer, AllocError> {
        let answer = self.behind.step(session, token)?;
        match &answer {
            Answer::Continue(_) => {}
            Answer::Accept { .. } => self.logins.note(true),
            Answer::Deny => self.logins.note(false),
        }
        Ok(answer)
    }

    fn denial(&self) -> Option<Denial<'_>> {
        self.behind.denial()
    }
}
