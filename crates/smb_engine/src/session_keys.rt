//! The keys of the sessions that were let in on a connection, which stay behind the sessions' ends ([MS-SMB2] 3.3.4.1.1).

ghost use Rattle.std.specs.Prelude.{ℕ, List, ◌≡◌, []};
ghost use Rattle.smb_head.specs.Headers.{header_of};
ghost use Rattle.smb_engine.specs.Keys.{kept_key, with_key};
ghost use Rattle.smb_engine.specs.Parts.{key_or_kept, keys_behind};

use arrayvec::ArrayVec;
use bitflags::Flags;
use smb_head::{Header, HeaderFlags};
use smb_request::{Answered, HeaderIds};
use smb_signing::Key;
use smb_wire::limits::MOST_SESSIONS;
use smb_wire::{Command, NtStatus};
use std::marker::Model;

/// A session that was let in, and the key of its messages.
#[derive(Clone, Copy)]
pub struct SessionKey {
    pub(crate) session_id: u64,
    pub(crate) key: Key,
}

/// Of no session: blank places of a list have it.
impl Default for SessionKey {
    fn default() -> Self {
        SessionKey {
            session_id: 0,
            key: Key::new([0; 16]),
        }
    }
}

/// The keys of the last sessions that were let in on a connection, whether they are there or have ended.
#[derive(Drop)]
pub struct SessionKeys {
    list: ArrayVec<SessionKey, MOST_SESSIONS>,
}

impl Model for SessionKeys {
    ghost use Rattle.std.specs.Prelude.{List};
    ghost use Rattle.smb_engine.specs.declared.session_keys.SessionKey.{SessionKey};

    ghost Value = { List SessionKey };

    ghost view = { λ keys. keys.list.items };
}

impl SessionKeys {
    /// Of no session.
    pub(crate) fn new() -> Self
        ensures { result ≡ [] }
    {
        SessionKeys {
            list: ArrayVec::new(),
        }
    }

    /// Whether there are any.
    pub(crate) fn are_there(&self) -> bool {
        !self.list.is_empty()
    }

    /// The key of a session; None where it is none of these.
    fn key_of(&self, session_id: u64) -> Option<Key>
        ensures { result ≡ kept_key self.now session_id }
    {
        let kept = self.list.iter().find(|kept| kept.session_id == session_id)?;
        Some(kept.key)
    }

    /// Takes the key of a session in, the oldest one out where there is no more room.
    fn keep(&mut self, session_id: u64, key: Key)
        ensures { self.new ≡ with_key self.old session_id key }
    {
        if self.list.is_full() {
            let _ = self.list.remove(0);
        }
        self.list.push(SessionKey { session_id, key });
    }

    /// The key of a response of these ids: its own, or where there is none, and its request is signed, the one that is kept of
    /// its session.
    pub(crate) fn own_or_kept(
        &self,
        own: Option<Key>,
        header: &Header,
        ids: HeaderIds,
    ) -> Option<Key>
        ensures { (request : List ℕ) → header.now ≡ header_of request → result ≡ key_or_kept self.now request ids own }
    {
        if own.is_some() || !header.flags.contains(HeaderFlags::SIGNED) {
            own
        } else {
            self.key_of(ids.session_id)
        }
    }

    /// Keeps the key of a response, where it lets a session in.
    pub(crate) fn keep_of(&mut self, key: Option<Key>, header: &Header, answered: &Answered)
        ensures { (request : List ℕ) → header.now ≡ header_of request →
            self.new ≡ keys_behind self.old request answered.now.ids answered.now.status key }
    {
        if let Some(key) = key
            && matches!(answered.status, NtStatus::Success)
            && header.command.0 == Command::SessionSetup.code().0
        {
            self.keep(answered.ids.session_id, key);
        }
    }
}
