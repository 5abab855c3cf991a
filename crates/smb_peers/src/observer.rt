//! What hears what a share does.

ghost use Rattle.std.specs.Prelude.{◌≡◌, ◌++◌, ◌∷◌, [], true};
ghost use Rattle.smb_peers.specs.Record.{Keeping};
ghost use Rattle.smb_peers.specs.Observed.{performed, responded, ended};

use super::ending::Ending;
use smb_refusals::{LoginRefusal, Refusal};
use smb_wire::{CommandCode, NtStatus};

/// What a request acts on: the session and the tree connect that it acts under, its own or those of the request before it in its
/// chain, and the number of the open that it names, 0 where it names none.
#[derive(Clone, Copy, Debug, PartialEq, Eq)]
pub struct Acting {
    pub session_id: u64,
    pub tree_id: u32,
    pub open_number: u64,
}

/// The response to a request, but for its body.
#[derive(Clone, Copy)]
pub struct Responded {
    pub message_id: u64,
    pub command: CommandCode,
    pub status: NtStatus,
    /// By which row the request was refused, where it was.
    pub refusal: Option<Refusal>,
    /// How many credits it grants.
    pub credits: u16,
}

/// Hears what a share does, as it happens: which requests it performs, how it responds to them, and by which rules it ends
/// connections; a response before its frame is sent, an end before the connection is closed. Nothing that the share does or
/// sends depends on it.
///
/// An observer may keep a record of what it hears, of which the contracts of the crate smb_engine speak: then each call adds
/// itself to it.
pub trait Observer {
    ghost use Rattle.std.specs.Prelude.{List, Bool, true};
    ghost use Rattle.smb_peers.specs.Observed.{Observed};

    /// What it heard so far, of an observer that keeps its record.
    ghost observed: { Self → List Observed };

    /// Whether all that it heard is in the record.
    ghost keeps: { Self → Bool };

    /// Whether it wants to hear of requests and responses. Where it does not, it is not called for them.
    fn listens(&self) -> bool
        ensures { keeps self.now ≡ true → result ≡ true };

    /// The next request is of this user, as the authenticator named him, empty for none, and acts on the file of this name, two
    /// bytes a unit; None where it names no open, or the name is not known. It is not in the record.
    fn note_subject(&mut self, _user: &[u8], _file: Option<&[u8]>)
        ensures { Keeping (keeps self.old) (keeps self.new) (observed self.new ≡ observed self.old) }
    {}

    /// A request was performed, whose piece came at this moment, in units of 100 ns since 1601: its bytes, the header
    /// included; of an SMB_COM_NEGOTIATE those of the payload. Each request but a CANCEL has a response, which is heard of
    /// behind it, and joined to it by connection and MessageId.
    fn performed(&mut self, connection: u64, moment: u64, request: &[u8], acting: Acting)
        ensures { Keeping (keeps self.old) (keeps self.new) (observed self.new
            ≡ observed self.old ++ performed connection request.now acting ∷ []) };

    /// The share responds to a request, on this connection.
    fn responded(&mut self, connection: u64, response: Responded)
        ensures { Keeping (keeps self.old) (keeps self.new) (observed self.new
            ≡ observed self.old ++ responded connection response ∷ []) };

    /// A login was denied, whose response is heard of next: on this connection, for this reason, of a client who gave this
    /// name, in UTF-16LE as it came. It is not in the record.
    fn denied(&mut self, _connection: u64, _reason: LoginRefusal, _name: &[u8])
        ensures { Keeping (keeps self.old) (keeps self.new) (observed self.new ≡ observed self.old) }
    {}

    /// A user was let into a session, by a SESSION_SETUP whose response is heard of next. It is not in the record.
    fn let_in(&mut self, _connection: u64, _session_id: u64, _user: &[u8])
        ensures { Keeping (keeps self.old) (keeps self.new) (observed self.new ≡ observed self.old) }
    {}

    /// The share ends a connection, whose client broke this rule.
    fn ended(&mut self, connection: u64, ending: Ending)
        ensures { Keeping (keeps self.old) (keeps self.new) (observed self.new
            ≡ observed self.old ++ ended connection ending ∷ []) };
}

/// Nobody hears it.
impl Observer for () {
    ghost use Rattle.std.specs.Prelude.{[], false};

    ghost observed = { λ nobody. [] };

    ghost keeps = { λ nobody. false };

    fn listens(&self) -> bool {
        false
    }

    fn performed(&mut self, _connection: u64, _moment: u64, _request: &[u8], _acting: Acting) {}

    fn responded(&mut self, _connection: u64, _response: Responded) {}

    fn ended(&mut self, _connection: u64, _ending: Ending) {}
}
