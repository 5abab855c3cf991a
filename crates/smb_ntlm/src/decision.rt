//! What a token is answered, and why where that is a denial.

ghost use Rattle.std.specs.Prelude.{◌≡◌};
ghost use Rattle.smb_session.specs.Authenticator.{denies};
ghost use Rattle.smb_ntlm.specs.Gates.{decided};

use smb_refusals::LoginRefusal;
use smb_session::{Answer, Denial};
use std::alloc::Global;

/// What a token is answered.
#[derive(Drop)]
pub enum Decision<'a> {
    /// The client goes on, or is in.
    Answers(Answer),
    /// It is denied.
    Denies(Denial<'a>),
}

impl<'a> Decision<'a> {
    /// A denial for a reason, of whoever has this name; it is empty where none was read.
    pub fn denial(reason: LoginRefusal, name: &'a [u8]) -> Self
        ensures { decided result ≡ denies }
    {
        Decision::Denies(Denial { reason, name })
    }
}

/// A denial that is kept.
#[derive(Drop)]
pub struct KeptDenial {
    reason: LoginRefusal,
    name: Vec<u8>,
}

impl KeptDenial {
    /// A copy of a denial. The name is empty where no memory can be had for it.
    pub fn of(alloc: Global, denial: Denial<'_>) -> Self
        ensures { result.reason ≡ denial.entry.reason }
    {
        let name = match Vec::from_slice(alloc, denial.name) {
            Ok(name) => name,
            Err(_) => Vec::new(alloc),
        };
        KeptDenial {
            reason: denial.reason,
            name,
        }
    }

    /// The denial.
    pub fn denial(&self) -> Denial<'_>
        ensures reason { result.reason ≡ self.now.reason }
        ensures name { result.name.now ≡ self.now.name.items }
    {
        Denial {
            reason: self.reason,
            name: &self.name,
        }
    }
}
