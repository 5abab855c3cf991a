//! The numbers of a connection's sessions.

ghost use Rattle.std.specs.Prelude.{◌≡◌, ◌<◌, ◌≤◌, ◌++◌, ◌∷◌, [], length, slice_get};
ghost use Rattle.smb_session.specs.Numbers.{without_number};

use arrayvec::ArrayVec;
use smb_wire::limits::MOST_SESSIONS;
use std::marker::Model;

/// The numbers of a connection's sessions, in rising order ([MS-SMB2] 3.3.1.7).
#[derive(Drop)]
pub(crate) struct SessionNumbers {
    numbers: ArrayVec<u64, MOST_SESSIONS>,
}

impl Model for SessionNumbers {
    ghost use Rattle.std.specs.Prelude.{ℕ, List};

    ghost Value = { List ℕ };

    ghost view = { λ s. s.numbers.items };
}

/// Takes a number out, in one pass.
fn take_out<const N: usize>(numbers: &mut ArrayVec<u64, N>, number: u64)
    ensures { numbers.new.items ≡ without_number numbers.old.items number }
{
    numbers.retain(|n| *n != number);
}

impl SessionNumbers {
    pub(crate) fn new() -> Self
        ensures { result ≡ [] }
    {
        SessionNumbers {
            numbers: ArrayVec::new(),
        }
    }

    pub(crate) fn len(&self) -> usize
        ensures len { result ≡ length self.now }
        ensures few { result ≤ 16 }
    {
        self.numbers.len()
    }

    pub(crate) fn as_slice(&self) -> &[u64]
        ensures { result.now ≡ self.now }
    {
        self.numbers.as_slice()
    }

    /// The least number.
    pub(crate) fn first(&self) -> Option<u64>
        ensures { result ≡ slice_get self.now 0 }
    {
        self.numbers.first().copied()
    }

    /// Adds a number, which is above all that stand.
    pub(crate) fn push(&mut self, number: u64)
        requires { length self.old < 16 }
        ensures { self.new ≡ self.old ++ number ∷ [] }
    {
        self.numbers.push(number);
    }

    /// Takes a number out.
    pub(crate) fn remove(&mut self, number: u64)
        ensures { self.new ≡ without_number self.old number }
    {
        take_out(&mut self.numbers, number);
    }
}
