//! Where a journal that is written anew has come to.

ghost use Rattle.std.specs.Prelude.{◌≡◌, None};

use smb_tree::EntryNo;

/// Where a journal that is written anew has come to: all entries below a number are written, and of the entry of that
/// number, where it is begun, so many bytes.
#[derive(Clone, Copy, Debug)]
pub struct Place {
    pub number: EntryNo,
    pub begun: Option<u64>,
}

impl Place {
    /// Before the entry of a number.
    pub fn before(number: EntryNo) -> Place
        ensures { (result.number ≡ number) × (result.begun ≡ None) }
    {
        Place {
            number,
            begun: None,
        }
    }
}
