//! Statuses by name.

use smb_wire::NtStatus;
use std::fmt;

/// The status of a reply ([MS-ERREF] 2.3.1). It is printed by the standard's name, such as `STATUS_ACCESS_DENIED`, where
/// the share answers it, and else as its number, such as `0xC0000001`.
#[derive(Clone, Copy, Debug, PartialEq, Eq)]
pub struct Status(pub u32);

impl fmt::Display for Status {
    fn fmt<W: fmt::Write>(&self, f: &mut fmt::Formatter<W>) -> fmt::Result {
        match NtStatus::known(self.0) {
            Some(status) => f.write_str(status.name()),
            None => {
                let number = self.0;
                write!(f, "0x{number:08X}")
            }
        }
    }
}
