//! A file under a name that need not be text.

use crate::credential::is_credential;
use crate::mode::{Others, everyone_writes, others_of};
use smb_config::{ConfigFault, ConfigRule};
use std::io;
use std::io::Read;

/// A file that is open for reading.
pub struct NamedFile {
    descriptor: i32,
}

/// Why the last call of the system failed.
fn last_error() -> io::Error {
    io::Error::from_raw_os_error(os::errno())
}

impl NamedFile {
    /// Opens a file.
    pub fn open(name: &[u8]) -> Result<Self, ConfigFault> {
        let descriptor = os::open_read(name);
        if descriptor >= 0 {
            return Ok(NamedFile { descriptor });
        }
        Err(ConfigFault::from(last_error().kind()))
    }

    /// Opens a file that nobody but its owner has a right to, or a credential of a service of systemd, which its group or whom an ACL
    /// names may read too; any other breaks [`ConfigRule::Mode`].
    pub fn open_private(rt: &HostRuntime, name: &[u8]) -> Result<Self, ConfigFault> {
        let file = Self::open(name)?;
        match others_of(rt, file.descriptor) {
            Ok(Others::Nobody) => Ok(file),
            Ok(Others::Readers) if is_credential(rt, name) => Ok(file),
            Ok(_) => Err(ConfigFault::Refused(ConfigRule::Mode)),
            Err(error) => Err(ConfigFault::from(error.kind())),
        }
    }

    /// Whether everyone may write to the file; false where that cannot be seen.
    pub fn is_writable(&self, rt: &HostRuntime) -> bool {
        everyone_writes(rt, self.descriptor).unwrap_or(false)
    }
}

impl Read for NamedFile {
    fn read(&mut self, buf: &mut [u8]) -> io::Result<usize> {
        match usize::try_from(libc::read(self.descriptor, buf)) {
            Ok(count) => Ok(count),
            Err(_) => Err(last_error()),
        }
    }
}

impl Drop for NamedFile {
    fn drop(self) {
        let NamedFile { descriptor } = self;
        libc::close(descriptor);
    }
}
