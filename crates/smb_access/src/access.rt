//! Access that is asked for and access that is granted.

ghost use Rattle.std.specs.Prelude.{◌≡◌};
ghost use Rattle.smb_access.specs.Access.{granted, is_reading, is_writing, is_deleting, is_past_reading, most_allowed};
ghost use Rattle.smb_access.specs.Parts.{is_bad_access, rights_for, is_writing_attributes};

use bitflags::Flags;
use smb_wire::Access;

/// Every right but to write a file's bytes.
const READ_ONLY_ACCESS: Access = Access(0x1F_01F9);

/// The rights that a session can be granted that may only read: FILE_GENERIC_READ and
/// FILE_GENERIC_EXECUTE together.
const READER_ACCESS: Access = Access(0x12_00A9);

/// Every bit that may be asked for.
const KNOWN_ACCESS: Access = Access(0xF21F_01FF);

/// Whether no access is asked for, or an unknown one.
pub fn is_bad_access(access: Access) -> bool
    ensures { result ≡ is_bad_access access.0 }
{
    access.0 == 0 || access.0 & KNOWN_ACCESS.0 != access.0
}

/// Whether a file's bytes may be read with this access.
pub fn is_reading(access: Access) -> bool
    ensures { result ≡ is_reading access }
{
    access.intersects(Access::READ_DATA) || access.intersects(Access::EXECUTE)
}

/// Whether an entry may be deleted with this access.
pub fn is_deleting(access: Access) -> bool
    ensures { result ≡ is_deleting access }
{
    access.intersects(Access::DELETE)
}

/// Whether a file's bytes may be written with this access.
pub fn is_writing(access: Access) -> bool
    ensures { result ≡ is_writing access }
{
    access.intersects(Access::WRITE_DATA) || access.intersects(Access::APPEND_DATA)
}

/// Whether an entry's times and attributes may be set with this access.
pub fn is_writing_attributes(access: Access) -> bool
    ensures { result ≡ is_writing_attributes access }
{
    access.intersects(Access::WRITE_ATTRIBUTES)
}

/// Whether there is a right that a session does not have that may only read.
pub fn is_past_reading(access: Access) -> bool
    ensures { result ≡ is_past_reading access }
{
    access.0 & READER_ACCESS.0 != access.0
}

/// All that MAXIMUM_ALLOWED stands for: of a session that may only read or of another one, on a read-only file or on
/// another entry.
pub fn most_allowed(read_only: bool, on_read_only: bool) -> Access
    ensures { result.0 ≡ most_allowed read_only on_read_only }
{
    if read_only {
        READER_ACCESS
    } else if on_read_only {
        READ_ONLY_ACCESS
    } else {
        Access::FILE_ALL_ACCESS
    }
}

// The rights that a bit stands for, where it is set.
fn rights_for(access: Access, bit: Access, rights: Access) -> u32
    ensures { result ≡ rights_for access.0 bit.0 rights.0 }
{
    if access.intersects(bit) { rights.0 } else { 0 }
}

/// The access that is granted where this is asked for, to a session that may only read or to another
/// one, on a read-only file or on another entry.
pub fn granted(access: Access, read_only: bool, on_read_only: bool) -> Access
    ensures { result ≡ granted access.0 read_only on_read_only }
{
    let most = most_allowed(read_only, on_read_only);
    Access(
        (access.0 & Access::FILE_ALL_ACCESS.0)
            | (rights_for(access, Access::GENERIC_ALL, Access::FILE_ALL_ACCESS)
                | (rights_for(
                    access,
                    Access::GENERIC_EXECUTE,
                    Access::FILE_GENERIC_EXECUTE,
                ) | (rights_for(access, Access::GENERIC_WRITE, Access::FILE_GENERIC_WRITE)
                    | (rights_for(access, Access::GENERIC_READ, Access::FILE_GENERIC_READ)
                        | rights_for(access, Access::MAXIMUM_ALLOWED, most))))),
    )
}
