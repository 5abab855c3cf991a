//! What a CREATE is to do where its entry exists, and where it does not ([MS-SMB2] 2.2.13).

ghost use Rattle.std.specs.Prelude.{◌≡◌, nat_lt, None, Some, if◌then◌else◌};
ghost use Rattle.std.specs.Option.{option_map};
ghost use Rattle.smb_wire.specs.Dispositions.{disposition_code, supersedes_by, overwrites_by, must_exist_by, must_be_new_by};

/// A CreateDisposition ([MS-SMB2] 2.2.13).
#[derive(Clone, Copy, Debug, PartialEq, Eq)]
pub enum CreateDisposition {
    /// An entry is replaced, its times too, or added.
    Supersede = 0,
    /// An entry is opened.
    Open = 1,
    /// An entry is added.
    Create = 2,
    /// An entry is opened, or added.
    OpenIf = 3,
    /// An entry is overwritten.
    Overwrite = 4,
    /// An entry is overwritten, or added.
    OverwriteIf = 5,
}

impl CreateDisposition {
    /// Its number in a request, 0 to 5.
    pub fn code(self) -> CreateDispositionCode
        ensures { result.0 ≡ disposition_code self }
    {
        CreateDispositionCode(self as u32)
    }

    /// Whether an entry that exists is replaced, its times too.
    pub fn supersedes(self) -> bool
        ensures { result ≡ supersedes_by (disposition_code self) }
    {
        matches!(self, CreateDisposition::Supersede)
    }

    /// Whether the bytes of a file that exists are overwritten.
    pub fn overwrites(self) -> bool
        ensures { result ≡ overwrites_by (disposition_code self) }
    {
        matches!(
            self,
            CreateDisposition::Supersede
                | CreateDisposition::Overwrite
                | CreateDisposition::OverwriteIf
        )
    }

    /// Whether the entry has to exist.
    pub fn must_exist(self) -> bool
        ensures { result ≡ must_exist_by (disposition_code self) }
    {
        matches!(self, CreateDisposition::Open | CreateDisposition::Overwrite)
    }

    /// Whether the entry has to be new.
    pub fn must_be_new(self) -> bool
        ensures { result ≡ must_be_new_by (disposition_code self) }
    {
        matches!(self, CreateDisposition::Create)
    }
}

/// The CreateDisposition of a request, also one that the standard does not have ([MS-SMB2] 2.2.13).
#[derive(Clone, Copy, Debug, PartialEq, Eq)]
pub struct CreateDispositionCode(pub u32);

impl CreateDispositionCode {
    /// The disposition of this number, or None over 5.
    pub fn known(self) -> Option<CreateDisposition>
        ensures { option_map disposition_code result ≡ (if nat_lt 5 self.0 then None else Some self.0) }
    {
        match self.0 {
            0 => Some(CreateDisposition::Supersede),
            1 => Some(CreateDisposition::Open),
            2 => Some(CreateDisposition::Create),
            3 => Some(CreateDisposition::OpenIf),
            4 => Some(CreateDisposition::Overwrite),
            5 => Some(CreateDisposition::OverwriteIf),
            _ => None,
        }
    }
}
