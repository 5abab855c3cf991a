//! What a CREATE did ([MS-SMB2] 2.2.14).

ghost use Rattle.std.specs.Prelude.{◌≡◌};
ghost use Rattle.smb_wire.specs.CreateActions.{action_code};

/// What a CREATE did ([MS-SMB2] 2.2.14).
#[derive(Clone, Copy, Debug, PartialEq, Eq)]
pub enum CreateAction {
    /// A file was overwritten, and all its times are new.
    Superseded = 0,
    /// An entry was opened as it is.
    Opened = 1,
    /// An entry was added.
    Created = 2,
    /// A file was overwritten.
    Overwritten = 3,
}

impl CreateAction {
    /// Its number in a response: 0 to 3.
    pub fn code(self) -> u32
        ensures { result ≡ action_code self }
    {
        self as u32
    }
}
