//! Why CLOSE, READ, WRITE and LOCK are refused ([MS-SMB2] 3.3.5.10 and behind it).

ghost use Rattle.std.specs.Prelude.{◌≡◌};
ghost use Rattle.smb_refusals.specs.Refusals.{refusal_status, refusal_label};
ghost use Rattle.smb_refusals.specs.declared.refusal.Refusal.{Refusal};

use smb_wire::NtStatus;

/// Why a CLOSE is refused, in the order in which it is looked at ([MS-SMB2] 3.3.5.10).
#[derive(Clone, Copy)]
pub enum CloseRefusal {
    /// CL1: FileId is that of no open.
    UnknownOpen,
}

impl CloseRefusal {
    /// The status that answers it.
    pub fn status(self) -> NtStatus
        ensures { result ≡ refusal_status (Refusal.Close self) }
    {
        match self {
            CloseRefusal::UnknownOpen => NtStatus::FileClosed,
        }
    }

    /// The label of its row in docs/PROFILE.md.
    pub fn label(self) -> &'static str
        ensures { result.now ≡ refusal_label (Refusal.Close self) }
    {
        match self {
            CloseRefusal::UnknownOpen => "CL1",
        }
    }
}

/// Why a READ is refused, in the order in which it is looked at ([MS-SMB2] 3.3.5.12).
#[derive(Clone, Copy)]
pub enum ReadRefusal {
    /// RD1: Length is more than one READ may ask for.
    LengthTooGreat,
    /// RD2: a directory is not read.
    EntryIsDirectory,
    /// RD3: neither READ_DATA nor EXECUTE was granted.
    ReadNotGranted,
    /// RD4: another open has an exclusive lock in the range.
    RangeLocked,
    /// RD5: Offset is at the end of the file or behind it, or there are fewer than MinimumCount bytes.
    EndOfFile,
}

impl ReadRefusal {
    /// The status that answers it.
    pub fn status(self) -> NtStatus
        ensures { result ≡ refusal_status (Refusal.Read self) }
    {
        match self {
            ReadRefusal::LengthTooGreat => NtStatus::InvalidParameter,
            ReadRefusal::EntryIsDirectory => NtStatus::InvalidDeviceRequest,
            ReadRefusal::ReadNotGranted => NtStatus::AccessDenied,
            ReadRefusal::RangeLocked => NtStatus::FileLockConflict,
            ReadRefusal::EndOfFile => NtStatus::EndOfFile,
        }
    }

    /// The label of its row in docs/PROFILE.md.
    pub fn label(self) -> &'static str
        ensures { result.now ≡ refusal_label (Refusal.Read self) }
    {
        match self {
            ReadRefusal::LengthTooGreat => "RD1",
            ReadRefusal::EntryIsDirectory => "RD2",
            ReadRefusal::ReadNotGranted => "RD3",
            ReadRefusal::RangeLocked => "RD4",
            ReadRefusal::EndOfFile => "RD5",
        }
    }
}

/// Why a WRITE is refused, in the order in which it is looked at ([MS-SMB2] 3.3.5.13).
#[derive(Clone, Copy)]
pub enum WriteRefusal {
    /// WR1: Length is more than one WRITE may bring.
    LengthTooGreat,
    /// WR2: a directory is not written.
    EntryIsDirectory,
    /// WR3: WRITE_DATA was not granted; or APPEND_DATA alone, and Offset is before the end.
    WriteNotGranted,
    /// WR4: a lock bars the range.
    RangeLocked,
    /// WR5: the file would be longer than the limits allow, or the space used pass the capacity.
    NoSpaceLeft,
}

impl WriteRefusal {
    /// The status that answers it.
    pub fn status(self) -> NtStatus
        ensures { result ≡ refusal_status (Refusal.Write self) }
    {
        match self {
            WriteRefusal::LengthTooGreat => NtStatus::InvalidParameter,
            WriteRefusal::EntryIsDirectory => NtStatus::InvalidDeviceRequest,
            WriteRefusal::WriteNotGranted => NtStatus::AccessDenied,
            WriteRefusal::RangeLocked => NtStatus::FileLockConflict,
            WriteRefusal::NoSpaceLeft => NtStatus::DiskFull,
        }
    }

    /// The label of its row in docs/PROFILE.md.
    pub fn label(self) -> &'static str
        ensures { result.now ≡ refusal_label (Refusal.Write self) }
    {
        match self {
            WriteRefusal::LengthTooGreat => "WR1",
            WriteRefusal::EntryIsDirectory => "WR2",
            WriteRefusal::WriteNotGranted => "WR3",
            WriteRefusal::RangeLocked => "WR4",
            WriteRefusal::NoSpaceLeft => "WR5",
        }
    }
}

/// Why a LOCK is refused, in the order in which it is looked at ([MS-SMB2] 3.3.5.14).
#[derive(Clone, Copy)]
pub enum LockRefusal {
    /// LK1: a directory has no locks.
    EntryIsDirectory,
    /// LK2: an element has flags that may not be in the request.
    FlagsInvalid,
    /// LK3: a range reaches past 2^64.
    RangePastTheEnd,
    /// LK4: the file has as many locks as the limits allow.
    NoLockLeft,
    /// LK5: a lock of the file conflicts with the one asked for.
    LockConflicts,
    /// LK6: the open holds no lock of this very range.
    RangeNotLocked,
}

impl LockRefusal {
    /// The status that answers it.
    pub fn status(self) -> NtStatus
        ensures { result ≡ refusal_status (Refusal.Lock self) }
    {
        match self {
            LockRefusal::EntryIsDirectory => NtStatus::InvalidDeviceRequest,
            LockRefusal::FlagsInvalid => NtStatus::InvalidParameter,
            LockRefusal::RangePastTheEnd => NtStatus::InvalidLockRange,
            LockRefusal::NoLockLeft | LockRefusal::LockConflicts => NtStatus::LockNotGranted,
            LockRefusal::RangeNotLocked => NtStatus::RangeNotLocked,
        }
    }

    /// The label of its row in docs/PROFILE.md.
    pub fn label(self) -> &'static str
        ensures { result.now ≡ refusal_label (Refusal.Lock self) }
    {
        match self {
            LockRefusal::EntryIsDirectory => "LK1",
            LockRefusal::FlagsInvalid => "LK2",
            LockRefusal::RangePastTheEnd => "LK3",
            LockRefusal::NoLockLeft => "LK4",
            LockRefusal::LockConflicts => "LK5",
            LockRefusal::RangeNotLocked => "LK6",
        }
    }
}
