//! The sentences of CLOSE, READ, WRITE and LOCK.

use smb_refusals::{CloseRefusal, LockRefusal, ReadRefusal, WriteRefusal};

/// Why a CLOSE is refused.
pub(crate) fn close_refusal(refusal: CloseRefusal) -> &'static str {
    match refusal {
        CloseRefusal::UnknownOpen => "FileId is that of no open",
    }
}

/// Why a READ is refused.
pub(crate) fn read_refusal(refusal: ReadRefusal) -> &'static str {
    match refusal {
        ReadRefusal::LengthTooGreat => "Length is more than one READ may ask for",
        ReadRefusal::EntryIsDirectory => "a directory is not read",
        ReadRefusal::ReadNotGranted => "neither READ_DATA nor EXECUTE was granted",
        ReadRefusal::RangeLocked => "another open has an exclusive lock in the range",
        ReadRefusal::EndOfFile =>
            "Offset is at the end of the file or behind it, or there are fewer than MinimumCount bytes",
    }
}

/// Why a WRITE is refused.
pub(crate) fn write_refusal(refusal: WriteRefusal) -> &'static str {
    match refusal {
        WriteRefusal::LengthTooGreat => "Length is more than one WRITE may bring",
        WriteRefusal::EntryIsDirectory => "a directory is not written",
        WriteRefusal::WriteNotGranted =>
            "WRITE_DATA was not granted; or APPEND_DATA alone, and Offset is before the end",
        WriteRefusal::RangeLocked => "a lock bars the range",
        WriteRefusal::NoSpaceLeft =>
            "the file would be longer than the limits allow, or the space used pass the capacity",
    }
}

/// Why a LOCK is refused.
pub(crate) fn lock_refusal(refusal: LockRefusal) -> &'static str {
    match refusal {
        LockRefusal::EntryIsDirectory => "a directory has no locks",
        LockRefusal::FlagsInvalid => "an element has flags that may not be in the request",
        LockRefusal::RangePastTheEnd => "a range reaches past 2^64",
        LockRefusal::NoLockLeft => "the file has as many locks as the limits allow",
        LockRefusal::LockConflicts => "a lock of the file conflicts with the one asked for",
        LockRefusal::RangeNotLocked => "the open holds no lock of this very range",
    }
}
