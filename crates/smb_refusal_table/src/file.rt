//! The rows of CLOSE, READ, WRITE and LOCK, in the order in which they are looked at.

use crate::table::Table;
use smb_refusals::{CloseRefusal, LockRefusal, ReadRefusal, Refusal, WriteRefusal};

pub(crate) const CLOSE: Table = Table {
    name: "CLOSE",
    rows: &[Refusal::Close(CloseRefusal::UnknownOpen)],
};

pub(crate) const READ: Table = Table {
    name: "READ",
    rows: &[
        Refusal::Read(ReadRefusal::LengthTooGreat),
        Refusal::Read(ReadRefusal::EntryIsDirectory),
        Refusal::Read(ReadRefusal::ReadNotGranted),
        Refusal::Read(ReadRefusal::RangeLocked),
        Refusal::Read(ReadRefusal::EndOfFile),
    ],
};

pub(crate) const WRITE: Table = Table {
    name: "WRITE",
    rows: &[
        Refusal::Write(WriteRefusal::LengthTooGreat),
        Refusal::Write(WriteRefusal::EntryIsDirectory),
        Refusal::Write(WriteRefusal::WriteNotGranted),
        Refusal::Write(WriteRefusal::RangeLocked),
        Refusal::Write(WriteRefusal::NoSpaceLeft),
    ],
};

pub(crate) const LOCK: Table = Table {
    name: "LOCK",
    rows: &[
        Refusal::Lock(LockRefusal::EntryIsDirectory),
        Refusal::Lock(LockRefusal::FlagsInvalid),
        Refusal::Lock(LockRefusal::RangePastTheEnd),
        Refusal::Lock(LockRefusal::NoLockLeft),
        Refusal::Lock(LockRefusal::LockConflicts),
        Refusal::Lock(LockRefusal::RangeNotLocked),
    ],
};
