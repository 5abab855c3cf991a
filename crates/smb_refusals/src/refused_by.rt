//! How a call is refused.

ghost use Rattle.std.specs.Prelude.{◌≡◌};

use super::create::CreateRefusal;
use super::file::{CloseRefusal, LockRefusal, ReadRefusal, WriteRefusal};
use super::query::{QueryDirectoryRefusal, QueryInfoRefusal};
use super::refusal::Refusal;
use super::request::{NegotiateRefusal, RequestRefusal};
use super::session::{LogoffRefusal, SetupRefusal, TreeConnectRefusal, TreeDisconnectRefusal};
use super::set_info::{
    RenameRefusal, SetBasicRefusal, SetDispositionRefusal, SetInfoRefusal, SetSizeRefusal,
};
use std::alloc::AllocError;

/// Why a call gives nothing. All is as it was.
#[derive(Clone, Copy)]
pub enum RefusedBy<R> {
    /// The first row of its table that holds.
    Row(R),
    /// No row holds, and an allocation was refused.
    NoMemory,
}

impl<R> From<AllocError> for RefusedBy<R> {
    ghost use Rattle.smb_refusals.specs.declared.refused_by.RefusedBy.TheVariants.{NoMemory};

    ghost from_gives = { λ _ refused. refused ≡ NoMemory };

    fn from(_error: AllocError) -> RefusedBy<R> {
        RefusedBy::NoMemory
    }
}

impl From<SetupRefusal> for RefusedBy<SetupRefusal> {
    ghost use Rattle.smb_refusals.specs.declared.refused_by.RefusedBy.TheVariants.{Row};

    ghost from_gives = { λ refusal refused. refused ≡ Row refusal };

    fn from(refusal: SetupRefusal) -> RefusedBy<SetupRefusal> {
        RefusedBy::Row(refusal)
    }
}

impl From<CreateRefusal> for RefusedBy<CreateRefusal> {
    ghost use Rattle.smb_refusals.specs.declared.refused_by.RefusedBy.TheVariants.{Row};

    ghost from_gives = { λ refusal refused. refused ≡ Row refusal };

    fn from(refusal: CreateRefusal) -> RefusedBy<CreateRefusal> {
        RefusedBy::Row(refusal)
    }
}

impl From<WriteRefusal> for RefusedBy<WriteRefusal> {
    ghost use Rattle.smb_refusals.specs.declared.refused_by.RefusedBy.TheVariants.{Row};

    ghost from_gives = { λ refusal refused. refused ≡ Row refusal };

    fn from(refusal: WriteRefusal) -> RefusedBy<WriteRefusal> {
        RefusedBy::Row(refusal)
    }
}

impl From<LockRefusal> for RefusedBy<LockRefusal> {
    ghost use Rattle.smb_refusals.specs.declared.refused_by.RefusedBy.TheVariants.{Row};

    ghost from_gives = { λ refusal refused. refused ≡ Row refusal };

    fn from(refusal: LockRefusal) -> RefusedBy<LockRefusal> {
        RefusedBy::Row(refusal)
    }
}

impl From<QueryDirectoryRefusal> for RefusedBy<QueryDirectoryRefusal> {
    ghost use Rattle.smb_refusals.specs.declared.refused_by.RefusedBy.TheVariants.{Row};

    ghost from_gives = { λ refusal refused. refused ≡ Row refusal };

    fn from(refusal: QueryDirectoryRefusal) -> RefusedBy<QueryDirectoryRefusal> {
        RefusedBy::Row(refusal)
    }
}

impl From<QueryInfoRefusal> for RefusedBy<QueryInfoRefusal> {
    ghost use Rattle.smb_refusals.specs.declared.refused_by.RefusedBy.TheVariants.{Row};

    ghost from_gives = { λ refusal refused. refused ≡ Row refusal };

    fn from(refusal: QueryInfoRefusal) -> RefusedBy<QueryInfoRefusal> {
        RefusedBy::Row(refusal)
    }
}

impl From<SetSizeRefusal> for RefusedBy<SetSizeRefusal> {
    ghost use Rattle.smb_refusals.specs.declared.refused_by.RefusedBy.TheVariants.{Row};

    ghost from_gives = { λ refusal refused. refused ≡ Row refusal };

    fn from(refusal: SetSizeRefusal) -> RefusedBy<SetSizeRefusal> {
        RefusedBy::Row(refusal)
    }
}

impl From<RenameRefusal> for RefusedBy<RenameRefusal> {
    ghost use Rattle.smb_refusals.specs.declared.refused_by.RefusedBy.TheVariants.{Row};

    ghost from_gives = { λ refusal refused. refused ≡ Row refusal };

    fn from(refusal: RenameRefusal) -> RefusedBy<RenameRefusal> {
        RefusedBy::Row(refusal)
    }
}
