//! A refusal of a table, as one of a request.

ghost use Rattle.std.specs.Prelude.{◌≡◌};
ghost use Rattle.smb_refusals.specs.Refused.{refused_as};
ghost use Rattle.smb_refusals.specs.declared.refusal.Refusal.{Refusal};
ghost use Rattle.smb_refusals.specs.declared.refused_by.RefusedBy.TheVariants.{Row};

use super::create::CreateRefusal;
use super::file::{CloseRefusal, LockRefusal, ReadRefusal, WriteRefusal};
use super::query::{QueryDirectoryRefusal, QueryInfoRefusal};
use super::refusal::Refusal;
use super::refused_by::RefusedBy;
use super::request::{NegotiateRefusal, RequestRefusal};
use super::session::{LogoffRefusal, SetupRefusal, TreeConnectRefusal, TreeDisconnectRefusal};
use super::set_info::{
    RenameRefusal, SetBasicRefusal, SetDispositionRefusal, SetInfoRefusal, SetSizeRefusal,
};

impl From<RequestRefusal> for RefusedBy<Refusal> {
    ghost from_gives = { λ refusal refused. refused ≡ Row (Refusal.Request refusal) };

    fn from(refusal: RequestRefusal) -> RefusedBy<Refusal> {
        RefusedBy::Row(Refusal::Request(refusal))
    }
}

impl From<NegotiateRefusal> for RefusedBy<Refusal> {
    ghost from_gives = { λ refusal refused. refused ≡ Row (Refusal.Negotiate refusal) };

    fn from(refusal: NegotiateRefusal) -> RefusedBy<Refusal> {
        RefusedBy::Row(Refusal::Negotiate(refusal))
    }
}

impl From<SetupRefusal> for RefusedBy<Refusal> {
    ghost from_gives = { λ refusal refused. refused ≡ Row (Refusal.SessionSetup refusal) };

    fn from(refusal: SetupRefusal) -> RefusedBy<Refusal> {
        RefusedBy::Row(Refusal::SessionSetup(refusal))
    }
}

impl From<LogoffRefusal> for RefusedBy<Refusal> {
    ghost from_gives = { λ refusal refused. refused ≡ Row (Refusal.Logoff refusal) };

    fn from(refusal: LogoffRefusal) -> RefusedBy<Refusal> {
        RefusedBy::Row(Refusal::Logoff(refusal))
    }
}

impl From<TreeConnectRefusal> for RefusedBy<Refusal> {
    ghost from_gives = { λ refusal refused. refused ≡ Row (Refusal.TreeConnect refusal) };

    fn from(refusal: TreeConnectRefusal) -> RefusedBy<Refusal> {
        RefusedBy::Row(Refusal::TreeConnect(refusal))
    }
}

impl From<TreeDisconnectRefusal> for RefusedBy<Refusal> {
    ghost from_gives = { λ refusal refused. refused ≡ Row (Refusal.TreeDisconnect refusal) };

    fn from(refusal: TreeDisconnectRefusal) -> RefusedBy<Refusal> {
        RefusedBy::Row(Refusal::TreeDisconnect(refusal))
    }
}

impl From<CreateRefusal> for RefusedBy<Refusal> {
    ghost from_gives = { λ refusal refused. refused ≡ Row (Refusal.Create refusal) };

    fn from(refusal: CreateRefusal) -> RefusedBy<Refusal> {
        RefusedBy::Row(Refusal::Create(refusal))
    }
}

impl From<CloseRefusal> for RefusedBy<Refusal> {
    ghost from_gives = { λ refusal refused. refused ≡ Row (Refusal.Close refusal) };

    fn from(refusal: CloseRefusal) -> RefusedBy<Refusal> {
        RefusedBy::Row(Refusal::Close(refusal))
    }
}

impl From<ReadRefusal> for RefusedBy<Refusal> {
    ghost from_gives = { λ refusal refused. refused ≡ Row (Refusal.Read refusal) };

    fn from(refusal: ReadRefusal) -> RefusedBy<Refusal> {
        RefusedBy::Row(Refusal::Read(refusal))
    }
}

impl From<WriteRefusal> for RefusedBy<Refusal> {
    ghost from_gives = { λ refusal refused. refused ≡ Row (Refusal.Write refusal) };

    fn from(refusal: WriteRefusal) -> RefusedBy<Refusal> {
        RefusedBy::Row(Refusal::Write(refusal))
    }
}

impl From<LockRefusal> for RefusedBy<Refusal> {
    ghost from_gives = { λ refusal refused. refused ≡ Row (Refusal.Lock refusal) };

    fn from(refusal: LockRefusal) -> RefusedBy<Refusal> {
        RefusedBy::Row(Refusal::Lock(refusal))
    }
}

impl From<QueryDirectoryRefusal> for RefusedBy<Refusal> {
    ghost from_gives = { λ refusal refused. refused ≡ Row (Refusal.QueryDirectory refusal) };

    fn from(refusal: QueryDirectoryRefusal) -> RefusedBy<Refusal> {
        RefusedBy::Row(Refusal::QueryDirectory(refusal))
    }
}

impl From<QueryInfoRefusal> for RefusedBy<Refusal> {
    ghost from_gives = { λ refusal refused. refused ≡ Row (Refusal.QueryInfo refusal) };

    fn from(refusal: QueryInfoRefusal) -> RefusedBy<Refusal> {
        RefusedBy::Row(Refusal::QueryInfo(refusal))
    }
}

impl From<SetInfoRefusal> for RefusedBy<Refusal> {
    ghost from_gives = { λ refusal refused. refused ≡ Row (Refusal.SetInfo refusal) };

    fn from(refusal: SetInfoRefusal) -> RefusedBy<Refusal> {
        RefusedBy::Row(Refusal::SetInfo(refusal))
    }
}

impl From<SetBasicRefusal> for RefusedBy<Refusal> {
    ghost from_gives = { λ refusal refused. refused ≡ Row (Refusal.SetBasic refusal) };

    fn from(refusal: SetBasicRefusal) -> RefusedBy<Refusal> {
        RefusedBy::Row(Refusal::SetBasic(refusal))
    }
}

impl From<SetDispositionRefusal> for RefusedBy<Refusal> {
    ghost from_gives = { λ refusal refused. refused ≡ Row (Refusal.SetDisposition refusal) };

    fn from(refusal: SetDispositionRefusal) -> RefusedBy<Refusal> {
        RefusedBy::Row(Refusal::SetDisposition(refusal))
    }
}

impl From<SetSizeRefusal> for RefusedBy<Refusal> {
    ghost from_gives = { λ refusal refused. refused ≡ Row (Refusal.SetSize refusal) };

    fn from(refusal: SetSizeRefusal) -> RefusedBy<Refusal> {
        RefusedBy::Row(Refusal::SetSize(refusal))
    }
}

impl From<RenameRefusal> for RefusedBy<Refusal> {
    ghost from_gives = { λ refusal refused. refused ≡ Row (Refusal.Rename refusal) };

    fn from(refusal: RenameRefusal) -> RefusedBy<Refusal> {
        RefusedBy::Row(Refusal::Rename(refusal))
    }
}

impl From<RefusedBy<SetupRefusal>> for RefusedBy<Refusal> {
    ghost from_gives = { λ refused all. all ≡ refused_as (λ refusal. Refusal.SessionSetup refusal) refused };

    fn from(refused: RefusedBy<SetupRefusal>) -> RefusedBy<Refusal> {
        match refused {
            RefusedBy::Row(refusal) => RefusedBy::Row(Refusal::SessionSetup(refusal)),
            RefusedBy::NoMemory => RefusedBy::NoMemory,
        }
    }
}

impl From<RefusedBy<CreateRefusal>> for RefusedBy<Refusal> {
    ghost from_gives = { λ refused all. all ≡ refused_as (λ refusal. Refusal.Create refusal) refused };

    fn from(refused: RefusedBy<CreateRefusal>) -> RefusedBy<Refusal> {
        match refused {
            RefusedBy::Row(refusal) => RefusedBy::Row(Refusal::Create(refusal)),
            RefusedBy::NoMemory => RefusedBy::NoMemory,
        }
    }
}

impl From<RefusedBy<WriteRefusal>> for RefusedBy<Refusal> {
    ghost from_gives = { λ refused all. all ≡ refused_as (λ refusal. Refusal.Write refusal) refused };

    fn from(refused: RefusedBy<WriteRefusal>) -> RefusedBy<Refusal> {
        match refused {
            RefusedBy::Row(refusal) => RefusedBy::Row(Refusal::Write(refusal)),
            RefusedBy::NoMemory => RefusedBy::NoMemory,
        }
    }
}

impl From<RefusedBy<LockRefusal>> for RefusedBy<Refusal> {
    ghost from_gives = { λ refused all. all ≡ refused_as (λ refusal. Refusal.Lock refusal) refused };

    fn from(refused: RefusedBy<LockRefusal>) -> RefusedBy<Refusal> {
        match refused {
            RefusedBy::Row(refusal) => RefusedBy::Row(Refusal::Lock(refusal)),
            RefusedBy::NoMemory => RefusedBy::NoMemory,
        }
    }
}

impl From<RefusedBy<QueryDirectoryRefusal>> for RefusedBy<Refusal> {
    ghost from_gives = { λ refused all. all ≡ refused_as (λ refusal. Refusal.QueryDirectory refusal) refused };

    fn from(refused: RefusedBy<QueryDirectoryRefusal>) -> RefusedBy<Refusal> {
        match refused {
            RefusedBy::Row(refusal) => RefusedBy::Row(Refusal::QueryDirectory(refusal)),
            RefusedBy::NoMemory => RefusedBy::NoMemory,
        }
    }
}

impl From<RefusedBy<QueryInfoRefusal>> for RefusedBy<Refusal> {
    ghost from_gives = { λ refused all. all ≡ refused_as (λ refusal. Refusal.QueryInfo refusal) refused };

    fn from(refused: RefusedBy<QueryInfoRefusal>) -> RefusedBy<Refusal> {
        match refused {
            RefusedBy::Row(refusal) => RefusedBy::Row(Refusal::QueryInfo(refusal)),
            RefusedBy::NoMemory => RefusedBy::NoMemory,
        }
    }
}

impl From<RefusedBy<SetSizeRefusal>> for RefusedBy<Refusal> {
    ghost from_gives = { λ refused all. all ≡ refused_as (λ refusal. Refusal.SetSize refusal) refused };

    fn from(refused: RefusedBy<SetSizeRefusal>) -> RefusedBy<Refusal> {
        match refused {
            RefusedBy::Row(refusal) => RefusedBy::Row(Refusal::SetSize(refusal)),
            RefusedBy::NoMemory => RefusedBy::NoMemory,
        }
    }
}

impl From<RefusedBy<RenameRefusal>> for RefusedBy<Refusal> {
    ghost from_gives = { λ refused all. all ≡ refused_as (λ refusal. Refusal.Rename refusal) refused };

    fn from(refused: RefusedBy<RenameRefusal>) -> RefusedBy<Refusal> {
        match refused {
            RefusedBy::Row(refusal) => RefusedBy::Row(Refusal::Rename(refusal)),
            RefusedBy::NoMemory => RefusedBy::NoMemory,
        }
    }
}
