//! A share whose files are kept in a journal.

ghost use Rattle.std.specs.Prelude.{◌≡◌, IfOk};
ghost use Rattle.smb_opens.specs.Good.{UnmarkedTree};

use crate::clock::ServeClock;
use crate::filling::{check_put, put_in, with_own_client};
use crate::journal_watch::{JournalWatch, OnDisk};
use crate::serve::{Serving, end_of, listening_peers, serve_watched};
use crate::shown_journal::room_of;
use crate::sight::Sight;
use smb_command_parts::{Fault, Severity, random_number, say, say_cut_batch};
use smb_engine::{Authenticator, Config, HandleTable, Opens, ServeFault, Share, Tree};
use smb_journal::{LimitedConfig, Mailbox};
use smb_journal_file::NextWords;
use smb_journal_start::{KeptTree, Space};
use smb_kept::{JournalWords, Kept, KeptFault, KeptPeers, keep_changes, path_of};
use smb_peers::{Peers, Stopping};
use smb_reason::{Reason, Shown};
use smb_wire::limits::Limits;
use std::alloc::Global;

/// A share whose files are kept.
type KeptShare<'a, A> = Share<A, KeptTree<'a>, HandleTable>;

/// Serves a share whose files are kept to peers, and ends all connections. Gives the peers, and why not all is kept;
/// None where it is.
fn serve_kept_to<
    'a,
    A: Authenticator + Drop,
    T: Tree + OnDisk + Drop,
    O: Opens + Drop,
    P: Peers + Stopping + Drop,
>(
    serving: Serving<'a, '_>,
    share: &mut Share<A, T, O>,
    peers: P,
    clock: &mut ServeClock<'_>,
    sight: &Sight<'a>,
) -> Result<(P, Option<Reason>), Fault> {
    let sync = &serving.words.facts.sync;
    let mut kept = KeptPeers::new(serving.rt, peers, sync);
    let mut watch = JournalWatch::new(serving, sight)?;
    serve_watched(serving, share, &mut kept, clock, sight, &mut watch);
    share.end_all();
    sync.note_another(false);
    let last = share.keep_changes().err();
    share.server().store().tree().sync_rest();
    let (peers, failure) = kept.finish();
    Ok((peers, failure.or(last)))
}

/// Serves a share whose files are kept, and whose next connection has the number `next`, for as many turns as the words
/// say.
fn serve_kept<A: Authenticator + Drop, T: Tree + OnDisk + Drop, O: Opens + Drop>(
    serving: Serving<'_, '_>,
    share: &mut Share<A, T, O>,
    clock: &mut ServeClock<'_>,
    next: u64,
) -> Result<(), Fault> {
    let Serving {
        rt,
        words,
        entrance,
        ..
    } = serving;
    let sight = Sight::of(serving)?;
    let peers = match listening_peers(rt, words, entrance, &sight, next) {
        Ok(peers) => peers,
        Err(fault) => return Err(fault),
    };
    match serve_kept_to(serving, share, peers, clock, &sight) {
        Ok((peers, failure)) => end_of(rt.alloc(), peers, share.usage(), "journal", failure),
        Err(fault) => Err(fault),
    }
}

/// A share over a tree that holds files, none of which is marked.
fn share_over<A: Authenticator + Drop, T: Tree + Drop>(
    alloc: Global,
    limits: Limits,
    config: Config,
    authenticator: A,
    tree: T,
) -> Result<Share<A, T, HandleTable>, Fault>
    requires unmarked { UnmarkedTree (T.content tree) }
    requires capacity { (T.content tree).capacity ≡ config.capacity }
    requires limits { (T.content tree).limits ≡ limits }
{
    let opens = HandleTable::new(alloc);
    match Share::over(alloc, limits, config, authenticator, tree, opens) {
        Ok(share) => Ok(share),
        Err(ServeFault::NoMemory { .. }) => Err(Fault::Kept(KeptFault::NoMemory)),
        Err(_) => Err(Fault::Kept(KeptFault::BadConfig)),
    }
}

/// A share over the files of a journal, which is made where it is not there, with the room of the file `room`. Once
/// `next` has its path it is written anew there where it gets long.
fn kept_share<'a, A: Authenticator + Drop>(
    next: NextWords<'a>,
    journal: JournalWords<'_>,
    room: &str,
    limited: LimitedConfig,
    authenticator: A,
) -> Result<KeptShare<'a, A>, Fault> {
    let rt = next.rt;
    let LimitedConfig { limits, config } = limited;
    let space = Space {
        limits,
        capacity: config.capacity,
        created: config.created,
    };
    let Kept { tree, left_out } = keep_changes(next, journal, room, random_number()?, space)?;
    say_cut_batch(rt, journal.path, left_out);
    share_over(rt.alloc(), limits, config, authenticator, tree)
}

/// Serves a share whose files are kept, and which no connection came to yet.
fn serve_begun<A: Authenticator + Drop, T: Tree + OnDisk + Drop, O: Opens + Drop>(
    serving: Serving<'_, '_>,
    mut share: Share<A, T, O>,
) -> Result<(), Fault> {
    let mut clock = ServeClock::new(serving.rt, serving.words.clock);
    serve_kept(serving, &mut share, &mut clock, 1)
}

/// Serves a share with the files of a journal, which is made where it is not there.
pub fn serve_journal<A: Authenticator + Drop>(
    serving: Serving<'_, '_>,
    journal: JournalWords<'_>,
    limited: LimitedConfig,
    authenticator: A,
) -> Result<(), Fault> {
    let room = room_of(serving.rt.alloc(), journal)?;
    let next = NextWords {
        rt: serving.rt,
        path: journal.path,
        sync: &serving.words.facts.sync,
    };
    match kept_share(next, journal, room.as_str(), limited, authenticator) {
        Ok(share) => serve_begun(serving, share),
        Err(fault) => Err(fault),
    }
}

/// Says on standard error that a folder is not read.
pub fn say_not_read(rt: &HostRuntime, folder: &str, journal: JournalWords<'_>) {
    let (folder, path) = (Shown(folder.as_bytes()), Shown(journal.path.as_bytes()));
    let line = format_args!(
        "{folder}: not read again: the share has the files of the journal {path}"
    );
    say(rt, Severity::Informational, line);
}

/// Serves a share that is kept in a journal that was made, once the files of a folder are put in and it has its name.
fn serve_filled<A: Authenticator + Drop, T: Tree + OnDisk + Drop, O: Opens + Drop>(
    serving: Serving<'_, '_>,
    folder: &str,
    path: &str,
    made: JournalWords<'_>,
    journal: JournalWords<'_>,
    mut share: Share<A, T, O>,
) -> Result<(), Fault> {
    let mut clock = ServeClock::new(serving.rt, serving.words.clock);
    let put = match put_in(serving, folder, path, &mut share, &mut clock, None) {
        Ok(put) => put,
        Err(fault) => {
            return Err(Fault::Kept(match share.server().store().tree().lacks_room() {
                Some(reason) => KeptFault::RecordFailed(reason),
                None => fault,
            }));
        }
    };
    check_put(serving, folder, &put)?;
    journal.refuse_bytes(serving.rt)?;
    made.give_name(serving.rt, journal.path)?;
    serve_kept(serving, &mut share, &mut clock, 2)
}

/// Serves a new share that begins with the files of a folder, and is kept in a journal, which is not there yet: it is
/// made under another name, and gets its own once all of them are put in. After a fault none is there.
pub fn serve_journal_folder<A: Authenticator + Drop>(
    serving: Serving<'_, '_>,
    journal: JournalWords<'_>,
    folder: &str,
    limited: LimitedConfig,
    authenticator: A,
) -> Result<(), Fault> {
    let rt = serving.rt;
    let (alloc, name) = (rt.alloc(), journal.path);
    let path = path_of(alloc, limited.config.share.as_str())?;
    let made_path = format!(in alloc; "{name}.new")?;
    let made = JournalWords {
        path: made_path.as_str(),
        ..journal
    };
    made.remove_left(rt)?;
    let mailbox = Mailbox::new(alloc);
    mailbox.close();
    let login = with_own_client(alloc, authenticator, &mailbox)?;
    let room_path = room_of(alloc, journal)?;
    let room = JournalWords {
        path: room_path.as_str(),
        ..journal
    };
    let next = NextWords {
        rt,
        path: journal.path,
        sync: &serving.words.facts.sync,
    };
    let served = match kept_share(next, made, room.path, limited, login) {
        Ok(share) => serve_filled(serving, folder, path.as_str(), made, journal, share),
        Err(fault) => Err(fault),
    };
    if served.is_err() {
        let _ = made.remove_left(rt);
        let _ = room.remove_left(rt);
    }
    served
}
