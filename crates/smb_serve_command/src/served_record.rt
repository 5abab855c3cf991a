//! A share that is recorded.

use crate::clock::ServeClock;
use crate::filling::{check_put, put_in, with_own_client};
use crate::serve::{Serving, end_of, listening_peers, serve_seen};
use crate::sight::Sight;
use smb_command_parts::Fault;
use smb_engine::{Authenticator, Opens, Share, Tree};
use smb_journal::{LimitedConfig, Mailbox, RecordedClock, RecordedPeers, Recorder};
use smb_kept::{
    KeepWords, Keeping, KeptFault, OwnRecord, own_answer, path_of, recorded_login, share_of,
};
use smb_peers::{Peers, Stopping};
use smb_reason::Reason;
use std::cell::Cell;
use std::collections::VecDeque;
use std::fs::File;

/// What recorded peers share with the clock and the authenticator of their share.
#[derive(Clone, Copy)]
struct Shared<'a> {
    moment: &'a Cell<u64>,
    mailbox: &'a Mailbox,
}

/// Serves a share of which all is recorded to peers, the next of whose connections has the number `next`. Gives the
/// peers, and why not all is recorded; None where it is.
fn serve_recorded_to<
    'l,
    'a,
    A: Authenticator + Drop,
    T: Tree + Drop,
    O: Opens + Drop,
    P: Peers + Stopping + Drop,
>(
    serving: Serving<'a, '_>,
    share: &mut Share<A, T, O>,
    peers: P,
    recorder: Recorder<File>,
    next: u64,
    shared: Shared<'l>,
    clock: ServeClock<'a>,
    sight: &Sight<'a>,
) -> Result<(P, Option<Reason>), Fault> {
    let alloc = serving.rt.alloc();
    let Shared { moment, mailbox } = shared;
    let mut recorded = RecordedPeers::new(alloc, peers, clock, moment, mailbox, recorder, next)?;
    let mut told = RecordedClock::new(moment);
    serve_seen(serving, share, &mut recorded, &mut told, sight)?;
    let (recorder, peers) = recorded.finish();
    Ok((peers, recorder.failure()))
}

/// Serves a share of which all is recorded, and whose next connection has the number `next`.
fn serve_begun<'a, A: Authenticator + Drop, T: Tree + Drop, O: Opens + Drop>(
    serving: Serving<'a, '_>,
    share: &mut Share<A, T, O>,
    recorder: Recorder<File>,
    next: u64,
    mailbox: &Mailbox,
    clock: ServeClock<'a>,
) -> Result<(), Fault> {
    let moment = Cell::new(0);
    let shared = Shared {
        moment: &moment,
        mailbox,
    };
    let Serving {
        rt,
        words,
        entrance,
        ..
    } = serving;
    let sight = Sight::of(serving)?;
    let peers = match listening_peers(rt, words, entrance, &sight, next) {
        Ok(peers) => peers,
        Err(fault) => return Err(fault),
    };
    match serve_recorded_to(serving, share, peers, recorder, next, shared, clock, &sight) {
        Ok((peers, failure)) => end_of(rt.alloc(), peers, share.usage(), "record", failure),
        Err(fault) => Err(fault),
    }
}

/// Makes the file of a record, for a share of a configuration and its authenticator.
fn keeping_of<A: Authenticator + Drop>(
    rt: &HostRuntime,
    record: KeepWords<'_>,
    limited: &LimitedConfig,
    authenticator: &A,
) -> Result<Keeping, KeptFault> {
    let requires_signing = authenticator.requires_signing();
    Keeping::make(rt, record, limited, requires_signing, authenticator.hello())
}

/// Serves a share that is recorded, and which no connection came to yet.
fn serve_new<A: Authenticator + Drop, T: Tree + Drop, O: Opens + Drop>(
    serving: Serving<'_, '_>,
    mut share: Share<A, T, O>,
    recorder: Recorder<File>,
    mailbox: &Mailbox,
) -> Result<(), Fault> {
    let clock = ServeClock::new(serving.rt, serving.words.clock);
    serve_begun(serving, &mut share, recorder, 1, mailbox, clock)
}

/// Serves a new share that is recorded.
pub fn serve_recorded<A: Authenticator + Drop>(
    serving: Serving<'_, '_>,
    record: KeepWords<'_>,
    limited: LimitedConfig,
    authenticator: A,
) -> Result<(), Fault> {
    let rt = serving.rt;
    let alloc = rt.alloc();
    let keeping = keeping_of(rt, record, &limited, &authenticator)?;
    let mailbox = Mailbox::new(alloc);
    let requires_signing = authenticator.requires_signing();
    let (hello, given) = (keeping.hello(alloc)?, VecDeque::new(alloc));
    let login = recorded_login(hello, requires_signing, given, authenticator, &mailbox)?;
    let recorder = keeping.begin(alloc)?;
    match share_of(alloc, limited, login) {
        Ok(share) => serve_new(serving, share, recorder, &mailbox),
        Err(fault) => Err(Fault::Kept(fault)),
    }
}

/// Serves a share of a path that is recorded in a file that was made, once the files of a folder are put in and the
/// file has its name.
fn serve_filled<A: Authenticator + Drop, T: Tree + Drop, O: Opens + Drop>(
    serving: Serving<'_, '_>,
    folder: &str,
    path: &str,
    made: KeepWords<'_>,
    record: KeepWords<'_>,
    keeping: Keeping,
    mut share: Share<A, T, O>,
    mailbox: &Mailbox,
) -> Result<(), Fault> {
    let alloc = serving.rt.alloc();
    let mut recorder = keeping.begin(alloc)?;
    let mut clock = ServeClock::new(serving.rt, serving.words.clock);
    let own = OwnRecord::new(&mut recorder, mailbox, own_answer(alloc)?);
    let put = put_in(serving, folder, path, &mut share, &mut clock, Some(own))?;
    check_put(serving, folder, &put)?;
    record.refuse_existing(serving.rt)?;
    made.give_name(serving.rt, record.path)?;
    serve_begun(serving, &mut share, recorder, 2, mailbox, clock)
}

/// Serves a new share that begins with the files of a folder, and is recorded from its first event on, in a file that
/// is not there yet: it is made under another name, and gets its own once all of them are put in. After a fault none
/// is there.
pub fn serve_recorded_folder<A: Authenticator + Drop>(
    serving: Serving<'_, '_>,
    record: KeepWords<'_>,
    folder: &str,
    limited: LimitedConfig,
    authenticator: A,
) -> Result<(), Fault> {
    let rt = serving.rt;
    let alloc = rt.alloc();
    record.refuse_existing(rt)?;
    let name = record.path;
    let path = path_of(alloc, limited.config.share.as_str())?;
    let made_path = format!(in alloc; "{name}.new")?;
    let made = KeepWords {
        path: made_path.as_str(),
        ..record
    };
    made.remove_left(rt)?;
    let keeping = keeping_of(rt, made, &limited, &authenticator)?;
    let mailbox = Mailbox::new(alloc);
    let login = with_own_client(alloc, authenticator, &mailbox)?;
    let served = match share_of(alloc, limited, login) {
        Ok(share) => serve_filled(
            serving,
            folder,
            path.as_str(),
            made,
            record,
            keeping,
            share,
            &mailbox,
        ),
        Err(fault) => Err(Fault::Kept(fault)),
    };
    if served.is_err() {
        let _ = made.remove_left(rt);
    }
    served
}
