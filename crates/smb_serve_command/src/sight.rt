//! What sees a share while it is served: its log, and what is noted for its status.

use crate::clock::ServeClock;
use crate::host_peers::HostPeers;
use crate::logging::{ServedLog, TcpFacts, served_log};
use crate::serve::{ServeWords, Serving};
use crate::served_peers::ServedPeers;
use crate::shown_journal::ShownJournal;
use crate::status_door::{Shown, StatusDoor, status_listener};
use smb_command_parts::{Fault, LogOutput};
use smb_log::{LogObserver, LoggedPeers};
use smb_peers::Clock;
use smb_status::{Watch, WatchObserver, WatchedPeers};
use std::cell::RefCell;

/// What sees a share: the peers and the observer borrow each in turn.
#[derive(Drop)]
pub struct Sight<'a> {
    log: ServedLog<'a>,
    watch: Option<RefCell<Watch>>,
}

/// The observer of a share that is served.
pub type ServedObserver<'l, 'a> = WatchObserver<'l, LogObserver<'l, ServeClock<'a>, LogOutput<'a>>>;

impl<'a> Sight<'a> {
    /// What the words ask for.
    pub fn of(serving: Serving<'a, '_>) -> Result<Self, Fault> {
        let Serving {
            rt,
            words,
            limits,
            ..
        } = serving;
        let log = served_log(rt, words.log, limits)?;
        let watch = match words.status {
            Some(_) => {
                let since = ServeClock::new(rt, words.clock).moment();
                Some(RefCell::new(Watch::new(rt.alloc(), since)))
            }
            None => None,
        };
        Ok(Sight { log, watch })
    }

    /// The peers that it sees, of a share whose next connection has the number `next`. It is logged that it is served.
    pub fn peers<'l>(
        &'l self,
        rt: &'a HostRuntime,
        words: &ServeWords<'a>,
        peers: HostPeers<'a>,
        next: u64,
    ) -> ServedPeers<'l, 'a>
    where
        'a: 'l,
    {
        let stops = words.log.is_some_and(|log| log.must);
        let clock = ServeClock::new(rt, words.clock);
        let log = self.log.as_ref();
        let mut logged = LoggedPeers::new(rt.alloc(), peers, words.facts, clock, log, stops, next);
        logged.note("started");
        let clock = ServeClock::new(rt, words.clock);
        let watch = self.watch.as_ref();
        let facts: &'l TcpFacts = words.facts;
        let system: &'l HostRuntime = rt;
        ServedPeers::new(WatchedPeers::new(logged, facts, clock, system, watch, next))
    }

    /// Logs what happens to the server itself, where there is a log. The clock is that of the words.
    pub fn note(&self, rt: &HostRuntime, first: Option<u64>, event: &str) {
        if let Some(log) = &self.log
            && let Ok(mut log) = log.try_borrow_mut()
        {
            log.note_moment(ServeClock::new(rt, first).moment());
            log.note(event);
        }
    }

    /// The observer of the share.
    pub fn observer<'l>(
        &'l self,
        rt: &'a HostRuntime,
        words: &ServeWords<'a>,
    ) -> ServedObserver<'l, 'a>
    where
        'a: 'l,
    {
        let log = self.log.as_ref();
        let watch = self.watch.as_ref();
        let observer = LogObserver::new(log, ServeClock::new(rt, words.clock));
        WatchObserver::new(observer, watch)
    }

    /// The door at which its status is answered, which listens where the words ask for one. Standard error says where.
    pub fn door<'l>(
        &'l self,
        rt: &'a HostRuntime,
        words: &ServeWords<'a>,
    ) -> Result<StatusDoor<'l>, Fault>
    where
        'a: 'l,
    {
        let (Some(status), Some(watch)) = (words.status, &self.watch) else {
            return Ok(StatusDoor::shut());
        };
        let listener = status_listener(rt, status)?;
        let shown = Shown {
            shows_names: status.shows_names,
            journal: match words.journal {
                Some(journal) => Some(ShownJournal::new(rt.alloc(), journal)?),
                None => None,
            },
            most_owed: words.most_owed,
        };
        StatusDoor::open(rt, listener, watch, &words.facts.peers, shown)
    }
}
