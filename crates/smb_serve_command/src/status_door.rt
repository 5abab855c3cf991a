//! The door at which is answered what is going on in a share.

use crate::clock::ServeClock;
use crate::serve::fault_of;
use crate::shown_journal::ShownJournal;
use mio::net::{TcpListener, TcpStream};
use smb_command_parts::{Fault, Severity, say};
use smb_engine::{Authenticator, Opens, Share, Tree};
use smb_replay::{CommandFault, ListenFault};
use smb_serving::Watcher;
use smb_status::{Around, Room, Watch, answer_of};
use smb_tcp::PeerFacts;
use std::alloc::{AllocError, Global};
use std::cell::RefCell;
use std::io::{ErrorKind, Read, Write};
use std::net::{Shutdown, SocketAddr};
use std::time::{Clock, Duration};
use std::{io, mem};

/// How many callers there are at a time at most; others wait until one is gone.
const MOST_CALLERS: usize = 16;

/// How many seconds a caller may take.
const PATIENCE: u64 = 5;

/// How many milliseconds there are at least between two looks at the door.
const BETWEEN_LOOKS: u64 = 10;

/// After how many milliseconds no further caller is gone on with in a look.
const LONGEST_LOOK: u64 = 1;

/// How many bytes are read at once.
const AT_ONCE: usize = 8_192;

/// What is said of a status that others reach.
const OPEN_TO_OTHERS: &str = "status: whoever reaches it sees who is there and what is open";

/// What is answered to whom, and where from.
#[derive(Clone, Copy)]
pub struct StatusWords<'a> {
    /// The IP address and port to listen at.
    pub address: &'a str,
    /// Whether another address than a loopback one may be listened at.
    pub anywhere: bool,
    /// Whether the names of files are shown.
    pub shows_names: bool,
}

/// What is shown beside the share and what is noted of it.
#[derive(Drop)]
pub struct Shown<'a> {
    pub shows_names: bool,
    pub journal: Option<ShownJournal<'a>>,
    /// How many bytes all clients together may be owed.
    pub most_owed: u64,
}

/// Who asks: what came of his request, and what is left to write of the answer.
#[derive(Drop)]
struct Caller {
    stream: TcpStream,
    head: Vec<u8>,
    answer: Vec<u8>,
    written: usize,
    /// Until when he may take.
    until: Duration,
    /// He has his answer, is gone or took too long.
    is_done: bool,
}

impl Caller {
    /// Reads what came, and returns whether something came. One who is gone is done.
    fn hears(&mut self) -> bool {
        let mut bytes = [0; AT_ONCE];
        match self.stream.read(&mut bytes) {
            Ok(count) if count > 0 => {
                let came = bytes.get(..count).unwrap_or(&[]);
                self.is_done = self.head.extend_from_slice(came).is_err();
                !self.is_done
            }
            Err(error) if is_to_be_tried_again(&error) => false,
            _ => {
                self.is_done = true;
                false
            }
        }
    }

    /// Writes what is left of the answer, as much as is taken now. Behind its last byte no more is sent.
    fn say(&mut self) {
        let left = self.answer.get(self.written..).unwrap_or(&[]);
        match self.stream.write(left) {
            Ok(count) if count > 0 => {
                self.written = self.written.saturating_add(count);
                if self.has_all() {
                    self.is_done = self.stream.shutdown(Shutdown::Write).is_err();
                }
            }
            Err(error) if is_to_be_tried_again(&error) => {}
            _ => self.is_done = true,
        }
    }

    /// Whether all of the answer is written.
    fn has_all(&self) -> bool {
        self.written >= self.answer.len()
    }

    /// Passes over what comes behind the answer, until he closes: an end with bytes that were not read could take the
    /// answer from him.
    fn pass_over(&mut self) {
        let mut bytes = [0; AT_ONCE];
        match self.stream.read(&mut bytes) {
            Ok(count) if count > 0 => {}
            Err(error) if is_to_be_tried_again(&error) => {}
            _ => self.is_done = true,
        }
    }
}

/// Whether a call is to be tried again later.
fn is_to_be_tried_again(error: &io::Error) -> bool {
    matches!(error.kind(), ErrorKind::WouldBlock | ErrorKind::Interrupted)
}

/// A listener, those who ask at it, and what is noted for their answers. It is looked at behind a turn of the share, a
/// hundred times a second at most, and nothing waits for it.
#[derive(Drop)]
struct OpenDoor<'a> {
    rt: &'a HostRuntime,
    listener: TcpListener,
    address: SocketAddr,
    watch: &'a RefCell<Watch>,
    facts: &'a PeerFacts,
    shown: Shown<'a>,
    callers: Vec<Caller>,
    looked_at: Duration,
}

/// The door of a share's status, which may be shut.
#[derive(Drop)]
pub struct StatusDoor<'a> {
    door: Option<OpenDoor<'a>>,
}

/// A listener at the address of a share's status.
///
/// [`Fault::StatusIsOpen`] where others reach it, and that is not asked for; else why it can't be listened at.
pub fn status_listener(rt: &HostRuntime, words: StatusWords<'_>) -> Result<TcpListener, Fault> {
    let alloc = rt.alloc();
    let Ok(address) = words.address.parse::<SocketAddr>() else {
        let fault = CommandFault::ListenFailed(ListenFault::NotAnAddress);
        return Err(Fault::from(fault).of_address(alloc, words.address));
    };
    if !words.anywhere && !address.ip().is_loopback() {
        return Err(Fault::StatusIsOpen);
    }
    match TcpListener::bind(rt, address) {
        Ok(listener) => Ok(listener),
        Err(error) => Err(Fault::from(fault_of(error)).of_address(alloc, words.address)),
    }
}

/// Says on standard error where a share's status is, and that others reach it where they do.
fn announce(rt: &HostRuntime, address: SocketAddr) {
    let line = format_args!("status at http://{address}/");
    say(rt, Severity::Informational, line);
    if !address.ip().is_loopback() {
        say(rt, Severity::Warning, OPEN_TO_OTHERS);
    }
}

impl<'a> StatusDoor<'a> {
    /// None.
    pub fn shut() -> Self {
        StatusDoor { door: None }
    }

    /// A door at a listener, with room for as many callers as there are at most.
    pub fn open(
        rt: &'a HostRuntime,
        listener: TcpListener,
        watch: &'a RefCell<Watch>,
        facts: &'a PeerFacts,
        shown: Shown<'a>,
    ) -> Result<Self, Fault> {
        let address = match listener.local_addr() {
            Ok(address) => address,
            Err(error) => return Err(Fault::from(fault_of(error))),
        };
        let callers = Vec::with_capacity(rt.alloc(), MOST_CALLERS)?;
        announce(rt, address);
        let door = OpenDoor {
            rt,
            listener,
            address,
            watch,
            facts,
            shown,
            callers,
            looked_at: Duration::ZERO,
        };
        Ok(StatusDoor { door: Some(door) })
    }
}

impl OpenDoor<'_> {
    /// Takes in those who wait at the listener, where there is a place for them.
    fn take_in(&mut self, now: Duration) {
        let alloc = self.rt.alloc();
        for _ in self.callers.len()..MOST_CALLERS {
            let Ok((stream, _)) = self.listener.accept() else {
                return;
            };
            let _ = self.callers.push(Caller {
                stream,
                head: Vec::new(alloc),
                answer: Vec::new(alloc),
                written: 0,
                until: now.saturating_add(Duration::from_secs(PATIENCE)),
                is_done: false,
            });
        }
    }

    /// What is shown beside the share.
    fn around(&self) -> Around {
        let journal = match &self.shown.journal {
            Some(journal) => journal.look(self.rt),
            None => None,
        };
        Around {
            moment: smb_peers::Clock::moment(&mut ServeClock::new(self.rt, None)),
            owed: Room {
                used: self.facts.owed(),
                most: self.shown.most_owed,
            },
            journal,
            shows_names: self.shown.shows_names,
        }
    }

    /// What is answered to a request, by all of its bytes that came; None where it goes on.
    fn answer<A: Authenticator + Drop, T: Tree + Drop, O: Opens + Drop>(
        &self,
        share: &Share<A, T, O>,
        head: &[u8],
    ) -> Result<Option<Vec<u8>>, AllocError> {
        match self.watch.try_borrow() {
            Ok(watch) => answer_of(share, &watch, self.around(), self.address, head),
            Err(_) => Ok(None),
        }
    }

    /// Goes on with the caller of a place: what is left of his answer is written, or his request read and answered.
    fn go_on<A: Authenticator + Drop, T: Tree + Drop, O: Opens + Drop>(
        &mut self,
        share: &Share<A, T, O>,
        place: usize,
        now: Duration,
    ) {
        let Some(caller) = self.callers.get_mut(place) else {
            return;
        };
        if now >= caller.until {
            caller.is_done = true;
        } else if !caller.answer.is_empty() && caller.has_all() {
            caller.pass_over();
        } else if !caller.answer.is_empty() {
            caller.say();
        } else if caller.hears() {
            let head = mem::replace(&mut caller.head, Vec::new(self.rt.alloc()));
            let answer = self.answer(share, &head);
            self.take_answer(place, head, answer);
        }
    }

    /// Answers the caller of a place, by all bytes of his request, where it is whole.
    fn take_answer(
        &mut self,
        place: usize,
        head: Vec<u8>,
        answer: Result<Option<Vec<u8>>, AllocError>,
    ) {
        let Some(caller) = self.callers.get_mut(place) else {
            return;
        };
        caller.head = head;
        match answer {
            Ok(Some(answer)) => {
                caller.answer = answer;
                caller.say();
            }
            Ok(None) => {}
            Err(_) => caller.is_done = true,
        }
    }

    /// Whether a look took so long that the share is to go on.
    fn is_late(&self, since: Duration) -> bool {
        match self.rt.monotonic() {
            Ok(now) => now.saturating_sub(since) >= Duration::from_millis(LONGEST_LOOK),
            Err(_) => true,
        }
    }

    /// Whether the last look is long enough ago, at the moment at which the turn began: the watch has it, and the
    /// system is not asked for the time behind each turn.
    fn is_time_to_look(&self) -> bool {
        let Ok(watch) = self.watch.try_borrow() else {
            return false;
        };
        match watch.turn() {
            Some(began) => {
                began.saturating_sub(self.looked_at) >= Duration::from_millis(BETWEEN_LOOKS)
            }
            None => false,
        }
    }

    /// Looks at the door, where the last look is long enough ago.
    fn look<A: Authenticator + Drop, T: Tree + Drop, O: Opens + Drop>(
        &mut self,
        share: &Share<A, T, O>,
    ) {
        if !self.is_time_to_look() {
            return;
        }
        let Ok(now) = self.rt.monotonic() else {
            return;
        };
        self.looked_at = now;
        self.take_in(now);
        for place in 0..self.callers.len() {
            self.go_on(share, place, now);
            if self.is_late(now) {
                break;
            }
        }
        self.callers.retain(|caller| !caller.is_done);
    }
}

impl<A: Authenticator + Drop, T: Tree + Drop, O: Opens + Drop> Watcher<A, T, O> for StatusDoor<'_> {
    fn look(&mut self, share: &Share<A, T, O>) {
        if let Some(door) = &mut self.door {
            door.look(share);
        }
    }
}
