//! What is said of a journal's room while its share is served.

use crate::serve::Serving;
use crate::sight::Sight;
use crate::status_door::StatusDoor;
use smb_command_parts::{Fault, Severity, say};
use smb_engine::{Authenticator, Opens, Share, Tree};
use smb_journal_file::{Renewals, Renewed};
use smb_journal_start::KeptTree;
use smb_reason::{Reason, Shown};
use smb_serving::Watcher;
use std::alloc::AllocError;
use std::time::Instant;

/// How many seconds pass at least between two lines that say that there is no room.
const SECONDS_BETWEEN_LINES: u64 = 60;

/// What is said where the disk has no room, behind the reason, and where it has some again.
const LACKS_ROOM: &str = "until there is room files are read, renamed and removed, and not written";

const HAS_ROOM: &str = "there is room again";

/// A tree that is kept on a disk.
pub trait OnDisk {
    /// Why the disk has no room; None where it has.
    fn lacks_room(&self) -> Option<Reason>;

    /// What came of its journal where it was to be written anew.
    fn renewals(&self) -> Renewals;

    /// Waits until what was written lasts, where that was put off and no other piece is ready.
    fn sync_rest(&self);
}

impl OnDisk for KeptTree<'_> {
    fn lacks_room(&self) -> Option<Reason> {
        self.file().lacks_room()
    }

    fn renewals(&self) -> Renewals {
        self.file().renewals()
    }

    fn sync_rest(&self) {
        self.file().sync_rest()
    }
}

/// Waits, behind a turn, until what was written to a share's journal lasts, where that was put off and is due. Then
/// it looks whether the journal has room, and says on standard error and in the log where it has none, once a minute
/// at most, and where it has some again; and where it was written anew, or could not be. Last it looks for who asks
/// for the share's status.
#[derive(Drop)]
pub struct JournalWatch<'l, 'a> {
    rt: &'a HostRuntime,
    path: &'a str,
    clock: Option<u64>,
    sight: &'l Sight<'a>,
    door: StatusDoor<'l>,
    /// Whether it was said that there is no room, and not yet that there is some again.
    is_said: bool,
    /// When it was said last that there is none.
    said: Option<Instant>,
    /// How often it was said that the journal was written anew, or could not be.
    renewals: u64,
}

impl<'l, 'a> JournalWatch<'l, 'a> {
    /// Of a share that is to be served.
    pub fn new(serving: Serving<'a, '_>, sight: &'l Sight<'a>) -> Result<Self, Fault>
    where
        'a: 'l,
    {
        let Serving { rt, words, .. } = serving;
        let path = match words.journal {
            Some(journal) => journal.path,
            None => "",
        };
        Ok(JournalWatch {
            rt,
            path,
            clock: words.clock,
            sight,
            door: sight.door(rt, words)?,
            is_said: false,
            said: None,
            renewals: 0,
        })
    }

    /// Whether it was said less than a minute ago that there is no room.
    fn was_said_lately(&self) -> bool {
        let Some(said) = &self.said else {
            return false;
        };
        match said.elapsed(self.rt) {
            Ok(passed) => passed.as_secs() < SECONDS_BETWEEN_LINES,
            Err(_) => true,
        }
    }

    /// Says an event on standard error and in the log.
    fn say_event(&self, severity: Severity, event: &str) {
        say(self.rt, severity, event);
        self.sight.note(self.rt, self.clock, event);
    }

    /// Says why there is no room, or else that there is some.
    fn say(&self, lacks: Option<Reason>) -> Result<(), AllocError> {
        let (alloc, path) = (self.rt.alloc(), Shown(self.path.as_bytes()));
        let (severity, event) = match lacks {
            Some(reason) => {
                let event = format!(in alloc; "journal: {path}: {reason}: {LACKS_ROOM}")?;
                (Severity::Warning, event)
            }
            None => {
                let event = format!(in alloc; "journal: {path}: {HAS_ROOM}")?;
                (Severity::Informational, event)
            }
        };
        self.say_event(severity, event.as_str());
        Ok(())
    }

    /// Says what came of the journal where it was to be written anew.
    fn say_renewed(&self, renewed: Renewed) -> Result<(), AllocError> {
        let (alloc, path) = (self.rt.alloc(), Shown(self.path.as_bytes()));
        let (severity, event) = match renewed {
            Renewed::Done { now, before } => {
                let event = format!(in alloc;
                    "journal: {path}: written anew, with {now} bytes for {before}"
                )?;
                (Severity::Informational, event)
            }
            Renewed::Not(reason) => {
                let event = format!(in alloc; "journal: {path}: not written anew: {reason}")?;
                (Severity::Warning, event)
            }
        };
        self.say_event(severity, event.as_str());
        Ok(())
    }

    /// Says what came of the journal where it was to be written anew, once each time.
    fn note_renewals(&mut self, renewals: Renewals) {
        if renewals.count() == self.renewals {
            return;
        }
        self.renewals = renewals.count();
        if let Some(renewed) = renewals.last() {
            let _ = self.say_renewed(renewed);
        }
    }

    /// Says why there is no room, or that there is some, where that is to be said.
    fn note_room(&mut self, lacks: Option<Reason>) {
        if lacks.is_some() && !self.was_said_lately() {
            self.said = Instant::now(self.rt).ok();
            self.is_said = self.say(lacks).is_ok();
        }
        if lacks.is_none() && self.is_said {
            self.is_said = self.say(None).is_err();
        }
    }
}

impl<A: Authenticator + Drop, T: Tree + OnDisk + Drop, O: Opens + Drop> Watcher<A, T, O>
    for JournalWatch<'_, '_> {
    fn look(&mut self, share: &Share<A, T, O>) {
        let tree = share.server().store().tree();
        tree.sync_rest();
        self.note_room(tree.lacks_room());
        self.note_renewals(tree.renewals());
        self.door.look(share);
    }
}
