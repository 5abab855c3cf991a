//! The file of a journal.

ghost use Rattle.std.specs.Prelude.{◌≡◌, ◌++◌, ◌+◌, ◌≤◌, [], OnOk, OnErr, IfOk, length, take, drop, vec_len};
ghost use Rattle.std.specs.Io.{StartsWith};
ghost use Rattle.smb_journaled_tree.specs.Journal.{AddsPart};

use super::done::Done;
use super::first::FIRST_LINE;
use super::leaving::Leaving;
use super::next::NextWords;
use super::pace::Pace;
use super::renewals::Renewals;
use super::room::{RoomFile, is_full, write_at_end};
use smb_journaled_tree::{JournalFault, JournalFile};
use smb_reason::Reason;
use smb_recovery::Source;
use std::fs::File;
use std::io::{ErrorKind, Read, Write};
use std::marker::Model;
use std::mem;
use std::snapshot::Snapshot;

/// The file of a journal on a disk, behind its first line. It is read once, from its first byte to its last, and
/// written to behind that; its bytes are those that were read and written.
#[derive(Drop)]
pub struct DiskFile<'a> {
    file: File,
    // How many bytes the first line has.
    first: u64,
    // How many bytes were read and written behind it.
    size: u64,
    // Whether what is written is to last before it counts as written.
    syncs: bool,
    // The room that it has on its disk, where it is to have any.
    room: Option<RoomFile>,
    // Whether all of it was read.
    ended: bool,
    done: Done,
    // How many bytes last.
    lasting: u64,
    // Where its next file is made, where it is to have any, whether one is written, and what came of the others.
    next: Option<NextWords<'a>>,
    has_next: bool,
    renewals: Renewals,
    // The files whose place it took.
    leaving: Leaving,
    // Where it was made to take another one's place: what writes into its first line, when it was written to, and why
    // it could not be written last.
    line: Option<File>,
    pace: Option<Pace<'a>>,
    refused: Option<Reason>,
    // Why the name that it got may not last.
    unnamed: Option<Reason>,
}

impl<'a> Model for DiskFile<'a> {
    ghost use Rattle.std.specs.Prelude.{◌≡◌, length};
    ghost use Rattle.std.specs.Option.{option_map_or};
    ghost use Rattle.smb_journal_file.specs.Bytes.{bytes_of};
    ghost use Rattle.smb_journal_file.specs.State.{FileState};

    ghost Value = { FileState };

    ghost view = { λ f. record {
      bytes = bytes_of f.done;
      ended = f.ended;
      room = option_map_or (λ room. room) f.room 0;
      lasting = f.lasting;
    } };

    ghost invariant = { λ f. f.size ≡ length (bytes_of f.done) };
}

// Adds the next bytes of a file, at most `count`, behind those of a vector, and returns how many these are.
fn read_behind(file: &mut File, count: u64, bytes: &mut Vec<u8>) -> Result<u64, Reason>
    ensures kept { StartsWith bytes.new.items bytes.old.items }
    ensures size { IfOk result (λ taken. vec_len bytes.new ≡ vec_len bytes.old + taken) }
    ensures few { IfOk result (λ taken. taken ≤ count) }
{
    match Read::by_ref(file).take(count).read_to_end(bytes) {
        Ok(taken) if taken as u64 <= count => Ok(taken as u64),
        Ok(_) => Err(Reason(ErrorKind::Other)),
        Err(error) => Err(Reason(error.kind())),
    }
}

impl<'a> DiskFile<'a> {
    /// A file that is open where its first line ends, which has `first` bytes. What is written is put at its end. With
    /// `syncs` it lasts before it counts as written. With `ended` nothing is read of it: it has its first line alone.
    /// It has no room.
    pub fn new(file: File, first: u64, syncs: bool, ended: bool) -> Self
        ensures { result ≡ record { bytes = []; ended = ended; room = 0; lasting = 0 } }
    {
        DiskFile {
            file,
            first,
            size: 0,
            syncs,
            room: None,
            ended,
            done: Done::Nothing,
            lasting: 0,
            next: None,
            has_next: false,
            renewals: Renewals::none(),
            leaving: Leaving::none(),
            line: None,
            pace: None,
            refused: None,
            unnamed: None,
        }
    }

    /// The same with this room.
    pub fn with_room(mut self, room: RoomFile) -> Self
        ensures { (result.bytes ≡ self.entry.bytes) × (result.ended ≡ self.entry.ended) }
    {
        self.room = Some(room);
        self
    }

    /// The same, which is written anew where it gets long.
    pub fn with_next(mut self, next: NextWords<'a>) -> Self
        ensures { (result.bytes ≡ self.entry.bytes) × (result.ended ≡ self.entry.ended) }
    {
        self.next = Some(next);
        self
    }

    /// An empty file that is open where its first line ends, and is to take the place of another one. `line` writes
    /// into its first line.
    pub(crate) fn beside(rt: &'a HostRuntime, file: File, line: File) -> Self
        ensures { result.bytes ≡ [] }
    {
        let mut made = DiskFile::new(file, FIRST_LINE.len() as u64, false, true);
        made.line = Some(line);
        made.pace = Some(Pace::new(rt));
        made
    }

    /// What came of the files that were to take its place.
    pub fn renewals(&self) -> Renewals {
        self.renewals
    }

    /// Why the disk had no room when some was needed last; None where it had, or where there is no file of room.
    pub fn lacks_room(&self) -> Option<Reason> {
        match &self.room {
            Some(room) => room.lacks(),
            None => None,
        }
    }

    // How many bytes were written to it as slices, where it was made to take another one's place.
    fn slices(&self) -> u64 {
        match &self.pace {
            Some(pace) => pace.slices(),
            None => 0,
        }
    }

    // Makes a file shorter whose place it took, where there is one that is to be.
    fn shorten_left(&mut self)
        ensures { self.new ≡ self.old }
    {
        let lacks_room = self.lacks_room().is_some();
        if let Some(words) = self.next {
            self.leaving.shorten(words.rt, lacks_room);
        }
    }

    // Writes bytes at the end.
    fn write(&mut self, bytes: &Vec<u8>) -> Result<(), Reason>
        ensures bytes { self.new.bytes ≡ self.old.bytes }
        ensures ended { self.new.ended ≡ self.old.ended }
    {
        if let Some(reason) = self.unnamed {
            return Err(reason);
        }
        let end = self.first.saturating_add(self.size);
        write_at_end(
            &mut self.file,
            end,
            &mut self.room,
            &mut self.leaving,
            bytes,
        )?;
        if !self.syncs {
            return Ok(());
        }
        self.sync_written()
    }

    // Waits until what was written lasts, or puts that off where another piece is ready.
    fn sync_written(&self) -> Result<(), Reason> {
        let Some(words) = self.next else {
            return self.sync_data();
        };
        if words.sync.put_off() {
            return Ok(());
        }
        let waited = self.sync_data();
        words.sync.note_waited(waited);
        waited
    }

    /// Waits until what was written lasts, where that was put off and no other piece is ready. What it came to is in
    /// the [`SharedSync`](super::SharedSync).
    pub fn sync_rest(&self) {
        if let Some(words) = self.next
            && words.sync.is_due()
        {
            words.sync.note_waited(self.sync_data());
        }
    }

    // Waits until what was written lasts.
    fn sync_data(&self) -> Result<(), Reason> {
        match self.file.sync_data() {
            Ok(()) => Ok(()),
            Err(error) => Err(Reason(error.kind())),
        }
    }
}

impl Source for DiskFile<'_> {
    ghost read = { λ f. f.bytes };

    ghost ended = { λ f. f.ended };

    fn take(&mut self, count: u64, bytes: &mut Vec<u8>) -> Result<(), Reason> {
        if self.ended {
            return Ok(());
        }
        let begin = bytes.len();
        let taken = read_behind(&mut self.file, count, bytes)?;
        let Some(size) = self.size.checked_add(taken) else {
            return Err(Reason(ErrorKind::FileTooLarge));
        };
        self.done = Done::Added {
            before: Snapshot::of(&self.done),
            begin,
            bytes: Snapshot::of(bytes),
        };
        self.size = size;
        self.ended = taken < count;
        Ok(())
    }
}

impl JournalFile for DiskFile<'_> {
    ghost held = { λ f. f.bytes };

    ghost room = { λ f. f.room };

    ghost lasting = { λ f. f.lasting };

    fn len(&self) -> u64 {
        self.size
    }

    fn take_room(&mut self, count: u64) -> bool {
        let Some(room) = &mut self.room else {
            return false;
        };
        let is_taken = room.take(count);
        if room.lacks().is_none() || !self.leaving.let_go() {
            return is_taken;
        }
        room.take(count)
    }

    fn append(&mut self, bytes: &Vec<u8>) -> Result<(), JournalFault> {
        if bytes.is_empty() {
            return Ok(());
        }
        let Some(size) = self.size.checked_add(bytes.len() as u64) else {
            return Err(JournalFault::NotWritten(Reason(ErrorKind::FileTooLarge)));
        };
        if self.has_next {
            self.shorten_left();
        }
        if let Err(reason) = self.write(bytes) {
            self.refused = Some(reason);
            return Err(JournalFault::NotWritten(reason));
        }
        if let Some(pace) = &mut self.pace {
            pace.note_written(bytes.len() as u64);
        }
        self.done = Done::Added {
            before: Snapshot::of(&self.done),
            begin: 0,
            bytes: Snapshot::of(bytes),
        };
        self.size = size;
        Ok(())
    }

    fn cut(&mut self, size: u64) -> Result<(), JournalFault> {
        if size > self.size {
            return Ok(());
        }
        let Some(end) = self.first.checked_add(size) else {
            return Err(JournalFault::NotWritten(Reason(ErrorKind::FileTooLarge)));
        };
        if let Err(error) = self.file.set_len(end) {
            return Err(JournalFault::NotWritten(Reason(error.kind())));
        }
        self.done = Done::Cut {
            before: Snapshot::of(&self.done),
            size,
        };
        self.size = size;
        Ok(())
    }

    fn sync(&mut self) -> Result<(), JournalFault> {
        if let Some(pace) = &mut self.pace {
            pace.begin();
        }
        if let Err(reason) = self.sync_data() {
            self.refused = Some(reason);
            return Err(JournalFault::NotWritten(reason));
        }
        if let Some(pace) = &mut self.pace {
            pace.end();
        }
        self.lasting = self.size;
        Ok(())
    }

    fn make_next(&mut self, needed: u64, seed: u64) -> Option<Self> {
        let words = self.next?;
        self.shorten_left();
        if !self.renewals.is_due(self.size, needed) {
            return None;
        }
        match words.make(&self.file, seed) {
            Ok(made) => {
                self.has_next = made.is_some();
                made
            }
            Err(reason) => {
                self.renewals.fail(self.size, reason);
                None
            }
        }
    }

    fn replace(&mut self, next: Self) -> Result<(), JournalFault> {
        let Some(words) = self.next else {
            return Err(JournalFault::NotWritten(Reason(ErrorKind::Other)));
        };
        self.has_next = false;
        if let Err(reason) = words.give_name(&self.file, &next.line, next.size) {
            self.renewals.fail(self.size, reason);
            let _ = words.remove();
            return Err(JournalFault::NotWritten(reason));
        }
        self.renewals.end(self.size, next.size, next.slices());
        let old = mem::replace(&mut self.file, next.file);
        self.leaving.put(words.rt, old);
        self.first = next.first;
        self.size = next.size;
        self.done = next.done;
        self.lasting = next.lasting;
        self.unnamed = words.settle_name().err();
        Ok(())
    }

    fn is_due(&self) -> bool {
        match &self.pace {
            Some(pace) => pace.is_due(),
            None => true,
        }
    }

    fn drop_next(&mut self, next: Self) {
        let reason = next
            .refused
            .or(self.lacks_room())
            .unwrap_or(Reason(ErrorKind::OutOfMemory));
        drop(next);
        self.has_next = false;
        // Where the files that are to go have the room that it lacked, another one is made at once.
        if !is_full(reason.0) || !self.leaving.let_go() {
            self.renewals.fail(self.size, reason);
        }
        if let Some(words) = self.next {
            let _ = words.remove();
        }
    }
}
