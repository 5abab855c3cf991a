//! When a journal is written anew, and what came of it.

use smb_reason::Reason;

/// How many bytes a journal may have beside those that its files need, and half of these, before it is written anew.
/// Meanwhile changes may be half of the slices' bytes and a turn's: a turn has 512 KiB at most, and where changes pass
/// an eighth of the slices one of 1 MiB is written in each. So it stays below twice what its files need and 64 MiB.
const SPARE: u64 = 48 << 20;

/// How many bytes longer a journal gets before it is tried again, where its next file could not be written.
const BETWEEN_TRIALS: u64 = 64 << 20;

/// What came of a journal's next file.
#[derive(Clone, Copy, Debug)]
pub enum Renewed {
    /// It has the journal's place: how many bytes it has, and how many the one before it had.
    Done { now: u64, before: u64 },
    /// It could not be written, for this reason, and was taken away.
    Not(Reason),
}

/// What came of a journal's next files.
#[derive(Clone, Copy, Debug)]
pub struct Renewals {
    count: u64,
    last: Option<Renewed>,
    // The fewest bytes that the files need, and how many more than these the last slices had.
    needed: u64,
    beside: u64,
    // How long the journal is before another one is made.
    not_before: u64,
}

impl Renewals {
    /// None was made.
    pub(crate) fn none() -> Renewals {
        Renewals {
            count: 0,
            last: None,
            needed: 0,
            beside: 0,
            not_before: 0,
        }
    }

    /// Whether a journal of this size is to be written anew, whose files need `needed` bytes at least.
    pub(crate) fn is_due(&mut self, size: u64, needed: u64) -> bool {
        self.needed = needed;
        let kept = needed.saturating_add(self.beside);
        let most = kept.saturating_add(kept / 2).saturating_add(SPARE);
        size > most && size >= self.not_before
    }

    /// A file of `now` bytes took the place of one of `before`. Its slices have `slices` bytes; the others are changes.
    pub(crate) fn end(&mut self, before: u64, now: u64, slices: u64) {
        self.count = self.count.saturating_add(1);
        self.last = Some(Renewed::Done { now, before });
        self.beside = slices.saturating_sub(self.needed);
        self.not_before = 0;
    }

    /// The next file of a journal of this size could not be written.
    pub(crate) fn fail(&mut self, size: u64, reason: Reason) {
        self.count = self.count.saturating_add(1);
        self.last = Some(Renewed::Not(reason));
        self.not_before = size.saturating_add(BETWEEN_TRIALS);
    }

    /// How many there were.
    pub fn count(&self) -> u64 {
        self.count
    }

    /// What came of the last one.
    pub fn last(&self) -> Option<Renewed> {
        self.last
    }
}
