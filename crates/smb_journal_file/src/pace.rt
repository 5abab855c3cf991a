//! How fast a journal's next file is written, so that others are served meanwhile.

use std::time::Instant;

/// How many times as long as a slice took others are served before the next one.
const SERVED: u64 = 3;

/// Where changes are this part of all slices, an eighth, the next slice is due at once: one of 1 MiB for 128 KiB of
/// them.
const PART: u64 = 8;

/// When slices were written.
#[derive(Drop)]
pub(crate) struct Pace<'a> {
    rt: &'a HostRuntime,
    begun: Option<Instant>,
    ended: Option<Instant>,
    // How many microseconds the last slice took to last.
    took: u64,
    // How many bytes were written last: changes, or a slice, which alone is waited for.
    last: u64,
    // How many bytes were written before as changes, and how many as slices.
    changes: u64,
    slices: u64,
}

/// How many microseconds passed since a moment; none where it is not known.
fn passed_since(rt: &HostRuntime, moment: &Option<Instant>) -> u64 {
    let Some(moment) = moment else {
        return 0;
    };
    match moment.elapsed(rt) {
        Ok(passed) => {
            let whole = passed.as_secs().saturating_mul(1_000_000);
            whole.saturating_add(passed.subsec_micros() as u64)
        }
        Err(_) => 0,
    }
}

impl<'a> Pace<'a> {
    /// No slice is written yet.
    pub(crate) fn new(rt: &'a HostRuntime) -> Self {
        Pace {
            rt,
            begun: None,
            ended: None,
            took: 0,
            last: 0,
            changes: 0,
            slices: 0,
        }
    }

    /// These bytes were written.
    pub(crate) fn note_written(&mut self, count: u64) {
        self.changes = self.changes.saturating_add(self.last);
        self.last = count;
    }

    /// What was written last is waited for: it is a slice.
    pub(crate) fn begin(&mut self) {
        self.slices = self.slices.saturating_add(self.last);
        self.last = 0;
        self.begun = Instant::now(self.rt).ok();
    }

    /// What was written lasts.
    pub(crate) fn end(&mut self) {
        self.took = passed_since(self.rt, &self.begun);
        self.ended = Instant::now(self.rt).ok();
    }

    /// How many bytes all slices have.
    pub(crate) fn slices(&self) -> u64 {
        self.slices
    }

    /// Whether the next slice is to be written now.
    pub(crate) fn is_due(&self) -> bool {
        if self.ended.is_none() || self.changes.saturating_add(self.last) >= self.slices / PART {
            return true;
        }
        passed_since(self.rt, &self.ended) >= self.took.saturating_mul(SERVED)
    }
}
