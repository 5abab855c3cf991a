//! One wait for what several pieces changed.

use smb_reason::Reason;
use std::cell::Cell;

/// What the peers of a share and the file of its journal know of each other, where what changed has to last before it is
/// answered: while another piece is ready a write does not wait until it lasts, and nothing is sent. Behind the last of
/// these pieces one wait is for all of them.
#[derive(Drop)]
pub struct SharedSync {
    // Whether another piece is ready behind the one that came last.
    is_another_ready: Cell<bool>,
    // Whether a wait was put off: something was written that may not last yet.
    is_put_off: Cell<bool>,
    // Why something of which a wait was put off may not last.
    failure: Cell<Option<Reason>>,
}

impl SharedSync {
    /// Of a share of which nothing changed yet.
    pub fn new() -> Self {
        SharedSync {
            is_another_ready: Cell::new(false),
            is_put_off: Cell::new(false),
            failure: Cell::new(None),
        }
    }

    /// Takes note of whether another piece is ready behind the one that came last.
    pub fn note_another(&self, is_ready: bool) {
        self.is_another_ready.set(is_ready);
    }

    /// Whether a wait was put off: nothing is to be sent until it is over.
    pub fn is_put_off(&self) -> bool {
        self.is_put_off.get()
    }

    /// Why something of which a wait was put off may not last: nothing is to be sent any more. None where nothing failed.
    pub fn failure(&self) -> Option<Reason> {
        self.failure.get()
    }

    // Puts off the wait for what was written, where another piece is ready, and returns whether it did.
    pub(crate) fn put_off(&self) -> bool {
        let is_ready = self.is_another_ready.get();
        if is_ready {
            self.is_put_off.set(true);
        }
        is_ready
    }

    // Whether a wait was put off that is to be now.
    pub(crate) fn is_due(&self) -> bool {
        self.is_put_off.get() && !self.is_another_ready.get() && self.failure.get().is_none()
    }

    // Takes note of what a wait came to.
    pub(crate) fn note_waited(&self, waited: Result<(), Reason>) {
        match waited {
            Ok(()) => self.is_put_off.set(false),
            Err(reason) => {
                if self.is_put_off.get() {
                    self.failure.set(Some(reason));
                }
            }
        }
    }
}
