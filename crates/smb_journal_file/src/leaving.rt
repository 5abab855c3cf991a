//! Files whose place a journal's next ones took.

use std::fs::File;
use std::os::unix::fs::MetadataExt;
use std::time::Instant;

/// How many bytes a file is made shorter by at a time. Where a longer one is closed whole, nobody is served for long:
/// the system frees all of it at once.
const STEP: u64 = 32 << 20;

/// For how many seconds a file stays whole, so that a copy of it that was begun before ends well.
const WHOLE_SECONDS: u64 = 60;

/// A file without a name, which is to go.
#[derive(Drop)]
struct LeavingFile {
    file: File,
    size: u64,
}

impl LeavingFile {
    // A file that may be made shorter. One that has another name, or is short, is closed.
    fn of(file: File) -> Option<LeavingFile> {
        let found = file.metadata().ok()?;
        if found.nlink() > 0 || found.len() <= STEP {
            return None;
        }
        Some(LeavingFile {
            file,
            size: found.len(),
        })
    }

    // The same, by a step shorter. It is closed where it is short.
    fn shorten(self) -> Option<LeavingFile> {
        let size = self.size.saturating_sub(STEP);
        if size <= STEP || self.file.set_len(size).is_err() {
            return None;
        }
        Some(LeavingFile {
            file: self.file,
            size,
        })
    }
}

/// The files that are to go, a step at a time: the last one, and the one before it where that is not gone yet.
#[derive(Drop)]
pub(crate) struct Leaving {
    last: Option<LeavingFile>,
    // When the last one lost its name.
    left: Option<Instant>,
    before: Option<LeavingFile>,
}

impl Leaving {
    /// None is to go.
    pub(crate) fn none() -> Leaving {
        Leaving {
            last: None,
            left: None,
            before: None,
        }
    }

    /// This one is to go, too. Of those that were there the last one is made shorter from now on.
    pub(crate) fn put(&mut self, rt: &HostRuntime, file: File) {
        if let Some(last) = self.last.take() {
            self.before = Some(last);
        }
        self.last = LeavingFile::of(file);
        self.left = Instant::now(rt).ok();
    }

    // Whether the last one was whole for long enough.
    fn is_old(&self, rt: &HostRuntime) -> bool {
        let Some(left) = &self.left else {
            return true;
        };
        match left.elapsed(rt) {
            Ok(passed) => passed.as_secs() >= WHOLE_SECONDS,
            Err(_) => true,
        }
    }

    /// Makes a file shorter by a step, where one is to be: the last one only where it is old, or the disk lacks room.
    pub(crate) fn shorten(&mut self, rt: &HostRuntime, lacks_room: bool) {
        if let Some(before) = self.before.take() {
            self.before = before.shorten();
            return;
        }
        let Some(last) = self.last.take() else {
            return;
        };
        self.last = if lacks_room || self.is_old(rt) {
            last.shorten()
        } else {
            Some(last)
        };
    }

    /// Closes all of them, which gives their room back to the disk, and returns whether there were any.
    pub(crate) fn let_go(&mut self) -> bool {
        let were_any = self.last.is_some() || self.before.is_some();
        self.last = None;
        self.before = None;
        were_any
    }
}
