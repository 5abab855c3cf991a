//! Beginning to record a share.

use crate::fault::KeptFault;
use crate::files::{give_name, lock, make_file, remove_left, settle_name};
use smb_journal::{Header, JournalFault, LimitedConfig, Recorder, VERSION};
use std::alloc::Global;
use std::fs;
use std::fs::File;

/// Where a share is recorded, and how.
#[derive(Clone, Copy)]
pub struct KeepWords<'a> {
    pub path: &'a str,
    /// Whether what is recorded is to lie on the disk before it is answered.
    pub settles: bool,
}

/// A file in which a share is to be recorded, which this program has to itself. Nothing is written to it yet.
#[derive(Drop)]
pub struct Keeping {
    settles: bool,
    file: File,
    header: Header,
}

impl Keeping {
    /// Makes the file, which must not be there yet, for a share of a configuration whose authenticator offers `hello`
    /// first, and has each session that it signs sign its requests, or not.
    pub fn make(
        rt: &HostRuntime,
        words: KeepWords<'_>,
        limited: &LimitedConfig,
        requires_signing: bool,
        hello: &[u8],
    ) -> Result<Self, KeptFault> {
        let header = Header::of(rt.alloc(), limited, requires_signing, hello)?;
        let made = make_file(rt, words.path)?;
        if words.settles {
            settle_name(rt, words.path)?;
        }
        Ok(Keeping {
            settles: words.settles,
            file: lock(made)?,
            header,
        })
    }

    /// The first token that the authenticator offers.
    pub fn hello(&self, alloc: Global) -> Result<Vec<u8>, KeptFault> {
        Ok(Vec::from_slice(alloc, &self.header.hello)?)
    }

    /// Begins to record a share in which nothing has happened yet.
    pub fn begin(self, alloc: Global) -> Result<Recorder<File>, KeptFault> {
        let mut recorder = Recorder::new(alloc, self.file, self.settles)?;
        recorder.begin(alloc, &self.header, VERSION)?;
        Ok(recorder)
    }
}

impl KeepWords<'_> {
    /// Refuses a file that is there.
    pub fn refuse_existing(&self, rt: &HostRuntime) -> Result<(), KeptFault> {
        match fs::exists(rt, self.path) {
            Ok(false) => Ok(()),
            Ok(true) => Err(KeptFault::Recording(JournalFault::Exists)),
            Err(error) => Err(KeptFault::Recording(JournalFault::of_read(error))),
        }
    }

    /// Gives the file this other name, which is settled where its lines are.
    pub fn give_name(&self, rt: &HostRuntime, path: &str) -> Result<(), KeptFault> {
        give_name(rt, self.path, path, self.settles)
    }

    /// Takes the file away that a start left that was ended, where it is there. Where a program has it to itself it
    /// stays, which is the fault.
    pub fn remove_left(&self, rt: &HostRuntime) -> Result<(), KeptFault> {
        remove_left(rt, self.path)
    }
}
