//! What is not known of entries of which something was lost.

use smb_tree::EntryNo;
use std::alloc::{AllocError, Global};
use std::collections::BTreeMap;

/// Bytes of a file that may be missing.
#[derive(Clone, Copy, Debug, PartialEq, Eq)]
pub(crate) struct Gap {
    pub(crate) from: u64,
    /// The first byte behind them.
    pub(crate) to: u64,
}

/// What is not known of an entry.
#[derive(Drop)]
pub(crate) struct Doubt {
    /// Whether it was met behind damage for the first time.
    pub(crate) is_late: bool,
    /// Whether its name and its folder were said.
    pub(crate) is_named: bool,
    pub(crate) gaps: Vec<Gap>,
}

/// What is not known of entries, by their numbers.
#[derive(Drop)]
pub(crate) struct Doubts {
    alloc: Global,
    doubts: BTreeMap<EntryNo, Doubt>,
}

/// The parts of some gaps that are outside of bytes that were written.
fn gaps_around(alloc: Global, gaps: &[Gap], from: u64, to: u64) -> Result<Vec<Gap>, AllocError> {
    let mut left = Vec::new(alloc);
    for gap in gaps {
        if gap.from < from {
            left.push(Gap {
                from: gap.from,
                to: gap.to.min(from),
            })?;
        }
        if gap.to > to {
            left.push(Gap {
                from: gap.from.max(to),
                to: gap.to,
            })?;
        }
    }
    Ok(left)
}

impl Doubts {
    /// None.
    pub(crate) fn new(alloc: Global) -> Self {
        Doubts {
            alloc,
            doubts: BTreeMap::new(alloc),
        }
    }

    /// What is not known of an entry; None where nothing was lost of it that is known.
    pub(crate) fn get(&self, number: EntryNo) -> Option<&Doubt> {
        self.doubts.get(&number)
    }

    /// Puts in what is not known of an entry.
    fn put(&mut self, number: EntryNo, doubt: Doubt) -> Result<(), AllocError> {
        match self.doubts.insert(number, doubt) {
            Ok(_) => Ok(()),
            Err(error) => Err(AllocError::from(error)),
        }
    }

    /// An entry is met behind damage for the first time, with its name and its folder or without them.
    pub(crate) fn met(&mut self, number: EntryNo, is_named: bool) -> Result<(), AllocError> {
        let doubt = Doubt {
            is_late: true,
            is_named,
            gaps: Vec::new(self.alloc),
        };
        self.put(number, doubt)
    }

    /// The name and the folder of an entry are said.
    pub(crate) fn named(&mut self, number: EntryNo) -> Result<(), AllocError> {
        match self.doubts.remove(&number) {
            Some(doubt) => self.put(
                number,
                Doubt {
                    is_named: true,
                    ..doubt
                },
            ),
            None => Ok(()),
        }
    }

    /// An entry is gone.
    pub(crate) fn gone(&mut self, number: EntryNo) {
        let _ = self.doubts.remove(&number);
    }

    /// What was noted of an entry, which is taken out, or that nothing is.
    fn take(&mut self, number: EntryNo) -> Doubt {
        match self.doubts.remove(&number) {
            Some(doubt) => doubt,
            None => Doubt {
                is_late: false,
                is_named: true,
                gaps: Vec::new(self.alloc),
            },
        }
    }

    /// Bytes of a file of this size are known from one offset up to another: those between its end and them may be
    /// missing.
    pub(crate) fn written(
        &mut self,
        number: EntryNo,
        size: u64,
        from: u64,
        to: u64,
    ) -> Result<(), AllocError> {
        if from <= size && self.get(number).is_none() {
            return Ok(());
        }
        let doubt = self.take(number);
        let mut gaps = gaps_around(self.alloc, &doubt.gaps, from, to)?;
        if from > size {
            gaps.push(Gap {
                from: size,
                to: from,
            })?;
        }
        self.put(number, Doubt { gaps, ..doubt })
    }
}
