//! What is to be served.

use crate::fault::{SharingFault, SharingRule};
use crate::limits::{capacity_for, limits_for};
use crate::measured::Measured;
use crate::said::Said;
use crate::text::configuration_text;
use crate::wanted::{SharingWords, Wanted};
use smb_request::Config;
use smb_wire::limits::Limits;
use std::alloc::{AllocError, Global};

/// When a new share was made, as it says: the beginning of 1970.
const CREATED: u64 = 116_444_736_000_000_000;

/// How many characters a label has at most.
const LONGEST_LABEL: usize = 32;

/// What a share begins with.
#[derive(Drop)]
pub struct Found {
    /// The share's name.
    pub name: String,
    pub measured: Measured,
    /// Whether they are the files of a journal that goes on, and not those of the folder.
    pub goes_on: bool,
}

/// What is to be served: the configuration that `serve` takes, and what is said of it.
#[derive(Drop)]
pub struct Plan {
    /// The text of a configuration.
    pub config: String,
    /// What is said once it listens.
    pub said: Said,
}

/// A label of a name: its first characters.
fn label_of(alloc: Global, name: &str) -> Result<String, AllocError> {
    name.chars().take(LONGEST_LABEL).collect(alloc)
}

/// The configuration of a share with the files that were found, and its limits.
fn share_of(
    alloc: Global,
    words: SharingWords<'_>,
    capacity: Option<u64>,
    found: Found,
    guid: [u8; 16],
) -> Result<(Limits, Config), SharingFault> {
    let Found { name, measured, .. } = found;
    let room = capacity_for(measured, capacity);
    if room < measured.bytes {
        let text = words.capacity.unwrap_or("");
        let rule = SharingRule::TooLittle(measured.bytes);
        return Err(SharingFault::of_word(alloc, "--capacity", text, rule));
    }
    let config = Config {
        label: label_of(alloc, &name)?,
        share: name,
        guid,
        capacity: room,
        created: CREATED,
    };
    Ok((limits_for(measured, room, capacity), config))
}

impl Plan {
    /// What is to be served by the words: a share with the files that were found, and this GUID.
    ///
    /// [`SharingRule::TooLittle`], or want of memory.
    pub fn new(
        alloc: Global,
        words: SharingWords<'_>,
        wanted: &Wanted,
        found: Found,
        guid: [u8; 16],
    ) -> Result<Self, SharingFault> {
        let (capacity, guest) = (wanted.capacity, wanted.guest);
        let measured = (!found.goes_on).then_some(found.measured);
        let (limits, config) = share_of(alloc, words, capacity, found, guid)?;
        Ok(Plan {
            config: configuration_text(alloc, limits, &config, guest)?,
            said: Said::new(alloc, words, &config, measured, guest)?,
        })
    }
}
