//! The configuration of a share.

ghost use Rattle.std.specs.Prelude.{◌≡◌};
ghost use Rattle.std.specs.List.{list_all};
ghost use Rattle.smb_request.specs.Settings.{settings_within, settings_of, is_lawful};
ghost use Rattle.smb_request.specs.Parts.{is_share_character, is_share_name, is_label, is_capacity, is_between};

use smb_wire::limits::Limits;

/// What a share is told when it is made.
#[derive(Debug, Drop)]
pub struct Config {
    /// The share's name: 1 to 80 characters from 0x21 to 0x7E that a name may have, no backslash.
    pub share: String,
    /// The volume's label: up to 32 characters from 0x20 to 0x7E.
    pub label: String,
    /// The server's GUID, as it stands in a NEGOTIATE response.
    pub guid: [u8; 16],
    /// The room for files in bytes: a multiple of 4,096, from 4,096 to what the share's limits let it be, which is
    /// 67,108,864 by default.
    pub capacity: u64,
    /// When the share was made, in units of 100 ns since 1601.
    pub created: u64,
}

/// Whether a number is from `least` to `greatest`.
fn is_between(least: u64, greatest: u64, number: u64) -> bool
    ensures { result ≡ is_between least greatest number }
{
    least <= number && number <= greatest
}

/// Whether a share's name may have this character.
fn is_share_character(character: u8) -> bool
    ensures { result ≡ is_share_character character }
{
    is_between(0x21, 0x7E, u64::from(character)) && !b"\"*/:<>?\\|".contains(&character)
}

/// Whether a share's name may have each of these characters.
fn are_share_characters(characters: &[u8]) -> bool
    ensures { result ≡ list_all is_share_character characters.now }
{
    characters
        .iter()
        .all(|character| is_share_character(*character))
}

/// Whether each of these characters can be printed.
fn are_printable(characters: &[u8]) -> bool
    ensures { result ≡ list_all (is_between 32 126) characters.now }
{
    characters
        .iter()
        .all(|character| is_between(0x20, 0x7E, u64::from(*character)))
}

/// Whether these are 1 to 80 characters that a share's name may have.
fn is_share_name(share: &[u8]) -> bool
    ensures { result ≡ is_share_name share.now }
{
    is_between(1, 80, share.len() as u64) && are_share_characters(share)
}

/// Whether these are up to 32 printable characters.
fn is_label(label: &[u8]) -> bool
    ensures { result ≡ is_label label.now }
{
    label.len() <= 32 && are_printable(label)
}

/// Whether the room is a multiple of 4,096, from 4,096 to the greatest one.
fn is_capacity(greatest: u64, capacity: u64) -> bool
    ensures { result ≡ is_capacity greatest capacity }
{
    is_between(4_096, greatest, capacity) && capacity % 4_096 == 0
}

impl Config {
    /// Whether the configuration keeps its rules under the default limits.
    pub fn is_lawful(&self) -> bool
        ensures { result ≡ is_lawful (settings_of self.now) }
    {
        self.is_lawful_within(Limits::profile())
    }

    /// Whether the configuration keeps its rules under these limits.
    pub fn is_lawful_within(&self, limits: Limits) -> bool
        ensures { result ≡ is_lawful (settings_within limits self.now) }
    {
        is_share_name(self.share.as_bytes())
            && is_label(self.label.as_bytes())
            && is_capacity(limits.capacity, self.capacity)
    }
}
