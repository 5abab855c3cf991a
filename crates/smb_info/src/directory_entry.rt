//! Entries of a directory, one behind the other.

ghost use Rattle.std.specs.Prelude.{◌≡◌, ◌<◌, ◌≤◌, ◌^◌, ◌-◌, ◌++◌, ◌∷◌, [], length, take, IfNone, IfSome, OnOk, OnErr};
ghost use Rattle.smb_wire.specs.Units.{units_of};
ghost use Rattle.smb_info.specs.CandidateViews.{candidate};
ghost use Rattle.smb_info.specs.DirectoryInformation.{laid};
ghost use Rattle.smb_info.specs.Parts.{rounded_up, entry_length, distance, followed};

use super::candidate::CandidateView;
use super::directory_class::DirectoryInformationClass;
use super::directory_fields::put_entry;
use smb_wire::{Units, WireFault, put_bytes};

// As many zeros as there may be behind an entry.
const ZEROS: [u8; 7] = [0; 7];

/// How many bytes an entry has with its name, where there is room for so many; else None.
pub fn length_within(
    class: DirectoryInformationClass,
    name: Units<'_>,
    room: usize,
) -> Option<usize>
    ensures none { IfNone result (room < entry_length class (units_of name.entry)) }
    ensures length { IfSome result (λ n. n ≡ entry_length class (units_of name.entry)) }
    ensures within { IfSome result (λ n. n ≤ room) }
{
    let left = room.checked_sub(class.fixed_length())?;
    if left / 2 < name.len() {
        return None;
    }
    Some(class.fixed_length() + 2 * name.len())
}

/// How far behind the beginning of an entry of this length the next one begins.
pub fn distance_of(size: usize) -> usize
    requires { size < 2 ^ 32 }
    ensures { result ≡ rounded_up size }
{
    size.div_ceil(8) * 8
}

/// How many bytes an entry has with its name.
fn size_of(class: DirectoryInformationClass, entry: &CandidateView<'_>) -> usize
    requires { entry_length class (units_of entry.now.name) < 2 ^ 32 }
    ensures { result ≡ entry_length class (units_of entry.now.name) }
{
    class.fixed_length() + 2 * entry.name.len()
}

/// How much of the room is left behind an entry where another one follows.
pub fn room_behind(
    class: DirectoryInformationClass,
    entry: &CandidateView<'_>,
    room: usize,
) -> usize
    requires { entry_length class (units_of entry.now.name) < 2 ^ 32 }
    ensures { result ≡ room - distance class (units_of entry.now.name) }
{
    room.saturating_sub(distance_of(size_of(class, entry)))
}

/// Adds an entry, and behind it zeros up to the next one. After an error some of it stands there.
pub fn put_followed(
    class: DirectoryInformationClass,
    entry: &CandidateView<'_>,
    out: &mut Vec<u8>,
) -> Result<(), WireFault>
    requires { distance class (units_of entry.now.name) < 2 ^ 32 }
    ensures ok { OnOk result (out.new.items ≡ out.old.items ++ followed class (candidate entry.now)) }
    ensures kept { take (length out.old.items) out.new.items ≡ out.old.items }
{
    let size = size_of(class, entry);
    let distance = distance_of(size);
    put_entry(class, distance as u32, entry, out)?;
    put_bytes(out, &ZEROS[..distance - size])?;
    Ok(())
}

/// Adds an entry that no other one follows. After an error some of it stands there.
#[tactic(auto, unfolding(crate::specs::DirectoryInformation::laid))]
pub fn put_last(
    class: DirectoryInformationClass,
    entry: &CandidateView<'_>,
    out: &mut Vec<u8>,
) -> Result<(), WireFault>
    requires { entry_length class (units_of entry.now.name) < 2 ^ 32 }
    ensures ok { OnOk result (out.new.items ≡ out.old.items ++ laid class (candidate entry.now ∷ [])) }
    ensures kept { take (length out.old.items) out.new.items ≡ out.old.items }
{
    put_entry(class, 0, entry, out)?;
    Ok(())
}
