//! How much of an information class was written.

ghost use Rattle.std.specs.Prelude.{◌≡◌, ◌≤◌, ◌-◌, ◌++◌, length, take, drop};
ghost use Rattle.smb_info.specs.Parts.{written_of};

/// Whether all of an information class was written.
#[derive(Clone, Copy, Debug, PartialEq, Eq)]
pub enum Truncation {
    /// All of it.
    Whole,
    /// As much as there was room for: the end of a name is missing, perhaps half a unit too.
    Cut,
}

/// Keeps the first `room` bytes of what stands behind the first `before` bytes, and tells whether these are all.
pub(crate) fn cut(out: &mut Vec<u8>, before: usize, room: usize) -> Truncation
    requires { before ≤ length out.old.items }
    ensures kept { out.new.items ≡ take before out.old.items ++ take room (drop before out.old.items) }
    ensures written { result ≡ written_of room (length out.old.items - before) }
{
    if out.len() - before <= room {
        return Truncation::Whole;
    }
    out.truncate(before + room);
    Truncation::Cut
}
