//! Parts of a path.

ghost use Rattle.std.specs.Prelude.{◌≡◌, ◌≤◌, ◌<◌, ◌%◌, IfOk, length};
ghost use Rattle.smb_wire.specs.Pairs.{units_in};
ghost use Rattle.smb_wire.specs.Paths.{folded_path};
ghost use Rattle.smb_wire.specs.PathViews.{parts_of};
ghost use Rattle.smb_tree.specs.Content.{parent};
ghost use Rattle.smb_tree.specs.Entries.{last_part};

use smb_wire::PathView;
use std::alloc::{AllocError, Global};

// The path of the folder around a path; the root's is its own.
pub fn around<'a>(path: &PathView<'a>) -> PathView<'a>
    ensures { folded_path (parts_of result) ≡ parent (folded_path (parts_of path.now)) }
{
    path.front(path.len().saturating_sub(1))
}

// The last component of a path as it is spelled, two bytes a unit.
pub fn last_spelling(alloc: Global, path: &PathView<'_>) -> Result<Vec<u8>, AllocError>
    requires { 0 < length (parts_of path.now) }
    ensures units { IfOk result (λ spelling. units_in spelling.items ≡ last_part (parts_of path.now)) }
    ensures even { IfOk result (λ spelling. length spelling.items % 2 ≡ 0) }
    ensures short { IfOk result (λ spelling. length (units_in spelling.items) ≤ 255) }
{
    let last = path.part(path.len() - 1);
    let spelling = Vec::from_slice(alloc, last.bytes())?;
    Ok(spelling)
}
