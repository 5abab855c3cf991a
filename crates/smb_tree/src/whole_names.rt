//! The whole names of stored entries.

ghost use Rattle.std.specs.Prelude.{◌≡◌, ◌≤◌, IfOk, length};
ghost use Rattle.smb_wire.specs.Pairs.{unit_bytes};
ghost use Rattle.smb_wire.specs.Paths.{components, folded_path};
ghost use Rattle.smb_wire.specs.PathViews.{parts_of};
ghost use Rattle.smb_wire.specs.Units.{units_of};
ghost use Rattle.smb_tree.specs.Plain.{rows_of};
ghost use Rattle.smb_tree.specs.Parts.{spelling_at, whole_name};

use super::look::stored_at;
use super::paths::add_component;
use super::stored::Stored;
use super::texts::{last_begin, text_of};
use smb_wire::{PathView, Units};
use std::alloc::{AllocError, Global};

// How the entry at the path that a text spells is spelled; the empty text where there is none.
fn spelling_at<'a>(entries: &'a Vec<Stored>, path: Units<'a>) -> Units<'a>
    ensures units { units_of result ≡ spelling_at (rows_of entries.now.items) (folded_path (components (units_of path.entry))) }
    ensures short { length (units_of result) ≤ 255 }
{
    match stored_at(entries, path) {
        Some(stored) => {
            let text = text_of(stored);
            text.range(last_begin(text), text.len())
        }
        None => path.range(0, 0),
    }
}

// The whole name of the entry at a path: how each entry on the way from the root is spelled.
pub fn whole_name(
    alloc: Global,
    entries: &Vec<Stored>,
    path: &PathView<'_>,
) -> Result<Vec<u8>, AllocError>
    ensures name { IfOk result (λ name. name.items ≡ unit_bytes (whole_name (rows_of entries.now.items) (folded_path (parts_of path.now)))) }
    ensures short { IfOk result (λ name. length name.items ≤ 16382) }
{
    let mut name = Vec::new(alloc);
    for i in 0..path.len() {
        let front = path.front(i + 1);
        add_component(&mut name, i == 0, spelling_at(entries, front.text()))?;
    }
    Ok(name)
}
