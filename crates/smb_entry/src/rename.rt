//! A rename of an open's entry: which is refused, and the move ([MS-FSA] 2.1.5.15.11).

ghost use Rattle.std.specs.Prelude.{◌≡◌, ◌≢◌, ◌++◌, List, true, None, Some, is_some, IfOk, IfErr, OnOk, OnErr};
ghost use Rattle.smb_wire.specs.Paths.{folded_path, path_spelled};
ghost use Rattle.smb_wire.specs.PathViews.{parts_of};
ghost use Rattle.smb_wire.specs.Units.{units_of};
ghost use Rattle.smb_tree.specs.Content.{numbered};
ghost use Rattle.smb_tree.specs.Faults.{move_fault};
ghost use Rattle.smb_tree.specs.Good.{GoodContent};
ghost use Rattle.smb_refusals.specs.Rows.{DecidingRow, first_decided};
ghost use Rattle.smb_access.specs.Parts.{ArePresent};
ghost use Rattle.smb_access.specs.Numbers.{AreRising};
ghost use Rattle.smb_access.specs.Opens.{has_open, open_numbers};
ghost use Rattle.smb_entry.specs.Parts.{renamed_tree, path_numbered};
ghost use Rattle.smb_entry.specs.Ways.{IsMoveRefusal, way_between, is_own_target, count_replaced, is_kept_target, name_rows, target_rows, way_rows};

use super::beneath::{has_open_beneath, is_path_beneath};
use smb_access::access::is_deleting;
use smb_access::checks::{is_folder_target, is_pending, is_read_only_target};
use smb_access::found::{ROOT, Target};
use smb_access::look::{find_above, find_target};
use smb_access::{Opens, View};
use smb_refusals::{RefusedBy, RenameRefusal};
use smb_tree::{Basic, EntryNo, Tree, TreeFault};
use smb_wire::{PathFault, PathView, Units, split_path};

/// What a rename finds where it leads.
#[derive(Clone, Copy, Debug)]
pub struct RenameLookup {
    /// The new path lies beneath the entry.
    pub beneath: bool,
    /// Each entry above the new path is a folder.
    pub reached: bool,
    /// The entry at the new path, or the folder that it is in, is marked.
    pub pending: bool,
    /// The entry at the new path, if one exists.
    pub target: Option<Target>,
}

/// The path that a name spells, or why it is refused whatever exists.
pub fn path_named(name: Units<'_>) -> Result<PathView<'_>, RenameRefusal>
    ensures path { IfOk result (λ path. parts_of path ≡ path_spelled (units_of name.entry)) }
    ensures lawful { OnOk result ((rows : List (DecidingRow RenameRefusal)) → first_decided (name_rows (units_of name.entry) ++ rows) ≡ first_decided rows) }
    ensures err { IfErr result (λ refusal. (rows : List (DecidingRow RenameRefusal)) → first_decided (name_rows (units_of name.entry) ++ rows) ≡ Some refusal) }
{
    if name.len() == 0 {
        return Err(RenameRefusal::NameBeginsWithSeparator);
    }
    match split_path(name) {
        Ok(path) => Ok(path),
        Err(PathFault::LeadingSeparator) => Err(RenameRefusal::NameBeginsWithSeparator),
        Err(_) => Err(RenameRefusal::NameIsNoPath),
    }
}

/// What is found between an entry, which exists, and the path that it is to get.
pub fn look_up_rename<T: Tree>(tree: &T, entry: EntryNo, path: &PathView<'_>) -> RenameLookup
    requires good { GoodContent (T.content tree.now) }
    requires there { is_some (numbered (T.content tree.now).rows entry) ≡ true }
    ensures { result ≡ way_between (T.content tree.now).rows (path_numbered (T.content tree.now).rows entry) (folded_path (parts_of path.now)) }
{
    let target = find_target(tree, path);
    let above = find_above(tree, path);
    RenameLookup {
        beneath: is_path_beneath(tree, entry, path),
        reached: is_folder_target(&above),
        pending: is_pending(&target, &above),
        target,
    }
}

/// Whether the entry of a number is the target.
fn is_own_target(entry: EntryNo, target: &Option<Target>) -> bool
    ensures { result ≡ is_own_target entry target.now }
{
    match target {
        Some(target) => target.number == entry,
        None => false,
    }
}

/// How many entries are taken out where the entry of a number gets the target's place: one, or none.
pub fn count_replaced(entry: EntryNo, target: &Option<Target>) -> usize
    ensures { result ≡ count_replaced entry target.now }
{
    match target {
        Some(target) if target.number != entry => 1,
        _ => 0,
    }
}

/// Whether an entry has an open.
fn has_open<O: Opens>(opens: &O, entry: EntryNo) -> bool
    ensures { result ≡ has_open (O.content opens.now) entry }
{
    opens.on_entry(entry, 0).is_some()
}

/// Whether a target exists that is not replaced.
fn is_kept_target<O: Opens>(opens: &O, target: &Option<Target>) -> bool
    ensures { result ≡ is_kept_target (O.content opens.now) target.now }
{
    let Some(found) = target else {
        return false;
    };
    found.kind.is_folder() || is_read_only_target(target) || has_open(opens, found.number)
}

/// Whether what exists at the new path lets a rename pass, or why it is refused.
fn check_target<O: Opens>(opens: &O, way: &RenameLookup, replace: bool) -> Result<(), RenameRefusal>
    ensures lawful { OnOk result (first_decided (target_rows (O.content opens.now) way.now replace) ≡ None) }
    ensures why { IfErr result (λ refusal. first_decided (target_rows (O.content opens.now) way.now replace) ≡ Some refusal) }
{
    if way.pending {
        return Err(RenameRefusal::TargetToBeDeleted);
    }
    if way.target.is_some() && !replace {
        return Err(RenameRefusal::TargetExists);
    }
    if is_kept_target(opens, &way.target) {
        return Err(RenameRefusal::TargetNotReplaceable);
    }
    Ok(())
}

/// Whether a rename through an open that shows this passes, by what was found, or why it is refused; but for the length
/// of paths, which a move looks at. The opens are gone through only where the entry is a folder and no row before
/// decides.
pub fn check_way<T: Tree, O: Opens>(
    tree: &T,
    opens: &O,
    view: &View,
    way: &RenameLookup,
    replace: bool,
) -> Result<(), RenameRefusal>
    requires good { GoodContent (T.content tree.now) }
    requires there { is_some (numbered (T.content tree.now).rows view.now.entry) ≡ true }
    requires present { ArePresent (T.content tree.now).rows (O.content opens.now) }
    requires rising { AreRising (open_numbers (O.content opens.now)) }
    ensures lawful { OnOk result (first_decided (way_rows (T.content tree.now).rows (O.content opens.now) view.now way.now replace) ≡ None) }
    ensures why { IfErr result (λ refusal. first_decided (way_rows (T.content tree.now).rows (O.content opens.now) view.now way.now replace) ≡ Some refusal) }
{
    if !is_deleting(view.access) || view.entry == ROOT {
        return Err(RenameRefusal::DeleteNotGranted);
    }
    if view.mark {
        return Err(RenameRefusal::EntryToBeDeleted);
    }
    if way.beneath {
        return Err(RenameRefusal::NewPathIsBeneath);
    }
    if !way.reached {
        return Err(RenameRefusal::PathNotFound);
    }
    if is_own_target(view.entry, &way.target) {
        return Ok(());
    }
    if view.kind.is_folder() && has_open_beneath(tree, opens, view.entry) {
        return Err(RenameRefusal::OpenBeneath);
    }
    check_target(opens, way, replace)
}

/// Moves an entry that is not the root to another path at a moment, where nothing but the length of a path may refuse it.
/// After a refusal the tree is as it was.
pub fn move_to<T: Tree>(
    tree: &mut T,
    entry: EntryNo,
    path: &PathView<'_>,
    moment: u64,
) -> Result<(), RefusedBy<RenameRefusal>>
    requires good { GoodContent (T.content tree.old) }
    requires other { entry ≢ 1 }
    requires there { is_some (numbered (T.content tree.old).rows entry) ≡ true }
    ensures ok { OnOk result (T.content tree.new ≡ renamed_tree (T.content tree.old) entry (parts_of path.now) moment) }
    ensures lawful { OnOk result (move_fault (T.content tree.old) entry (folded_path (parts_of path.now)) ≡ None) }
    ensures err { OnErr result (T.content tree.new ≡ T.content tree.old) }
    ensures why { IfErr result (λ refused. IsMoveRefusal (move_fault (T.content tree.old) entry (folded_path (parts_of path.now))) refused) }
{
    let Some(seen) = tree.entry(entry) else {
        unreachable!();
    };
    let basic = Basic {
        change_time: moment,
        ..seen.basic
    };
    match tree.move_entry(entry, path) {
        Ok(()) => {}
        Err(TreeFault::NoMemory) => return Err(RefusedBy::NoMemory),
        Err(_) => return Err(RefusedBy::Row(RenameRefusal::PathTooDeep)),
    }
    match tree.set_basic(entry, basic) {
        Ok(()) => Ok(()),
        Err(_) => unreachable!(),
    }
}
