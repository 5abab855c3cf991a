//! The plain tree and the tree of nodes, through the bound that every layer above has, with answers set by hand.

use smb_nodes::NodeTree;
use smb_tree::{Basic, EntryNo, Kind, PlainTree, Tree, TreeFault, laws_of_contents, laws_of_moves};
use smb_wire::{FileAttributes, PathView, Units, split_path};
use std::alloc::Global;

const CREATED: u64 = 116_444_736_000_000_000;

/// The path of a name.
fn path(name: &[u8]) -> Option<PathView<'_>> {
    split_path(Units::of(name)?).ok()
}

/// Adds an entry with all attributes.
fn add<T: Tree>(tree: &mut T, name: &[u8], kind: Kind) -> Option<Result<EntryNo, TreeFault>> {
    let path = path(name)?;
    Some(tree.add(&path, kind, FileAttributes(0xffff_ffff), CREATED + 1))
}

/// The entry at a name's path.
fn find<T: Tree>(tree: &T, name: &[u8]) -> Option<EntryNo> {
    tree.find(&path(name)?)
}

/// Whether the root is shown as a new tree has it.
fn shows_the_root<T: Tree>(tree: &T) -> bool {
    let Some(root) = tree.entry(1) else {
        return false;
    };
    root.number == 1
        && root.parent == 1
        && root.kind == Kind::Folder
        && root.basic == Basic::of(FileAttributes(0), CREATED)
        && root.size == 0
        && !root.mark
        && root.spelling.len() == 0
}

/// Adds the folder `Doc` and the file `me` in it, once.
fn grows<T: Tree>(tree: &mut T) -> bool {
    add(tree, b"D\0o\0c\0", Kind::Folder) == Some(Ok(2))
        && add(tree, b"d\0O\0C\0\\\0m\0e\0", Kind::File) == Some(Ok(3))
        && add(tree, b"D\0O\0C\0", Kind::File) == Some(Err(TreeFault::Exists))
        && tree.next_no() == Some(4)
}

/// Whether the file is found folded, and shown as it was spelled.
fn shows_the_file<T: Tree>(tree: &T) -> bool {
    if find(tree, b"D\0O\0C\0\\\0M\0E\0\\\0") != Some(3) {
        return false;
    }
    let Some(file) = tree.entry(3) else {
        return false;
    };
    file.parent == 2
        && file.kind == Kind::File
        && file.basic == Basic::of(FileAttributes(0x27), CREATED + 1)
        && file.spelling.bytes() == b"m\0e\0".as_slice()
}

/// Whether the file lies within its folder, and that within the root, but neither the other way round; and nothing does
/// within what is not there.
fn nests<T: Tree>(tree: &T) -> bool {
    tree.is_within(1, 2)
        && tree.is_within(1, 3)
        && tree.is_within(2, 3)
        && tree.is_within(3, 3)
        && !tree.is_within(3, 2)
        && !tree.is_within(2, 1)
        && !tree.is_within(2, 4)
        && !tree.is_within(4, 2)
}

/// Gives the file as much room as there is, and no more.
fn fills<T: Tree>(tree: &mut T) -> bool {
    tree.set_size(3, 4_097) == Ok(())
        && tree.set_size(3, 8_193) == Err(TreeFault::Full)
        && tree.set_size(2, 0) == Err(TreeFault::Absent)
        && tree.used() == 8_192
        && tree.capacity() == 8_192
}

/// Gives the root other times, and attributes of which some are kept.
fn dates<T: Tree>(tree: &mut T) -> bool {
    let basic = Basic {
        creation_time: 1,
        last_access_time: 2,
        last_write_time: 3,
        change_time: 4,
        attributes: FileAttributes(0xb1),
    };
    if tree.set_basic(1, basic) != Ok(()) {
        return false;
    }
    let kept = Basic {
        attributes: FileAttributes(0x21),
        ..basic
    };
    tree.entry(1).is_some_and(|root| root.basic == kept)
}

/// Whether the file's whole name is this one.
fn is_named<T: Tree>(tree: &T, alloc: Global, name: &[u8]) -> bool {
    match tree.copy_entry(alloc, 3) {
        Ok(copy) => copy.size == 4_097 && copy.name.as_slice() == name,
        Err(_) => false,
    }
}

/// Moves the folder.
fn moves<T: Tree>(tree: &mut T, name: &[u8]) -> bool {
    match path(name) {
        Some(path) => tree.move_entry(2, &path) == Ok(()),
        None => false,
    }
}

/// Moves the folder with its file to `e`, and respells it as `E`.
fn renames<T: Tree>(tree: &mut T, alloc: Global) -> bool {
    moves(tree, b"e\0")
        && find(tree, b"d\0o\0c\0").is_none()
        && find(tree, b"E\0\\\0M\0E\0") == Some(3)
        && is_named(tree, alloc, b"e\0\\\0m\0e\0")
        && moves(tree, b"E\0")
        && is_named(tree, alloc, b"E\0\\\0m\0e\0")
}

/// Whether a new tree with room for two clusters does what a tree does.
fn is_a_tree<T: Tree>(tree: &mut T, alloc: Global) -> bool {
    shows_the_root(tree)
        && grows(tree)
        && shows_the_file(tree)
        && nests(tree)
        && fills(tree)
        && dates(tree)
        && renames(tree, alloc)
}

#[test]
fn a_plain_tree(rt: HostRuntime) {
    let is_so = match PlainTree::new(rt.alloc(), CREATED, 8_192) {
        Ok(mut tree) => is_a_tree(&mut tree, rt.alloc()),
        Err(_) => false,
    };
    assert!(rt; is_so);
    laws_of_contents();
    laws_of_moves();
}

#[test]
fn a_tree_of_nodes(rt: HostRuntime) {
    let is_so = match NodeTree::new(rt.alloc(), CREATED, 8_192) {
        Ok(mut tree) => is_a_tree(&mut tree, rt.alloc()),
        Err(_) => false,
    };
    assert!(rt; is_so);
}
