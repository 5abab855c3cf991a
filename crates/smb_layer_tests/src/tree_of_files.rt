//! Trees from files that were set by hand.

use smb_changes::Change;
use smb_held_files::HeldFiles;
use smb_nodes::NodeTree;
use smb_tree::{Basic, EntryNo, Kind, Tree};
use smb_tree_of_files::{BuildFault, tree_of};
use smb_wire::limits::Limits;
use smb_wire::{FileAttributes, Units, split_path};
use std::alloc::Global;

/// The bytes of a name of ASCII letters, two a unit.
fn units(alloc: Global, name: &str) -> Option<Vec<u8>> {
    let mut bytes = Vec::new(alloc);
    for byte in name.bytes() {
        bytes.push(byte).ok()?;
        bytes.push(0).ok()?;
    }
    Some(bytes)
}

/// Times and attributes of an entry, another one for each number.
fn basic_of(number: EntryNo) -> Basic {
    Basic {
        creation_time: number,
        last_access_time: 2,
        last_write_time: 3,
        change_time: 4,
        attributes: FileAttributes(0x21),
    }
}

/// An entry: its number, that of its folder, its kind and its name.
type Row = (EntryNo, EntryNo, Kind, &'static str);

/// Holds an entry.
fn hold(alloc: Global, files: &mut HeldFiles, row: &Row) -> Option<()> {
    let name = units(alloc, row.3)?;
    let change = Change::Entry {
        number: row.0,
        parent: row.1,
        kind: row.2,
        mark: row.0 == 7,
        basic: basic_of(row.0),
        spelling: Units::of(&name)?,
    };
    files.apply(change).ok()
}

/// Holds entries.
fn held(alloc: Global, rows: &[Row]) -> Option<HeldFiles> {
    let mut files = HeldFiles::new(alloc);
    for row in rows {
        hold(alloc, &mut files, row)?;
    }
    Some(files)
}

const ROOT: Row = (1, 1, Kind::Folder, "");

/// Folders whose numbers are greater than those of what is in them, and a file that is named as a temporary name is.
const ROWS: [Row; 6] = [
    ROOT,
    (3, 1, Kind::File, "aaaaaaaaaaaaaaaaDAAAAAAAAAAAAAAA"),
    (5, 9, Kind::Folder, "Sub"),
    (6, 1, Kind::File, "AAAAAAAAAAAAAAAAFAAAAAAAAAAAAAAA"),
    (7, 5, Kind::File, "me.txt"),
    (9, 1, Kind::Folder, "Top"),
];

/// The number of the entry at a name's path.
fn find(alloc: Global, tree: &NodeTree, name: &str) -> Option<EntryNo> {
    let bytes = units(alloc, name)?;
    let path = split_path(Units::of(&bytes)?).ok()?;
    tree.find(&path)
}

/// Whether the tree has the entry of each row at its place, and nothing besides.
fn has_rows(tree: &NodeTree) -> bool {
    for row in &ROWS {
        let Some(view) = tree.entry(row.0) else {
            return false;
        };
        if view.parent != row.1
            || view.kind != row.2
            || view.mark != (row.0 == 7)
            || view.basic != basic_of(row.0)
            || view.spelling.len() != row.3.len()
        {
            return false;
        }
    }
    [2, 4, 8].iter().all(|number| tree.entry(*number).is_none())
}

/// A file with bytes behind a gap, and a gap behind them.
fn held_rows(alloc: Global) -> Option<HeldFiles> {
    let mut files = held(alloc, &ROWS)?;
    let change = Change::Bytes {
        number: 7,
        offset: 9_000,
        bytes: b"some bytes",
    };
    files.apply(change).ok()?;
    files
        .apply(Change::Size {
            number: 7,
            size: 30_000,
        })
        .ok()?;
    files.apply(Change::Next { next: 20 }).ok()?;
    Some(files)
}

/// Whether the file has its bytes.
fn has_bytes(alloc: Global, tree: &NodeTree) -> bool {
    let mut bytes = Vec::new(alloc);
    if tree.read(7, 8_998, 14, &mut bytes).is_err() {
        return false;
    }
    let size = tree.entry(7).map_or(0, |view| view.size);
    size == 30_000 && bytes.as_slice() == b"\0\0some bytes\0\0".as_slice()
}

/// Whether files make the tree that they are of.
fn makes_the_tree(alloc: Global) -> bool {
    let Some(files) = held_rows(alloc) else {
        return false;
    };
    let Ok(tree) = tree_of(alloc, Limits::profile(), 32_768, files) else {
        return false;
    };
    has_rows(&tree)
        && has_bytes(alloc, &tree)
        && find(alloc, &tree, "top\\SUB\\me.TXT") == Some(7)
        && tree.next_no() == Some(20)
        && tree.used() == 32_768
        && tree.capacity() == 32_768
        && tree.limits() == Limits::profile()
}

#[test]
fn a_tree_of_files(rt: HostRuntime) {
    assert!(rt; makes_the_tree(rt.alloc()));
}

/// Why entries, of which the last has a size, make no tree: three entries may be there besides the root, a file
/// of 5,000 bytes, and there are 4,096 bytes of space.
fn refused(alloc: Global, rows: &[Row], size: u64) -> Option<BuildFault> {
    let mut files = held(alloc, rows)?;
    let number = rows.last()?.0;
    files.apply(Change::Size { number, size }).ok()?;
    let mut limits = Limits::profile();
    let _ = limits.set_entries(3);
    let _ = limits.set_file_bytes(5_000);
    tree_of(alloc, limits, 4_096, files).err()
}

const FILE: Kind = Kind::File;

const FOLDER: Kind = Kind::Folder;

/// The root and four files.
const FIVE: [Row; 5] = [
    ROOT,
    (2, 1, FILE, "a"),
    (3, 1, FILE, "b"),
    (4, 1, FILE, "c"),
    (5, 1, FILE, "d"),
];

#[test]
fn files_past_the_limits(rt: HostRuntime) {
    let alloc = rt.alloc();
    let too_long = Some(BuildFault::TooLong { number: 2 });
    assert_eq!(rt; refused(alloc, &FIVE[..1], 0), None);
    assert_eq!(rt; refused(alloc, &FIVE[..2], 4_096), None);
    assert_eq!(rt; refused(alloc, &FIVE[..2], 4_097), Some(BuildFault::NoRoom));
    assert_eq!(rt; refused(alloc, &FIVE[..2], 5_001), too_long);
    assert_eq!(rt; refused(alloc, &FIVE[..4], 0), None);
    assert_eq!(rt; refused(alloc, &FIVE, 0), Some(BuildFault::TooManyEntries));
}

/// Entries that are those of no tree, and the number of the one that is unfit.
const UNFIT: [(EntryNo, &'static [Row]); 13] = [
    (1, &[(2, 1, FILE, "a")]),
    (1, &[(1, 1, FILE, "")]),
    (1, &[(1, 1, FOLDER, "a")]),
    (2, &[ROOT, (2, 3, FILE, "a")]),
    (2, &[ROOT, (2, 3, FOLDER, "a"), (3, 2, FOLDER, "b")]),
    (2, &[ROOT, (2, 2, FOLDER, "a")]),
    (3, &[ROOT, (2, 1, FILE, "a"), (3, 2, FILE, "b")]),
    (3, &[ROOT, (2, 1, FILE, "a"), (3, 1, FILE, "A")]),
    (3, &[ROOT, (2, 1, FOLDER, "a"), (3, 1, FILE, "A")]),
    (2, &[ROOT, (2, 1, FILE, "a*")]),
    (2, &[ROOT, (2, 1, FILE, "")]),
    (3, &[ROOT, (2, 1, FOLDER, "a"), (3, 1, FILE, "a\\b")]),
    (5, &[ROOT, (5, 4, FILE, "a")]),
];

#[test]
fn files_of_no_tree(rt: HostRuntime) {
    let alloc = rt.alloc();
    for (number, rows) in UNFIT {
        let unfit = Some(BuildFault::Unfit { number });
        assert_eq!(rt; refused(alloc, rows, 0), unfit);
    }
    let unfit = Some(BuildFault::Unfit { number: 2 });
    assert_eq!(rt; refused(alloc, &[ROOT, (2, 1, FOLDER, "a")], 1), unfit);
}

/// Whether folders, each in the one before, make a tree, in a given number.
fn is_deep_enough(alloc: Global, depth: u8) -> Option<bool> {
    let mut files = held(alloc, &[ROOT])?;
    for i in 0..depth {
        let above = if i + 1 == depth { 1 } else { u64::from(i) + 3 };
        hold(
            alloc,
            &mut files,
            &(u64::from(i) + 2, above, Kind::Folder, "x"),
        )?;
    }
    Some(tree_of(alloc, Limits::profile(), 0, files).is_ok())
}

#[test]
fn folders_in_folders(rt: HostRuntime) {
    assert_eq!(rt; is_deep_enough(rt.alloc(), 32), Some(true));
    assert_eq!(rt; is_deep_enough(rt.alloc(), 33), Some(false));
}
