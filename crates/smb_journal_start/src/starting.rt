//! A share's files begin.

ghost use Rattle.std.specs.Prelude.{◌≡◌, ◌≢◌, ◌==◌, ℕ, true, [], Some, OnOk, IfOk, length, take};
ghost use Rattle.std.specs.List.{AllByRecursion};
ghost use Rattle.smb_tree.specs.Content.{new_content_within};
ghost use Rattle.smb_tree.specs.Good.{GoodContent, IsLawfulRow};
ghost use Rattle.smb_opens.specs.Good.{UnmarkedTree};
ghost use Rattle.smb_files.specs.Contents.{files_of};
ghost use Rattle.smb_changes.specs.Batches.{recovered};
ghost use Rattle.smb_recovery.specs.Recovering.{IsReadUpTo};
ghost use Rattle.smb_tree_of_files.specs.Numbers.{HasAll};
ghost use Rattle.smb_journal_start.specs.Unmarked.{HasUnmarked};
ghost use Rattle.smb_journal_start.specs.Left.{IsLeft};

use super::fault::StartFault;
use super::left::end_marked;
use smb_held_files::HeldFiles;
use smb_journal_file::DiskFile;
use smb_journaled_tree::{Chain, JournalFile, JournaledTree};
use smb_nodes::NodeTree;
use smb_recovery::{Recovered, recover};
use smb_tree::EntryNo;
use smb_tree_of_files::{numbers_of, tree_of};
use smb_wire::limits::Limits;
use std::alloc::Global;

/// The most entries that a share can have, the most bytes of a file, and the most of all files.
const GREATEST_ENTRIES: usize = 4_294_967_295;

const GREATEST_FILE_BYTES: u64 = 8_796_093_022_208;

const GREATEST_CAPACITY: u64 = 70_368_744_177_664;

/// The moment of a root that nobody made, in units of 100 ns since 1601: the beginning of 1970.
const NEW_ROOT: u64 = 116_444_736_000_000_000;

/// A tree whose changes are kept in a file.
pub type KeptTree<'a> = JournaledTree<NodeTree, DiskFile<'a>>;

/// What a share's files are under.
#[derive(Clone, Copy, Debug)]
pub struct Space {
    pub limits: Limits,
    /// How many bytes they may take.
    pub capacity: u64,
    /// The moment of a new root, in units of 100 ns since 1601.
    pub created: u64,
}

impl Space {
    /// As much as any share can have, for files that no share goes on with.
    pub fn greatest() -> Space {
        let mut limits = Limits::profile();
        let _ = limits.set_entries(GREATEST_ENTRIES);
        let _ = limits.set_file_bytes(GREATEST_FILE_BYTES);
        let _ = limits.set_capacity(GREATEST_CAPACITY);
        Space {
            limits,
            capacity: limits.capacity,
            created: NEW_ROOT,
        }
    }
}

// A new tree, in a file that has nothing.
fn begin<'a>(
    alloc: Global,
    file: DiskFile<'a>,
    seed: u64,
    space: Space,
) -> Result<KeptTree<'a>, StartFault>
    requires { file.bytes ≡ [] }
    ensures { IfOk result (λ tree. tree.content ≡ new_content_within space.limits space.created space.capacity) }
{
    let Ok(tree) = NodeTree::within(alloc, space.limits, space.created, space.capacity) else {
        return Err(StartFault::NoMemory);
    };
    match JournaledTree::begin(alloc, tree, file, seed) {
        Ok(tree) => Ok(tree),
        Err(fault) => Err(StartFault::from(fault)),
    }
}

// The tree of the files that were recovered. Behind its whole batches the journal has nothing.
fn go_on<'a>(
    alloc: Global,
    file: DiskFile<'a>,
    chain: Chain,
    files: HeldFiles,
    numbers: &[EntryNo],
    space: Space,
) -> Result<KeptTree<'a>, StartFault>
    requires read { IsReadUpTo chain.first file.bytes files (length file.bytes) chain.number chain.seed }
    requires numbers { HasAll files numbers.now }
    ensures good { IfOk result (λ tree. GoodContent tree.content) }
    ensures lawful { IfOk result (λ tree. AllByRecursion IsLawfulRow tree.content.rows) }
    ensures files { IfOk result (λ tree. files_of tree.content ≡ files) }
    ensures limits { IfOk result (λ tree. tree.content.limits ≡ space.limits) }
    ensures capacity { IfOk result (λ tree. tree.content.capacity ≡ space.capacity) }
{
    let entries = files.len();
    let tree = match tree_of(alloc, space.limits, space.capacity, files) {
        Ok(tree) => tree,
        Err(fault) => return Err(StartFault::from(fault)),
    };
    match JournaledTree::resume(alloc, tree, file, chain, numbers, entries) {
        Ok(tree) => Ok(tree),
        Err(fault) => Err(StartFault::from(fault)),
    }
}

// Removes what is marked, and keeps that.
fn keep_unmarked(tree: &mut KeptTree<'_>, numbers: &[EntryNo]) -> Result<(), StartFault>
    requires good { GoodContent tree.old.content }
    requires lawful { AllByRecursion IsLawfulRow tree.old.content.rows }
    requires numbers { HasAll (files_of tree.old.content) numbers.now }
    ensures unmarked { OnOk result (UnmarkedTree tree.new.content) }
    ensures files { OnOk result (HasUnmarked (files_of tree.old.content) tree.new.content) }
    ensures limits { OnOk result (tree.new.content.limits ≡ tree.old.content.limits) }
    ensures capacity { OnOk result (tree.new.content.capacity ≡ tree.old.content.capacity) }
{
    match end_marked(tree, numbers) {
        Ok(()) => {}
        Err(fault) => return Err(fault),
    }
    match tree.settle() {
        Ok(()) => Ok(()),
        Err(fault) => Err(StartFault::from(fault)),
    }
}

// Goes on with the files that were recovered. Behind its whole batches the journal has nothing.
fn go_on_unmarked<'a>(
    alloc: Global,
    file: DiskFile<'a>,
    first: u64,
    found: Recovered,
    space: Space,
) -> Result<KeptTree<'a>, StartFault>
    requires read { IsReadUpTo first file.bytes found.files (length file.bytes) found.number found.seed }
    ensures unmarked { IfOk result (λ tree. UnmarkedTree tree.content) }
    ensures files { IfOk result (λ tree. HasUnmarked found.files tree.content) }
    ensures limits { IfOk result (λ tree. tree.content.limits ≡ space.limits) }
    ensures capacity { IfOk result (λ tree. tree.content.capacity ≡ space.capacity) }
{
    let chain = Chain {
        first,
        number: found.number,
        seed: found.seed,
    };
    let numbers = numbers_of(alloc, &found.files)?;
    let mut tree = match go_on(alloc, file, chain, found.files, &numbers, space) {
        Ok(tree) => tree,
        Err(fault) => return Err(fault),
    };
    match keep_unmarked(&mut tree, &numbers) {
        Ok(()) => Ok(tree),
        Err(fault) => Err(fault),
    }
}

/// What a journal keeps: a file of which nothing was read, whose first batch has this seed. It is read to its end.
///
/// [`StartFault::Journal`] where the journal is damaged, or no share can have what it says, [`StartFault::Unread`] where a
/// read is refused, and [`StartFault::NoMemory`].
pub fn read(alloc: Global, file: &mut DiskFile<'_>, seed: u64) -> Result<Recovered, StartFault>
    requires { file.old.bytes ≡ [] }
    ensures files { IfOk result (λ found. found.files ≡ recovered seed file.new.bytes) }
    ensures read { IfOk result (λ found.
        IsReadUpTo seed file.new.bytes found.files found.whole found.number found.seed) }
    ensures ended { OnOk result (file.new.ended ≡ true) }
{
    match recover(alloc, file, seed) {
        Ok(found) => Ok(found),
        Err(fault) => Err(StartFault::from(fault)),
    }
}

/// Goes on with what was read of a journal, whose first batch has this seed. The files are those that were found, but for
/// the entries that are marked: these go, as they would have gone with their last open (`files`). Where there is no whole
/// batch, the tree is a new one (`new`). What is behind the whole batches is taken off before anything is written.
///
/// The limits and the capacity may be others than before; files that do not fit them are refused.
///
/// # Errors
///
/// After each but `Unwritten` the file is as it was, or only what a lost end left is taken off.
///
/// - [`StartFault::Files`] where its files are not those of a tree, or pass the limits or the capacity.
/// - [`StartFault::Marked`] where a folder is marked that has entries.
/// - [`StartFault::Unwritten`] where the file can't be cut or written.
/// - [`StartFault::NoMemory`] where an allocation is refused.
pub fn start<'a>(
    alloc: Global,
    file: DiskFile<'a>,
    seed: u64,
    found: Recovered,
    space: Space,
) -> Result<KeptTree<'a>, StartFault>
    requires read { IsReadUpTo seed file.bytes found.files found.whole found.number found.seed }
    ensures unmarked { IfOk result (λ tree. UnmarkedTree tree.content) }
    ensures new { IfOk result (λ tree. found.whole ≡ 0 →
        tree.content ≡ new_content_within space.limits space.created space.capacity) }
    ensures files { IfOk result (λ tree. found.whole ≢ 0 → HasUnmarked found.files tree.content) }
    ensures limits { IfOk result (λ tree. tree.content.limits ≡ space.limits) }
    ensures capacity { IfOk result (λ tree. tree.content.capacity ≡ space.capacity) }
{
    let mut file = file;
    if let Err(fault) = file.cut(found.whole) {
        return Err(StartFault::from(fault));
    }
    if found.whole == 0 {
        return begin(alloc, file, seed, space);
    }
    go_on_unmarked(alloc, file, seed, found, space)
}
