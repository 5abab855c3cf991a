//! The tree that every layer above speaks to.

ghost use Rattle.std.specs.Prelude.{◌≡◌, ◌≢◌, ◌++◌, None, Some, OnOk, OnErr, IfOk, IfErr, length, take, drop};
ghost use Rattle.std.specs.Option.{option_map, option_copied};
ghost use Rattle.smb_wire.specs.Paths.{folded_path};
ghost use Rattle.smb_wire.specs.PathViews.{parts_of};
ghost use Rattle.smb_tree.specs.Content.{numbered, number_at, next_number, used_space, added, changed_in, resized, without, written, bytes_of};
ghost use Rattle.smb_tree.specs.Entries.{kept_basic};
ghost use Rattle.smb_tree.specs.Moves.{moved, is_row_within};
ghost use Rattle.smb_tree.specs.WholeNames.{copied, entry_copied};
ghost use Rattle.smb_tree.specs.Children.{name_of, child_after};
ghost use Rattle.smb_tree.specs.ChildLaws.{children_at_once};
ghost use Rattle.smb_tree.specs.Faults.{add_fault, size_fault, basic_fault, remove_fault, move_fault, read_fault, write_fault};
ghost use Rattle.smb_tree.specs.Views.{shown, entry_shown};
ghost use Rattle.smb_tree.specs.declared.fault.TreeFault.TheVariants.{NoMemory};

use super::entry::{Basic, EntryNo, EntryView, Kind};
use super::entry_copy::EntryCopy;
use super::fault::TreeFault;
use arrayvec::ArrayVec;
use smb_reason::Reason;
use smb_wire::limits::Limits;
use smb_wire::{FileAttributes, FoldedName, PathView};
use std::alloc::Global;
use std::marker::Model;
use std::snapshot::Snapshot;

/// How many children of a folder are looked up at once at most.
pub const CHILDREN_AT_ONCE: usize = 16;

/// The numbers of children that are looked up at once.
pub type Children = ArrayVec<EntryNo, CHILDREN_AT_ONCE>;

/// A tree of files and folders. Its content is the list of entries at their paths, with the next entry
/// number and the capacity; every call answers by it, and changes it as it says. After a refusal it is as it
/// was.
pub trait Tree {
    ghost use Rattle.smb_tree.specs.Content.{Content};

    ghost content: { Self → Content };

    ghost is_kept: { Self → Type 0 };

    /// The number of the entry at a path, or None.
    fn find(&self, path: &PathView<'_>) -> Option<EntryNo>
        ensures { result ≡ number_at (content self.now).rows (folded_path (parts_of path.now)) };

    /// The entry of a number as it stands, or None.
    fn entry(&self, number: EntryNo) -> Option<EntryView<'_>>
        ensures { option_map shown result ≡ entry_shown (content self.now).rows number };

    /// The entry of a number with its whole name: how the entries on the way from the root are spelled, at most 32
    /// components of 255 units, with a separator between each two. The root's is empty.
    ///
    /// [`Absent`](TreeFault::Absent) where no entry has the number, [`NoMemory`](TreeFault::NoMemory) where an
    /// allocation is refused.
    fn copy_entry(&self, alloc: Global, number: EntryNo) -> Result<EntryCopy, TreeFault>
        ensures ok { IfOk result (λ copy. Some (copied copy) ≡ entry_copied (content self.now).rows number) }
        ensures why { IfErr result (λ fault. fault ≢ NoMemory → basic_fault (content self.now) number ≡ Some fault) }
        ensures memory { IfErr result (λ fault. fault ≡ NoMemory → basic_fault (content self.now) number ≡ None) };

    /// The child of an entry whose folded name comes next after a given one, or first where none is given; None
    /// where no further child stands or no entry has the number.
    fn child_after(&self, number: EntryNo, after: Option<&FoldedName>) -> Option<EntryNo>
        ensures { result ≡ child_after (content self.now).rows number (option_copied after.entry) };

    /// The children of an entry whose folded names come next after a given one, or first where none is given: those that
    /// [`child_after`](Tree::child_after) gives one after the other, at most 16. What the list held before is gone.
    fn children_after(&self, number: EntryNo, after: Option<&FoldedName>, children: &mut Children)
        ensures { children.new.items ≡ children_at_once (content self.now).rows number (option_copied after.entry) }
    {
        children.clear();
        let mut last = after.copied();
        while !children.is_full() {
            let Some(child) = self.child_after(number, last.as_ref()) else {
                return;
            };
            let Some(name) = self.name(child) else {
                return;
            };
            children.push(child);
            last = Some(name);
        }
    }

    /// The name of the entry of a number: the last component of its path, folded; the root's is empty. None where no
    /// entry has the number.
    fn name(&self, number: EntryNo) -> Option<FoldedName>
        ensures { result ≡ option_map name_of (numbered (content self.now).rows number) };

    /// Whether the entry of a number is that of another one, `above`, or lies beneath it; false where one of them is
    /// not there. It takes no memory.
    fn is_within(&self, above: EntryNo, number: EntryNo) -> bool
        ensures { result ≡ is_row_within (numbered (content self.now).rows above) (numbered (content self.now).rows number) };

    /// The number that the next entry gets, or None once the numbers are spent: the last is the greatest but
    /// one of 64 bits.
    fn next_no(&self) -> Option<EntryNo>
        ensures { result ≡ next_number (content self.now) };

    /// How many bytes of space the files use, each in whole clusters of 4,096 bytes.
    fn used(&self) -> u64
        ensures { result ≡ used_space (content self.now).rows };

    /// How many bytes of space there are.
    fn capacity(&self) -> u64
        ensures { result ≡ (content self.now).capacity };

    /// How much there may be of everything in the share. The tree keeps to those of entries and of a file's bytes.
    fn limits(&self) -> Limits
        ensures { result ≡ (content self.now).limits };

    /// Adds an entry with no bytes, its four times the moment (in units of 100 ns since 1601), with the kept
    /// ones of the attributes, and tells its number.
    ///
    /// [`ParentAbsent`](TreeFault::ParentAbsent) where no folder stands around the path,
    /// [`Exists`](TreeFault::Exists) where an entry stands there, [`Full`](TreeFault::Full) where there are as many
    /// entries besides the root as the limits let be or the numbers are spent,
    /// [`NoMemory`](TreeFault::NoMemory) where an allocation is refused.
    fn add(
        &mut self,
        path: &PathView<'_>,
        kind: Kind,
        attributes: FileAttributes,
        moment: u64,
    ) -> Result<EntryNo, TreeFault>
        ensures ok { OnOk result (content self.new ≡ added (content self.old) (parts_of path.now) kind attributes.0 moment) }
        ensures number { IfOk result (λ number. number ≡ (content self.old).next) }
        ensures lawful { OnOk result (add_fault (content self.old) (folded_path (parts_of path.now)) ≡ None) }
        ensures err { OnErr result (content self.new ≡ content self.old) }
        ensures why { IfErr result (λ fault. fault ≢ NoMemory → add_fault (content self.old) (folded_path (parts_of path.now)) ≡ Some fault) }
        ensures memory { IfErr result (λ fault. fault ≡ NoMemory → add_fault (content self.old) (folded_path (parts_of path.now)) ≡ None) };

    /// Gives a file another size: its bytes are cut, or get zeros behind them.
    ///
    /// [`Absent`](TreeFault::Absent) where no file has the number, [`Full`](TreeFault::Full) over the limit
    /// of a file or where the used space would pass the capacity, [`NoMemory`](TreeFault::NoMemory) where an
    /// allocation is refused.
    fn set_size(&mut self, number: EntryNo, size: u64) -> Result<(), TreeFault>
        ensures ok { OnOk result (content self.new ≡ changed_in (λ entry. record entry { bytes = resized size entry.bytes }) (content self.old) number) }
        ensures lawful { OnOk result (size_fault (content self.old) number size ≡ None) }
        ensures err { OnErr result (content self.new ≡ content self.old) }
        ensures why { IfErr result (λ fault. fault ≢ NoMemory → size_fault (content self.old) number size ≡ Some fault) }
        ensures memory { IfErr result (λ fault. fault ≡ NoMemory → size_fault (content self.old) number size ≡ None) };

    /// Gives an entry other times and attributes, of which it keeps those that are kept.
    /// [`Absent`](TreeFault::Absent) where no entry has the number.
    fn set_basic(&mut self, number: EntryNo, basic: Basic) -> Result<(), TreeFault>
        ensures ok { OnOk result (content self.new ≡ changed_in (λ entry. record entry { basic = kept_basic basic }) (content self.old) number) }
        ensures lawful { OnOk result (basic_fault (content self.old) number ≡ None) }
        ensures err { OnErr result (content self.new ≡ content self.old) }
        ensures why { IfErr result (λ fault. basic_fault (content self.old) number ≡ Some fault) };

    /// Marks an entry, so that it goes once its last open is closed, or takes its mark away. It takes no memory.
    /// [`Absent`](TreeFault::Absent) where no entry has the number.
    fn set_mark(&mut self, number: EntryNo, mark: bool) -> Result<(), TreeFault>
        ensures ok { OnOk result (content self.new ≡ changed_in (λ entry. record entry { mark = mark }) (content self.old) number) }
        ensures lawful { OnOk result (basic_fault (content self.old) number ≡ None) }
        ensures err { OnErr result (content self.new ≡ content self.old) }
        ensures why { IfErr result (λ fault. basic_fault (content self.old) number ≡ Some fault) };

    /// Removes an entry that is not the root, which has number 1. It takes no memory.
    ///
    /// [`Absent`](TreeFault::Absent) where no entry has the number, [`NotEmpty`](TreeFault::NotEmpty) where
    /// entries stand in it.
    fn remove(&mut self, number: EntryNo) -> Result<(), TreeFault>
        requires { number ≢ 1 }
        ensures ok { OnOk result (content self.new ≡ record (content self.old) { rows = without (content self.old).rows number }) }
        ensures lawful { OnOk result (remove_fault (content self.old) number ≡ None) }
        ensures err { OnErr result (content self.new ≡ content self.old) }
        ensures why { IfErr result (λ fault. remove_fault (content self.old) number ≡ Some fault) };

    /// Moves an entry that is not the root, which has number 1, with all that lies beneath it, to another path
    /// ([MS-FSA] 2.1.5.15.11). The entry is spelled as the path's last component is; a file that stands at the path is
    /// taken out. Numbers, bytes, times, attributes and marks stay. Where the path is the entry's own, only its spelling
    /// changes.
    ///
    /// [`Absent`](TreeFault::Absent) where no entry has the number, [`ParentAbsent`](TreeFault::ParentAbsent) where
    /// no folder stands around the path, or it is the entry or lies beneath it, [`Exists`](TreeFault::Exists) where
    /// another folder stands at the path, [`TooDeep`](TreeFault::TooDeep) where an entry would have a path of more
    /// than 32 components; [`NoMemory`](TreeFault::NoMemory) where an allocation is refused, and none of these holds.
    fn move_entry(&mut self, number: EntryNo, path: &PathView<'_>) -> Result<(), TreeFault>
        requires { number ≢ 1 }
        ensures ok { OnOk result (content self.new ≡ moved (content self.old) number (parts_of path.now)) }
        ensures lawful { OnOk result (move_fault (content self.old) number (folded_path (parts_of path.now)) ≡ None) }
        ensures err { OnErr result (content self.new ≡ content self.old) }
        ensures why { IfErr result (λ fault. fault ≢ NoMemory → move_fault (content self.old) number (folded_path (parts_of path.now)) ≡ Some fault) }
        ensures memory { IfErr result (λ fault. fault ≡ NoMemory → move_fault (content self.old) number (folded_path (parts_of path.now)) ≡ None) };

    /// Adds the bytes of a file from an offset on, at most `count`, behind those of a vector; past the file's
    /// end there are none. They are copied once. After a refusal the vector holds what it held.
    ///
    /// [`Absent`](TreeFault::Absent) where no file has the number, [`NoMemory`](TreeFault::NoMemory) where an
    /// allocation is refused.
    fn read(
        &self,
        number: EntryNo,
        offset: u64,
        count: u64,
        bytes: &mut Vec<u8>,
    ) -> Result<(), TreeFault>
        ensures ok { OnOk result (bytes.new.items ≡ bytes.old.items ++ take count (drop offset (bytes_of (content self.now).rows number))) }
        ensures lawful { OnOk result (read_fault (content self.now) number ≡ None) }
        ensures err { OnErr result (bytes.new.items ≡ bytes.old.items) }
        ensures why { IfErr result (λ fault. fault ≢ NoMemory → read_fault (content self.now) number ≡ Some fault) }
        ensures memory { IfErr result (λ fault. fault ≡ NoMemory → read_fault (content self.now) number ≡ None) };

    /// Puts bytes into a file from an offset on. Where they pass its end it gets longer, and a gap before them
    /// is filled with zeros, also where they are none. Times stay.
    ///
    /// [`Absent`](TreeFault::Absent) where no file has the number, [`Full`](TreeFault::Full) where the file
    /// would pass the limit of a file or the used space would pass the capacity,
    /// [`NoMemory`](TreeFault::NoMemory) where an allocation is refused.
    fn write(&mut self, number: EntryNo, offset: u64, buffer: &[u8]) -> Result<(), TreeFault>
        ensures ok { OnOk result (content self.new ≡ changed_in (λ entry. record entry { bytes = written offset buffer.now entry.bytes }) (content self.old) number) }
        ensures lawful { OnOk result (write_fault (content self.old) number offset (length buffer.now) ≡ None) }
        ensures err { OnErr result (content self.new ≡ content self.old) }
        ensures why { IfErr result (λ fault. fault ≢ NoMemory → write_fault (content self.old) number offset (length buffer.now) ≡ Some fault) }
        ensures memory { IfErr result (λ fault. fault ≡ NoMemory → write_fault (content self.old) number offset (length buffer.now) ≡ None) };

    /// Has what changed since the last call kept, where the tree keeps its changes somewhere; what that means of a tree is
    /// its `is_kept`. The content stays, whatever is returned; what an error left unkept is kept by the next call that
    /// returns none.
    fn keep_changes(&mut self) -> Result<(), Reason>
        ensures stays { content self.new ≡ content self.old }
        ensures kept { OnOk result (is_kept self.new) };
}

/// That a tree had kept what changed of it. To clauses it is the content of which that was true. Nothing but a tree that
/// has kept it makes one.
#[derive(Drop)]
pub struct KeptContent<T: Tree> {
    tree: Snapshot<T>,
}

impl<T: Tree> Model for KeptContent<T> {
    ghost use Rattle.smb_tree.specs.Content.{Content};

    ghost Value = { Content };

    ghost view = { λ kept. T.content kept.tree.value };

    ghost invariant = { λ kept. T.is_kept kept.tree.value };
}

impl<T: Tree> KeptContent<T> {
    /// The content of a tree that has kept it.
    pub fn of(tree: &T) -> Self
        requires { T.is_kept tree.now }
        ensures { result ≡ T.content tree.now }
    {
        KeptContent {
            tree: Snapshot::of(tree),
        }
    }
}
