//! The tree of nodes.

ghost use Rattle.std.specs.Prelude.{◌≡◌, IfOk, IfErr, max};
ghost use Rattle.smb_tree.specs.Content.{new_content, new_content_within};
ghost use Rattle.smb_tree.specs.declared.fault.TreeFault.TheVariants.{NoMemory};

use super::additions::{add_fault, place};
use super::change::{overwrite, put_mark, rebase, resize};
use super::first::{indexed, rooted};
use super::look::{name_of, node_at, number_or_none, slot_of, view_of, walk_down};
use super::moves::{is_within, move_fault, target_in};
use super::next::{next_child, next_children};
use super::node::Node;
use super::paths::{around, last_spelling};
use super::places::{evict, is_slot, reparent, settle};
use super::removals::{has_child, unhang};
use super::sizes::{size_fault, size_written, space_of};
use super::ways::{bound_for, deepest_with, levels_beneath};
use super::whole_names::whole_name;
use slab::Slab;
use smb_pages::Pages;
use smb_reason::Reason;
use smb_tree::{
    Basic, Children, EntryCopy, EntryNo, EntryView, Kind, Tree, TreeFault, allocation_size,
};
use smb_wire::limits::Limits;
use smb_wire::{FileAttributes, FoldedName, PathView};
use std::alloc::{AllocError, Global};
use std::collections::BTreeMap;
use std::fmt;
use std::marker::Model;

/// A tree that keeps each entry as a node in a slot. A slot that became empty is used again; a number never is.
///
/// A path is found by one look-up in a folder's children for each component ([`find`](Tree::find)), a number by one
/// look-up in the index; the call that a number is given to begins with that one. What else each call costs:
///
/// - [`entry`](Tree::entry), [`name`](Tree::name), [`set_basic`](Tree::set_basic), [`set_mark`](Tree::set_mark):
///   nothing more. [`used`](Tree::used) is kept, and not counted.
/// - [`child_after`](Tree::child_after): two look-ups in the folder's children, or one where no name is given. A name that
///   is no child's, as of one that was removed meanwhile, costs a pass over the children before it in place of the first.
/// - [`children_after`](Tree::children_after): the same for all of them, and then a step for each.
/// - [`is_within`](Tree::is_within): a second look-up in the index, and at most one step up by slots for each component of
///   the path.
/// - [`copy_entry`](Tree::copy_entry): one step up for each component, and memory for the name.
/// - [`add`](Tree::add): one walk along the path, one look-up among the folder's children, and one insertion there and
///   into the index. It takes memory for the spelling, for the folded name of the child and, where there is no room, for
///   a slot, a child and a number.
/// - [`remove`](Tree::remove): one look-up in the folder's children, and a removal from there and from the index.
/// - [`move_entry`](Tree::move_entry): one walk along the path, one look-up and one insertion among the new folder's
///   children, and one removal from the old one's. Of a folder's entries none is touched. It takes memory for the
///   spelling and, where no child of the new folder has the name, for the folded name and a child there. A file that
///   goes also leaves its slot and the index. It keeps a bound of how long the tree's paths are. Where by that bound a
///   path could get too long, it goes through all slots to count the bound anew, and once more where that doesn't do.
/// - [`read`](Tree::read): a read of n bytes finds some n / 4,096 pages, and copies each byte once: a page in one block, and in
///   one block of zeros what was never written of it. It takes memory once, for the bytes that it adds and no more.
/// - [`write`](Tree::write): a write of n bytes finds some n / 4,096 pages, and copies each byte once, a page in one block. It
///   takes the memory of all the pages in which the bytes lie before it changes one. What it fills isn't cleared first, and no
///   byte of another page is moved; a gap takes no page but the one in which the bytes begin. After a refusal pages below the
///   file's end may keep memory that they got, for the next write.
/// - [`set_size`](Tree::set_size): no memory. Growing is one step; cutting gives back the memory of each page that begins past
///   the end.
///
/// The bytes of a file are kept in pages of 4,096 bytes ([`Pages`]). A file takes 4,096 bytes of memory for each page
/// below its end in which something was written, and three words for each page up to the last of these, in a table
/// that grows by doubling. What was never written is read as zeros, and takes no page.
#[derive(Drop)]
pub struct NodeTree {
    nodes: Slab<Node>,
    index: BTreeMap<EntryNo, usize>,
    next: EntryNo,
    used: u64,
    capacity: u64,
    limits: Limits,
    // No path has more components.
    deepest: usize,
    alloc: Global,
}

impl fmt::Debug for NodeTree {
    fn fmt<W: fmt::Write>(&self, f: &mut fmt::Formatter<W>) -> fmt::Result {
        write!(
            f,
            "NodeTree {{ entries: {}, used: {}, .. }}",
            self.index.len(),
            self.used
        )
    }
}

impl Model for NodeTree {
    ghost use Rattle.smb_tree.specs.Content.{Content};

    ghost Value = { Content };

    ghost use Rattle.smb_nodes.specs.Tree.{content_kept, KeepsTree};

    ghost view = { content_kept };

    ghost invariant = { KeepsTree };
}

impl NodeTree {
    /// A tree that has the root alone, its four times `created` (in units of 100 ns since 1601), with so many
    /// bytes of space. [`NoMemory`](TreeFault::NoMemory) is the only refusal.
    pub fn new(alloc: Global, created: u64, capacity: u64) -> Result<NodeTree, TreeFault>
        ensures ok { IfOk result (λ tree. tree ≡ new_content created capacity) }
        ensures err { IfErr result (λ fault. fault ≡ NoMemory) }
    {
        NodeTree::within(alloc, Limits::profile(), created, capacity)
    }

    /// [`new`](Self::new) under these limits.
    pub fn within(
        alloc: Global,
        limits: Limits,
        created: u64,
        capacity: u64,
    ) -> Result<NodeTree, TreeFault>
        ensures ok { IfOk result (λ tree. tree ≡ new_content_within limits created capacity) }
        ensures err { IfErr result (λ fault. fault ≡ NoMemory) }
    {
        let nodes = rooted(alloc, created)?;
        let index = indexed(alloc)?;
        Ok(NodeTree {
            nodes,
            index,
            next: 2,
            used: 0,
            capacity,
            limits,
            deepest: 0,
            alloc,
        })
    }

    /// Leaves out the numbers below one: the next entry that is added gets this one, or the one that it would get where that is
    /// greater.
    pub fn skip_to(&mut self, number: EntryNo)
        ensures { self.new ≡ record self.old { next = max self.old.next number } }
    {
        self.next = self.next.max(number);
    }
}

impl Tree for NodeTree {
    ghost content = { λ content. content };

    ghost is_kept = { λ _. Unit {0} };

    fn find(&self, path: &PathView<'_>) -> Option<EntryNo> {
        let node = node_at(&self.nodes, path)?;
        Some(node.number)
    }

    fn entry(&self, number: EntryNo) -> Option<EntryView<'_>> {
        let slot = slot_of(&self.index, number)?;
        let node = &self.nodes[slot];
        Some(view_of(&self.nodes, node))
    }

    fn copy_entry(&self, alloc: Global, number: EntryNo) -> Result<EntryCopy, TreeFault> {
        let Some(slot) = slot_of(&self.index, number) else {
            return Err(TreeFault::Absent);
        };
        let name = whole_name(alloc, &self.nodes, slot)?;
        let node = &self.nodes[slot];
        Ok(EntryCopy {
            number: node.number,
            kind: node.kind,
            basic: node.basic,
            size: node.bytes.size(),
            mark: node.mark,
            name,
        })
    }

    fn child_after(&self, number: EntryNo, after: Option<&FoldedName>) -> Option<EntryNo> {
        let slot = slot_of(&self.index, number)?;
        let child = next_child(&self.nodes, slot, after)?;
        Some(number_or_none(&self.nodes, child))
    }

    fn children_after(&self, number: EntryNo, after: Option<&FoldedName>, children: &mut Children) {
        match slot_of(&self.index, number) {
            Some(slot) => next_children(&self.nodes, &self.nodes[slot].children, after, children),
            None => children.clear(),
        }
    }

    fn name(&self, number: EntryNo) -> Option<FoldedName> {
        let slot = slot_of(&self.index, number)?;
        let node = &self.nodes[slot];
        Some(name_of(node))
    }

    fn is_within(&self, above: EntryNo, number: EntryNo) -> bool {
        let Some(top) = slot_of(&self.index, above) else {
            return false;
        };
        let Some(slot) = slot_of(&self.index, number) else {
            return false;
        };
        is_within(&self.nodes, top, slot)
    }

    fn next_no(&self) -> Option<EntryNo> {
        if self.next == EntryNo::MAX {
            None
        } else {
            Some(self.next)
        }
    }

    fn used(&self) -> u64 {
        self.used
    }

    fn capacity(&self) -> u64 {
        self.capacity
    }

    fn limits(&self) -> Limits {
        self.limits
    }

    fn add(
        &mut self,
        path: &PathView<'_>,
        kind: Kind,
        attributes: FileAttributes,
        moment: u64,
    ) -> Result<EntryNo, TreeFault> {
        let Some(parent) = walk_down(&self.nodes, &around(path)) else {
            return Err(TreeFault::ParentAbsent);
        };
        let most = self.limits.entries;
        if let Some(fault) = add_fault(
            &self.nodes,
            most,
            self.index.len(),
            self.next,
            parent,
            path,
        ) {
            return Err(fault);
        }
        let number = self.next;
        let spelling = last_spelling(self.alloc, path)?;
        let node = Node {
            number,
            kind,
            basic: Basic::of(attributes, moment),
            mark: false,
            spelling,
            parent,
            children: BTreeMap::new(self.alloc),
            bytes: Pages::new(self.alloc),
        };
        place(self.alloc, &mut self.nodes, &mut self.index, node)?;
        self.next = number + 1;
        self.deepest = self.deepest.max(path.len());
        Ok(number)
    }

    fn set_size(&mut self, number: EntryNo, size: u64) -> Result<(), TreeFault> {
        let Some(slot) = slot_of(&self.index, number) else {
            return Err(TreeFault::Absent);
        };
        let others = self.used - space_of(&self.nodes, slot);
        let most = self.limits.file_bytes;
        if let Some(fault) = size_fault(&self.nodes, slot, most, others, self.capacity, size) {
            return Err(fault);
        }
        resize(&mut self.nodes, slot, size);
        self.used = others + allocation_size(size);
        Ok(())
    }

    fn set_basic(&mut self, number: EntryNo, basic: Basic) -> Result<(), TreeFault> {
        let Some(slot) = slot_of(&self.index, number) else {
            return Err(TreeFault::Absent);
        };
        rebase(&mut self.nodes, slot, basic);
        Ok(())
    }

    fn set_mark(&mut self, number: EntryNo, mark: bool) -> Result<(), TreeFault> {
        let Some(slot) = slot_of(&self.index, number) else {
            return Err(TreeFault::Absent);
        };
        put_mark(&mut self.nodes, slot, mark);
        Ok(())
    }

    fn read(
        &self,
        number: EntryNo,
        offset: u64,
        count: u64,
        bytes: &mut Vec<u8>,
    ) -> Result<(), TreeFault> {
        let Some(slot) = slot_of(&self.index, number) else {
            return Err(TreeFault::Absent);
        };
        let node = &self.nodes[slot];
        if node.kind.is_folder() {
            return Err(TreeFault::Absent);
        }
        node.bytes.add_part(offset, count, bytes)?;
        Ok(())
    }

    fn write(&mut self, number: EntryNo, offset: u64, buffer: &[u8]) -> Result<(), TreeFault> {
        let Some(slot) = slot_of(&self.index, number) else {
            return Err(TreeFault::Absent);
        };
        let others = self.used - space_of(&self.nodes, slot);
        let new_size = size_written(&self.nodes, slot, offset, buffer);
        let most = self.limits.file_bytes;
        if let Some(fault) = size_fault(&self.nodes, slot, most, others, self.capacity, new_size) {
            return Err(fault);
        }
        overwrite(&mut self.nodes, slot, offset, buffer)?;
        self.used = others + allocation_size(new_size);
        Ok(())
    }

    fn remove(&mut self, number: EntryNo) -> Result<(), TreeFault> {
        let Some(slot) = slot_of(&self.index, number) else {
            return Err(TreeFault::Absent);
        };
        if has_child(&self.nodes, slot) {
            return Err(TreeFault::NotEmpty);
        }
        let others = self.used - space_of(&self.nodes, slot);
        unhang(&mut self.nodes, slot);
        let _ = self.index.remove(&number);
        self.used = others;
        Ok(())
    }

    fn move_entry(&mut self, number: EntryNo, path: &PathView<'_>) -> Result<(), TreeFault> {
        let Some(slot) = slot_of(&self.index, number) else {
            return Err(TreeFault::Absent);
        };
        let Some(folder) = walk_down(&self.nodes, &around(path)) else {
            return Err(TreeFault::ParentAbsent);
        };
        let target = target_in(&self.nodes, folder, path);
        let count = path.len();
        let bound = bound_for(&self.nodes, slot, count, self.deepest);
        let below = levels_beneath(&self.nodes, slot, bound);
        if let Some(fault) = move_fault(&self.nodes, slot, number, path, folder, target, below) {
            return Err(fault);
        }
        let spelling = last_spelling(self.alloc, path)?;
        let deepest = deepest_with(bound, count, below);
        if is_slot(target, slot) {
            settle(&mut self.nodes, slot, folder, spelling);
            self.deepest = deepest;
            return Ok(());
        }
        reparent(self.alloc, &mut self.nodes, slot, folder, spelling)?;
        self.deepest = deepest;
        let Some(other) = target else {
            return Ok(());
        };
        self.used -= evict(&mut self.nodes, &mut self.index, other);
        Ok(())
    }

    // It keeps nothing beside itself.
    fn keep_changes(&mut self) -> Result<(), Reason> {
        Ok(())
    }
}
