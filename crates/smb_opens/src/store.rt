//! The store: a tree and its opens, joined.

ghost use Rattle.std.specs.Prelude.{◌≡◌, ◌∷◌, [], None, Some, true, false, IsSome, IfOk, IfErr, IfSome, OnOk, OnErr, is_some, filter, length, not, option_and_then};
ghost use Rattle.std.specs.Option.{option_map};
ghost use Rattle.smb_wire.specs.Paths.{path_spelled, folded_path};
ghost use Rattle.smb_wire.specs.PathViews.{parts_of};
ghost use Rattle.smb_wire.specs.Units.{units_of};
ghost use Rattle.smb_tree.specs.Entries.{is_folder_kind};
ghost use Rattle.smb_tree.specs.Content.{entry_at, parent};
ghost use Rattle.smb_tree.specs.WholeNames.{entry_copied};
ghost use Rattle.smb_tree.specs.Faults.{add_fault};
ghost use Rattle.smb_access.specs.Access.{granted};
ghost use Rattle.smb_wire.specs.Dispositions.{disposition_code, overwrites_by};
ghost use Rattle.smb_access.specs.Asked.{asked};
ghost use Rattle.smb_opens.specs.Close.{closed, closed_all, is_removed_with};
ghost use Rattle.smb_opens.specs.Create.{create_refusal, create_status};
ghost use Rattle.smb_refusals.specs.Rows.{first_refusal};
ghost use Rattle.smb_opens.specs.Effect.{created, create_result};
ghost use Rattle.smb_opens.specs.Parts.{created_by, create_result_by, has_all_opens, has_all_entries};
ghost use Rattle.smb_access.specs.Faults.{IsRefusal};
ghost use Rattle.smb_refusals.specs.Refused.{IsRefusedBy};
ghost use Rattle.smb_opens.specs.Found.{entry_asked};
ghost use Rattle.smb_access.specs.Parts.{is_marked};
ghost use Rattle.smb_opens.specs.Looked.{found_at};
ghost use Rattle.smb_access.specs.Looked.{found_rows, is_read_only_target, target_conflicts, target_of};
ghost use Rattle.smb_opens.specs.Good.{UnmarkedTree, GoodStore};
ghost use Rattle.smb_access.specs.Opens.{open_of, is_held_by};
ghost use Rattle.smb_opens.specs.Views.{open_view};
ghost use Rattle.smb_refusals.specs.declared.refused_by.RefusedBy.TheVariants.{NoMemory};

use smb_access::access::granted;
use smb_access::checks::{
    asked_path, check_kind, check_place, check_room, is_folder_target, is_pending,
    is_read_only_target,
};
use smb_access::close::{mark_closed, remove_if_delete_pending};
use smb_access::effect::{action_on, attributes_asked, kind_asked, opened_by, overwrite_if_asked};
use smb_access::found::{CreateLookup, Target};
use smb_access::look::{count_entries, entry_view, find_with_above};
use smb_access::sharing::conflicts;
use smb_access::{Closed, CreateAsk, Created, OpenNo, Opens, Owner, StoreFault, View};
use smb_locks::LockTable;
use smb_reason::Reason;
use smb_refusals::{CreateRefusal, Refusal, RefusedBy};
use smb_tree::{EntryNo, KeptContent, Tree};
use smb_wire::{CreateAction, CreateDisposition, NtStatus, PathView};
use std::alloc::Global;
use std::marker::Model;

/// A tree, the opens of its entries, and their locks. Its state is the tree's content, the list of the opens in rising
/// number, the locks of each file, and the number of the next open.
#[derive(Drop)]
pub struct Store<T: Tree + Drop, O: Opens + Drop> {
    pub(crate) tree: T,
    pub(crate) opens: O,
    pub(crate) locks: LockTable,
    pub(crate) next: OpenNo,
    pub(crate) opens_count: usize,
    pub(crate) entries_count: usize,
}

impl<T: Tree + Drop, O: Opens + Drop> Model for Store<T, O> {
    ghost use Rattle.smb_opens.specs.State.{StoreState};

    ghost Value = { StoreState };

    ghost use Rattle.smb_opens.specs.Good.{IsKept};

    ghost view = { λ s. record { tree = T.content s.tree; opens = O.content s.opens; locks = s.locks; next = s.next } };

    ghost invariant = { λ s. IsKept (T.content s.tree) (O.content s.opens) s.locks s.next s.opens_count s.entries_count };
}

impl<T: Tree + Drop, O: Opens + Drop> Store<T, O> {
    /// Joins a good tree, in which no entry is marked, and opens, of which none stands yet. It takes no memory.
    pub fn new(alloc: Global, tree: T, opens: O) -> Self
        requires tree { UnmarkedTree (T.content tree) }
        requires opens { O.content opens ≡ [] }
        ensures { result ≡ record { tree = T.content tree; opens = []; locks = []; next = 1 } }
    {
        let entries_count = count_entries(&tree);
        Store {
            tree,
            opens,
            locks: LockTable::new(alloc),
            next: 1,
            opens_count: 0,
            entries_count,
        }
    }

    /// The tree.
    pub fn tree(&self) -> &T
        ensures { T.content result.now ≡ self.now.tree }
    {
        &self.tree
    }

    /// Has the tree keep what changed ([`Tree::keep_changes`]). The store stays, whatever is returned.
    pub fn keep_changes(&mut self) -> Result<KeptContent<T>, Reason>
        ensures stays { self.new ≡ self.old }
        ensures kept { IfOk result (λ content. content ≡ self.new.tree) }
    {
        self.tree.keep_changes()?;
        Ok(KeptContent::of(&self.tree))
    }

    /// The opens.
    pub fn opens(&self) -> &O
        ensures { O.content result.now ≡ self.now.opens }
    {
        &self.opens
    }

    /// The locks.
    pub fn locks(&self) -> &LockTable
        ensures { result.now ≡ self.now.locks }
    {
        &self.locks
    }

    /// How many entries the tree has, its root among them. It is kept, and not counted.
    pub fn entry_count(&self) -> usize
        ensures { result ≡ length self.now.tree.rows }
    {
        self.entries_count
    }

    /// How many opens there are. It is kept, and not counted.
    pub fn open_count(&self) -> usize
        ensures { result ≡ length self.now.opens }
    {
        self.opens_count
    }

    /// The whole name of the entry that is open, as it is spelled now; None where no open has the number, or an allocation is refused.
    pub fn open_name(&self, alloc: Global, number: OpenNo) -> Option<Vec<u8>>
        ensures { IfSome result (λ name. option_and_then (λ row. option_map (λ copy. copy.name) (entry_copied self.now.tree.rows row.entry)) (open_of self.now.opens number) ≡ Some name.items) }
    {
        let row = self.opens.get(number)?;
        match self.tree.copy_entry(alloc, row.entry) {
            Ok(copy) => Some(copy.name),
            Err(_) => None,
        }
    }

    /// The number that the next open will have, where one can still be made.
    pub fn next_number(&self) -> OpenNo
        ensures { result ≡ self.now.next }
    {
        self.next
    }

    /// What the open of a number shows, or None where none has it.
    pub fn view(&self, number: OpenNo) -> Option<View>
        ensures value { result ≡ open_view self.now number }
        ensures stands { is_some result ≡ is_some (open_of self.now.opens number) }
    {
        let row = self.opens.get(number)?;
        entry_view(&self.tree, row.entry, row.access)
    }

    /// A store is good, always: the contract is the statement, and the body does nothing.
    pub fn good(&self)
        ensures { GoodStore self.now }
    {
        let _ = &self.next;
    }

    /// Answers a CREATE at a moment (in units of 100 ns since 1601): opens the entry at a path, which is
    /// added, overwritten or left as it stands ([MS-SMB2] 3.3.5.9).
    ///
    /// [`Row`](RefusedBy::Row) tells the first row of the table that holds, and [`NoMemory`](RefusedBy::NoMemory)
    /// that an allocation was refused where none does.
    pub fn create_by_row(
        &mut self,
        ask: &CreateAsk<'_>,
        moment: u64,
    ) -> Result<Created, RefusedBy<CreateRefusal>>
        ensures store { OnOk result (self.new ≡ created self.old (asked ask.now) moment) }
        ensures told { IfOk result (λ done. done ≡ create_result self.old (asked ask.now) moment) }
        ensures lawful { OnOk result (create_refusal self.old (asked ask.now) ≡ None) }
        ensures err { OnErr result (self.new ≡ self.old) }
        ensures why { IfErr result (λ refused. IsRefusedBy (create_refusal self.old (asked ask.now)) refused) }
    {
        self.good();
        let (disposition, path) = asked_path(ask)?;
        let found = self.find(&path);
        self.check_found(ask, disposition, &found)?;
        match found.target {
            None => self.create_new(ask, &path, moment),
            Some(target) => self.open_standing(ask, disposition, target, moment),
        }
    }

    /// [`create_by_row`](Store::create_by_row), with a refusal's status in its place.
    pub fn create(&mut self, ask: &CreateAsk<'_>, moment: u64) -> Result<Created, StoreFault>
        ensures store { OnOk result (self.new ≡ created self.old (asked ask.now) moment) }
        ensures told { IfOk result (λ done. done ≡ create_result self.old (asked ask.now) moment) }
        ensures lawful { OnOk result (create_status self.old (asked ask.now) ≡ NtStatus.Success) }
        ensures err { OnErr result (self.new ≡ self.old) }
        ensures why { IfErr result (λ fault. IsRefusal (create_status self.old (asked ask.now)) fault) }
    {
        match self.create_by_row(ask, moment) {
            Ok(done) => Ok(done),
            Err(refused) => Err(StoreFault::from(RefusedBy::<Refusal>::from(refused))),
        }
    }

    // What stands at a path.
    fn find(&self, path: &PathView<'_>) -> CreateLookup
        ensures { result ≡ found_at self.now (folded_path (parts_of path.now)) }
    {
        let (target, above) = find_with_above(&self.tree, path);
        CreateLookup {
            target,
            reached: is_folder_target(&above),
            pending: is_pending(&target, &above),
            opens_full: self.has_all_opens(),
            entries_full: self.has_all_entries(),
        }
    }

    // Whether no open can be added.
    fn has_all_opens(&self) -> bool
        ensures { result ≡ has_all_opens self.now }
    {
        self.opens_count >= self.tree.limits().opens || self.next == OpenNo::MAX
    }

    // Whether no entry can be added.
    fn has_all_entries(&self) -> bool
        ensures { result ≡ has_all_entries self.now }
    {
        self.entries_count - 1 >= self.tree.limits().entries || self.tree.next_no().is_none()
    }

    // Whether what was found lets a request pass, or why not.
    fn check_found(
        &self,
        ask: &CreateAsk<'_>,
        disposition: CreateDisposition,
        found: &CreateLookup,
    ) -> Result<(), CreateRefusal>
        requires { disposition_code disposition ≡ ask.now.disposition.0 }
        ensures lawful { OnOk result (first_refusal (found_rows self.now.opens (asked ask.now) found.now) ≡ None) }
        ensures why { IfErr result (λ refusal. first_refusal (found_rows self.now.opens (asked ask.now) found.now) ≡ Some refusal) }
    {
        check_place(ask, disposition, found)?;
        check_kind(ask, disposition, &found.target)?;
        if conflicts(&self.opens, ask, disposition, &found.target) {
            return Err(CreateRefusal::OpenConflicts);
        }
        check_room(found)
    }

    // Adds an entry at a path where none stands, and opens it.
    fn create_new(
        &mut self,
        ask: &CreateAsk<'_>,
        path: &PathView<'_>,
        moment: u64,
    ) -> Result<Created, RefusedBy<CreateRefusal>>
        requires path { parts_of path.now ≡ path_spelled (units_of ask.now.name) }
        requires free { add_fault self.old.tree (folded_path (parts_of path.now)) ≡ None }
        requires above { is_marked (entry_at self.old.tree.rows (parent (folded_path (parts_of path.now)))) ≡ false }
        requires room { has_all_opens self.old ≡ false }
        ensures store { OnOk result (self.new ≡ created_by self.old (asked ask.now) moment (granted ask.now.access.0 ask.now.read_only false) None) }
        ensures told { IfOk result (λ done. done ≡ create_result_by self.old (asked ask.now) moment (granted ask.now.access.0 ask.now.read_only false) None) }
        ensures err { OnErr result (self.new ≡ self.old) }
        ensures memory { IfErr result (λ refused. refused ≡ NoMemory) }
    {
        let number = self.next;
        let access = granted(ask.access, ask.read_only, false);
        let kind = kind_asked(ask);
        let Some(entry) = self.tree.next_no() else {
            unreachable!();
        };
        self.opens.add(opened_by(ask, number, entry, access))?;
        if let Err(_) = self
            .tree
            .add(path, kind, attributes_asked(kind, ask), moment)
        {
            self.opens.remove(number);
            return Err(RefusedBy::NoMemory);
        }
        self.next = number + 1;
        self.opens_count += 1;
        self.entries_count += 1;
        let Some(view) = entry_view(&self.tree, entry, access) else {
            unreachable!();
        };
        Ok(Created {
            number,
            action: CreateAction::Created,
            view,
        })
    }

    // Opens the entry that stands where a request looks.
    fn open_standing(
        &mut self,
        ask: &CreateAsk<'_>,
        disposition: CreateDisposition,
        target: Target,
        moment: u64,
    ) -> Result<Created, RefusedBy<CreateRefusal>>
        requires disposition { disposition_code disposition ≡ ask.now.disposition.0 }
        requires target { option_map target_of (entry_asked self.old (asked ask.now)) ≡ Some target }
        requires file { overwrites_by ask.now.disposition.0 ≡ true → is_folder_kind target.kind ≡ false }
        requires alone { target_conflicts self.old.opens (asked ask.now) (Some target) ≡ false }
        requires room { has_all_opens self.old ≡ false }
        ensures store { OnOk result (self.new ≡ created_by self.old (asked ask.now) moment (granted ask.now.access.0 ask.now.read_only (is_read_only_target (Some target))) (entry_asked self.old (asked ask.now))) }
        ensures told { IfOk result (λ done. done ≡ create_result_by self.old (asked ask.now) moment (granted ask.now.access.0 ask.now.read_only (is_read_only_target (Some target))) (entry_asked self.old (asked ask.now))) }
        ensures err { OnErr result (self.new ≡ self.old) }
        ensures memory { IfErr result (λ refused. refused ≡ NoMemory) }
    {
        let number = self.next;
        let access = granted(
            ask.access,
            ask.read_only,
            is_read_only_target(&Some(target)),
        );
        self.opens
            .add(opened_by(ask, number, target.number, access))?;
        if let Err(_) = overwrite_if_asked(&mut self.tree, ask, disposition, target, moment) {
            self.opens.remove(number);
            return Err(RefusedBy::NoMemory);
        }
        self.next = number + 1;
        self.opens_count += 1;
        let Some(view) = entry_view(&self.tree, target.number, access) else {
            unreachable!();
        };
        Ok(Created {
            number,
            action: action_on(disposition),
            view,
        })
    }

    /// Closes the open of a number, which stands ([MS-SMB2] 3.3.5.10), and tells what it showed before. Its locks
    /// go with it. Its entry is marked where the open was to delete it, and it can be deleted; a marked entry goes with its last open. It takes no
    /// memory.
    pub fn close(&mut self, number: OpenNo) -> Closed
        requires { IsSome (open_of self.old.opens number) }
        ensures store { self.new ≡ closed self.old number }
        ensures view { Some result.view ≡ open_view self.old number }
        ensures removed { result.removed ≡ is_removed_with self.old number }
    {
        let Some(row) = self.opens.get(number) else {
            unreachable!();
        };
        let row = *row;
        let Some(view) = entry_view(&self.tree, row.entry, row.access) else {
            unreachable!();
        };
        self.opens.remove(number);
        self.opens_count -= 1;
        self.locks.drop_open_on(row.entry, number);
        mark_closed(&mut self.tree, &row);
        let removed = remove_if_delete_pending(&mut self.tree, &self.opens, row.entry);
        if removed {
            self.entries_count -= 1;
        }
        Closed { view, removed }
    }

    /// Closes all opens of an owner, in rising number. It takes no memory.
    pub fn close_all(&mut self, owner: Owner)
        ensures store { self.new ≡ closed_all self.old owner }
        ensures left { self.new.opens ≡ filter (λ row. not (is_held_by owner row)) self.old.opens }
    {
        self.good();
        while let Some(number) = self.opens.of_owner(owner) {
            let _ = self.close(number);
        }
    }
}
