//! Dirty entries are noted as they are.

ghost use Rattle.std.specs.Prelude.{◌≡◌, ◌++◌, ◌∷◌, [], None, ℕ, List, is_some, OnOk, OnErr, IfOk};
ghost use Rattle.smb_tree.specs.Content.{Content, numbered};
ghost use Rattle.smb_files.specs.Laws.{entry_change};
ghost use Rattle.smb_changes.specs.Batches.{spelled_change};
ghost use Rattle.smb_changes.specs.Open.{changes_in_batch};
ghost use Rattle.smb_changes.specs.Shown.{change_shown};
ghost use Rattle.std.specs.Option.{option_map};
ghost use Rattle.smb_tree.specs.Views.{shown};
ghost use Rattle.smb_changes.specs.Crash.{IsWritable};
ghost use Rattle.smb_journaled_tree.specs.Slots.{AreDirty};
ghost use Rattle.smb_journaled_tree.specs.Written.{IsWritten, IsNew};
ghost use Rattle.smb_journaled_tree.specs.Kept.{IsNoted, change_seen};

use super::file::{JournalFault, JournalFile};
use super::slots::Slots;
use smb_changes::{Change, OpenBatch};
use smb_tree::{EntryNo, EntryView, Tree};
use smb_wire::WireFault;
use std::alloc::Global;

// The change by which an entry is as it is seen; where it is not there, it is gone.
fn change_of<'a>(number: EntryNo, view: Option<EntryView<'a>>) -> Change<'a>
    ensures { change_shown result ≡ change_seen number (option_map shown view.entry) }
{
    match view {
        None => Change::Gone { number },
        Some(view) => Change::Entry {
            number,
            parent: view.parent,
            kind: view.kind,
            mark: view.mark,
            basic: view.basic,
            spelling: view.spelling,
        },
    }
}

/// Notes an entry as it is, and returns whether it is there.
pub fn note_entry<T: Tree>(
    tree: &T,
    pending: &mut OpenBatch,
    number: EntryNo,
) -> Result<bool, WireFault>
    ensures ok { OnOk result (changes_in_batch pending.new ≡ changes_in_batch pending.old ++ spelled_change (entry_change (T.content tree.now) number)) }
    ensures writable { OnOk result (IsWritable (entry_change (T.content tree.now) number)) }
    ensures there { IfOk result (λ there. there ≡ is_some (numbered (T.content tree.now).rows number)) }
    ensures err { OnErr result (changes_in_batch pending.new ≡ changes_in_batch pending.old) }
{
    let view = tree.entry(number);
    let there = view.is_some();
    pending.note(change_of(number, view))?;
    Ok(there)
}

/// Notes each dirty entry as it is. Where memory runs out, those that were noted are not dirty any more.
pub fn note_dirty<T: Tree>(
    tree: &T,
    slots: &mut Slots,
    pending: &mut OpenBatch,
) -> Result<(), WireFault>
    requires { (dirty : List ℕ) × AreDirty slots.old dirty }
    ensures noted { (settled : Content) (entries : ℕ) → IsNoted (T.content tree.now) settled (changes_in_batch pending.old) slots.old entries → IsNoted (T.content tree.now) settled (changes_in_batch pending.new) slots.new entries }
    ensures clean { OnOk result (slots.new.first ≡ None) }
{
    while let Some(number) = slots.first {
        let there = note_entry(tree, pending, number)?;
        slots.take_first(number, there);
    }
    Ok(())
}

/// Puts the first batch into an empty file: the root of a new tree. Gives the seed of the next.
pub fn begin_file<T: Tree, J: JournalFile>(
    alloc: Global,
    tree: &T,
    file: &mut J,
    seed: u64,
) -> Result<u64, JournalFault>
    requires new { IsNew (T.content tree.now) }
    requires empty { J.held file.old ≡ [] }
    ensures { IfOk result (λ next. IsWritten (T.content tree.now) (J.held file.new) seed 2 next) }
{
    let mut pending = OpenBatch::new(alloc);
    note_entry(tree, &mut pending, 1)?;
    let next = pending.close(seed, 1)?;
    file.append(pending.as_vec())?;
    Ok(next)
}
