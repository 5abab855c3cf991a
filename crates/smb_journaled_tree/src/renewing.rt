//! When a journal is written anew, and when the new one takes the place of the old one.

ghost use Rattle.std.specs.Prelude.{◌≡◌, true, List, None, OnSome, IfSome};
ghost use Rattle.std.specs.List.{AllByRecursion};
ghost use Rattle.smb_tree.specs.Good.{GoodContent};
ghost use Rattle.smb_files.specs.Files.{Files, Change as FilesChange, replayed};
ghost use Rattle.smb_files.specs.Contents.{files_of};
ghost use Rattle.smb_changes.specs.Batches.{spelled};
ghost use Rattle.smb_changes.specs.Crash.{IsWritable};
ghost use Rattle.smb_changes.specs.Open.{changes_in_batch};
ghost use Rattle.smb_journaled_tree.specs.Written.{AreBatches};
ghost use Rattle.smb_journaled_tree.specs.Renewal.{IsRenewing, IsRenewed};

use super::file::JournalFile;
use super::journal::Chain;
use super::renewal::Renewal;
use super::room::has_room;
use smb_changes::OpenBatch;
use smb_tree::Tree;
use std::alloc::Global;

// How many bytes a journal needs for an entry, beside its name and its bytes.
const ENTRY: u64 = 88;

// How many bytes of room are to be left behind a slice, beside the margin, so that no change is refused for it.
const LEFT: usize = 1 << 22;

/// Begins to write a journal anew, where its file has many more bytes than a tree's files need.
pub fn begin_renewal<T: Tree, J: JournalFile + Drop>(
    alloc: Global,
    tree: &T,
    file: &mut J,
    entries: usize,
    seed: u64,
) -> Option<Renewal<J>>
    ensures held { J.held file.new ≡ J.held file.old }
    ensures renewed { IsRenewed (files_of (T.content tree.now)) result }
{
    let next = tree.next_no()?;
    if next == 0 {
        return None;
    }
    let named = ENTRY.saturating_mul(entries as u64);
    let made = file.make_next(tree.used().saturating_add(named), seed)?;
    Some(Renewal::begin(alloc, made, seed))
}

/// Writes the next slice, and gives the journal and whether all is written; None where it can't be written, or where it
/// takes the room that the old one needs: then the new one is taken away.
pub fn go_on_renewal<T: Tree, J: JournalFile + Drop>(
    tree: &T,
    file: &mut J,
    mut renewal: Renewal<J>,
    entries: usize,
) -> Option<(Renewal<J>, bool)>
    requires good { GoodContent (T.content tree.now) }
    requires renewing { IsRenewing (files_of (T.content tree.now)) renewal }
    ensures held { J.held file.new ≡ J.held file.old }
    ensures going { IfSome result (λ r. IsRenewing (files_of (T.content tree.now)) r.0) }
    ensures all { IfSome result (λ r. r.1 ≡ true →
        AreBatches (files_of (T.content tree.now)) r.0.bytes r.0.first r.0.number r.0.seed) }
{
    let written = renewal.go_on(tree);
    match written {
        Ok(all) if has_room(file, LEFT, entries) => Some((renewal, all)),
        _ => {
            let (made, _) = renewal.finish();
            file.drop_next(made);
            None
        }
    }
}

/// Gives the place of a journal's file to the new one, once that lasts, and says where its batches go on. None where it
/// can't be: then the new one is taken away.
pub fn replace_file<J: JournalFile + Drop>(file: &mut J, renewal: Renewal<J>) -> Option<Chain>
    ensures some { IfSome result (λ chain. (J.held file.new ≡ renewal.bytes) × (chain.first ≡ renewal.first)
        × (chain.number ≡ renewal.number) × (chain.seed ≡ renewal.seed)) }
    ensures none { result ≡ None → J.held file.new ≡ J.held file.old }
{
    let (mut made, chain) = renewal.finish();
    if made.sync().is_err() {
        file.drop_next(made);
        return None;
    }
    match file.replace(made) {
        Ok(()) => Some(chain),
        Err(_) => None,
    }
}

/// Puts the changes of a batch, which a journal's file got, into the new one too, where one is written. Where that can't
/// be, the new one is taken away.
pub fn follow<J: JournalFile + Drop>(
    file: &mut J,
    renewal: &mut Option<Renewal<J>>,
    batch: &mut OpenBatch,
)
    ensures held { J.held file.new ≡ J.held file.old }
    ensures renewed { (files : Files) (changes : List FilesChange) → AllByRecursion IsWritable changes →
        changes_in_batch batch.old ≡ spelled changes → IsRenewed files renewal.old →
        IsRenewed (replayed files changes) renewal.new }
{
    let Some(mut beside) = renewal.take() else {
        return;
    };
    match beside.follow(batch) {
        Ok(()) => *renewal = Some(beside),
        Err(_) => {
            let (made, _) = beside.finish();
            file.drop_next(made);
        }
    }
}
