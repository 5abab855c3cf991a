//! What a CREATE that succeeds does.

ghost use Rattle.std.specs.Prelude.{◌≡◌, Some, OnOk, OnErr, IfErr, true, false};
ghost use Rattle.std.specs.Option.{option_map};
ghost use Rattle.smb_tree.specs.Content.{numbered};
ghost use Rattle.smb_tree.specs.Entries.{is_folder_kind, kept_basic};
ghost use Rattle.smb_wire.specs.Dispositions.{disposition_code, overwrites_by};
ghost use Rattle.smb_access.specs.Asked.{asked, kind_asked, attributes_asked};
ghost use Rattle.smb_access.specs.Parts.{overwritten_basic, standing_tree, action_on, opened_by};
ghost use Rattle.smb_access.specs.Looked.{target_of};
ghost use Rattle.smb_tree.specs.Good.{GoodContent};
ghost use Rattle.smb_access.specs.declared.fault.StoreFault.TheVariants.{NoMemory};

use super::ask::CreateAsk;
use super::checks::{asks_delete, asks_folder};
use super::fault::{StoreFault, refusal_of};
use super::found::Target;
use super::open_row::{OpenNo, OpenRow};
use super::scan::Scan;
use super::sharing::share_asked;
use smb_tree::{Basic, EntryNo, Kind, Tree};
use smb_wire::{Access, CreateAction, CreateDisposition, FileAttributes};

/// What an entry becomes that is added.
pub fn kind_asked(ask: &CreateAsk<'_>) -> Kind
    ensures { result ≡ kind_asked (asked ask.now) }
{
    if asks_folder(ask) {
        Kind::Folder
    } else {
        Kind::File
    }
}

/// The attributes of a new file or folder.
pub fn attributes_asked(kind: Kind, ask: &CreateAsk<'_>) -> FileAttributes
    ensures { result ≡ record { 0 = attributes_asked kind (asked ask.now) } }
{
    match kind {
        Kind::File => FileAttributes(ask.attributes.0 | FileAttributes::ARCHIVE.0),
        Kind::Folder => ask.attributes,
    }
}

/// What is done to an entry that stands.
pub fn action_on(disposition: CreateDisposition) -> CreateAction
    ensures { result ≡ action_on (disposition_code disposition) }
{
    if disposition.supersedes() {
        CreateAction::Superseded
    } else if disposition.overwrites() {
        CreateAction::Overwritten
    } else {
        CreateAction::Opened
    }
}

/// The open that is made of an entry, under its number and with the access granted.
pub fn opened_by(ask: &CreateAsk<'_>, number: OpenNo, entry: EntryNo, access: Access) -> OpenRow
    ensures { result ≡ opened_by (asked ask.now) number entry access }
{
    OpenRow {
        number,
        entry,
        session: ask.session,
        tree: ask.tree,
        access,
        share: share_asked(ask),
        delete_on_close: asks_delete(ask),
        scan: Scan::none(),
    }
}

// What an overwritten file's times and attributes become, of which a tree keeps some.
fn overwritten_basic(
    ask: &CreateAsk<'_>,
    disposition: CreateDisposition,
    moment: u64,
    basic: Basic,
) -> Basic
    requires { disposition_code disposition ≡ ask.now.disposition.0 }
    ensures { kept_basic result ≡ overwritten_basic (asked ask.now) moment basic }
{
    let supersedes = disposition.supersedes();
    Basic {
        creation_time: if supersedes {
            moment
        } else {
            basic.creation_time
        },
        last_access_time: if supersedes {
            moment
        } else {
            basic.last_access_time
        },
        last_write_time: moment,
        change_time: moment,
        attributes: attributes_asked(Kind::File, ask),
    }
}

/// Does to an entry that stands what is asked: a file may be overwritten. Only want of memory can refuse, and
/// nothing has changed then.
pub fn overwrite_if_asked<T: Tree>(
    tree: &mut T,
    ask: &CreateAsk<'_>,
    disposition: CreateDisposition,
    target: Target,
    moment: u64,
) -> Result<(), StoreFault>
    requires good { GoodContent (T.content tree.old) }
    requires disposition { disposition_code disposition ≡ ask.now.disposition.0 }
    requires target { option_map (λ row. target_of row.1) (numbered (T.content tree.old).rows target.number) ≡ Some target }
    requires file { overwrites_by ask.now.disposition.0 ≡ true → is_folder_kind target.kind ≡ false }
    ensures ok { OnOk result (T.content tree.new ≡ standing_tree (T.content tree.old) (asked ask.now) moment target.number) }
    ensures err { OnErr result (T.content tree.new ≡ T.content tree.old) }
    ensures memory { IfErr result (λ fault. fault ≡ NoMemory) }
{
    if !disposition.overwrites() {
        return Ok(());
    }
    if let Err(fault) = tree.set_size(target.number, 0) {
        return Err(refusal_of(fault));
    }
    let basic = overwritten_basic(ask, disposition, moment, target.basic);
    match tree.set_basic(target.number, basic) {
        Ok(()) => Ok(()),
        Err(_) => unreachable!(),
    }
}
