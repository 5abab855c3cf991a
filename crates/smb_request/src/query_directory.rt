//! QUERY_DIRECTORY ([MS-SMB2] 3.3.5.18).

ghost use Rattle.std.specs.Prelude.{◌≡◌, ◌≤◌, ◌+◌, Some, IfOk, OnOk, OnErr, IsSome, length, take};
ghost use Rattle.smb_wire.specs.Limits.{longest_body, most_at_once, most_in_any_dialect};
ghost use Rattle.smb_access.specs.Opens.{open_of};
ghost use Rattle.smb_body.specs.QueryDirectory.{query_directory_asked};
ghost use Rattle.smb_info.specs.Asks.{list_asked};
ghost use Rattle.smb_opens.specs.Views.{open_view};
ghost use Rattle.smb_request.specs.InPlace.{answer_held, answer_behind};
ghost use Rattle.smb_request.specs.Response.{failure};
ghost use Rattle.smb_request.specs.QueryDirectory.{has_room_for_fields, listing_refusal, directory_queried};
ghost use Rattle.smb_request.specs.Parts.{list_asked_by, view_refusal, listed_as_asked, listing_refused, directory_refusal};

use super::call::Call;
use super::context::HeaderIds;
use super::response::{Answered, failure, success};
use super::server::Server;
use bitflags::Flags;
use smb_body::{
    QueryDirectoryRequest, Reply, close_query_response, open_query_response, write_reply,
};
use smb_info::{DirectoryInformationClass, InfoFault, ListAsk, list};
use smb_opens::{Opens, Scan, View};
use smb_refusals::{QueryDirectoryRefusal, Refusal};
use smb_session::Authenticator;
use smb_tree::{Kind, Tree};
use smb_wire::Access;
use std::alloc::AllocError;

/// What a refusal of a listing comes to.
#[derive(Clone, Copy)]
pub(crate) struct ListingRefusal {
    pub(crate) refusal: QueryDirectoryRefusal,
    /// The scan that the query started, though no name is matched: it is the open's.
    pub(crate) scan: Option<Scan>,
}

/// What is asked of the directory.
fn list_ask<'a>(request: &QueryDirectoryRequest<'a>) -> ListAsk<'a>
    ensures { list_asked result ≡ list_asked_by (query_directory_asked request.now) }
{
    ListAsk {
        class: request.file_information_class.0,
        flags: request.flags,
        pattern: request.file_name,
        room: request.output_buffer_length,
    }
}

/// Whether there is room for the fixed part of an entry of the class that is asked for.
fn has_room_for_fields(ask: &ListAsk<'_>) -> bool
    ensures { result ≡ has_room_for_fields (list_asked ask.now) }
{
    match DirectoryInformationClass::of(ask.class) {
        Some(class) => class.fixed_length() <= ask.room as usize,
        None => false,
    }
}

/// What a refusal comes to, by whether there is room for the fixed part of an entry. None where no listing is refused so.
fn listing_refusal(has_room: bool, fault: InfoFault) -> Option<ListingRefusal>
    ensures { result ≡ listing_refusal has_room fault }
{
    let (refusal, scan) = match fault {
        InfoFault::BadClass => (QueryDirectoryRefusal::UnknownClass, None),
        InfoFault::BadPattern => (QueryDirectoryRefusal::PatternTooLong, None),
        InfoFault::TooSmall if has_room => (QueryDirectoryRefusal::NoRoomForName, None),
        InfoFault::TooSmall => (QueryDirectoryRefusal::NoRoomForFields, None),
        InfoFault::NoMatch(scan) => (QueryDirectoryRefusal::NoNameMatches, Some(scan)),
        InfoFault::NoMore => (QueryDirectoryRefusal::NoMoreNames, None),
        InfoFault::Unreadable | InfoFault::NoMemory => return None,
    };
    Some(ListingRefusal { refusal, scan })
}

/// Why the open that shows this may not list, or None.
fn view_refusal(view: &View) -> Option<QueryDirectoryRefusal>
    ensures { result ≡ view_refusal view.now }
{
    match view.kind {
        Kind::File => Some(QueryDirectoryRefusal::EntryIsFile),
        Kind::Folder if view.access.intersects(Access::READ_DATA) => None,
        Kind::Folder => Some(QueryDirectoryRefusal::ListNotGranted),
    }
}

/// Adds the body of a refusal to `out`. After an error `out` is as it was.
fn put_refusal(
    ids: HeaderIds,
    refusal: QueryDirectoryRefusal,
    out: &mut Vec<u8>,
) -> Result<Answered, AllocError>
    ensures ok { IfOk result (λ r. answer_held r out.new.items ≡ answer_behind out.old.items (failure ids (Refusal.QueryDirectory refusal))) }
    ensures len { OnOk result (length out.new.items ≤ length out.old.items + longest_body) }
    ensures err { OnErr result (out.new.items ≡ out.old.items) }
    ensures kept { take (length out.old.items) out.new.items ≡ out.old.items }
{
    write_reply(&Reply::Error, out).or(Err(AllocError))?;
    Ok(failure(ids, Refusal::QueryDirectory(refusal)))
}

impl<A: Authenticator + Drop, T: Tree + Drop, O: Opens + Drop> Server<A, T, O> {
    /// Why a query is refused before its class is looked at, or None.
    fn directory_refusal(
        &self,
        call: Call,
        request: &QueryDirectoryRequest<'_>,
    ) -> Option<QueryDirectoryRefusal>
        ensures { result ≡ directory_refusal (most_at_once call.dialect) (open_view self.now.store call.open_number) (query_directory_asked request.now) }
    {
        if request.output_buffer_length > call.most_at_once() {
            return Some(QueryDirectoryRefusal::LengthTooGreat);
        }
        match self.store.view(call.open_number) {
            Some(view) => view_refusal(&view),
            None => Some(QueryDirectoryRefusal::EntryIsFile),
        }
    }

    /// Adds the body of a listing's refusal to `out`, and keeps the scan that the query started. After an error all is as it
    /// was.
    fn refuse_listing(
        &mut self,
        call: Call,
        refusal: &ListingRefusal,
        out: &mut Vec<u8>,
    ) -> Result<Answered, AllocError>
        ensures server { OnOk result (self.new ≡ (listing_refused self.old call refusal.now).server) }
        ensures ok { IfOk result (λ r. answer_held r out.new.items
            ≡ answer_behind out.old.items (listing_refused self.old call refusal.now).response) }
        ensures len { OnOk result (length out.new.items ≤ length out.old.items + longest_body) }
        ensures err { OnErr result (self.new ≡ self.old) }
        ensures out { OnErr result (out.new.items ≡ out.old.items) }
        ensures kept { take (length out.old.items) out.new.items ≡ out.old.items }
        ensures known { self.new.sessions.table.connections ≡ self.old.sessions.table.connections }
    {
        let answered = put_refusal(call.ids, refusal.refusal, out)?;
        if let Some(scan) = refusal.scan {
            self.store.set_scan(call.open_number, scan);
        }
        Ok(answered)
    }

    /// Lists what is asked, straight to where it is sent from, and moves the open's scan behind it. After an error all is as
    /// it was.
    fn list_directory(
        &mut self,
        call: Call,
        asked: &QueryDirectoryRequest<'_>,
        out: &mut Vec<u8>,
    ) -> Result<Answered, AllocError>
        requires open { IsSome (open_of self.old.store.opens call.open_number) }
        requires room { (query_directory_asked asked.now).output_buffer_length ≤ most_in_any_dialect }
        ensures server { OnOk result (self.new ≡ (listed_as_asked self.old call (list_asked_by (query_directory_asked asked.now))).server) }
        ensures ok { IfOk result (λ r. answer_held r out.new.items ≡ answer_behind out.old.items
            (listed_as_asked self.old call (list_asked_by (query_directory_asked asked.now))).response) }
        ensures len { OnOk result (length out.new.items ≤ length out.old.items + longest_body) }
        ensures err { OnErr result (self.new ≡ self.old) }
        ensures out { OnErr result (out.new.items ≡ out.old.items) }
        ensures kept { take (length out.old.items) out.new.items ≡ out.old.items }
        ensures known { self.new.sessions.table.connections ≡ self.old.sessions.table.connections }
    {
        let start = open_query_response(out)?;
        let ask = list_ask(asked);
        match list(&self.store, call.open_number, &ask, out) {
            Ok(scan) => {
                close_query_response(start, out);
                self.store.set_scan(call.open_number, scan);
                Ok(success(call.ids))
            }
            Err(fault) => {
                out.truncate(start);
                match fault {
                    InfoFault::NoMemory => Err(AllocError),
                    fault => {
                        let has_room = has_room_for_fields(&ask);
                        let Some(refusal) = listing_refusal(has_room, fault) else {
                            unreachable!();
                        };
                        let answered = self.refuse_listing(call, &refusal, out)?;
                        Ok(answered)
                    }
                }
            }
        }
    }

    /// QUERY_DIRECTORY ([MS-SMB2] 3.3.5.18) of the open of a number: adds the body of its response to `out`. After an error,
    /// for want of memory, all is as it was.
    #[tactic(auto, unfolding(crate::specs::QueryDirectory::directory_queried))]
    pub(crate) fn query_directory(
        &mut self,
        call: Call,
        asked: &QueryDirectoryRequest<'_>,
        out: &mut Vec<u8>,
    ) -> Result<Answered, AllocError>
        requires { IsSome (open_of self.old.store.opens call.open_number) }
        ensures server { OnOk result (self.new ≡ (directory_queried self.old call (query_directory_asked asked.now)).server) }
        ensures ok { IfOk result (λ r. answer_held r out.new.items ≡ answer_behind out.old.items
            (directory_queried self.old call (query_directory_asked asked.now)).response) }
        ensures len { OnOk result (length out.new.items ≤ length out.old.items + longest_body) }
        ensures err { OnErr result (self.new ≡ self.old) }
        ensures out { OnErr result (out.new.items ≡ out.old.items) }
        ensures kept { take (length out.old.items) out.new.items ≡ out.old.items }
        ensures known { self.new.sessions.table.connections ≡ self.old.sessions.table.connections }
    {
        let _ = &self.sessions;
        if let Some(refusal) = self.directory_refusal(call, asked) {
            return put_refusal(call.ids, refusal, out);
        }
        self.list_directory(call, asked, out)
    }
}
