//! SET_INFO ([MS-SMB2] 3.3.5.21).

ghost use Rattle.std.specs.Prelude.{◌≡◌, is_some, true, Some, None, IfOk, IfErr, IfSome, IsSome, OnOk, OnErr};
ghost use Rattle.smb_body.specs.SetInfo.{set_info_asked};
ghost use Rattle.smb_info.specs.SetAsks.{set_asked};
ghost use Rattle.smb_access.specs.Opens.{open_of};
ghost use Rattle.smb_refusals.specs.Refused.{IsRefusedBy};
ghost use Rattle.smb_opens.specs.Views.{open_view};
ghost use Rattle.smb_request.specs.Bodies.{result_step, IsReadyAfter};
ghost use Rattle.smb_request.specs.SetInfo.{information_set};
ghost use Rattle.smb_request.specs.Parts.{set_type_refusal, set_as_asked, set_refusal, set_through};

use super::call::Call;
use super::information::set_info_refusal;
use super::response::Response;
use super::server::Server;
use smb_body::{InfoType, Reply, SetInfoRequest};
use smb_info::{SetAsk, read_set_info};
use smb_opens::{Opens, Store};
use smb_refusals::{Refusal, RefusedBy, SetInfoRefusal};
use smb_session::Authenticator;
use smb_tree::Tree;

/// Checks the type of information that is to be set.
fn check_type(info_type: InfoType) -> Result<(), SetInfoRefusal>
    ensures ok { OnOk result (set_type_refusal info_type.0 ≡ None) }
    ensures err { IfErr result (λ refusal. set_type_refusal info_type.0 ≡ Some refusal) }
{
    if info_type == InfoType::FILE {
        return Ok(());
    }
    if info_type == InfoType::FILESYSTEM
        || info_type == InfoType::SECURITY
        || info_type == InfoType::QUOTA
    {
        return Err(SetInfoRefusal::TypeNotSupported);
    }
    Err(SetInfoRefusal::UnknownType)
}

/// Sets what is asked, of the entry of the open of a number, at a moment in units of 100 ns since 1601.
///
/// [`Row`](RefusedBy::Row) says why the store refuses, and [`NoMemory`](RefusedBy::NoMemory) that it does not, and an
/// allocation was refused; it is then as it was.
fn set_through<T: Tree + Drop, O: Opens + Drop>(
    store: &mut Store<T, O>,
    open_number: u64,
    moment: u64,
    ask: &SetAsk<'_>,
) -> Result<(), RefusedBy<Refusal>>
    requires { IsSome (open_of store.old.opens open_number) }
    ensures shown { is_some (open_view store.old open_number) ≡ true }
    ensures store { OnOk result (store.new ≡ set_through store.old open_number moment (set_asked ask.now)) }
    ensures lawful { OnOk result (set_refusal store.old open_number (set_asked ask.now) ≡ None) }
    ensures err { OnErr result (store.new ≡ store.old) }
    ensures why { IfErr result (IsRefusedBy (set_refusal store.old open_number (set_asked ask.now))) }
{
    match ask {
        SetAsk::Basic(basic) => {
            store.set_basic_by_row(open_number, basic, moment)?;
            Ok(())
        }
        SetAsk::Rename(replace, name) => {
            store.rename_by_row(open_number, *name, *replace, moment)?;
            Ok(())
        }
        SetAsk::Mark(mark) => {
            store.set_delete_by_row(open_number, *mark)?;
            Ok(())
        }
        SetAsk::Allocation(size) => {
            store.set_size_by_row(open_number, *size, true, moment)?;
            Ok(())
        }
        SetAsk::End(size) => {
            store.set_size_by_row(open_number, *size, false, moment)?;
            Ok(())
        }
    }
}

impl<A: Authenticator + Drop, T: Tree + Drop, O: Opens + Drop> Server<A, T, O> {
    /// Sets what is asked, of the entry of the open of a request.
    fn set_as_asked<'a>(
        &mut self,
        call: Call,
        ask: &SetAsk<'_>,
    ) -> Result<Response<'a>, RefusedBy<Refusal>>
        requires { IsSome (open_of self.old.store.opens call.open_number) }
        ensures ok { IfSome (result_step A.meaning self.new call result) (λ step. step ≡ set_as_asked self.old call (set_asked ask.now)) }
        ensures put { IfOk result (IsReadyAfter self.old self.new call) }
        ensures err { IfErr result (λ refusal. self.new ≡ self.old) }
        ensures known { self.new.sessions.table.connections ≡ self.old.sessions.table.connections }
    {
        set_through(&mut self.store, call.open_number, call.moment, ask)?;
        Ok(Response::success(call.ids, Reply::SetInfo))
    }

    /// SET_INFO ([MS-SMB2] 3.3.5.21).
    #[tactic(auto, unfolding(crate::specs::SetInfo::information_set))]
    pub(crate) fn set_info<'a>(
        &mut self,
        call: Call,
        request: &SetInfoRequest<'_>,
    ) -> Result<Response<'a>, RefusedBy<Refusal>>
        requires { IsSome (open_of self.old.store.opens call.open_number) }
        ensures ok { IfSome (result_step A.meaning self.new call result) (λ step. step ≡ information_set self.old call (set_info_asked request.now)) }
        ensures put { IfOk result (IsReadyAfter self.old self.new call) }
        ensures err { IfErr result (λ refusal. self.new ≡ self.old) }
        ensures known { self.new.sessions.table.connections ≡ self.old.sessions.table.connections }
    {
        let _ = &self.sessions;
        check_type(request.info_type)?;
        match read_set_info(request.file_info_class.0, request.buffer) {
            Ok(ask) => self.set_as_asked(call, &ask),
            Err(fault) => Err(RefusedBy::from(set_info_refusal(fault))),
        }
    }
}
