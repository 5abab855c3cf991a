//! LOCK ([MS-SMB2] 3.3.5.14).

ghost use Rattle.std.specs.Prelude.{◌≡◌, take, IfOk, IfErr, IfSome, IsSome};
ghost use Rattle.smb_access.specs.Opens.{open_of};
ghost use Rattle.smb_body.specs.LockLists.{locks_of};
ghost use Rattle.smb_body.specs.Lock.{lock_asked};
ghost use Rattle.smb_request.specs.Locks.{locks_changed};
ghost use Rattle.smb_request.specs.Parts.{lock_asks, lock_ask, asks_unlock, file_locked, file_unlocked};
ghost use Rattle.smb_request.specs.Bodies.{result_step, IsReadyAfter};
ghost use Rattle.smb_refusals.specs.declared.refused_by.RefusedBy.TheVariants.{NoMemory};

use super::call::Call;
use super::response::Response;
use super::server::Server;
use bitflags::Flags;
use smb_body::{LockElement, LockList, LockRequest, Reply};
use smb_locks::LockAsk;
use smb_opens::Opens;
use smb_refusals::{Refusal, RefusedBy};
use smb_session::Authenticator;
use smb_tree::Tree;
use smb_wire::LockFlags;
use std::alloc::{AllocError, Global};

/// What an element asks of the store.
fn lock_ask(element: LockElement) -> LockAsk
    ensures { result ≡ lock_ask element }
{
    LockAsk {
        offset: element.offset,
        length: element.length,
        flags: element.flags,
    }
}

/// What the elements of a request ask of the store, in one vector, which is made in its whole size.
fn lock_asks(alloc: Global, elements: LockList<'_>) -> Result<Vec<LockAsk>, AllocError>
    ensures { IfOk result (λ asks. asks.items ≡ lock_asks (locks_of elements.entry)) }
{
    let mut asks = Vec::with_capacity(alloc, elements.len())?;
    for i in 0..elements.len() {
        let Some(element) = elements.get(i) else {
            unreachable!();
        };
        asks.push(lock_ask(element))?;
    }
    Ok(asks)
}

/// Whether a request unlocks: its first element has UNLOCK.
fn asks_unlock(asks: &[LockAsk]) -> bool
    ensures { result ≡ asks_unlock asks.now }
{
    match asks.first() {
        Some(ask) => ask.flags.contains(LockFlags::UNLOCK),
        None => false,
    }
}

impl<A: Authenticator + Drop, T: Tree + Drop, O: Opens + Drop> Server<A, T, O> {
    /// A LOCK that locks ([MS-SMB2] 3.3.5.14.2).
    fn lock_file<'a>(
        &mut self,
        call: Call,
        asks: &[LockAsk],
    ) -> Result<Response<'a>, RefusedBy<Refusal>>
        requires { IsSome (open_of self.old.store.opens call.open_number) }
        ensures ok { IfSome (result_step A.meaning self.new call result) (λ step. step ≡ file_locked self.old call asks.now) }
        ensures put { IfOk result (IsReadyAfter self.old self.new call) }
        ensures err { IfErr result (λ refusal. self.new ≡ self.old) }
        ensures known { self.new.sessions.table.connections ≡ self.old.sessions.table.connections }
    {
        self.store.lock_by_row(call.open_number, asks)?;
        Ok(Response::success(call.ids, Reply::Lock))
    }

    /// A LOCK that unlocks ([MS-SMB2] 3.3.5.14.1). It takes no memory.
    fn unlock_file<'a>(
        &mut self,
        call: Call,
        asks: &[LockAsk],
    ) -> Result<Response<'a>, RefusedBy<Refusal>>
        requires { IsSome (open_of self.old.store.opens call.open_number) }
        ensures ok { IfSome (result_step A.meaning self.new call result) (λ step. step ≡ file_unlocked self.old call asks.now) }
        ensures put { IfOk result (IsReadyAfter self.old self.new call) }
        ensures err { IfErr result (λ refusal. refusal ≡ NoMemory → self.new ≡ self.old) }
        ensures known { self.new.sessions.table.connections ≡ self.old.sessions.table.connections }
    {
        self.store.unlock_by_row(call.open_number, asks)?;
        Ok(Response::success(call.ids, Reply::Lock))
    }

    /// LOCK ([MS-SMB2] 3.3.5.14). After a refusal by a status, the elements before that which was refused stay unlocked.
    pub(crate) fn change_locks<'a>(
        &mut self,
        call: Call,
        request: &LockRequest<'_>,
    ) -> Result<Response<'a>, RefusedBy<Refusal>>
        requires { IsSome (open_of self.old.store.opens call.open_number) }
        ensures ok { IfSome (result_step A.meaning self.new call result) (λ step. step
            ≡ locks_changed self.old call (lock_asked request.now).locks) }
        ensures put { IfOk result (IsReadyAfter self.old self.new call) }
        ensures err { IfErr result (λ refusal. refusal ≡ NoMemory → self.new ≡ self.old) }
        ensures known { self.new.sessions.table.connections ≡ self.old.sessions.table.connections }
    {
        let asks = lock_asks(self.allocator(), request.locks)?;
        if asks_unlock(&asks) {
            self.unlock_file(call, &asks)
        } else {
            self.lock_file(call, &asks)
        }
    }
}
