//! The locks of one file.

ghost use Rattle.std.specs.Prelude.{◌≡◌, ◌≢◌, ◌==◌, ◌++◌, ◌∷◌, [], ◌<◌, None, Some, OnOk, OnErr, IfOk, IfErr, IfSome, IsTrue, ◌↔◌, filter, not, length, position, take, nat_le, nat_lt};
ghost use Rattle.std.specs.List.{list_any};
ghost use Rattle.smb_locks.specs.Asks.{locks_asked};
ghost use Rattle.smb_locks.specs.Parts.{lock_by, lock_fault, is_lock_over, unlock_fault, without_oldest, left_by, unlock_error_from};
ghost use Rattle.smb_locks.specs.Conflicts.{conflicts, is_read_barred, is_write_barred};
ghost use Rattle.smb_locks.specs.Locking.{locks_fault};
ghost use Rattle.smb_locks.specs.declared.fault.LockFault.TheVariants.{NoMemory};

use super::ask::LockAsk;
use super::fault::{LockFault, UnlockError};
use super::lock::Lock;
use super::range::ByteRange;
use std::alloc::Global;
use std::marker::Model;

// The locks of one file, oldest first.
#[derive(Drop)]
pub(crate) struct FileLocks {
    locks: Vec<Lock>,
}

impl Model for FileLocks {
    ghost use Rattle.std.specs.Prelude.{List};
    ghost use Rattle.smb_locks.specs.declared.lock.Lock.{Lock};

    ghost Value = { List Lock };

    ghost view = { λ f. f.locks.items };
}

impl FileLocks {
    // No locks.
    pub(crate) fn new(alloc: Global) -> Self
        ensures { result ≡ [] }
    {
        FileLocks {
            locks: Vec::new(alloc),
        }
    }

    // How many there are.
    pub(crate) fn len(&self) -> usize
        ensures { result ≡ length self.now }
    {
        self.locks.len()
    }

    pub(crate) fn is_empty(&self) -> bool
        ensures { result ≡ (length self.now == 0) }
    {
        self.locks.is_empty()
    }

    // Whether a lock bars an open from reading a range.
    pub(crate) fn bars_read(&self, holder: u64, range: ByteRange) -> bool
        ensures { result ≡ is_read_barred self.now holder range }
    {
        self.locks.iter().any(|lock| lock.bars_read(holder, range))
    }

    // Whether a lock bars an open from writing a range.
    pub(crate) fn bars_write(&self, holder: u64, range: ByteRange) -> bool
        ensures { result ≡ is_write_barred self.now holder range }
    {
        self.locks.iter().any(|lock| lock.bars_write(holder, range))
    }

    // Whether a lock that is held conflicts with one that is asked for.
    fn has_conflict(&self, asked: Lock) -> bool
        ensures { result ≡ list_any (conflicts asked) self.now }
    {
        self.locks.iter().any(|held| asked.conflicts(*held))
    }

    // Whether the file has as many locks as it may have.
    fn is_full(&self, most: usize) -> bool
        ensures { result ≡ nat_le most (length self.now) }
    {
        self.locks.len() >= most
    }

    // Why a lock can't be added.
    fn fault(&self, most: usize, asked: Lock) -> Option<LockFault>
        ensures { result ≡ lock_fault most self.now asked }
    {
        if asked.range.is_past_the_end() {
            return Some(LockFault::BadRange);
        }
        if self.is_full(most) {
            return Some(LockFault::Full);
        }
        if self.has_conflict(asked) {
            return Some(LockFault::NotGranted);
        }
        None
    }

    // Adds a lock, which is the newest.
    fn lock(&mut self, most: usize, asked: Lock) -> Result<(), LockFault>
        ensures ok { OnOk result (self.new ≡ self.old ++ asked ∷ []) }
        ensures lawful { OnOk result (lock_fault most self.old asked ≡ None) }
        ensures err { OnErr result (self.new ≡ self.old) }
        ensures why { IfErr result (λ fault. fault ≢ NoMemory → lock_fault most self.old asked ≡ Some fault) }
    {
        if let Some(fault) = self.fault(most, asked) {
            return Err(fault);
        }
        self.locks.push(asked).map_err(|_| LockFault::NoMemory)?;
        Ok(())
    }

    // Takes out the newest locks, so that as many are left.
    fn truncate(&mut self, len: usize)
        ensures { self.new ≡ take len self.old }
    {
        self.locks.truncate(len);
    }

    // Whether some elements ask for a lock that conflicts with one that is asked for.
    fn asks_conflict(holder: u64, asks: &[LockAsk], asked: Lock) -> bool
        ensures { result ≡ list_any (λ ask. conflicts asked (lock_by holder ask)) asks.now }
    {
        asks.iter().any(|ask| asked.conflicts(ask.lock(holder)))
    }

    // Whether a lock that is held, or that some elements ask for, conflicts with one that is asked for.
    fn has_conflict_behind(&self, holder: u64, asks: &[LockAsk], asked: Lock) -> bool
        ensures { result ≡ list_any (conflicts asked) (self.now ++ locks_asked holder asks.now) }
    {
        self.has_conflict(asked) || Self::asks_conflict(holder, asks, asked)
    }

    // Why a lock can't be added behind those that some elements ask for.
    fn fault_behind(
        &self,
        most: usize,
        holder: u64,
        asks: &[LockAsk],
        asked: Lock,
    ) -> Option<LockFault>
        ensures { result ≡ lock_fault most (self.now ++ locks_asked holder asks.now) asked }
    {
        if asked.range.is_past_the_end() {
            return Some(LockFault::BadRange);
        }
        if self.locks.len() + asks.len() >= most {
            return Some(LockFault::Full);
        }
        if self.has_conflict_behind(holder, asks, asked) {
            return Some(LockFault::NotGranted);
        }
        None
    }

    // Why the locks that the elements ask for can't be added. It takes no memory; each element costs a pass over the locks
    // and the elements before it, of which there are at most as many as there may be locks.
    fn fault_of_all(&self, most: usize, holder: u64, asks: &[LockAsk]) -> Option<LockFault>
        ensures { result ≡ locks_fault most self.now (locks_asked holder asks.now) }
    {
        for (before, ask) in asks.iter().enumerate() {
            let fault = self.fault_behind(most, holder, &asks[..before], ask.lock(holder));
            if fault.is_some() {
                return fault;
            }
        }
        None
    }

    // The refusal of a request that locks, by that of its first element which is not done. Where memory ran out at it, a row
    // that refuses a later element comes first.
    fn refusal_before_memory(
        &self,
        most: usize,
        fault: LockFault,
        holder: u64,
        asks: &[LockAsk],
    ) -> LockFault
        requires { fault ≢ NoMemory → locks_fault most self.now (locks_asked holder asks.now) ≡ Some fault }
        ensures why { result ≢ NoMemory → locks_fault most self.now (locks_asked holder asks.now) ≡ Some result }
        ensures memory { result ≡ NoMemory → locks_fault most self.now (locks_asked holder asks.now) ≡ None }
    {
        if fault != LockFault::NoMemory {
            return fault;
        }
        self.fault_of_all(most, holder, asks).unwrap_or(fault)
    }

    // Adds the locks that the elements ask for, in turn: all of them or none.
    pub(crate) fn lock_all(
        &mut self,
        most: usize,
        holder: u64,
        asks: &[LockAsk],
    ) -> Result<(), LockFault>
        ensures ok { OnOk result (self.new ≡ self.old ++ locks_asked holder asks.now) }
        ensures lawful { OnOk result (locks_fault most self.old (locks_asked holder asks.now) ≡ None) }
        ensures err { OnErr result (self.new ≡ self.old) }
        ensures why { IfErr result (λ fault. fault ≢ NoMemory → locks_fault most self.old (locks_asked holder asks.now) ≡ Some fault) }
        ensures memory { IfErr result (λ fault. fault ≡ NoMemory → locks_fault most self.old (locks_asked holder asks.now) ≡ None) }
    {
        let before = self.len();
        for ask in asks {
            if let Err(fault) = self.lock(most, ask.lock(holder)) {
                self.truncate(before);
                return Err(self.refusal_before_memory(most, fault, holder, asks));
            }
        }
        Ok(())
    }

    // The place of the oldest lock that an open holds over this very range.
    fn oldest(&self, holder: u64, range: ByteRange) -> Option<usize>
        ensures { result ≡ position (is_lock_over holder range) self.now }
    {
        self.locks
            .iter()
            .position(|lock| lock.is_over(holder, range))
    }

    // Takes out the oldest lock that an open holds over this very range.
    fn unlock(&mut self, holder: u64, range: ByteRange) -> Result<(), LockFault>
        ensures ok { OnOk result (self.new ≡ without_oldest (is_lock_over holder range) self.old) }
        ensures lawful { OnOk result (unlock_fault holder self.old range ≡ None) }
        ensures err { OnErr result (self.new ≡ self.old) }
        ensures why { IfErr result (λ fault. unlock_fault holder self.old range ≡ Some fault) }
    {
        if range.is_past_the_end() {
            return Err(LockFault::BadRange);
        }
        let Some(place) = self.oldest(holder, range) else {
            return Err(LockFault::NotLocked);
        };
        self.locks.remove(place);
        Ok(())
    }

    // Takes out the locks that the elements name, in turn, up to the first that is refused.
    pub(crate) fn unlock_all(&mut self, holder: u64, asks: &[LockAsk]) -> Result<(), UnlockError>
        ensures left { self.new ≡ left_by holder self.old asks.now }
        ensures lawful { OnOk result (unlock_error_from 0 holder self.old asks.now ≡ None) }
        ensures why { IfErr result (λ error. unlock_error_from 0 holder self.old asks.now ≡ Some error) }
    {
        for (done, ask) in asks.iter().enumerate() {
            if let Err(fault) = self.unlock(holder, ask.range()) {
                return Err(UnlockError { done, fault });
            }
        }
        Ok(())
    }

    // Takes out all locks of an open, and says whether others are left.
    pub(crate) fn release(&mut self, holder: u64) -> bool
        ensures locks { self.new ≡ filter (λ lock. not (lock.holder == holder)) self.old }
        ensures left { result ≡ nat_lt 0 (length self.new) }
    {
        self.locks.retain(|lock| lock.holder != holder);
        !self.locks.is_empty()
    }
}
