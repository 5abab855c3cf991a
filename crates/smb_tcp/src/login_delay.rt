//! How long pieces of an address are kept back behind wrong passwords.

ghost use Rattle.std.specs.Prelude.{ℕ, ◌≡◌, ◌≢◌, ◌==◌, ◌<◌, ◌≤◌, ◌+◌, [], min, vec_len, vec_capacity, IfSome, IfOk};
ghost use Rattle.std.specs.List.{position};
ghost use Rattle.std.specs.Duration.{as_nanos};
ghost use Rattle.smb_tcp.specs.LoginDelays.{seconds_by, wrong_at, left_at, tries_of, number_of, kept_beside};

use super::admission::counted_under;
use std::alloc::{AllocError, Global};
use std::net::IpAddr;
use std::time::Duration;

/// Of how many addresses wrong passwords are kept in mind at most.
const MOST_ADDRESSES: usize = 4_096;

/// By how many wrong passwords pieces are kept back.
const FEWEST: u64 = 5;

/// The longest delay in seconds, and how long a wrong password is kept in mind.
const MINUTE: u64 = 60;

/// The number under which an address is kept in mind: its bits, and of IPv6 those of the first one with the same 64
/// bits.
pub(crate) fn key_of(address: IpAddr) -> u128 {
    match counted_under(address) {
        IpAddr::V4(address) => address.to_ipv6_mapped().to_bits(),
        IpAddr::V6(address) => address.to_bits(),
    }
}

/// For how many seconds pieces are kept back by a number of wrong passwords.
fn seconds_by(wrong: u64) -> u64
    ensures seconds { result ≡ seconds_by wrong }
    ensures most { result ≤ 60 }
{
    if wrong < FEWEST {
        return 0;
    }
    match wrong - FEWEST {
        0 => 1,
        1 => 2,
        2 => 4,
        3 => 8,
        4 => 16,
        5 => 32,
        _ => MINUTE,
    }
}

/// The wrong passwords of an address.
#[derive(Clone, Copy)]
struct Tries {
    key: u128,
    wrong: u64,
    /// When the last one came.
    last: Duration,
}

impl Tries {
    /// How many there are still at a moment: none behind a minute without another one.
    fn wrong_at(&self, now: Duration) -> u64
        ensures { result ≡ wrong_at (as_nanos now) self.now }
    {
        if now.saturating_sub(self.last) < Duration::from_secs(MINUTE) {
            self.wrong
        } else {
            0
        }
    }

    /// How long pieces are kept back from a moment on.
    fn left_at(&self, now: Duration) -> Duration
        ensures left { as_nanos result ≡ left_at (as_nanos now) self.now }
        ensures most { as_nanos result ≤ 60_000_000_000 }
    {
        let since = now.saturating_sub(self.last);
        Duration::from_secs(seconds_by(self.wrong)).saturating_sub(since)
    }
}

/// The wrong passwords of addresses, of 4,096 at most. All room is made first.
#[derive(Drop)]
pub(crate) struct LoginDelays {
    // The one whose last wrong password came last is first.
    list: Vec<Tries>,
    ghost few: { vec_len list ≤ 4096 },
    ghost room: { 4096 ≤ vec_capacity list },
}

impl LoginDelays {
    /// None, with room for all.
    pub(crate) fn with_room(alloc: Global) -> Result<Self, AllocError>
        ensures { IfOk result (λ delays. delays.list.items ≡ []) }
    {
        Ok(LoginDelays {
            list: Vec::with_capacity(alloc, MOST_ADDRESSES)?,
        })
    }

    /// The place of an address.
    fn place_of(&self, key: u128) -> Option<usize>
        ensures place { result ≡ position (λ tries. tries.key == key) self.now.list.items }
        ensures within { IfSome result (λ place. place < vec_len self.now.list) }
    {
        self.list.iter().position(|tries| tries.key == key)
    }

    /// What is kept in mind of an address.
    fn tries(&self, key: u128) -> Option<Tries>
        ensures { result ≡ tries_of key self.now.list.items }
    {
        match self.place_of(key) {
            Some(place) => Some(self.list[place]),
            None => None,
        }
    }

    /// How many wrong passwords of an address are in mind at a moment.
    pub(crate) fn wrong(&self, key: u128, now: Duration) -> u64
        ensures { result ≡ number_of (wrong_at (as_nanos now)) (tries_of key self.now.list.items) }
    {
        match self.tries(key) {
            Some(tries) => tries.wrong_at(now),
            None => 0,
        }
    }

    /// How long pieces of an address are kept back from a moment on: no time, where fewer than five wrong passwords are
    /// in mind.
    pub(crate) fn left(&self, key: u128, now: Duration) -> Duration
        ensures left { as_nanos result ≡ number_of (left_at (as_nanos now)) (tries_of key self.now.list.items) }
        ensures most { as_nanos result ≤ 60_000_000_000 }
        ensures few { number_of (wrong_at (as_nanos now)) (tries_of key self.now.list.items) < 5 → as_nanos result ≡ 0 }
    {
        match self.tries(key) {
            Some(tries) => tries.left_at(now),
            None => Duration::ZERO,
        }
    }

    /// Makes a place for an address: what is known of it is forgotten, or where nothing is and no place is left, what
    /// is last.
    fn make_place(&mut self, key: u128)
        ensures place { vec_len self.new.list < 4096 }
        ensures others { (other : ℕ) → other ≢ key →
            tries_of other self.new.list.items ≡ tries_of other (kept_beside key self.old.list.items) }
    {
        match self.place_of(key) {
            Some(place) => {
                let _ = self.list.remove(place);
            }
            None => self.list.truncate(MOST_ADDRESSES - 1),
        }
    }

    /// Adds wrong passwords of an address, at a moment. Where it is new and there is no place for it, the one is
    /// forgotten whose last one came first.
    pub(crate) fn note(&mut self, key: u128, more: u64, now: Duration)
        ensures counted { tries_of key self.new.list.items ≡ Some (record {
          key = key;
          wrong = min (number_of (wrong_at (as_nanos now)) (tries_of key self.old.list.items) + more) 18446744073709551615;
          last = now;
        }) }
        ensures others { (other : ℕ) → other ≢ key →
            tries_of other self.new.list.items ≡ tries_of other (kept_beside key self.old.list.items) }
    {
        let wrong = self.wrong(key, now).saturating_add(more);
        self.make_place(key);
        let tries = Tries {
            key,
            wrong,
            last: now,
        };
        match self.list.insert(0, tries) {
            Ok(()) => {}
            Err(_) => unreachable!(),
        }
    }
}
