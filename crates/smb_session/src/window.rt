//! The message window of a connection ([MS-SMB2] 3.3.1.1, 3.3.5.2.3).

ghost use Rattle.std.specs.Prelude.{◌≡◌, ◌<◌, ◌≤◌, ◌+◌, ◌^◌, ◌++◌, ◌==◌, Some, drop, slice_get, filter, not, length, position};
ghost use Rattle.std.specs.Bool.{OnTrue, OnFalse};
ghost use Rattle.std.specs.List.{list_all};
ghost use Rattle.arrayvec.specs.ArrayVec.{array_vec_len};
ghost use Rattle.smb_session.specs.Window.{first_window, contains, are_distinct, may_use, without_ids, credits_granted, with_more, upward, numbers_of, GoodWindow};
ghost use Rattle.smb_session.specs.Numbers.{IsRising};
ghost use Rattle.smb_session.specs.Held.{are_apart};

use arrayvec::ArrayVec;
use smb_wire::limits::MOST_CREDITS;
use std::marker::Model;

/// How many numbers a window has room for: 256 that may be used, and 64 before them that were used.
const NUMBERS_KEPT: usize = 320;

/// The MessageIds that a client may use: a set of at most 256 numbers, and the next number to be granted.
///
/// They are in rising order. Where the lowest one is used it stays before the others, and only where no room is left the
/// used ones are dropped, and the others moved: for a client that uses its numbers in order, once in 64.
#[derive(Drop)]
pub struct Window {
    numbers: ArrayVec<u64, NUMBERS_KEPT>,
    // How many of the first numbers were used.
    used: usize,
    next: u64,
}

impl Model for Window {
    ghost use Rattle.smb_session.specs.Window.{WindowState};
    ghost use Rattle.smb_session.specs.Held.{KeepsWindow, window_of};

    ghost Value = { WindowState };

    ghost view = { λ w. window_of w.numbers.items w.used w.next };

    ghost invariant = { λ w. KeepsWindow w.numbers.items w.used w.next };
}

/// Whether two runs have no number in common.
fn are_apart(one: (u64, u16), other: (u64, u16)) -> bool
    ensures { result ≡ are_apart one other }
{
    if one.0 <= other.0 {
        other.1 == 0 || other.0 - one.0 >= u64::from(one.1)
    } else {
        one.1 == 0 || one.0 - other.0 >= u64::from(other.1)
    }
}

/// Whether a run has no number in common with others.
fn is_apart_from(run: (u64, u16), others: &[(u64, u16)]) -> bool
    ensures { result ≡ list_all (are_apart run) others.now }
{
    others.iter().all(|other| are_apart(run, *other))
}

/// Whether no MessageId is in two runs. Each pair of runs is compared at most once; a chain has at most 16 runs.
fn all_distinct(runs: &[(u64, u16)]) -> bool
    ensures { result ≡ are_distinct (numbers_of runs.now) }
{
    let mut rest = runs;
    while let [run, others @ ..] = rest {
        if !is_apart_from(*run, others) {
            return false;
        }
        rest = others;
    }
    true
}

/// Whether each number of a run is among the usable ones. These rise, so those of a run stand one behind the other: one
/// pass finds them, and ends at the first that is missing.
fn has_run(usable: &[u64], run: (u64, u16)) -> bool
    requires { IsRising usable.now }
    ensures { result ≡ list_all (contains usable.now) (upward run.0 run.1) }
{
    let (first, count) = run;
    let mut found: u16 = 0;
    let mut rest = usable;
    while found < count {
        let [number, others @ ..] = rest else {
            return false;
        };
        if first <= *number {
            if *number - first != u64::from(found) {
                return false;
            }
            found += 1;
        }
        rest = others;
    }
    true
}

/// Whether each number of runs is among the usable ones.
fn has_all(usable: &[u64], runs: &[(u64, u16)]) -> bool
    requires { IsRising usable.now }
    ensures { result ≡ list_all (contains usable.now) (numbers_of runs.now) }
{
    let mut rest = runs;
    while let [run, others @ ..] = rest {
        if !has_run(usable, *run) {
            return false;
        }
        rest = others;
    }
    true
}

/// Whether a number is one of a run.
fn is_in_run(run: (u64, u16), number: u64) -> bool
    ensures { result ≡ contains (upward run.0 run.1) number }
{
    run.0 <= number && number - run.0 < u64::from(run.1)
}

/// Drops so many numbers at the front: one move of the others.
fn drop_front(numbers: &mut ArrayVec<u64, NUMBERS_KEPT>, count: usize)
    requires { count ≤ array_vec_len numbers.old }
    ensures { numbers.new.items ≡ drop count numbers.old.items }
{
    if count == 0 {
        return;
    }
    let length = numbers.len();
    numbers.copy_within(count..length, 0);
    numbers.truncate(length - count);
}

/// The place of a number, or None.
fn place_of(numbers: &ArrayVec<u64, NUMBERS_KEPT>, number: u64) -> Option<usize>
    ensures { result ≡ position (λ n. n == number) numbers.now.items }
{
    numbers.iter().position(|usable| *usable == number)
}

/// Takes a number out: one look-up, from the lowest on, and one move of those behind it.
fn take_number(numbers: &mut ArrayVec<u64, NUMBERS_KEPT>, number: u64)
    requires { IsRising numbers.old.items }
    ensures { numbers.new.items ≡ filter (λ n. not (contains (upward number 1) n)) numbers.old.items }
{
    if let Some(place) = place_of(numbers, number) {
        let _ = numbers.remove(place);
    }
}

/// Takes the numbers of a run out, where they are several in one pass.
fn take_from(numbers: &mut ArrayVec<u64, NUMBERS_KEPT>, run: (u64, u16))
    requires { IsRising numbers.old.items }
    ensures { numbers.new.items ≡ filter (λ n. not (contains (upward run.0 run.1) n)) numbers.old.items }
{
    if run.1 == 1 {
        take_number(numbers, run.0);
        return;
    }
    numbers.retain(|number| !is_in_run(run, *number));
}

/// Whether a number is the one at a place.
fn is_at(numbers: &ArrayVec<u64, NUMBERS_KEPT>, place: usize, number: u64) -> bool
    ensures is { OnTrue result (slice_get numbers.now.items place ≡ Some number) }
    ensures within { OnTrue result (place < array_vec_len numbers.now) }
    ensures fits { OnTrue result (place < NUMBERS_KEPT) }
{
    match numbers.get(place) {
        Some(found) => *found == number,
        None => false,
    }
}

/// Takes the numbers of a run out of those that may be used, and returns how many used ones are at the front afterwards. A run
/// of the lowest number alone is one more of them; else none are left.
fn take_run(numbers: &mut ArrayVec<u64, NUMBERS_KEPT>, used: usize, run: (u64, u16)) -> usize
    requires rising { IsRising (drop used numbers.old.items) }
    requires within { used ≤ array_vec_len numbers.old }
    ensures rest { drop result numbers.new.items ≡ filter (λ n. not (contains (upward run.0 run.1) n)) (drop used numbers.old.items) }
    ensures within { result ≤ array_vec_len numbers.new }
{
    if run.1 == 1 && is_at(numbers, used, run.0) {
        return used + 1;
    }
    drop_front(numbers, used);
    take_from(numbers, run);
    0
}

/// Takes the numbers of runs out of those that may be used, run by run, and returns how many used ones are at the front
/// afterwards.
fn take_out(numbers: &mut ArrayVec<u64, NUMBERS_KEPT>, used: usize, runs: &[(u64, u16)]) -> usize
    requires rising { IsRising (drop used numbers.old.items) }
    requires within { used ≤ array_vec_len numbers.old }
    ensures rest { drop result numbers.new.items ≡ filter (λ n. not (contains (numbers_of runs.now) n)) (drop used numbers.old.items) }
    ensures within { result ≤ array_vec_len numbers.new }
{
    let mut rest = runs;
    let mut front = used;
    while let [run, others @ ..] = rest {
        front = take_run(numbers, front, *run);
        rest = others;
    }
    front
}

/// Makes room for so many numbers more, and returns how many used ones are at the front afterwards: where there is no room
/// behind the others, none.
fn make_room(numbers: &mut ArrayVec<u64, NUMBERS_KEPT>, used: usize, count: usize) -> usize
    requires within { used ≤ array_vec_len numbers.old }
    requires few { length (drop used numbers.old.items) + count ≤ MOST_CREDITS }
    ensures rest { drop result numbers.new.items ≡ drop used numbers.old.items }
    ensures within { result ≤ array_vec_len numbers.new }
    ensures room { array_vec_len numbers.new + count ≤ NUMBERS_KEPT }
{
    if count <= numbers.remaining_capacity() {
        return used;
    }
    drop_front(numbers, used);
    0
}

/// Adds the numbers from `first` upward.
fn add_upward(numbers: &mut ArrayVec<u64, NUMBERS_KEPT>, first: u64, count: usize)
    requires room { array_vec_len numbers.old + count ≤ NUMBERS_KEPT }
    requires fits { first + count < 18446744073709551616 }
    ensures items { numbers.new.items ≡ numbers.old.items ++ upward first count }
    ensures len { array_vec_len numbers.new ≡ array_vec_len numbers.old + count }
{
    for i in 0..count {
        numbers.push(first + i as u64);
    }
}

impl Window {
    /// A window of one number, the first that a client uses.
    pub fn new(first: u64) -> Self
        requires { first ≤ 1 }
        ensures { result ≡ first_window first }
    {
        let mut numbers = ArrayVec::new();
        numbers.push(first);
        Window {
            numbers,
            used: 0,
            next: first + 1,
        }
    }

    /// Whether a number may be used.
    pub fn holds(&self, number: u64) -> bool
        ensures { result ≡ contains self.now.usable number }
    {
        self.numbers[self.used..].contains(&number)
    }

    /// Takes the numbers of the requests of a chain out, each given by its first number and how many follow upward from
    /// there, itself counted; where they are distinct and may each be used. False changes nothing. It costs a pass over
    /// the window for each of them at most, which ends at the number that is looked for; and where that is not the first
    /// one, one move of all; where a request takes several numbers, another pass.
    pub fn take_runs(&mut self, runs: &[(u64, u16)]) -> bool
        ensures all { result ≡ may_use self.old (numbers_of runs.now) }
        ensures taken { OnTrue result (self.new ≡ without_ids self.old (numbers_of runs.now)) }
        ensures kept { OnFalse result (self.new ≡ self.old) }
    {
        if !all_distinct(runs) || !has_all(&self.numbers[self.used..], runs) {
            return false;
        }
        self.used = take_out(&mut self.numbers, self.used, runs);
        true
    }

    /// Grants numbers to a request for `credits`, and tells how many: as many as asked and 1 at least,
    /// as far as the window then has at most 256, and none past 2^64 - 2.
    pub fn grant(&mut self, credits: u16) -> u16
        ensures count { result ≡ credits_granted self.old credits }
        ensures more { self.new ≡ with_more self.old result }
    {
        let next = self.next;
        let room = MOST_CREDITS - (self.numbers.len() - self.used);
        let left = u64::MAX - next;
        let count = u64::from(credits.max(1)).min(room as u64).min(left);
        self.used = make_room(&mut self.numbers, self.used, count as usize);
        add_upward(&mut self.numbers, next, count as usize);
        self.next = next + count;
        count as u16
    }

    /// What holds of every window between calls. (The body does nothing.)
    pub fn good(&self)
        ensures good { GoodWindow self.now }
        ensures next { self.now.next < 2 ^ 64 }
    {
        let _next = self.next;
    }
}
