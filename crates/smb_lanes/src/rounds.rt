//! One block of each of four messages, taken into four hash values (FIPS 180-4, 6.2.2).

ghost use Rattle.std.specs.Prelude.{◌≡◌, ℕ, List, ◌+◌, ◌*◌, ◌<◌, ◌≤◌, length, slice_index, slice_set};
ghost use Rattle.sha2.specs.Sha256.{IsRoundsAt, IsWindow, add_state, compress, round, rounds, schedule, window_word, word_at};
ghost use Rattle.smb_lanes.specs.Lanes.{nth, state_lane, word_lane};

use crate::constants::K;
use crate::vectors::{
    add, choice, lower_sigma_0, lower_sigma_1, majority, upper_sigma_0, upper_sigma_1,
};
use std::simd::u32x4;

/// One round, with its constant and each message's word.
#[inline(always)]
fn round(v: [u32x4; 8], constant: u32, word: u32x4) -> [u32x4; 8]
    ensures { (j : ℕ) → j < 4 → state_lane j result ≡ round (state_lane j v) constant (slice_index word j) }
{
    let [a, b, c, d, e, f, g, h] = v;
    let chosen = add(add(h, upper_sigma_1(e)), choice(e, f, g));
    let first = add(add(chosen, u32x4::splat(constant)), word);
    let second = add(upper_sigma_0(a), majority(a, b, c));
    [add(first, second), a, b, c, add(d, first), e, f, g]
}

/// The word at a place in a block, its high byte first.
fn word_of(block: &[u8], place: usize) -> u32
    requires { place + 4 ≤ length block.now }
    ensures { result ≡ word_at block.now place }
{
    u32::from_be_bytes([
        block[place],
        block[place + 1],
        block[place + 2],
        block[place + 3],
    ])
}

/// Word `i` of each of four blocks.
#[inline(always)]
fn words_of(a: &[u8], b: &[u8], c: &[u8], d: &[u8], i: usize) -> u32x4
    requires a { 4 * i + 4 ≤ length a.now }
    requires b { 4 * i + 4 ≤ length b.now }
    requires c { 4 * i + 4 ≤ length c.now }
    requires d { 4 * i + 4 ≤ length d.now }
    ensures { (j : ℕ) → j < 4 → slice_index result j ≡ word_at (nth a.now b.now c.now d.now j) (4 * i) }
{
    u32x4::from_array([
        word_of(a, 4 * i),
        word_of(b, 4 * i),
        word_of(c, 4 * i),
        word_of(d, 4 * i),
    ])
}

/// The next word of each message's schedule. `w` has the last sixteen, and the new one goes where the oldest was.
#[inline(always)]
fn next_words(w: &mut [u32x4; 16], place: usize) -> u32x4
    requires { place < 16 }
    ensures value { (j : ℕ) → j < 4 → slice_index result j ≡ window_word (word_lane j w.old) place }
    ensures window { (j : ℕ) → j < 4
        → word_lane j w.new ≡ slice_set (word_lane j w.old) place (slice_index result j) }
{
    let recent = add(lower_sigma_1(w[(place + 14) % 16]), w[(place + 9) % 16]);
    let word = add(add(recent, lower_sigma_0(w[(place + 1) % 16])), w[place]);
    w[place] = word;
    word
}

/// Round `t` below 16, by words of the blocks themselves.
#[inline(always)]
fn early_round(w: &[u32x4; 16], v: [u32x4; 8], t: usize) -> [u32x4; 8]
    requires { t < 16 }
    ensures { (j : ℕ) → j < 4 → (b h : List ℕ) → IsWindow (word_lane j w.now) (schedule b 48) 16
        → state_lane j v ≡ rounds h (schedule b 48) t → state_lane j result ≡ rounds h (schedule b 48) (t + 1) }
{
    round(v, K[t], w[t])
}

/// Four rounds below 16, from round `t` on.
#[inline(always)]
fn four_early_rounds(w: &[u32x4; 16], v: [u32x4; 8], t: usize) -> [u32x4; 8]
    requires { t + 4 ≤ 16 }
    ensures { (j : ℕ) → j < 4 → (b h : List ℕ) → IsWindow (word_lane j w.now) (schedule b 48) 16
        → state_lane j v ≡ rounds h (schedule b 48) t → state_lane j result ≡ rounds h (schedule b 48) (t + 4) }
{
    let v = early_round(w, v, t);
    let v = early_round(w, v, t + 1);
    let v = early_round(w, v, t + 2);
    early_round(w, v, t + 3)
}

/// Round `16 * turn + place`, from 16 on, by the next words of the schedules.
#[inline(always)]
fn late_round(w: &mut [u32x4; 16], v: [u32x4; 8], turn: usize, place: usize) -> [u32x4; 8]
    requires low { 1 ≤ turn }
    requires high { turn < 4 }
    requires place { place < 16 }
    ensures { (j : ℕ) → j < 4 → (b h : List ℕ)
        → IsRoundsAt b h (word_lane j w.old) (state_lane j v) (16 * turn + place)
        → IsRoundsAt b h (word_lane j w.new) (state_lane j result) (16 * turn + (place + 1)) }
{
    let word = next_words(w, place);
    round(v, K[16 * turn + place], word)
}

/// Four rounds from 16 on, from round `16 * turn + place` on.
#[inline(always)]
fn four_late_rounds(w: &mut [u32x4; 16], v: [u32x4; 8], turn: usize, place: usize) -> [u32x4; 8]
    requires low { 1 ≤ turn }
    requires high { turn < 4 }
    requires place { place + 4 ≤ 16 }
    ensures { (j : ℕ) → j < 4 → (b h : List ℕ)
        → IsRoundsAt b h (word_lane j w.old) (state_lane j v) (16 * turn + place)
        → IsRoundsAt b h (word_lane j w.new) (state_lane j result) (16 * turn + (place + 4)) }
{
    let v = late_round(w, v, turn, place);
    let v = late_round(w, v, turn, place + 1);
    let v = late_round(w, v, turn, place + 2);
    late_round(w, v, turn, place + 3)
}

/// The hash values, with what the rounds left added to them.
#[inline(always)]
fn add_states(state: [u32x4; 8], v: [u32x4; 8]) -> [u32x4; 8]
    ensures { (j : ℕ) → j < 4 → state_lane j result ≡ add_state (state_lane j state) (state_lane j v) }
{
    [
        add(state[0], v[0]),
        add(state[1], v[1]),
        add(state[2], v[2]),
        add(state[3], v[3]),
        add(state[4], v[4]),
        add(state[5], v[5]),
        add(state[6], v[6]),
        add(state[7], v[7]),
    ]
}

/// Takes one block of each of four messages into their hash values. It is called and not inlined: where each block
/// lies is then chosen once, and not for each of its words.
#[inline(never)]
pub(crate) fn compress(state: &mut [u32x4; 8], a: &[u8], b: &[u8], c: &[u8], d: &[u8])
    requires a { length a.now ≡ 64 }
    requires b { length b.now ≡ 64 }
    requires c { length c.now ≡ 64 }
    requires d { length d.now ≡ 64 }
    ensures { (j : ℕ) → j < 4
        → state_lane j state.new ≡ compress (state_lane j state.old) (nth a.now b.now c.now d.now j) }
{
    let mut w = [u32x4::splat(0); 16];
    'load: for i in 0..16 {
        w[i] = words_of(a, b, c, d, i);
    }
    let v = four_early_rounds(&w, *state, 0);
    let v = four_early_rounds(&w, v, 4);
    let v = four_early_rounds(&w, v, 8);
    let mut v = four_early_rounds(&w, v, 12);
    'turns: for turn in 1..4 {
        let v4 = four_late_rounds(&mut w, v, turn, 0);
        let v8 = four_late_rounds(&mut w, v4, turn, 4);
        let v12 = four_late_rounds(&mut w, v8, turn, 8);
        let v16 = four_late_rounds(&mut w, v12, turn, 12);
        v = v16;
    }
    let next = add_states(*state, v);
    *state = next;
}
