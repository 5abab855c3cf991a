//! MD4 (RFC 1320).

ghost use Rattle.std.specs.Prelude.{◌≡◌, ◌*◌, ◌/◌, ◌<◌, length, slice_index, OnOk, IfOk};
ghost use Rattle.md5.specs.Md5.{word_at, padded_message, add_state, digest_bytes};
ghost use Rattle.smb_ntlm.specs.Md4.{operation_value, operation_constant, word_places, shifts, operated, operations, hash_of, md4};

use std::alloc::AllocError;

/// The length of a block, in bytes.
const BLOCK: usize = 64;

/// The words at first (3.3).
const INITIAL: [u32; 4] = [0x6745_2301, 0xefcd_ab89, 0x98ba_dcfe, 0x1032_5476];

/// The word of the block that each operation reads (3.4).
const WORD_PLACES: [u8; 48] = [
    0, 1, 2, 3, 4, 5, 6, 7, 8, 9, 10, 11, 12, 13, 14, 15, 0, 4, 8, 12, 1, 5, 9, 13, 2, 6, 10, 14,
    3, 7, 11, 15, 0, 8, 4, 12, 2, 10, 6, 14, 1, 9, 5, 13, 3, 11, 7, 15,
];

/// The shift of each operation (3.4).
const SHIFTS: [u32; 48] = [
    3, 7, 11, 19, 3, 7, 11, 19, 3, 7, 11, 19, 3, 7, 11, 19, 3, 5, 9, 13, 3, 5, 9, 13, 3, 5, 9, 13,
    3, 5, 9, 13, 3, 9, 11, 15, 3, 9, 11, 15, 3, 9, 11, 15, 3, 9, 11, 15,
];

/// No more zeros than these stand in a padding.
const ZEROS: [u8; 64] = [0; 64];

/// The function of an operation (3.4).
fn operation_value(t: usize, x: u32, y: u32, z: u32) -> u32
    ensures { result ≡ operation_value t x y z }
{
    if t < 16 {
        (x & y) | (!x & z)
    } else if t < 32 {
        (x & y) | (x & z) | (y & z)
    } else {
        x ^ y ^ z
    }
}

/// The constant of an operation (3.4).
fn operation_constant(t: usize) -> u32
    ensures { result ≡ operation_constant t }
{
    if t < 16 {
        0
    } else if t < 32 {
        0x5a82_7999
    } else {
        0x6ed9_eba1
    }
}

/// The word of a block that an operation reads.
fn word(block: &[u8], t: usize) -> u32
    requires block { length block.now ≡ 64 }
    requires operation { t < 48 }
    ensures { result ≡ word_at block.now (4 * slice_index word_places t) }
{
    let at = 4 * usize::from(WORD_PLACES[t]);
    u32::from_le_bytes([block[at], block[at + 1], block[at + 2], block[at + 3]])
}

/// An operation on the four words.
fn operated(words: [u32; 4], block: &[u8], t: usize) -> [u32; 4]
    requires block { length block.now ≡ 64 }
    requires operation { t < 48 }
    ensures { result ≡ operated words
        (operation_value t (slice_index words 1) (slice_index words 2) (slice_index words 3))
        (word_at block.now (4 * slice_index word_places t)) (operation_constant t) (slice_index shifts t) }
{
    let [a, b, c, d] = words;
    let sum = a
        .wrapping_add(operation_value(t, b, c, d))
        .wrapping_add(word(block, t))
        .wrapping_add(operation_constant(t));
    [d, sum.rotate_left(SHIFTS[t]), b, c]
}

/// The four words after a block.
fn compress(state: [u32; 4], block: &[u8]) -> [u32; 4]
    requires { length block.now ≡ 64 }
    ensures { result ≡ add_state state (operations state block.now 48) }
{
    let mut words = state;
    for t in 0..48 {
        words = operated(words, block, t);
    }
    [
        state[0].wrapping_add(words[0]),
        state[1].wrapping_add(words[1]),
        state[2].wrapping_add(words[2]),
        state[3].wrapping_add(words[3]),
    ]
}

/// The four words after the blocks of a padded message.
fn hash_of(padded: &[u8]) -> [u32; 4]
    ensures { result ≡ hash_of padded.now (length padded.now / 64) }
{
    let mut state = INITIAL;
    for n in 0..padded.len() / BLOCK {
        let start = BLOCK * n;
        let next = compress(state, &padded[start..start + BLOCK]);
        state = next;
    }
    state
}

/// The bytes of the four words.
fn digest_of(state: [u32; 4]) -> [u8; 16]
    ensures { result ≡ digest_bytes state 4 }
{
    let a = state[0].to_le_bytes();
    let b = state[1].to_le_bytes();
    let c = state[2].to_le_bytes();
    let d = state[3].to_le_bytes();
    [
        a[0], a[1], a[2], a[3], b[0], b[1], b[2], b[3], c[0], c[1], c[2], c[3], d[0], d[1], d[2],
        d[3],
    ]
}

/// Adds a message's padding to it (3.1, 3.2).
fn pad(message: &mut Vec<u8>) -> Result<(), AllocError>
    ensures { OnOk result (message.new.items ≡ padded_message message.old.items) }
{
    let size = message.len();
    message.push(0x80)?;
    message.extend_from_slice(&ZEROS[..(119 - size % BLOCK) % BLOCK])?;
    message.extend_from_slice((size as u64).wrapping_mul(8).to_le_bytes().as_slice())?;
    Ok(())
}

/// The digest of a message. Fails where its padding cannot be added to it.
#[tactic(auto, unfolding(crate::specs::Md4::md4))]
pub fn md4(mut message: Vec<u8>) -> Result<[u8; 16], AllocError>
    ensures { IfOk result (λ digest. digest ≡ md4 message.items) }
{
    pad(&mut message)?;
    Ok(digest_of(hash_of(&message)))
}
