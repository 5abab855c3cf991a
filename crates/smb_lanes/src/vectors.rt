//! Words of four messages side by side, and the functions of SHA-256 on them (FIPS 180-4, 4.1.2).

ghost use Rattle.std.specs.Prelude.{◌≡◌, ℕ, ◌/◌, ◌^◌, ◌<◌, bit_xor, slice_index};
ghost use Rattle.std.specs.Int.{w32, rotate_right};
ghost use Rattle.sha2.specs.Sha256.{add32, big_sigma0, big_sigma1, ch, maj, small_sigma0, small_sigma1};

use std::simd::u32x4;

/// The sums of four words and four others, without their carries.
#[inline(always)]
pub(crate) fn add(a: u32x4, b: u32x4) -> u32x4
    ensures { (j : ℕ) → j < 4 → slice_index result j ≡ add32 (slice_index a j) (slice_index b j) }
{
    a + b
}

/// Four words, each xored to another.
#[inline(always)]
fn xor(a: u32x4, b: u32x4) -> u32x4
    ensures { (j : ℕ) → j < 4 → slice_index result j ≡ bit_xor (slice_index a j) (slice_index b j) }
{
    a ^ b
}

/// Four words without their last `count` bits.
#[inline(always)]
fn shifted(x: u32x4, count: u32) -> u32x4
    requires { count < 32 }
    ensures { (j : ℕ) → j < 4 → slice_index result j ≡ slice_index x j / 2 ^ count }
{
    x >> u32x4::splat(count)
}

/// Four words, each rotated to the right.
#[inline(always)]
fn rotated(x: u32x4, count: u32) -> u32x4
    requires { (0 < count) × (count < 32) }
    ensures { (j : ℕ) → j < 4 → slice_index result j ≡ rotate_right w32 (slice_index x j) count }
{
    (x >> u32x4::splat(count)) | (x << u32x4::splat(32 - count))
}

/// `Ch`, in three operations.
#[inline(always)]
pub(crate) fn choice(x: u32x4, y: u32x4, z: u32x4) -> u32x4
    ensures { (j : ℕ) → j < 4 → slice_index result j ≡ ch (slice_index x j) (slice_index y j) (slice_index z j) }
{
    z ^ (x & (y ^ z))
}

/// `Maj`, in four operations.
#[inline(always)]
pub(crate) fn majority(x: u32x4, y: u32x4, z: u32x4) -> u32x4
    ensures { (j : ℕ) → j < 4 → slice_index result j ≡ maj (slice_index x j) (slice_index y j) (slice_index z j) }
{
    y ^ ((x ^ y) & (y ^ z))
}

/// The upper case sigma 0. Here and below the rotations are nested, which takes fewer registers.
#[inline(always)]
pub(crate) fn upper_sigma_0(x: u32x4) -> u32x4
    ensures { (j : ℕ) → j < 4 → slice_index result j ≡ big_sigma0 (slice_index x j) }
{
    rotated(xor(x, rotated(xor(x, rotated(x, 9)), 11)), 2)
}

/// The upper case sigma 1.
#[inline(always)]
pub(crate) fn upper_sigma_1(x: u32x4) -> u32x4
    ensures { (j : ℕ) → j < 4 → slice_index result j ≡ big_sigma1 (slice_index x j) }
{
    rotated(xor(x, rotated(xor(x, rotated(x, 14)), 5)), 6)
}

/// The lower case sigma 0.
#[inline(always)]
pub(crate) fn lower_sigma_0(x: u32x4) -> u32x4
    ensures { (j : ℕ) → j < 4 → slice_index result j ≡ small_sigma0 (slice_index x j) }
{
    xor(rotated(xor(x, rotated(x, 11)), 7), shifted(x, 3))
}

/// The lower case sigma 1.
#[inline(always)]
pub(crate) fn lower_sigma_1(x: u32x4) -> u32x4
    ensures { (j : ℕ) → j < 4 → slice_index result j ≡ small_sigma1 (slice_index x j) }
{
    xor(rotated(xor(x, rotated(x, 2)), 17), shifted(x, 10))
}
