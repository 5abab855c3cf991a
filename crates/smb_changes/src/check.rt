//! The check of bytes.

ghost use Rattle.std.specs.Prelude.{◌≡◌, ◌<◌, length};
ghost use Rattle.smb_changes.specs.Batches.{stirred, check};

use smb_wire::u64_in;

// The factors of the numbers of a piece, and that of their sum.
const SECOND: u64 = 14_029_467_366_897_019_727;

const THIRD: u64 = 1_609_587_929_392_839_161;

const FOURTH: u64 = 9_650_029_242_287_828_579;

const ALL: u64 = 11_400_714_785_074_694_791;

// Stirs 32 bytes into a number.
fn stirred(sum: u64, piece: &[u8; 32]) -> u64
    ensures { result ≡ stirred sum piece.now }
{
    let second = u64_in(piece, 8).wrapping_mul(SECOND);
    let third = u64_in(piece, 16).wrapping_mul(THIRD);
    let fourth = u64_in(piece, 24).wrapping_mul(FOURTH);
    let others = second.wrapping_add(third).wrapping_add(fourth);
    let product = (sum ^ u64_in(piece, 0))
        .wrapping_add(others)
        .wrapping_mul(ALL);
    product.rotate_left(32)
}

// Stirs fewer than 32 bytes into a number.
fn stirred_short(sum: u64, bytes: &[u8]) -> u64
    requires { length bytes.now < 32 }
    ensures { result ≡ stirred sum bytes.now }
{
    let mut piece = [0; 32];
    let (front, _) = piece.split_at_mut(bytes.len());
    front.copy_from_slice(bytes);
    stirred(sum, &piece)
}

/// The check of bytes, begun with a seed (`specs/Batches.antt`).
pub fn check_of(seed: u64, bytes: &[u8]) -> u64
    ensures { result ≡ check seed bytes.now }
{
    let (pieces, rest) = bytes.as_chunks::<32>();
    let mut sum = seed;
    for piece in pieces {
        sum = stirred(sum, piece);
    }
    if rest.is_empty() {
        sum
    } else {
        stirred_short(sum, rest)
    }
}
