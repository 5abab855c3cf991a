//! The bytes that came last.

ghost use Rattle.std.specs.Prelude.{◌≡◌, ◌≤◌, length, take, IfOk, vec_len};

use std::alloc::{AllocError, Global};
use std::io;
use std::io::Read;

/// The longest piece, in bytes: as many are read at once, at most. Four frames lie in it whole that write 65,536 bytes each.
pub const PIECE_SIZE: usize = 266_240;

/// Room for the bytes of a read, made once, and the piece of them that is lent.
#[derive(Drop)]
pub(crate) struct Piece {
    buffer: Vec<u8>,
    // The piece is up to `end`.
    end: usize,
    ghost size: { vec_len buffer ≡ 266240 },
    ghost within: { end ≤ 266240 },
}

/// Puts bytes to the front of others.
fn put_front(buffer: &mut [u8], bytes: &[u8])
    requires { length bytes.now ≤ length buffer.old }
    ensures { length buffer.new ≡ length buffer.old }
{
    buffer[..bytes.len()].copy_from_slice(bytes);
}

impl Piece {
    /// A piece of no bytes.
    pub(crate) fn new(alloc: Global) -> Result<Piece, AllocError> {
        Ok(Piece {
            buffer: Vec::from_elem(alloc, 0u8, PIECE_SIZE)?,
            end: 0,
        })
    }

    /// Its bytes.
    pub(crate) fn bytes(&self) -> &[u8]
        ensures bytes { result.now ≡ take self.now.end self.now.buffer.items }
        ensures few { length result.now ≤ 266240 }
    {
        &self.buffer[..self.end]
    }

    /// Makes these bytes the piece.
    pub(crate) fn fill(&mut self, bytes: &[u8])
        requires { length bytes.now ≤ 266240 }
    {
        put_front(&mut self.buffer, bytes);
        self.end = bytes.len();
    }

    /// Leaves so many of its bytes, at most as many as it has.
    pub(crate) fn cut(&mut self, count: usize) {
        self.end = self.end.min(count);
    }

    /// Makes what a stream has the piece, and tells how many bytes.
    pub(crate) fn read<R: Read>(&mut self, stream: &mut R) -> io::Result<usize>
        ensures { IfOk result (λ count. (count ≡ self.new.end) × (count ≤ 266240)) }
    {
        let count = stream.read(&mut self.buffer)?;
        self.end = count;
        Ok(count)
    }
}
