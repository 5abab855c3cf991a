//! Frames: the byte stream of a connection, in whatever pieces it comes, as payloads ([MS-SMB2] 2.1).
//!
//! A frame is a zero byte, the payload's length in 3 bytes in network order, and the payload. A [`FrameBuffer`] is
//! given the pieces of one stream and lends its payloads in order; [`put_frame`] adds one frame, or refuses and leaves
//! the vector as it was: a payload of 2^24 bytes or more always, a shorter one only where memory runs out. This layer
//! knows nothing of what a payload says.
//!
//! `specs/Framed.antt` says what it is for a stream to be the frames of some payloads and a rest. Each
//! stream is so in exactly one way, and reading the rest with the next piece gives what the piece adds:
//! that is the contract of [`laws_of_frames`], and why the buffer may hold the unread rest alone.
#![tactic(auto)]

mod buffer;
mod fault;
mod put;

pub use buffer::{FrameBuffer, first_payload, laws_of_frames};
pub use fault::FrameFault;
pub use put::{close_frame, open_frame, put_frame};
