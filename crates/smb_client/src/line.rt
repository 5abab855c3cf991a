//! What carries frames between clients and a share.

use super::client::Client;
use super::fault::ClientFault;

/// A line from clients to a share. One of your own takes what a
/// client has to say by [`Client::take_frames`], and hands it the answers by [`Client::hear`].
pub trait Line {
    /// Sends what a client has to say, and puts the frames that the share answers in place of what `heard` had. The client has
    /// nothing more to send then, and has the session and the tree that the replies give it.
    ///
    /// [`ClientFault::Ended`] where the client's connection is not open, [`ClientFault::NoMemory`] where memory ran
    /// out; its connection has ended then.
    fn carry(&mut self, client: &mut Client, heard: &mut Vec<u8>) -> Result<(), ClientFault>;
}
