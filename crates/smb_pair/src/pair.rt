//! A share and its clients, in memory.

use smb_client::{Client, ClientFault, Line, Replies};
use smb_engine::{Authenticator, Opens, ServeFault, Share, Tree};
use std::alloc::Global;

/// What a refusal of a share is to its client.
pub fn client_fault(fault: ServeFault) -> ClientFault {
    match fault {
        ServeFault::TooManyConnections => ClientFault::TooManyConnections,
        _ => ClientFault::NoMemory,
    }
}

/// A share, and what it answered last. All that is said to it comes at one moment, in units of 100 ns since 1601.
#[derive(Drop)]
pub struct Pair<A: Authenticator + Drop, T: Tree + Drop, O: Opens + Drop> {
    alloc: Global,
    share: Share<A, T, O>,
    moment: u64,
    heard: Vec<u8>,
}

/// Has a share take what a client has to say, at a moment in units of 100 ns since 1601, and puts the frames that it answers in place of
/// what `heard` had.
pub fn carry_to<A: Authenticator + Drop, T: Tree + Drop, O: Opens + Drop>(
    share: &mut Share<A, T, O>,
    moment: u64,
    client: &mut Client,
    heard: &mut Vec<u8>,
) -> Result<(), ClientFault> {
    let number = client.number();
    if !share.is_open(number) {
        return Err(ClientFault::Ended);
    }
    heard.clear();
    if let Err(fault) = share.feed(number, moment, client.frames(), heard) {
        return Err(client_fault(fault));
    }
    client.sent();
    client.hear(heard);
    Ok(())
}

impl<A: Authenticator + Drop, T: Tree + Drop, O: Opens + Drop> Pair<A, T, O> {
    /// A share that clients can talk to.
    pub fn new(alloc: Global, share: Share<A, T, O>, moment: u64) -> Self {
        Pair {
            alloc,
            share,
            moment,
            heard: Vec::new(alloc),
        }
    }

    /// A new client of the share.
    pub fn connect(&mut self) -> Result<Client, ClientFault> {
        match self.share.opened() {
            Ok(number) => Ok(Client::new(self.alloc, number)),
            Err(fault) => Err(client_fault(fault)),
        }
    }

    /// Sends what a client has to say, and gives what the share answers. The client has nothing more to send then, and has
    /// the session and the tree that the replies give it.
    pub fn exchange(&mut self, client: &mut Client) -> Result<Replies<'_>, ClientFault> {
        carry_to(&mut self.share, self.moment, client, &mut self.heard)?;
        Ok(Replies::of(&self.heard))
    }

    /// The share, as its clients left it: their connections are open as before.
    pub fn into_share(self) -> Share<A, T, O> {
        self.share
    }
}

impl<A: Authenticator + Drop, T: Tree + Drop, O: Opens + Drop> Line for Pair<A, T, O> {
    fn carry(&mut self, client: &mut Client, heard: &mut Vec<u8>) -> Result<(), ClientFault> {
        carry_to(&mut self.share, self.moment, client, heard)
    }
}
