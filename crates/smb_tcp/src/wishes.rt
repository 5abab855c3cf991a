//! What peers may be made with: listeners, limits, and places where others learn of them.

use super::facts::PeerFacts;
use super::login_delay::LoginDelays;
use super::logins::{HeardLogins, Logins};
use super::network::Network;
use super::tcp::TcpPeers;
use mio::Interest;
use mio::net::TcpListener;
use std::alloc::AllocError;
use std::io::ErrorKind;
use std::net::Net;
use std::time::{Clock, Duration};
use std::{io, net};

impl<'a, R: Net + Clock> TcpPeers<'a, R> {
    /// With one more listener: there are 16 at most. The error of kind `InvalidInput` says that there are as many.
    pub fn with_listener(mut self, listener: net::TcpListener) -> io::Result<Self> {
        let Some(token) = self.doors.next_token() else {
            return Err(io::Error::from(ErrorKind::InvalidInput));
        };
        listener.set_nonblocking(true)?;
        let mut listener = TcpListener::from_std(listener);
        self.poll
            .registry()
            .register(&mut listener, token, Interest::READABLE)?;
        self.doors.add(listener)?;
        Ok(self)
    }

    /// With a time after which a connection has ended that says nothing and takes nothing of what is sent to it. It is
    /// looked at between two waits.
    pub fn with_idle_limit(mut self, limit: Duration) -> Self {
        self.connections.limit_idle(limit);
        self
    }

    /// With a time after which a connection has ended that took nothing since it was accepted: it was never answered.
    /// It is looked at between two waits.
    pub fn with_unanswered_limit(mut self, limit: Duration) -> Self {
        self.connections.limit_unanswered(limit);
        self
    }

    /// With a number of bytes that all connections together may be owed. Where they are owed more, the one that is owed
    /// most has ended, as if by its peer. (None of those is read any more, since they did not take what was sent: that
    /// alone bounds what one is owed, and not what all are.)
    pub fn with_owed_limit(mut self, limit: usize) -> Self {
        self.connections.limit_owed(limit);
        self
    }

    /// With the networks that clients are let in of. A connection of another one is closed as it is accepted: it has no
    /// number and no place. It costs time for each network.
    pub fn with_networks(mut self, networks: Vec<Network>) -> Self {
        self.admission.limit_networks(networks);
        self
    }

    /// With a number of connections of one address that are let in at a time. One more is closed as it is accepted.
    /// IPv6 addresses with the same first 64 bits count as one.
    pub fn with_address_limit(mut self, limit: usize) -> Self {
        self.admission.limit_each(limit);
        self
    }

    /// With wrong passwords slowed down. Where five came of one address, each less than a minute behind the one before,
    /// no bytes are read for a second of those connections of the address that have no session: whose last login was
    /// none that let its client in. Each further one doubles that, up to a minute, and a minute behind the last one all
    /// are forgotten. IPv6 addresses with the same first 64 bits count as one; 4,096 are kept in mind, and beyond them
    /// the one is forgotten whose last wrong password came first.
    ///
    /// They learn of logins by what is noted in `logins`. All room is made here.
    pub fn with_login_delay(mut self, logins: &'a Logins) -> Result<Self, AllocError> {
        let delays = LoginDelays::with_room(self.alloc)?;
        self.heard = Some(HeardLogins { logins, delays });
        Ok(self)
    }

    /// With a place where it is noted what is known of each peer.
    pub fn with_facts(mut self, facts: &'a PeerFacts) -> Self {
        self.facts = Some(facts);
        self
    }
}
