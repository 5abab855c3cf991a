//! What is said once a folder is served.

use crate::measured::Measured;
use crate::wanted::SharingWords;
use smb_reason::Shown;
use smb_request::Config;
use std::alloc::{AllocError, Global};
use std::io::Write;
use std::net::{IpAddr, Ipv4Addr, SocketAddr};
use std::{fmt, io};

/// What is said of a share once it listens: what is served, for whom, how it is mounted, and what is lost at its end.
#[derive(Drop)]
pub struct Said {
    name: String,
    folder: String,
    /// The names of accounts, in one line; empty where there is none.
    accounts: String,
    /// The first of them.
    user: String,
    guest: bool,
    journal: Option<String>,
    /// How much was taken of the folder; None where a journal goes on.
    measured: Option<Measured>,
    capacity: u64,
}

/// Names in one line, with commas between them.
fn joined(alloc: Global, names: &[&str]) -> Result<String, AllocError> {
    let mut line = String::new(alloc);
    for name in names {
        if !line.is_empty() {
            line.push_str(", ")?;
        }
        line.push_str(name)?;
    }
    Ok(line)
}

/// A name of the system as it can be shown; None where there is none.
fn shown(alloc: Global, name: Option<&str>) -> Result<Option<String>, AllocError> {
    match name {
        Some(name) => Ok(Some(format!(in alloc; "{}", Shown(name.as_bytes()))?)),
        None => Ok(None),
    }
}

/// The word in place of the machine's name.
const HOST: &str = "HOST";

/// An address as a client names it: [`HOST`] where it is that of all networks, or one of IPv6, which clients write each
/// in a way of its own.
#[derive(Clone, Copy)]
struct Host(SocketAddr);

impl Host {
    /// The address, where a client can name it.
    fn named(self) -> Option<Ipv4Addr> {
        match self.0.ip() {
            IpAddr::V4(ip) if !ip.is_unspecified() => Some(ip),
            _ => None,
        }
    }
}

impl fmt::Display for Host {
    fn fmt<W: fmt::Write>(&self, f: &mut fmt::Formatter<W>) -> fmt::Result {
        match self.named() {
            Some(ip) => write!(f, "{ip}"),
            None => f.write_str(HOST),
        }
    }
}

/// Writes what else clients want, and what is not protected; of guests where they may come.
fn write_notes<W: Write>(host: Host, port: u16, guests_come: bool, out: &mut W) -> io::Result<()> {
    if host.named().is_none() {
        writeln!(out, "{HOST} is this machine's name or address")?;
    }
    if port != 445 {
        writeln!(
            out,
            "Windows before 11 24H2 asks at port 445 alone; since then: net use .. /tcpport:{port}"
        )?;
    }
    if guests_come {
        writeln!(
            out,
            "guests are not signed: Windows lets them in where it allows insecure guest logons"
        )?;
    }
    writeln!(
        out,
        "nothing is encrypted: serve it in a network that you trust"
    )
}

impl Said {
    /// What is to be said of a share.
    pub(crate) fn new(
        alloc: Global,
        words: SharingWords<'_>,
        config: &Config,
        measured: Option<Measured>,
        guest: bool,
    ) -> Result<Self, AllocError> {
        Ok(Said {
            name: String::from_str(alloc, &config.share)?,
            folder: format!(in alloc; "{}", Shown(words.folder.as_bytes()))?,
            accounts: joined(alloc, words.accounts)?,
            user: String::from_str(alloc, words.accounts.first().copied().unwrap_or(""))?,
            guest,
            journal: shown(alloc, words.journal)?,
            measured,
            capacity: config.capacity,
        })
    }

    /// Writes what is served.
    fn write_what<W: Write>(&self, out: &mut W) -> io::Result<()> {
        let (name, folder, capacity) = (&self.name, &self.folder, self.capacity);
        match (self.measured, &self.journal) {
            (Some(Measured { entries, bytes, .. }), _) => writeln!(
                out,
                "share {name}: {entries} files and folders of {folder}, {bytes} bytes of {capacity}"
            ),
            (None, Some(journal)) => writeln!(
                out,
                "share {name}: the files of the journal {journal}, which goes on; {folder} is not taken again"
            ),
            (None, None) => writeln!(out, "share {name}"),
        }
    }

    /// Writes for whom.
    fn write_whom<W: Write>(&self, address: SocketAddr, out: &mut W) -> io::Result<()> {
        let accounts = &self.accounts;
        let others = if address.ip().is_loopback() {
            "everyone on this machine"
        } else {
            "everyone who reaches it"
        };
        match (self.accounts.is_empty(), self.guest) {
            (true, _) => writeln!(
                out,
                "for {others}, as a guest without a password, to read and write"
            ),
            (false, true) => writeln!(
                out,
                "for {accounts} by a password, and {others} as a guest without one, to read and write"
            ),
            (false, false) => writeln!(out, "for {accounts} by a password, to read and write"),
        }
    }

    /// Writes how clients ask for it that come in as the first account.
    fn write_for_user<W: Write>(&self, host: Host, port: u16, out: &mut W) -> io::Result<()> {
        let (name, user) = (&self.name, &self.user);
        writeln!(out, "smbclient //{host}/{name} -p {port} -U '{user}'")?;
        writeln!(
            out,
            "mount -t cifs //{host}/{name} /mnt -o port={port},vers=2.1,username='{user}'"
        )?;
        writeln!(out, "net use Z: \\\\{host}\\{name} /user:\"{user}\"")
    }

    /// Writes how clients ask for it that come in as guests.
    fn write_for_guests<W: Write>(&self, host: Host, port: u16, out: &mut W) -> io::Result<()> {
        let name = &self.name;
        writeln!(out, "smbclient -N //{host}/{name} -p {port}")?;
        writeln!(
            out,
            "mount -t cifs //{host}/{name} /mnt -o port={port},vers=2.1,guest"
        )?;
        writeln!(out, "net use Z: \\\\{host}\\{name}")
    }

    /// Writes what is lost at the end.
    fn write_end<W: Write>(&self, out: &mut W) -> io::Result<()> {
        let folder = &self.folder;
        match &self.journal {
            Some(journal) => writeln!(
                out,
                "changes are kept in {journal}, and not in {folder}: start again with the same --journal"
            ),
            None => writeln!(
                out,
                "changes are lost when this ends, and not made in {folder}: --journal FILE keeps them"
            ),
        }
    }

    /// Writes all that is said of a share that listens at an address, in some lines.
    pub fn write<W: Write>(&self, address: SocketAddr, out: &mut W) -> io::Result<()> {
        let (host, port) = (Host(address), address.port());
        self.write_what(out)?;
        self.write_whom(address, out)?;
        if self.user.is_empty() {
            self.write_for_guests(host, port, out)?;
        } else {
            self.write_for_user(host, port, out)?;
        }
        write_notes(host, port, self.user.is_empty() || self.guest, out)?;
        self.write_end(out)
    }
}
