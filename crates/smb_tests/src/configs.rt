//! What a configuration says, and how long a hello may be.

use smb_config::{BUILT_IN, ConfigFault, ConfigRule, Configuration};
use smb_session::{Answer, Authenticator, Tokens};
use std::alloc::{AllocError, Global};

/// Whether the share is as the built-in configuration says.
fn is_built_in(configuration: &Configuration) -> bool {
    let config = &configuration.config;
    config.share.as_str() == "data"
        && config.label.as_str() == "DATA"
        && config.guid == [0, 1, 2, 3, 4, 5, 6, 7, 8, 9, 10, 11, 12, 13, 14, 15]
        && config.capacity == 67_108_864
        && config.created == 116_444_736_000_000_000
}

/// Whether a token brings a user, with these flags and an empty token, to read only or to write too.
fn brings(
    authenticator: &mut Tokens,
    sent: &[u8],
    name: &[u8],
    session_flags: u16,
    only_reads: bool,
) -> bool {
    match authenticator.step(1, sent) {
        Ok(
            Answer::Accept {
                user,
                flags,
                read_only,
                signing: None,
                token,
            },
        ) => {
            user.as_slice() == name
                && flags == session_flags
                && read_only == only_reads
                && token.is_empty()
        }
        _ => false,
    }
}

/// Whether a token brings no one.
fn brings_no_one(authenticator: &mut Tokens, sent: &[u8]) -> bool {
    match authenticator.step(1, sent) {
        Ok(Answer::Deny) => true,
        _ => false,
    }
}

/// Whether ann is the only user, who may write, and no hello is offered.
fn knows_ann(authenticator: &mut Tokens) -> bool {
    authenticator.hello().is_empty()
        && brings(authenticator, b"a", b"ann", 0, false)
        && brings_no_one(authenticator, b"b")
}

/// Whether a configuration is the built-in one.
fn is_of_ann(configuration: &mut Configuration) -> bool {
    is_built_in(configuration) && knows_ann(&mut configuration.authenticator)
}

#[test]
fn reads_the_built_in(rt: HostRuntime) {
    let is_so = match Configuration::read(rt.alloc(), BUILT_IN) {
        Ok(mut configuration) => is_of_ann(&mut configuration),
        Err(_) => false,
    };
    assert!(rt; is_so);
}

/// The bytes of share.toml from before `readonly` and `guest_readonly` were keys of a configuration.
const SHARE_OF_BEFORE: &str =
    "# A share, as the program `smbshare` takes it: smbshare replay --config share.toml
share = \"data\"                              # the share's name, 1 to 80 printable characters
label = \"DATA\"                              # the volume's label, at most 32 printable characters
guid = \"000102030405060708090a0b0c0d0e0f\"   # the server's GUID, 16 bytes in hex
capacity = 67108864                         # in bytes, a multiple of 4096, at most 64 MiB
created = 116444736000000000                # when the share was made, in 100 ns since 1601
hello = \"\"                                  # what the authenticator offers first, in hex
guest = false                               # whether a client may come in without a name

[[user]]
name = \"ann\"
token = \"61\"                                # all bytes of the security buffer of her SESSION_SETUP, in hex

# A token is no password: it is what the client itself puts on the wire. No client of Samba's sends the byte 61, so
# with this configuration only clients of your own log in; guest.toml lets everyone in.
";

/// The bytes of guest.toml from before these two keys.
const GUESTS_OF_BEFORE: &str =
    "# A share that lets anyone in: smbshare serve --listen 127.0.0.1:4450 --config guest.toml
share = \"data\"                              # the share's name, 1 to 80 printable characters
label = \"DATA\"                              # the volume's label, at most 32 printable characters
guid = \"000102030405060708090a0b0c0d0e0f\"   # the server's GUID, 16 bytes in hex
capacity = 67108864                         # in bytes, a multiple of 4096, at most 64 MiB
created = 116444736000000000                # when the share was made, in 100 ns since 1601
hello = \"\"                                  # what the authenticator offers first, in hex
guest = true                                # whether a client may come in without a name
";

/// Whether a configuration is the built-in one, and lets no guests in.
fn is_without_guests(configuration: &mut Configuration) -> bool {
    !configuration.guest && !configuration.guest_read_only && is_of_ann(configuration)
}

#[test]
fn reads_a_share_of_before(rt: HostRuntime) {
    let is_so = match Configuration::read(rt.alloc(), SHARE_OF_BEFORE) {
        Ok(mut configuration) => is_without_guests(&mut configuration),
        Err(_) => false,
    };
    assert!(rt; is_so);
}

/// Whether a share is as the built-in configuration says, but for guests alone, who may write.
fn is_of_guests(configuration: &mut Configuration) -> bool {
    is_built_in(configuration)
        && configuration.guest
        && !configuration.guest_read_only
        && configuration.users == 0
        && brings(&mut configuration.authenticator, b"a", b"guest", 1, false)
}

#[test]
fn reads_guests_of_before(rt: HostRuntime) {
    let is_so = match Configuration::read(rt.alloc(), GUESTS_OF_BEFORE) {
        Ok(mut configuration) => is_of_guests(&mut configuration),
        Err(_) => false,
    };
    assert!(rt; is_so);
}

/// Guests that may only read; ann, of whom it is said that she may write; and bob, who may only read.
const READERS: &str = "share = \"data\"
label = \"DATA\"
guid = \"000102030405060708090a0b0c0d0e0f\"
capacity = 67108864
created = 116444736000000000
hello = \"\"
guest = true
guest_readonly = true
user = [
  { name = \"ann\", token = \"61\", readonly = false },
  { name = \"bob\", token = \"62\", readonly = true },
]
";

/// Whether guests and bob may only read, and ann may write.
fn is_of_readers(configuration: &mut Configuration) -> bool {
    let authenticator = &mut configuration.authenticator;
    configuration.guest_read_only
        && brings(authenticator, b"a", b"ann", 0, false)
        && brings(authenticator, b"b", b"bob", 0, true)
        && brings(authenticator, b"?", b"guest", 1, true)
}

#[test]
fn reads_who_may_only_read(rt: HostRuntime) {
    let is_so = match Configuration::read(rt.alloc(), READERS) {
        Ok(mut configuration) => is_of_readers(&mut configuration),
        Err(_) => false,
    };
    assert!(rt; is_so);
}

/// The built-in configuration with a hello of so many bytes.
fn with_hello(alloc: Global, length: u32) -> Result<String, AllocError> {
    let (front, back) = BUILT_IN.split_once("hello = \"").unwrap_or(("", ""));
    let mut text = String::from_str(alloc, front)?;
    text.push_str("hello = \"")?;
    for _ in 0..length {
        text.push_str("5a")?;
    }
    text.push_str(back)?;
    Ok(text)
}

/// Why a hello of so many bytes is refused, or None where it is taken.
fn fault_of(alloc: Global, length: u32) -> Option<ConfigFault> {
    match with_hello(alloc, length) {
        Ok(text) => Configuration::read(alloc, text.as_str()).err(),
        Err(_) => Some(ConfigFault::NoMemory),
    }
}

#[test]
fn bounds_a_hello(rt: HostRuntime) {
    assert!(rt; fault_of(rt.alloc(), 4_096).is_none());
    let refused = Some(ConfigFault::Refused(ConfigRule::Hello));
    assert!(rt; fault_of(rt.alloc(), 4_097) == refused);
}
