//! The messages of NTLM ([MS-NLMP] 2.2.1).

ghost use Rattle.std.specs.Prelude.{◌≡◌, ◌++◌, ◌+◌, ◌≤◌, length, OnOk};
ghost use Rattle.std.specs.Option.{option_map};
ghost use Rattle.smb_wire.specs.Fields.{appended};
ghost use Rattle.smb_ntlm.specs.Messages.{has_signature, has_unicode, message_type, is_message, asked_flags, login_asked, payload, login_in, answered_flags, challenge_message, head_fields, target_fields};

use super::signing::SigningMode;
use smb_wire::{WireFault, put_bytes, put_u16, put_u32, put_u64, u16_in, u32_in};

/// What each message begins with.
const SIGNATURE: [u8; 8] = *b"NTLMSSP\0";

/// The shortest message: a signature, a type and flags.
const SHORTEST: usize = 16;

/// The fixed part of an AUTHENTICATE ([MS-NLMP] 2.2.1.3), as much of it as is read.
const FIXED_PART: usize = 64;

/// MessageType of a NEGOTIATE.
pub const NEGOTIATE: u32 = 1;

const CHALLENGE: u32 = 2;

const AUTHENTICATE: u32 = 3;

/// NTLMSSP_NEGOTIATE_UNICODE ([MS-NLMP] 2.2.2.5).
const UNICODE: u32 = 1;

/// The flags of a NEGOTIATE that a CHALLENGE repeats: 56, 128, EXTENDED_SESSIONSECURITY, ALWAYS_SIGN, SEAL, SIGN,
/// REQUEST_TARGET and UNICODE.
const REPEATED: u32 = 0xA008_8035;

/// NTLMSSP_NEGOTIATE_KEY_EXCH, which a CHALLENGE repeats unless signing is on.
const KEY_EXCH: u32 = 0x4000_0000;

/// The flags that a CHALLENGE always has: TARGET_INFO, TARGET_TYPE_SERVER, NTLM and UNICODE.
const ALWAYS: u32 = 0x0082_0201;

/// The server's name, in UTF-16LE.
const TARGET_NAME: [u8; 16] = *b"S\0M\0B\0S\0H\0A\0R\0E\0";

/// The length of a CHALLENGE, in bytes.
pub const CHALLENGE_SIZE: usize = 116;

/// What an AUTHENTICATE says ([MS-NLMP] 2.2.1.3): NtChallengeResponse, DomainName and UserName.
#[derive(Clone, Copy, Debug)]
pub struct Login<'a> {
    pub response: &'a [u8],
    pub domain: &'a [u8],
    pub user: &'a [u8],
}

/// Whether the bytes begin as a message does.
pub fn has_signature(bytes: &[u8]) -> bool
    ensures { result ≡ has_signature bytes.now }
{
    bytes.starts_with(&SIGNATURE)
}

/// Whether text is in UTF-16.
pub fn has_unicode(flags: u32) -> bool
    ensures { result ≡ has_unicode flags }
{
    flags & UNICODE != 0
}

/// Whether the bytes are a message that a client sends.
pub fn is_message(bytes: &[u8]) -> bool
    ensures { result ≡ is_message bytes.now }
{
    if !has_signature(bytes) || bytes.len() < SHORTEST {
        return false;
    }
    let kind = u32_in(bytes, 8);
    kind == NEGOTIATE || kind == AUTHENTICATE
}

/// MessageType of a message.
pub fn message_type(message: &[u8]) -> u32
    requires { 16 ≤ length message.now }
    ensures { result ≡ message_type message.now }
{
    u32_in(message, 8)
}

/// NegotiateFlags of a NEGOTIATE ([MS-NLMP] 2.2.1.1).
pub fn asked_flags(message: &[u8]) -> u32
    requires { 16 ≤ length message.now }
    ensures { result ≡ asked_flags message.now }
{
    u32_in(message, 12)
}

/// What the length and the offset at a place name, or None where they pass the end.
#[tactic(auto, unfolding(crate::specs::Messages::payload))]
fn payload(message: &[u8], at: usize) -> Option<&[u8]>
    requires { at + 8 ≤ length message.now }
    ensures { option_map (λ bytes. bytes.now) result ≡ payload at message.now }
{
    let size = u16_in(message, at) as usize;
    if size == 0 {
        return Some(&[]);
    }
    let offset = u32_in(message, at + 4) as usize;
    let end = offset + size;
    if message.len() < end {
        return None;
    }
    Some(&message[offset..end])
}

impl<'a> Login<'a> {
    /// What an AUTHENTICATE says, or None where it isn't one: its fixed part is cut, text isn't in UTF-16, or what it
    /// names passes its end.
    #[tactic(auto, unfolding(crate::specs::Messages::login_in))]
    pub fn read(message: &'a [u8]) -> Option<Login<'a>>
        ensures { option_map login_asked result ≡ login_in message.now }
    {
        if message.len() < FIXED_PART || !has_unicode(u32_in(message, 60)) {
            return None;
        }
        let response = payload(message, 20)?;
        let domain = payload(message, 28)?;
        let user = payload(message, 36)?;
        Some(Login {
            response,
            domain,
            user,
        })
    }
}

/// The flags of a CHALLENGE in answer to those asked for. Where signing is on keys are not exchanged: an account's
/// session has the key of its proof.
pub fn answered_flags(mode: SigningMode, asked: u32) -> u32
    ensures { result ≡ answered_flags mode asked }
{
    let repeated = if mode.is_on() {
        REPEATED
    } else {
        REPEATED | KEY_EXCH
    };
    asked & repeated | ALWAYS
}

/// Adds a CHALLENGE up to its target information ([MS-NLMP] 2.2.1.2). After an error some of it stands there.
fn put_head(out: &mut Vec<u8>, flags: u32, challenge: &[u8; 8]) -> Result<(), WireFault>
    ensures { OnOk result (out.new.items ≡ appended out.old.items (head_fields flags challenge.now)) }
{
    put_bytes(out, &SIGNATURE)?;
    put_u32(out, CHALLENGE)?;
    put_u16(out, 16)?;
    put_u16(out, 16)?;
    put_u32(out, 56)?;
    put_u32(out, flags)?;
    put_bytes(out, challenge)?;
    put_u64(out, 0)?;
    put_u16(out, 44)?;
    put_u16(out, 44)?;
    put_u32(out, 72)?;
    put_u64(out, 0)?;
    Ok(())
}

/// Adds the target's name, and its information: the name as that of a domain and of a computer
/// ([MS-NLMP] 2.2.2.1). After an error some of it stands there.
fn put_target(out: &mut Vec<u8>) -> Result<(), WireFault>
    ensures { OnOk result (out.new.items ≡ appended out.old.items target_fields) }
{
    put_bytes(out, &TARGET_NAME)?;
    put_u16(out, 2)?;
    put_u16(out, 16)?;
    put_bytes(out, &TARGET_NAME)?;
    put_u16(out, 1)?;
    put_u16(out, 16)?;
    put_bytes(out, &TARGET_NAME)?;
    put_u32(out, 0)?;
    Ok(())
}

/// Adds a CHALLENGE ([MS-NLMP] 2.2.1.2) with these flags, of 116 bytes. After an error `out` may have a part of it.
pub fn put_challenge(out: &mut Vec<u8>, flags: u32, challenge: &[u8; 8]) -> Result<(), WireFault>
    ensures { OnOk result (out.new.items ≡ out.old.items ++ challenge_message flags challenge.now) }
{
    put_head(out, flags, challenge)?;
    put_target(out)?;
    Ok(())
}
