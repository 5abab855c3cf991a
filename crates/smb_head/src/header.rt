//! The header that each request and each reply begins with ([MS-SMB2] 2.2.1).

ghost use Rattle.std.specs.Prelude.{⊤, ◌≡◌, ◌≤◌, ◌+◌, ◌++◌, ◌∷◌, [], OnOk, OnErr, IfOk, IfErr, codes, length, take};
ghost use Rattle.smb_wire.specs.Fields.{AllFit, appended, joined};
ghost use Rattle.smb_head.specs.Headers.{fields, header_of, header_fault, EachHeaderHasOneReading, AWrittenHeaderIsRead, WhatIsReadIsWritten};

use super::fault::HeadFault;
use bitflags::{Flag, Flags, bitflag_items};
use smb_wire::{
    CommandCode, WireFault, put_bytes, put_u16, put_u32, put_u64, u16_in, u32_in, u64_in,
};

/// Flags of a header ([MS-SMB2] 2.2.1.2). Unknown bits are kept.
#[derive(Clone, Copy, Debug, PartialEq, Eq)]
pub struct HeaderFlags(pub u32);

bitflag_items! {
    impl HeaderFlags: u32 {
        const SERVER_TO_REDIR = 1;
        const ASYNC = 2;
        const RELATED = 4;
        const SIGNED = 8;
    }
}

impl Flags for HeaderFlags {
    type Bits = u32;

    ghost exact = { ⊤ };

    ghost table = { (codes "SERVER_TO_REDIR", 1) ∷ (codes "ASYNC", 2) ∷ (codes "RELATED", 4) ∷ (codes "SIGNED", 8) ∷ [] };

    ghost set_of = { λ flags. flags.0 };

    fn flags<'a>() -> &'a [Flag<HeaderFlags>] {
        HeaderFlags::FLAGS
    }

    fn bits(&self) -> u32 {
        self.0
    }

    fn from_bits_retain(bits: u32) -> HeaderFlags {
        HeaderFlags(bits)
    }
}

/// The header of a request or a reply, without ProtocolId and StructureSize, which are always the same.
///
/// The names are those of [MS-SMB2] 2.2.1.2; `reserved` is where an asynchronous header has the first
/// half of its AsyncId. `next_command` is a distance in bytes, from this header to the next.
#[derive(Clone, Copy, Debug, PartialEq, Eq)]
pub struct Header {
    pub credit_charge: u16,
    pub status: u32,
    pub command: CommandCode,
    pub credits: u16,
    pub flags: HeaderFlags,
    pub next_command: u32,
    pub message_id: u64,
    pub reserved: u32,
    pub tree_id: u32,
    pub session_id: u64,
    pub signature: [u8; 16],
}

/// ProtocolId: 0xFE and the letters SMB.
const PROTOCOL_ID: u32 = 0x424d_53fe;

/// The length of a header in bytes, and what its StructureSize says.
const HEADER_SIZE: u16 = 64;

/// The header in 64 bytes or more.
#[tactic(auto, unfolding(crate::specs::Headers::header_of))]
pub(crate) fn header_in(bytes: &[u8]) -> Header
    requires { 64 ≤ length bytes.now }
    ensures { result ≡ header_of bytes.now }
{
    let mut signature = [0u8; 16];
    signature.copy_from_slice(&bytes[48..64]);
    Header {
        credit_charge: u16_in(bytes, 6),
        status: u32_in(bytes, 8),
        command: CommandCode(u16_in(bytes, 12)),
        credits: u16_in(bytes, 14),
        flags: HeaderFlags(u32_in(bytes, 16)),
        next_command: u32_in(bytes, 20),
        message_id: u64_in(bytes, 24),
        reserved: u32_in(bytes, 32),
        tree_id: u32_in(bytes, 36),
        session_id: u64_in(bytes, 40),
        signature,
    }
}

/// The header that the bytes begin with.
///
/// Fewer than 64 bytes are [`HeadFault::Short`], another ProtocolId is [`HeadFault::Protocol`], another
/// StructureSize is [`HeadFault::Size`], the first of these. What follows the header is not looked at.
pub fn read_header(bytes: &[u8]) -> Result<Header, HeadFault>
    ensures ok { IfOk result (λ header. header ≡ header_of bytes.now) }
    ensures lawful { OnOk result (header_fault bytes.now ≡ None) }
    ensures err { IfErr result (λ fault. header_fault bytes.now ≡ Some fault) }
{
    if bytes.len() < HEADER_SIZE as usize {
        return Err(HeadFault::Short);
    }
    if u32_in(bytes, 0) != PROTOCOL_ID {
        return Err(HeadFault::Protocol);
    }
    if u16_in(bytes, 4) != HEADER_SIZE {
        return Err(HeadFault::Size);
    }
    Ok(header_in(bytes))
}

/// Adds the header's bytes at the end. After a refusal some of them stand there.
fn put_fields(header: &Header, out: &mut Vec<u8>) -> Result<(), WireFault>
    ensures ok { OnOk result (out.new.items ≡ appended out.old.items (fields header.now)) }
    ensures len { OnOk result (length out.new.items ≡ length out.old.items + 64) }
    ensures kept { take (length out.old.items) out.new.items ≡ out.old.items }
{
    put_u32(out, PROTOCOL_ID)?;
    put_u16(out, HEADER_SIZE)?;
    put_u16(out, header.credit_charge)?;
    put_u32(out, header.status)?;
    put_u16(out, header.command.0)?;
    put_u16(out, header.credits)?;
    put_u32(out, header.flags.0)?;
    put_u32(out, header.next_command)?;
    put_u64(out, header.message_id)?;
    put_u32(out, header.reserved)?;
    put_u32(out, header.tree_id)?;
    put_u64(out, header.session_id)?;
    put_bytes(out, &header.signature)?;
    Ok(())
}

/// Adds the header's 64 bytes at the end.
///
/// After [`HeadFault::NoMemory`], the only refusal, `out` is as it was.
pub fn write_header(header: &Header, out: &mut Vec<u8>) -> Result<(), HeadFault>
    ensures ok { OnOk result (out.new.items ≡ out.old.items ++ joined (fields header.now)) }
    ensures len { OnOk result (length out.new.items ≡ length out.old.items + 64) }
    ensures memory { IfErr result (λ fault. fault ≡ HeadFault.NoMemory) }
    ensures err { OnErr result (out.new.items ≡ out.old.items) }
{
    let before = out.len();
    match put_fields(header, out) {
        Ok(()) => Ok(()),
        Err(_) => {
            out.truncate(before);
            Err(HeadFault::NoMemory)
        }
    }
}

/// The numbers of any header fit their fields: the contract is the statement, and the body does nothing.
pub fn each_header_fits(header: Header)
    ensures { AllFit (fields header) }
{}

/// The laws of headers: the contract is the statement, and the body does nothing.
pub fn laws_of_headers()
    ensures one { EachHeaderHasOneReading }
    ensures written { AWrittenHeaderIsRead }
    ensures read { WhatIsReadIsWritten }
{}
