//! SPNEGO (RFC 4178): the two tokens that a client sends, and the mechanism token within.

ghost use Rattle.std.specs.Prelude.{◌≡◌};
ghost use Rattle.std.specs.Option.{option_map};
ghost use Rattle.std.specs.Str.{bytes_eq};
ghost use Rattle.smb_ntlm.specs.Spnego.{ntlm_oid, lists_ntlm, behind_spnego, token_field, last_fields, behind_types, init_token, response_token};
ghost use Rattle.smb_ntlm.specs.Der.{parted};

use super::der::{ElementParts, behind, byte_at, element, whole};

/// The tag of NegTokenInit's frame (RFC 2743, 3.1).
pub const FRAME: u8 = 0x60;

const OCTET_STRING: u8 = 0x04;

const OBJECT_IDENTIFIER: u8 = 0x06;

const SEQUENCE: u8 = 0x30;

/// The tags of fields 0 to 3 of either token; NegTokenInit has that of the first, NegTokenResp of the second
/// (RFC 4178, 4.2).
const CONTEXT: [u8; 4] = [0xA0, 0xA1, 0xA2, 0xA3];

/// SPNEGO, as an element (RFC 4178, 3.2).
const SPNEGO: [u8; 8] = [0x06, 0x06, 0x2b, 0x06, 0x01, 0x05, 0x05, 0x02];

/// NTLM, as the contents of an element ([MS-SPNG] 1.9).
const NTLM: [u8; 10] = [0x2b, 0x06, 0x01, 0x04, 0x01, 0x82, 0x37, 0x02, 0x02, 0x0a];

/// Whether an object identifier is that of NTLM.
fn is_ntlm(identifier: &[u8]) -> bool
    ensures { result ≡ bytes_eq ntlm_oid identifier.now }
{
    NTLM.as_slice() == identifier
}

/// Whether NTLM is among the mechanisms, and all are object identifiers.
fn lists_ntlm(mut mechanisms: &[u8]) -> bool
    ensures { result ≡ lists_ntlm mechanisms.now }
{
    let mut listed = false;
    while !mechanisms.is_empty() {
        let Some(mechanism) = element(OBJECT_IDENTIFIER, mechanisms) else {
            return false;
        };
        listed |= is_ntlm(mechanism.contents);
        mechanisms = mechanism.rest;
    }
    listed
}

/// What follows the identifier of SPNEGO.
#[tactic(auto, unfolding(crate::specs::Spnego::behind_spnego))]
fn behind_spnego(frame: &[u8]) -> Option<&[u8]>
    ensures { option_map (λ rest. rest.now) result ≡ behind_spnego frame.now }
{
    if frame.starts_with(&SPNEGO) {
        Some(&frame[SPNEGO.len()..])
    } else {
        None
    }
}

/// The octet string in an optional field 2; no bytes where it is left out.
#[tactic(auto, unfolding(crate::specs::Spnego::token_field))]
fn token_field(fields: &[u8]) -> Option<&[u8]>
    ensures { option_map (λ token. token.now) result ≡ token_field fields.now }
{
    if byte_at(fields, 0) != CONTEXT[2] {
        return Some(&[]);
    }
    let field = element(CONTEXT[2], fields)?;
    whole(OCTET_STRING, field.contents)
}

/// The token in the last fields, of which any may be left out.
#[tactic(auto, unfolding(crate::specs::Spnego::last_fields))]
fn last_fields(fields: &[u8]) -> Option<&[u8]>
    ensures { option_map (λ token. token.now) result ≡ last_fields fields.now }
{
    let token = token_field(fields)?;
    let rest = behind(CONTEXT[2], fields)?;
    let end = behind(CONTEXT[3], rest)?;
    if end.is_empty() { Some(token) } else { None }
}

/// The mechToken behind the mechanism types, where these list NTLM.
fn behind_types<'a>(types: ElementParts<'a>) -> Option<&'a [u8]>
    ensures { option_map (λ token. token.now) result ≡ behind_types (parted types.entry) }
{
    let mechanisms = whole(SEQUENCE, types.contents)?;
    if !lists_ntlm(mechanisms) {
        return None;
    }
    let rest = behind(CONTEXT[1], types.rest)?;
    last_fields(rest)
}

/// The mechToken of a NegTokenInit that offers NTLM (RFC 4178, 4.2.1), in the frame of RFC 2743, 3.1; no bytes where it
/// is left out.
#[tactic(auto, unfolding(crate::specs::Spnego::init_token))]
pub fn init_token(token: &[u8]) -> Option<&[u8]>
    ensures { option_map (λ token. token.now) result ≡ init_token token.now }
{
    let frame = whole(FRAME, token)?;
    let choice = behind_spnego(frame)?;
    let sequence = whole(CONTEXT[0], choice)?;
    let fields = whole(SEQUENCE, sequence)?;
    let types = element(CONTEXT[0], fields)?;
    behind_types(types)
}

/// The responseToken of a NegTokenResp (RFC 4178, 4.2.2); no bytes where it is left out.
#[tactic(auto, unfolding(crate::specs::Spnego::response_token))]
pub fn response_token(token: &[u8]) -> Option<&[u8]>
    ensures { option_map (λ token. token.now) result ≡ response_token token.now }
{
    let sequence = whole(CONTEXT[1], token)?;
    let fields = whole(SEQUENCE, sequence)?;
    let rest = behind(CONTEXT[0], fields)?;
    let rest = behind(CONTEXT[1], rest)?;
    last_fields(rest)
}
