//! SMB_COM_NEGOTIATE, by which a client of several protocols begins ([MS-SMB2] 3.3.5.3.1).

ghost use Rattle.std.specs.Prelude.{◌≡◌, ◌<◌, ◌∷◌, ◌++◌, ◌||◌, nat_eq, codes, length, is_some, None, IfSome, IfNone, position, ◌==◌};
ghost use Rattle.std.specs.Option.{option_map};
ghost use Rattle.std.specs.Cmp.Lexicographic.{pointwise};
ghost use Rattle.smb_body.specs.Smb1.{IsText, listed, smb1_of, Smb1IsTold, Smb1SaysOneList};
ghost use Rattle.smb_body.specs.Readings.{texts_in, is_smb1, list_bytes};

use smb_wire::{u8_in, u16_in};

/// What stands before the text of each dialect of a list.
const BUFFER_FORMAT: u8 = 2;

/// Which of the two dialects that count an SMB_COM_NEGOTIATE lists.
#[derive(Clone, Copy)]
pub struct Smb1Dialects {
    /// The text "SMB 2.???".
    pub smb_2_wildcard: bool,
    /// The text "SMB 2.002".
    pub smb_2_002: bool,
}

impl Smb1Dialects {
    /// The same with one more text listed.
    fn with(self, text: &[u8]) -> Smb1Dialects
        ensures wildcard { result.smb_2_wildcard ≡ (self.smb_2_wildcard || pointwise nat_eq (codes "SMB 2.???") text.now) }
        ensures smb_2_002 { result.smb_2_002 ≡ (self.smb_2_002 || pointwise nat_eq (codes "SMB 2.002") text.now) }
    {
        Smb1Dialects {
            smb_2_wildcard: self.smb_2_wildcard || b"SMB 2.???".as_slice() == text,
            smb_2_002: self.smb_2_002 || b"SMB 2.002".as_slice() == text,
        }
    }
}

/// Where the first zero byte stands.
fn zero_at(bytes: &[u8]) -> Option<usize>
    ensures { result ≡ position (λ byte. nat_eq byte 0) bytes.now }
{
    bytes.iter().position(|byte| *byte == 0)
}

/// What stands before the first zero byte, and what behind it.
fn text_and_rest(bytes: &[u8]) -> Option<(&[u8], &[u8])>
    ensures split { IfSome result (λ p. bytes.now ≡ p.0.now ++ (0 ∷ p.1.now)) }
    ensures text { IfSome result (λ p. IsText p.0.now) }
    ensures none { IfNone result (IsText bytes.now) }
{
    let Some(end) = zero_at(bytes) else {
        return None;
    };
    let (text, behind) = bytes.split_at(end);
    Some((text, &behind[1..]))
}

/// The text of the dialect that stands first in a list, and the list behind it.
fn first_text(list: &[u8]) -> Option<(&[u8], &[u8])>
    ensures some { IfSome result (λ p. texts_in list.now ≡
        option_map (λ texts. p.0.now ∷ texts) (texts_in p.1.now)) }
    ensures shorter { IfSome result (λ p. length p.1.now < length list.now) }
    ensures none { IfNone result (0 < length list.now → texts_in list.now ≡ None) }
{
    if list.is_empty() || list[0] != BUFFER_FORMAT {
        return None;
    }
    let Some((text, rest)) = text_and_rest(&list[1..]) else {
        return None;
    };
    Some((text, rest))
}

/// Which of the two dialects a list has, or None where it is no list of dialects.
fn read_list(list: &[u8]) -> Option<Smb1Dialects>
    ensures { result ≡ option_map listed (texts_in list.now) }
{
    let mut dialects = Smb1Dialects {
        smb_2_wildcard: false,
        smb_2_002: false,
    };
    let mut rest = list;
    while !rest.is_empty() {
        let (text, after) = first_text(rest)?;
        dialects = dialects.with(text);
        rest = after;
    }
    Some(dialects)
}

/// The bytes of the list of an SMB_COM_NEGOTIATE, or None where the parts round it are not right.
fn list_of(payload: &[u8]) -> Option<&[u8]>
    ensures some { is_some result ≡ is_smb1 payload.now }
    ensures bytes { IfSome result (λ list. list.now ≡ list_bytes payload.now) }
{
    if payload.len() < 35 {
        return None;
    }
    if &payload[..5] != b"\xffSMBr".as_slice() || u8_in(payload, 32) != 0 {
        return None;
    }
    let size = u16_in(payload, 33) as usize;
    if payload.len() < 35 + size {
        return None;
    }
    Some(&payload[35..35 + size])
}

/// Which of the two dialects that count an SMB_COM_NEGOTIATE lists, also where it lists neither; None where the payload
/// is none or is misformed. The list may be empty, and bytes behind it are free.
#[tactic(auto, unfolding(crate::specs::Smb1::smb1_of))]
pub fn read_smb1_negotiate(payload: &[u8]) -> Option<Smb1Dialects>
    ensures { result ≡ smb1_of payload.now }
{
    let list = list_of(payload)?;
    read_list(list)
}

/// The laws of SMB_COM_NEGOTIATE: the contract is the statement, and the body does nothing.
pub fn laws_of_smb1()
    ensures told { Smb1IsTold }
    ensures one { Smb1SaysOneList }
{}
