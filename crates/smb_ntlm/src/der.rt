//! DER (ITU-T X.690), as much of it as the tokens of a login need.

ghost use Rattle.std.specs.Prelude.{◌≡◌, slice_index};
ghost use Rattle.std.specs.Option.{option_map};
ghost use Rattle.smb_ntlm.specs.Der.{parted, span_of, element, whole, behind};

/// An element's contents, and what follows it.
#[derive(Clone, Copy, Debug)]
pub struct ElementParts<'a> {
    pub contents: &'a [u8],
    pub rest: &'a [u8],
}

/// Where the contents of an element begin, and how many bytes they have.
#[derive(Clone, Copy)]
struct Span {
    start: usize,
    size: usize,
}

/// The byte at a place, 0 where there is none.
pub fn byte_at(bytes: &[u8], at: usize) -> u8
    ensures { result ≡ slice_index bytes.now at }
{
    bytes.get(at).copied().unwrap_or(0)
}

/// Where the contents are of the element that the bytes begin with, by its length.
fn contents_span(bytes: &[u8]) -> Option<Span>
    ensures { result ≡ span_of bytes.now }
{
    let (start, size) = match byte_at(bytes, 1) {
        size @ 0..=0x7F => (2, u16::from(size)),
        0x81 => (3, u16::from(byte_at(bytes, 2))),
        0x82 => (
            4,
            u16::from_be_bytes([byte_at(bytes, 2), byte_at(bytes, 3)]),
        ),
        _ => return None,
    };
    Some(Span {
        start,
        size: usize::from(size),
    })
}

/// The element with this tag that the bytes begin with.
#[tactic(auto, unfolding(crate::specs::Der::element))]
pub fn element(tag: u8, bytes: &[u8]) -> Option<ElementParts<'_>>
    ensures { option_map parted result ≡ element tag bytes.now }
{
    if byte_at(bytes, 0) != tag {
        return None;
    }
    let span = contents_span(bytes)?;
    let end = span.start + span.size;
    if bytes.len() < end {
        return None;
    }
    Some(ElementParts {
        contents: &bytes[span.start..end],
        rest: &bytes[end..],
    })
}

/// The contents of the one element with this tag that the bytes are.
#[tactic(auto, unfolding(crate::specs::Der::whole))]
pub fn whole(tag: u8, bytes: &[u8]) -> Option<&[u8]>
    ensures { option_map (λ contents. contents.now) result ≡ whole tag bytes.now }
{
    let element = element(tag, bytes)?;
    if element.rest.is_empty() {
        Some(element.contents)
    } else {
        None
    }
}

/// What follows an element that may be left out.
#[tactic(auto, unfolding(crate::specs::Der::behind))]
pub fn behind(tag: u8, bytes: &[u8]) -> Option<&[u8]>
    ensures { option_map (λ rest. rest.now) result ≡ behind tag bytes.now }
{
    if byte_at(bytes, 0) != tag {
        return Some(bytes);
    }
    let element = element(tag, bytes)?;
    Some(element.rest)
}
