//! What a line of a recording says.

ghost use Rattle.std.specs.Prelude.{◌≡◌, IfOk};
ghost use Rattle.smb_peers.specs.Event.{opens, ends};
ghost use Rattle.smb_journal.specs.Lines.{decimal_number, line_text, bytes_line, unreadable, says, with_part, read_line};

use crate::given::GivenAnswer;
use crate::text::{at_blank, check_of_digits, number_of, piece_of, piece_parts, token_of};
use smb_peers::Event;
use smb_session::{Answer, Signing};
use smb_signing::Key;
use std::alloc::{AllocError, Global};

/// A line.
#[derive(Drop)]
pub enum Line {
    /// Nothing: it is empty, or `#` begins it.
    Skipped,
    /// Something happens to the share.
    Happens(Event),
    /// The authenticator answered so to a token of the piece before.
    Answered(GivenAnswer),
    /// Memory ran out in the piece before, behind so many of its requests.
    Stopped { connection: u64, done: usize },
}

/// The head of a piece whose bytes follow the line.
#[derive(Clone, Copy)]
pub(crate) struct PieceHead {
    pub(crate) connection: u64,
    pub(crate) moment: u64,
    pub(crate) length: usize,
    /// The check of the bytes.
    pub(crate) sum: u64,
}

/// The most bytes of a piece.
const LONGEST_PIECE: u64 = 1_048_576;

/// The rest of a line that opens a connection.
fn opened_line(text: &[u8]) -> Option<Line>
    ensures { line_text result ≡ with_part (decimal_number text.now) (λ number. says (opens number)) }
{
    let number = number_of(text)?;
    Some(Line::Happens(Event::Opened(number)))
}

/// The rest of a line that ends a connection.
fn ended_line(text: &[u8]) -> Option<Line>
    ensures { line_text result ≡ with_part (decimal_number text.now) (λ number. says (ends number)) }
{
    let number = number_of(text)?;
    Some(Line::Happens(Event::Ended(number)))
}

/// The rest of a line that brings a piece.
fn bytes_line(alloc: Global, text: &[u8]) -> Result<Option<Line>, AllocError>
    ensures { IfOk result (λ line. line_text line ≡ bytes_line text.now) }
{
    let Some((connection, moment, digits)) = piece_parts(text) else {
        return Ok(None);
    };
    match piece_of(alloc, digits)? {
        Some(piece) => Ok(Some(Line::Happens(Event::Bytes {
            connection,
            moment,
            piece,
        }))),
        None => Ok(None),
    }
}

/// The rest of a line `~ N DONE`.
fn stopped_line(text: &[u8]) -> Option<Line>
    ensures { line_text result ≡ unreadable }
{
    let (connection, done) = at_blank(text)?;
    let connection = number_of(connection)?;
    let done = usize::try_from(number_of(done)?).ok()?;
    Some(Line::Stopped { connection, done })
}

/// Whether a word is `1` or `0`.
fn flag_of(word: &[u8]) -> Option<bool> {
    match word {
        b"0" => Some(false),
        b"1" => Some(true),
        _ => None,
    }
}

/// What `KEY REQUIRED` says of how a session's messages are signed.
fn signing_of(text: &[u8]) -> Option<Signing> {
    let (digits, required) = at_blank(text)?;
    let mut key = [0u8; 16];
    hex::decode_to_slice(digits, &mut key).ok()?;
    Some(Signing {
        key: Key::new(key),
        required: flag_of(required)?,
    })
}

/// A token, and how the session's messages are signed: `TOKEN`, or `TOKEN KEY REQUIRED`.
fn token_parts(text: &[u8]) -> Option<(&[u8], Option<Signing>)> {
    match at_blank(text) {
        Some((token, others)) => Some((token, Some(signing_of(others)?))),
        None => Some((text, None)),
    }
}

/// The words behind `accept`, its user and token as they are spelled.
#[derive(Clone, Copy)]
struct AcceptParts<'a> {
    user: &'a [u8],
    flags: u16,
    read_only: bool,
    token: &'a [u8],
    signing: Option<Signing>,
}

/// The words of `USER FLAGS READONLY TOKEN [KEY REQUIRED]`.
fn accept_parts(text: &[u8]) -> Option<AcceptParts<'_>> {
    let (user, others) = at_blank(text)?;
    let (flags, others) = at_blank(others)?;
    let (read_only, others) = at_blank(others)?;
    let (token, signing) = token_parts(others)?;
    Some(AcceptParts {
        user,
        flags: u16::try_from(number_of(flags)?).ok()?,
        read_only: flag_of(read_only)?,
        token,
        signing,
    })
}

/// What an authenticator answered: `continue TOKEN`, `accept USER FLAGS READONLY TOKEN [KEY REQUIRED]` or `deny`.
fn answer_of(alloc: Global, text: &[u8]) -> Result<Option<Answer>, AllocError> {
    if text == b"deny".as_slice() {
        return Ok(Some(Answer::Deny));
    }
    if let Some(digits) = text.strip_prefix(b"continue ") {
        return Ok(token_of(alloc, digits)?.map(Answer::Continue));
    }
    let Some(parts) = text.strip_prefix(b"accept ").and_then(accept_parts) else {
        return Ok(None);
    };
    match (token_of(alloc, parts.user)?, token_of(alloc, parts.token)?) {
        (Some(user), Some(token)) => Ok(Some(Answer::Accept {
            user,
            flags: parts.flags,
            read_only: parts.read_only,
            signing: parts.signing,
            token,
        })),
        _ => Ok(None),
    }
}

/// The rest of a line `= ..`.
fn answered_line(alloc: Global, text: &[u8]) -> Result<Option<Line>, AllocError>
    ensures { IfOk result (λ line. line_text line ≡ unreadable) }
{
    match answer_of(alloc, text)?.and_then(GivenAnswer::of) {
        Some(answer) => Ok(Some(Line::Answered(answer))),
        None => Ok(None),
    }
}

/// What a line says; None where it can't be read. Of an event it is that of the definition `read_line`, of any text.
pub fn read_line(alloc: Global, line: &[u8]) -> Result<Option<Line>, AllocError>
    ensures { IfOk result (λ read. line_text read ≡ read_line line.now) }
{
    match line {
        [] => Ok(Some(Line::Skipped)),
        [b'#', ..] => Ok(Some(Line::Skipped)),
        [b'+', b' ', text @ ..] => Ok(opened_line(text)),
        [b'-', b' ', text @ ..] => Ok(ended_line(text)),
        [b'>', b' ', text @ ..] => bytes_line(alloc, text),
        [b'~', b' ', text @ ..] => Ok(stopped_line(text)),
        [b'=', b' ', text @ ..] => answered_line(alloc, text),
        _ => Ok(None),
    }
}

/// The head of a piece, a line `b N MOMENT LENGTH SUM`; None where it is none.
pub(crate) fn read_head(line: &[u8]) -> Option<PieceHead> {
    let (connection, moment, others) = piece_parts(line.strip_prefix(b"b ")?)?;
    let (length, sum) = at_blank(others)?;
    let length = number_of(length)?;
    if length > LONGEST_PIECE {
        return None;
    }
    Some(PieceHead {
        connection,
        moment,
        length: length as usize,
        sum: check_of_digits(sum)?,
    })
}
