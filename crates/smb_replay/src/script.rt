//! The text of a replay, as events.

ghost use Rattle.std.specs.Prelude.{◌≡◌, ◌≤◌, ◌<◌, ◌+◌, IsTrue, length, ◌∷◌, [], IfOk, IfSome, None};
ghost use Rattle.std.specs.Option.{option_map_or};
ghost use Rattle.smb_journal.specs.Lines.{line_text};
ghost use Rattle.smb_replay.specs.Script.{ScriptText, lines_of, line_then, script_of};
ghost use Rattle.smb_replay.specs.Reading.{behind, script_so_far, left_script, part_script};

use smb_engine::Event;
use smb_journal::{Line, place_of, read_line};
use std::alloc::{AllocError, Global};

/// How many events are read at a time.
const PART: usize = 64;

/// What was expected of a line, by how it begins.
#[derive(Clone, Copy, Debug, PartialEq, Eq)]
pub enum Expected {
    Opening,
    Piece,
    Ending,
    /// It has no mark that is known.
    Mark,
}

impl Expected {
    /// What such a line has to be, in one line.
    pub fn text(self) -> &'static str {
        match self {
            Expected::Opening => {
                "+ N: a blank and the number of the connection that opens, decimal and below 2^64"
            }
            Expected::Piece => {
                "> N MOMENT HEX: a connection's number and a moment in units of 100 ns since 1601, decimal and below 2^64, and one byte or more in hex, each behind one blank"
            }
            Expected::Ending => {
                "- N: a blank and the number of the connection that ends, decimal and below 2^64"
            }
            Expected::Mark => "a line that is empty, or that #, +, - or > begins",
        }
    }
}

/// What was expected of a line that is neither empty nor skipped.
fn expected_of(line: &[u8]) -> Expected {
    match line {
        [b'+', ..] => Expected::Opening,
        [b'-', ..] => Expected::Ending,
        [b'>', ..] => Expected::Piece,
        _ => Expected::Mark,
    }
}

/// The first line of a text, and what follows its line feed, where it has one.
fn next_line(text: &[u8]) -> (&[u8], Option<&[u8]>)
    ensures lines { lines_of text.now ≡ result.0.now ∷ option_map_or (λ others. lines_of others.now) result.1 [] }
    ensures shorter { IfSome result.1 (λ others. length others.now < length text.now) }
{
    match place_of(b'\n', text) {
        Some(end) => (&text[..end], Some(&text[end + 1..])),
        None => (text, None),
    }
}

/// Events of a text in order, each with the number of its line, up to the first line that cannot be read, if there is one:
/// then with its number, and what was expected there.
#[derive(Drop)]
pub(crate) struct Script {
    pub(crate) events: Vec<Event>,
    pub(crate) places: Vec<u64>,
    pub(crate) unreadable_at: Option<(u64, Expected)>,
}

impl Script {
    /// A script without events.
    fn new(alloc: Global) -> Self
        ensures added { (later : ScriptText) → behind result later ≡ later }
        ensures empty { result.events.items ≡ [] }
        ensures readable { result.unreadable_at ≡ None }
    {
        Script {
            events: Vec::new(alloc),
            places: Vec::new(alloc),
            unreadable_at: None,
        }
    }

    /// Adds what a line says, and returns whether the next line is to be read.
    fn add(
        &mut self,
        number: u64,
        line: Option<Line>,
        expected: Expected,
    ) -> Result<bool, AllocError>
        ensures added { (later : ScriptText) → IfOk result (λ goes_on. script_so_far goes_on self.new later ≡ behind self.old (line_then number (line_text line) later)) }
        ensures readable { IfOk result (λ goes_on. IsTrue goes_on → self.new.unreadable_at ≡ self.old.unreadable_at) }
        ensures one { IfOk result (λ goes_on. length self.new.events.items ≤ length self.old.events.items + 1) }
    {
        match line {
            Some(Line::Skipped) => Ok(true),
            Some(Line::Happens(event)) => {
                self.events.push(event)?;
                self.places.push(number)?;
                Ok(true)
            }
            Some(Line::Answered(_)) | Some(Line::Stopped { .. }) | None => {
                self.unreadable_at = Some((number, expected));
                Ok(false)
            }
        }
    }
}

/// What is left of a text: it goes on with the line of this number.
#[derive(Drop)]
pub(crate) struct Unread<'a> {
    text: &'a [u8],
    number: u64,
}

impl<'a> Unread<'a> {
    /// A text of which nothing was read.
    pub(crate) fn of(text: &'a [u8]) -> Self
        ensures script { left_script result ≡ script_of text.now }
        ensures counted { result.number + length result.text.now < 18446744073709551616 }
    {
        Unread { text, number: 1 }
    }
}

/// A part of a text, as a script, and what is left of the text: None where nothing is, or where the part ends at a line that
/// cannot be read.
#[derive(Drop)]
pub(crate) struct Part<'a> {
    pub(crate) script: Script,
    pub(crate) left: Option<Unread<'a>>,
}

impl<'a> Part<'a> {
    /// Reads at most 64 events.
    pub(crate) fn read(alloc: Global, unread: Unread<'a>) -> Result<Self, AllocError>
        requires counted { unread.number + length unread.text.now < 18446744073709551616 }
        ensures script { IfOk result (λ part. part_script part ≡ left_script unread.entry) }
        ensures few { IfOk result (λ part. length part.script.events.items ≤ 64) }
        ensures shorter { IfOk result (λ part. IfSome part.left (λ left. length left.text.now < length unread.entry.text.now)) }
        ensures counted { IfOk result (λ part. IfSome part.left (λ left. left.number + length left.text.now < 18446744073709551616)) }
    {
        let mut script = Script::new(alloc);
        let mut number = unread.number;
        let mut rest = unread.text;
        while script.events.len() < PART {
            let (line, others) = next_line(rest);
            let read = read_line(alloc, line)?;
            if !script.add(number, read, expected_of(line))? {
                return Ok(Part { script, left: None });
            }
            match others {
                Some(others) => rest = others,
                None => return Ok(Part { script, left: None }),
            }
            number += 1;
        }
        let left = Some(Unread { text: rest, number });
        Ok(Part { script, left })
    }
}
