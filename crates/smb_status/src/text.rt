//! Texts that anybody may have typed, as a page, JSON and metrics show them, and numbers that all of them show.

use itoa::Buffer;
use smb_peers::since_1970;
use std::alloc::AllocError;
use std::time::Duration;

/// Adds a number, in less time than `write!` takes for one.
pub(crate) fn put_decimal(number: u64, text: &mut String) -> Result<(), AllocError> {
    let mut buffer = Buffer::new();
    text.push_str(buffer.format(number))
}

/// Whether a byte is one of a character that a page needs another text for.
fn is_markup(byte: u8) -> bool {
    matches!(byte, b'&' | b'<' | b'>' | b'"' | b'\'')
}

/// Adds a text to a page: no character of it begins a tag, ends an attribute or names another character.
pub(crate) fn put_html(said: &str, text: &mut String) -> Result<(), AllocError> {
    if !said.as_bytes().iter().any(|byte| is_markup(*byte)) {
        return text.push_str(said);
    }
    for c in said.chars() {
        match c {
            '&' => text.push_str("&amp;")?,
            '<' => text.push_str("&lt;")?,
            '>' => text.push_str("&gt;")?,
            '"' => text.push_str("&quot;")?,
            '\'' => text.push_str("&#39;")?,
            _ => text.push(c)?,
        }
    }
    Ok(())
}

/// Adds a text as a string of JSON, in its quotation marks (RFC 8259, 7).
pub(crate) fn put_json_text(said: &str, text: &mut String) -> Result<(), AllocError> {
    text.push_str("\"")?;
    for c in said.chars() {
        match c {
            '"' => text.push_str("\\\"")?,
            '\\' => text.push_str("\\\\")?,
            '\0'..='\u{1F}' => {
                let code = c as u32;
                write!(text, "\\u{code:04x}")?
            }
            _ => text.push(c)?,
        }
    }
    text.push_str("\"")
}

/// Adds a text as the value of a metric's label, in its quotation marks.
pub(crate) fn put_label(said: &str, text: &mut String) -> Result<(), AllocError> {
    text.push_str("\"")?;
    for c in said.chars() {
        match c {
            '"' => text.push_str("\\\"")?,
            '\\' => text.push_str("\\\\")?,
            '\n' => text.push_str("\\n")?,
            _ => text.push(c)?,
        }
    }
    text.push_str("\"")
}

/// Adds a duration in seconds, to the microsecond.
pub(crate) fn put_seconds(duration: Duration, text: &mut String) -> Result<(), AllocError> {
    let (seconds, fraction) = (duration.as_secs(), duration.subsec_micros());
    write!(text, "{seconds}.{fraction:06}")
}

/// Adds a moment, in units of 100 ns since 1601, as seconds since 1970, to the millisecond; 0 where it is before that.
pub(crate) fn put_unix_time(moment: u64, text: &mut String) -> Result<(), AllocError> {
    let since = since_1970(moment).unwrap_or(Duration::ZERO);
    let (seconds, fraction) = (since.as_secs(), since.subsec_millis());
    write!(text, "{seconds}.{fraction:03}")
}
