//! What is answered to an HTTP request.

use crate::reading::{Page, Refused};
use std::alloc::{AllocError, Global};

/// The fields that each answer has. No page runs a script or has anything of elsewhere, and none is kept.
const FIELDS: &str = "Connection: close\r\n\
     Cache-Control: no-store\r\n\
     X-Content-Type-Options: nosniff\r\n\
     Content-Security-Policy: default-src 'none'; style-src 'unsafe-inline'\r\n";

impl Page {
    /// The type of its content.
    fn content_type(self) -> &'static str {
        match self {
            Page::Html => "text/html; charset=utf-8",
            Page::Json => "application/json",
            Page::Metrics => "text/plain; version=0.0.4; charset=utf-8",
        }
    }
}

impl Refused {
    /// The status, and the words for it.
    pub fn status(self) -> &'static str {
        match self {
            Refused::NoRequest => "400 Bad Request",
            Refused::NoPage => "404 Not Found",
            Refused::NoGet => "405 Method Not Allowed",
            Refused::OtherHost => "421 Misdirected Request",
            Refused::TooLong => "431 Request Header Fields Too Large",
            Refused::NoMemory => "503 Service Unavailable",
        }
    }

    /// The fields that this answer alone has.
    fn fields(self) -> &'static str {
        match self {
            Refused::NoGet => "Allow: GET\r\n",
            _ => "",
        }
    }
}

/// A whole answer of one status, with these fields beside those that each has.
fn whole(
    alloc: Global,
    status: &str,
    content_type: &str,
    fields: &str,
    body: &str,
) -> Result<Vec<u8>, AllocError> {
    let length = body.len();
    let mut text = String::new(alloc);
    write!(text, "HTTP/1.1 {status}\r\nContent-Length: {length}\r\n")?;
    write!(text, "Content-Type: {content_type}\r\n{fields}{FIELDS}\r\n")?;
    text.push_str(body)?;
    Ok(text.into_bytes())
}

/// The answer that has a page.
pub fn page_answer(alloc: Global, page: Page, body: &str) -> Result<Vec<u8>, AllocError> {
    whole(alloc, "200 OK", page.content_type(), "", body)
}

/// The answer that refuses a request; its body is a line with the status.
pub fn refusal_answer(alloc: Global, why: Refused) -> Result<Vec<u8>, AllocError> {
    let status = why.status();
    let body = format!(in alloc; "{status}\n")?;
    let content_type = "text/plain; charset=utf-8";
    whole(alloc, status, content_type, why.fields(), body.as_str())
}
