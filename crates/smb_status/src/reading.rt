//! What one HTTP connection asks for, out of the bytes of its request.

ghost use Rattle.std.specs.Prelude.{◌≤◌, vec_len};

use httparse::spans::{EMPTY_HEADER_SPAN, HeaderSpan, RequestSpans, Span, parse_request};
use httparse::{Error, Status};
use std::alloc::Global;
use std::net::{IpAddr, SocketAddr};

/// The most bytes of a request's head.
pub const LONGEST_HEAD: usize = 8_192;

/// The most fields of a request's head.
const MOST_FIELDS: usize = 64;

/// What can be asked for.
#[derive(Clone, Copy, Debug, PartialEq, Eq)]
pub enum Page {
    /// `/`, a page for a browser.
    Html,
    /// `/status.json`
    Json,
    /// `/metrics`, for Prometheus.
    Metrics,
}

/// Why a request is refused.
#[derive(Clone, Copy, Debug, PartialEq, Eq)]
pub enum Refused {
    /// 400: it is no request, or does not say for which host.
    NoRequest,
    /// 404: there is no such page.
    NoPage,
    /// 405: it is no GET.
    NoGet,
    /// 421: it is for another host than the one that listens.
    OtherHost,
    /// 431: its head is longer than 8,192 bytes, or has more than 64 fields.
    TooLong,
    /// 503: no memory is left for it.
    NoMemory,
}

/// What comes of the bytes so far.
#[derive(Clone, Copy, Debug, PartialEq, Eq)]
pub enum Step {
    /// The request goes on.
    More,
    /// A page is to be answered.
    Answer(Page),
    /// A refusal is to be answered.
    Refuse(Refused),
}

/// The bytes of one connection's request, up to the end of its head. The answer ends the connection, so that no
/// second request is read.
#[derive(Drop)]
pub struct Reading {
    address: SocketAddr,
    head: Vec<u8>,
    ghost short: { vec_len head ≤ 8192 },
}

/// The bytes of a span.
fn bytes_of(head: &[u8], span: Span) -> &[u8] {
    head.get(span.start..span.end).unwrap_or(&[])
}

/// Whether a host that is named as an IP address is the one that listens. Where that listens at each address of the
/// machine, any address is: an address, unlike a name, can't be made to lead elsewhere.
fn is_listening(asked: IpAddr, listening: IpAddr) -> bool {
    listening.is_unspecified() || asked == listening
}

/// A host's name, and its port where it says one that is a number.
fn name_and_port(host: &str) -> (&str, Option<u16>) {
    if let Some((name, port)) = host.rsplit_once(':')
        && let Ok(port) = port.parse::<u16>()
    {
        return (name, Some(port));
    }
    (host, None)
}

/// Whether a name is that of the host that listens: `localhost` or an IP address, of version 6 in brackets.
fn names_host(name: &str, listening: IpAddr) -> bool {
    if name.eq_ignore_ascii_case("localhost") {
        return true;
    }
    let bare = name
        .strip_prefix('[')
        .and_then(|rest| rest.strip_suffix(']'));
    match bare.unwrap_or(name).parse::<IpAddr>() {
        Ok(asked) => asked.is_ipv6() == bare.is_some() && is_listening(asked, listening),
        Err(_) => false,
    }
}

/// Whether a request is for the host that listens, by what its field Host says. A page of another host that a browser
/// has open can have its own name lead here, but not have the browser say another one.
fn is_for(host: &[u8], address: SocketAddr) -> bool {
    let Ok(host) = std::str::from_utf8(host) else {
        return false;
    };
    let (name, port) = name_and_port(host);
    port.is_none_or(|port| port == address.port()) && names_host(name, address.ip())
}

/// The page of a target, whatever query is behind it.
fn page_of(target: &[u8]) -> Option<Page> {
    let end = target.iter().position(|byte| *byte == b'?');
    match target.get(..end.unwrap_or(target.len()))? {
        b"/" => Some(Page::Html),
        b"/status.json" => Some(Page::Json),
        b"/metrics" => Some(Page::Metrics),
        _ => None,
    }
}

/// Checks which host a request is for. It says one, or none in HTTP/1.0.
fn check_host(
    head: &[u8],
    version: u8,
    fields: &[HeaderSpan],
    address: SocketAddr,
) -> Result<(), Refused> {
    let mut host = None;
    for field in fields {
        if !bytes_of(head, field.name).eq_ignore_ascii_case(b"host") {
            continue;
        }
        if host.is_some() {
            return Err(Refused::NoRequest);
        }
        host = Some(bytes_of(head, field.value));
    }
    match host {
        Some(host) if is_for(host, address) => Ok(()),
        Some(_) => Err(Refused::OtherHost),
        None if version == 0 => Ok(()),
        None => Err(Refused::NoRequest),
    }
}

/// What a whole head asks for.
fn asked(
    head: &[u8],
    request: &RequestSpans,
    fields: &[HeaderSpan],
    address: SocketAddr,
) -> Result<Page, Refused> {
    let fields = fields.get(..request.headers).unwrap_or(&[]);
    check_host(head, request.version, fields, address)?;
    if bytes_of(head, request.method) != b"GET".as_slice() {
        return Err(Refused::NoGet);
    }
    page_of(bytes_of(head, request.path)).ok_or(Refused::NoPage)
}

impl Reading {
    /// Of a connection to the address that is listened at. No byte has come.
    pub fn new(alloc: Global, address: SocketAddr) -> Self {
        Reading {
            address,
            head: Vec::new(alloc),
        }
    }

    /// Takes bytes that came, and says what comes of all of them. What is behind a whole head is not looked at.
    pub fn push(&mut self, bytes: &[u8]) -> Step {
        let room = LONGEST_HEAD - self.head.len();
        let taken = &bytes[..room.min(bytes.len())];
        if self.head.extend_from_slice(taken).is_err() {
            return Step::Refuse(Refused::NoMemory);
        }
        self.step(taken.len() < bytes.len())
    }

    /// What comes of the bytes so far, of which more came than fit, or did not.
    fn step(&self, is_full: bool) -> Step {
        let mut fields = [EMPTY_HEADER_SPAN; MOST_FIELDS];
        let head = self.head.as_slice();
        match parse_request(head, &mut fields) {
            Ok(Status::Complete(request)) => match asked(head, &request, &fields, self.address) {
                Ok(page) => Step::Answer(page),
                Err(why) => Step::Refuse(why),
            },
            Ok(Status::Partial) if is_full => Step::Refuse(Refused::TooLong),
            Ok(Status::Partial) => Step::More,
            Err(Error::TooManyHeaders) => Step::Refuse(Refused::TooLong),
            Err(_) => Step::Refuse(Refused::NoRequest),
        }
    }
}
