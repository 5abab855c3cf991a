//! A payload as a chain of requests ([MS-SMB2] 3.3.5.2.7).

ghost use Rattle.std.specs.Prelude.{◌≡◌, ◌≤◌, ◌==◌, None, Some, true, OnErr, IfOk, IfErr, IfSome, length, slice_get};
ghost use Rattle.std.specs.Option.{option_map};
ghost use Rattle.smb_head.specs.Headers.{header_of};
ghost use Rattle.smb_head.specs.Chains.{chain_fault, chain_of, request_fault, EachChainHasOneReading, EachFaultIsTheFirst, EachPayloadIsEither};
ghost use Rattle.smb_head.specs.Parts.{is_next_right};

use super::fault::{ChainFault, HeadFault};
use super::header::{Header, HeaderFlags, header_in, read_header};
use bitflags::Flags;
use smb_wire::limits::MOST_REQUESTS;
use std::marker::Model;

/// The requests of a payload, 1 to 16, which it borrows. The header of the first is kept; another is read from its request
/// where it is asked for.
#[derive(Drop)]
pub struct Chain<'a> {
    first: Header,
    requests: [&'a [u8]; MOST_REQUESTS],
    count: usize,
}

impl<'a> Model for Chain<'a> {
    ghost use Rattle.smb_wire.specs.Limits.{most_requests};
    ghost use Rattle.std.specs.Prelude.{ℕ, List, map, take, length, ◌≡◌, ◌≤◌};
    ghost use Rattle.std.specs.List.{AllByRecursion};
    ghost use Rattle.smb_head.specs.Parts.{IsOfFirst};

    ghost Value = { List (List ℕ) };

    ghost view = { λ chain. map (λ request. request.now) (take chain.count chain.requests) };

    ghost invariant = { λ chain. (1 ≤ chain.count) × (chain.count ≤ most_requests)
        × AllByRecursion (λ request. 64 ≤ length request.now) (take chain.count chain.requests)
        × IsOfFirst chain.first (map (λ request. request.now) (take chain.count chain.requests)) };
}

impl Chain<'_> {
    /// How many requests there are, 1 to 16.
    pub fn len(&self) -> usize
        ensures len { result ≡ length self.now }
        ensures least { 1 ≤ result }
        ensures most { result ≤ MOST_REQUESTS }
    {
        self.count
    }

    /// The header and the whole bytes of the `i`-th request, from 0, its header included; None past the last.
    pub fn get(&self, i: usize) -> Option<(Header, &[u8])>
        ensures header { option_map (λ request. request.0) result ≡ option_map (λ bytes. header_of bytes) (slice_get self.now i) }
        ensures bytes { option_map (λ request. request.1.now) result ≡ slice_get self.now i }
        ensures long { IfSome result (λ request. 64 ≤ length request.1.now) }
    {
        let request = *self.requests[..self.count].get(i)?;
        let header = if i == 0 {
            self.first
        } else {
            header_in(request)
        };
        Some((header, request))
    }
}

/// Whether a NextCommand is 0, or the place of a next header in the `left` bytes from this one on.
fn is_next_right(next: usize, left: usize) -> bool
    ensures { result ≡ is_next_right next left }
{
    next == 0 || next % 8 == 0 && next >= 64 && left >= 64 && next <= left - 64
}

/// The header of the first request in the rest of a payload.
fn read_request(rest: &[u8], is_first: bool) -> Result<Header, ChainFault>
    ensures ok { IfOk result (λ header. header ≡ header_of rest.now) }
    ensures lawful { IfOk result (λ _. request_fault is_first rest.now ≡ None) }
    ensures err { IfErr result (λ fault. request_fault is_first rest.now ≡ Some fault) }
{
    let header = read_header(rest)?;
    if header.flags.contains(HeaderFlags::SERVER_TO_REDIR) {
        return Err(HeadFault::FromServer);
    }
    if is_first && header.flags.contains(HeaderFlags::RELATED) {
        return Err(HeadFault::RelatedFirst);
    }
    if !is_next_right(header.next_command as usize, rest.len()) {
        return Err(HeadFault::Next);
    }
    Ok(header)
}

/// The header of the `i`-th request, which the rest of a payload begins with: of the first one what was read of it.
fn header_of_next(i: usize, first: Header, rest: &[u8]) -> Result<Header, ChainFault>
    requires read { i ≡ 0 → first ≡ header_of rest.now }
    requires lawful { i ≡ 0 → request_fault true rest.now ≡ None }
    ensures ok { IfOk result (λ header. header ≡ header_of rest.now) }
    ensures lawful { IfOk result (λ _. request_fault (i == 0) rest.now ≡ None) }
    ensures err { IfErr result (λ fault. request_fault (i == 0) rest.now ≡ Some fault) }
{
    if i == 0 {
        Ok(first)
    } else {
        read_request(rest, false)
    }
}

/// Reads a payload as a chain of requests. It copies no byte of them and takes no memory.
pub fn read_chain(payload: &[u8]) -> Result<Chain<'_>, ChainFault>
    ensures ok { IfOk result (λ chain. chain_of payload.now ≡ Some chain) }
    ensures err { IfErr result (λ fault. chain_fault payload.now ≡ Some fault) }
    ensures none { OnErr result (chain_of payload.now ≡ None) }
{
    let first = read_request(payload, true)?;
    let mut requests = [payload; MOST_REQUESTS];
    let mut rest = payload;
    for i in 0..MOST_REQUESTS {
        let header = header_of_next(i, first, rest)?;
        let next = header.next_command as usize;
        if next == 0 {
            requests[i] = rest;
            return Ok(Chain {
                first,
                requests,
                count: i + 1,
            });
        }
        let (request, others) = rest.split_at(next);
        requests[i] = request;
        rest = others;
    }
    Err(HeadFault::TooMany)
}

/// The laws of chains: the contract is the statement, and the body does nothing.
pub fn laws_of_chains()
    ensures chains { EachChainHasOneReading }
    ensures faults { EachFaultIsTheFirst }
    ensures either { EachPayloadIsEither }
{}
