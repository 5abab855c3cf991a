//! What a share answers to who asks what is going on in it.

use crate::answer::{page_answer, refusal_answer};
use crate::json::put_json;
use crate::metrics::put_metrics;
use crate::page::put_page;
use crate::reading::{Page, Reading, Step};
use crate::status::Status;
use crate::view::{Around, status_of, status_without_opens};
use crate::watch::Watch;
use smb_engine::{Authenticator, Opens, Share, Tree};
use std::alloc::{AllocError, Global};
use std::net::SocketAddr;

/// A page with what is going on.
fn page_of(alloc: Global, page: Page, status: &Status) -> Result<Vec<u8>, AllocError> {
    let mut body = String::new(alloc);
    match page {
        Page::Html => put_page(status, &mut body)?,
        Page::Json => put_json(status, &mut body)?,
        Page::Metrics => put_metrics(alloc, status, &mut body)?,
    }
    page_answer(alloc, page, body.as_str())
}

/// The answer to a request, by all of its bytes that came, of a share of which this was noted; None where the
/// request goes on. The address is the one that is listened at. An error says that no memory was left for it: the
/// connection is to end without one.
pub fn answer_of<A: Authenticator + Drop, T: Tree + Drop, O: Opens + Drop>(
    share: &Share<A, T, O>,
    watch: &Watch,
    around: Around,
    address: SocketAddr,
    request: &[u8],
) -> Result<Option<Vec<u8>>, AllocError> {
    let alloc = watch.alloc;
    let answer = match Reading::new(alloc, address).push(request) {
        Step::More => return Ok(None),
        Step::Refuse(why) => refusal_answer(alloc, why)?,
        Step::Answer(page) => {
            let status = match page {
                Page::Html | Page::Json => status_of(share, watch, around)?,
                Page::Metrics => status_without_opens(share, watch, around)?,
            };
            page_of(alloc, page, &status)?
        }
    };
    Ok(Some(answer))
}
