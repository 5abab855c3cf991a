//! A body as it was read.

ghost use Rattle.std.specs.Prelude.{◌≡◌};
ghost use Rattle.smb_body.specs.Facts.{facts_of};
ghost use Rattle.smb_body.specs.Requests.{request_value};

use smb_body::{Request, RequestFacts};

/// What a body says, with what is looked at of it before it is performed.
#[derive(Clone, Copy)]
pub(crate) struct Asked<'a> {
    pub(crate) request: Request<'a>,
    pub(crate) facts: RequestFacts,
    ghost fit: { facts ≡ facts_of (request_value request) },
}
