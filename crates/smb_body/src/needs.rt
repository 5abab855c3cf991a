//! What is looked at of a request before it is performed ([MS-SMB2] 3.3.5.2).

ghost use Rattle.std.specs.Prelude.{◌≡◌, ◌≤◌, Some, length, min};
ghost use Rattle.smb_body.specs.Needs.{needs_of};
ghost use Rattle.smb_body.specs.Requests.{request_value, file_id_of, payload_of};

use super::request::Request;
use smb_wire::FileId;

/// What has to exist for a request, each looked for in this order.
#[derive(Clone, Copy, Debug, PartialEq, Eq)]
pub enum Needs {
    Nothing,
    /// A finished session of the connection.
    Session,
    /// That, and a tree connect of the session.
    Tree,
    /// These, and an open of the tree connect.
    Open,
}

/// What is looked at of a request before it is performed.
#[derive(Clone, Copy, Debug, PartialEq, Eq)]
pub struct RequestFacts {
    pub needs: Needs,
    /// The FileId that it names, where it acts on an open.
    pub file_id: Option<FileId>,
    /// How many bytes it sends or asks for, by which it is charged ([MS-SMB2] 3.3.5.2.5): the Length of a READ or WRITE, the
    /// OutputBufferLength of a QUERY_INFO or QUERY_DIRECTORY, the BufferLength of a SET_INFO, and 0 of all others; 4,294,967,295
    /// where a buffer is longer than its field can say, as none is that was read.
    pub payload: u32,
}

/// The length of a buffer, as far as a field of four bytes can say it.
fn length_said(buffer: &[u8]) -> u32
    ensures { result ≡ min (length buffer.now) 4294967295 }
{
    buffer.len().min(4_294_967_295) as u32
}

impl RequestFacts {
    /// Those of a request that acts on an open.
    fn on_open(file_id: FileId, payload: u32) -> RequestFacts
        ensures facts { result ≡ record { needs = Needs.Open; file_id = Some file_id; payload = payload } }
        ensures few { payload ≤ 4294967295 }
    {
        RequestFacts {
            needs: Needs::Open,
            file_id: Some(file_id),
            payload,
        }
    }
}

impl Request<'_> {
    /// What is looked at of it before it is performed.
    pub fn facts(&self) -> RequestFacts
        ensures needs { result.needs ≡ needs_of (request_value self.now) }
        ensures file_id { result.file_id ≡ file_id_of (request_value self.now) }
        ensures payload { result.payload ≡ min (payload_of (request_value self.now)) 4294967295 }
    {
        let needs = match self {
            Request::Close(asked) => return RequestFacts::on_open(asked.file_id, 0),
            Request::Flush(asked) => return RequestFacts::on_open(asked.file_id, 0),
            Request::Read(asked) => return RequestFacts::on_open(asked.file_id, asked.length),
            Request::Write(asked) => {
                return RequestFacts::on_open(asked.file_id, length_said(asked.buffer));
            }
            Request::Lock(asked) => return RequestFacts::on_open(asked.file_id, 0),
            Request::QueryDirectory(asked) => {
                return RequestFacts::on_open(asked.file_id, asked.output_buffer_length);
            }
            Request::QueryInfo(asked) => {
                return RequestFacts::on_open(asked.file_id, asked.output_buffer_length);
            }
            Request::SetInfo(asked) => {
                return RequestFacts::on_open(asked.file_id, length_said(asked.buffer));
            }
            Request::TreeDisconnect(_) | Request::Create(_) => Needs::Tree,
            Request::Logoff(_) | Request::TreeConnect(_) => Needs::Session,
            Request::Negotiate(_)
            | Request::SessionSetup(_)
            | Request::Cancel(_)
            | Request::Echo(_) => Needs::Nothing,
        };
        RequestFacts {
            needs,
            file_id: None,
            payload: 0,
        }
    }
}
