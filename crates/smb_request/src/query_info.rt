//! QUERY_INFO ([MS-SMB2] 3.3.5.20).

ghost use Rattle.std.specs.Prelude.{◌≡◌, IsSome, IfOk, IfErr, IfSome, OnOk, Some, None};
ghost use Rattle.smb_info.specs.FileSystemInformation.{fs_information};
ghost use Rattle.smb_access.specs.Opens.{open_of};
ghost use Rattle.smb_request.specs.Bodies.{result_step, IsReadyAfter};
ghost use Rattle.smb_request.specs.Information.{IsToldOf, IsWhy};
ghost use Rattle.smb_request.specs.QueryInfo.{information_queried};
ghost use Rattle.smb_request.specs.Parts.{open_information, volume_of, information_asked, request_refusal};

use super::call::Call;
use super::information::{query_info_refused, written_status};
use super::response::{Answered, Response};
use super::server::Server;
use smb_body::{InfoType, QueryInfoRequest};
use smb_info::{InfoFault, Truncation, file_info, fs_info};
use smb_opens::Opens;
use smb_refusals::{QueryInfoRefusal, Refusal, RefusedBy};
use smb_session::Authenticator;
use smb_tree::{Tree, TreeFault};

/// Information of a class: whether that is all, and its bytes, as many as there is room for.
#[derive(Drop)]
pub(crate) struct InformationBytes {
    pub(crate) written: Truncation,
    pub(crate) bytes: Vec<u8>,
}

/// Checks what does not depend on the information that is asked for. One request may ask for `most` bytes.
fn check_request(most: u32, request: &QueryInfoRequest) -> Result<(), QueryInfoRefusal>
    ensures ok { OnOk result (request_refusal most request.now ≡ None) }
    ensures err { IfErr result (λ refusal. request_refusal most request.now ≡ Some refusal) }
{
    let info_type = request.info_type;
    if info_type == InfoType::SECURITY || info_type == InfoType::QUOTA {
        return Err(QueryInfoRefusal::TypeNotSupported);
    }
    if info_type != InfoType::FILE && info_type != InfoType::FILESYSTEM {
        return Err(QueryInfoRefusal::UnknownType);
    }
    if request.output_buffer_length > most {
        return Err(QueryInfoRefusal::LengthTooGreat);
    }
    Ok(())
}

impl<A: Authenticator + Drop, T: Tree + Drop, O: Opens + Drop> Server<A, T, O> {
    /// Information of the class of a number on the entry of an open, at most `room` bytes of it.
    fn open_information(
        &self,
        open_number: u64,
        class: u8,
        room: usize,
    ) -> Result<InformationBytes, InfoFault>
        requires { IsSome (open_of self.now.store.opens open_number) }
        ensures ok { IfOk result (IsToldOf (open_information self.now.store open_number class) room) }
        ensures why { IfErr result (IsWhy (open_information self.now.store open_number class) room) }
    {
        self.good();
        let Some(row) = self.store.opens().get(open_number) else {
            unreachable!();
        };
        let entry = match self.store.tree().copy_entry(self.allocator(), row.entry) {
            Ok(entry) => entry,
            Err(fault) => match fault {
                TreeFault::NoMemory => return Err(InfoFault::NoMemory),
                _ => unreachable!(),
            },
        };
        let mut bytes = Vec::new(self.allocator());
        let written = file_info(class, &entry, row.access, room, &mut bytes)?;
        Ok(InformationBytes { written, bytes })
    }

    /// Information of the class of a number on the share as a file system, at most `room` bytes of it.
    fn volume_information(&self, class: u8, room: usize) -> Result<InformationBytes, InfoFault>
        ensures ok { IfOk result (IsToldOf (fs_information class (volume_of self.now)) room) }
        ensures why { IfErr result (IsWhy (fs_information class (volume_of self.now)) room) }
    {
        let mut bytes = Vec::new(self.allocator());
        let written = fs_info(class, &self.volume(), room, &mut bytes)?;
        Ok(InformationBytes { written, bytes })
    }

    /// The information that a request asks for, on the entry of an open or on the share as a file system.
    fn information_asked(
        &self,
        open_number: u64,
        request: &QueryInfoRequest,
    ) -> Result<InformationBytes, InfoFault>
        requires { IsSome (open_of self.now.store.opens open_number) }
        ensures ok { IfOk result (IsToldOf (information_asked self.now open_number request.now) request.now.output_buffer_length) }
        ensures why { IfErr result (IsWhy (information_asked self.now open_number request.now) request.now.output_buffer_length) }
    {
        let class = request.file_info_class.0;
        let room = request.output_buffer_length as usize;
        if request.info_type == InfoType::FILE {
            self.open_information(open_number, class, room)
        } else {
            self.volume_information(class, room)
        }
    }

    /// QUERY_INFO ([MS-SMB2] 3.3.5.20).
    #[tactic(auto, unfolding(crate::specs::QueryInfo::information_queried))]
    pub(crate) fn query_info<'a>(
        &self,
        call: Call,
        request: &QueryInfoRequest,
    ) -> Result<Response<'a>, RefusedBy<Refusal>>
        requires { IsSome (open_of self.now.store.opens call.open_number) }
        ensures ok { IfSome (result_step A.meaning self.now call result) (λ step. step ≡ information_queried self.now call request.now) }
        ensures put { IfOk result (IsReadyAfter self.now self.now call) }
    {
        check_request(call.most_at_once(), request)?;
        let information = match self.information_asked(call.open_number, request) {
            Ok(information) => information,
            Err(fault) => return Err(RefusedBy::from(query_info_refused(fault))),
        };
        let answered = Answered {
            status: written_status(information.written),
            refusal: None,
            ids: call.ids,
        };
        Ok(Response::Information(answered, information.bytes))
    }
}
