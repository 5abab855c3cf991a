//! How much is logged.

use smb_wire::{Command, CommandCode, NtStatus};

/// Which events of a share are written. What becomes of connections, and the line of each minute, is written at every level.
#[derive(Clone, Copy, Debug, PartialEq, Eq)]
pub enum Level {
    /// Also the requests that begin and end sessions and tree connects.
    Sessions,
    /// Also who came in, and each request that was refused: whose status is none of STATUS_SUCCESS, STATUS_MORE_PROCESSING_REQUIRED,
    /// STATUS_NO_MORE_FILES and STATUS_END_OF_FILE.
    Refusals,
    /// Also each request.
    Requests,
}

/// Whether a request begins or ends a session or a tree connect.
fn is_of_sessions(command: CommandCode) -> bool {
    matches!(
        command.known(),
        Some(
            Command::SessionSetup | Command::Logoff | Command::TreeConnect | Command::TreeDisconnect
        )
    )
}

/// Whether a status is that of a request that was refused. The end of a listing or of a file is no refusal.
pub(crate) fn is_refusal(status: NtStatus) -> bool {
    !matches!(
        status,
        NtStatus::Success
            | NtStatus::MoreProcessingRequired
            | NtStatus::NoMoreFiles
            | NtStatus::EndOfFile
    )
}

impl Level {
    /// Whether a request with this status is written.
    pub(crate) fn shows(self, command: CommandCode, status: NtStatus) -> bool {
        match self {
            Level::Sessions => is_of_sessions(command),
            Level::Refusals => {
                let lets_in = command == Command::SessionSetup.code();
                is_refusal(status) || (lets_in && status == NtStatus::Success)
            }
            Level::Requests => true,
        }
    }

    /// Whether a request may be written once its status is known.
    pub(crate) fn may_show(self, command: CommandCode) -> bool {
        self != Level::Sessions || is_of_sessions(command)
    }
}
