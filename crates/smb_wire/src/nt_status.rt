//! NTSTATUS values ([MS-ERREF] 2.3.1): the one list of all crates.

ghost use Rattle.std.specs.Prelude.{◌≡◌, ◌==◌, find};
ghost use Rattle.smb_wire.specs.NtStatus.{status_code, statuses, status_of, EachStatusIsReadAgain};

/// A status, by its name in the standard, without `STATUS_` before it.
#[derive(Clone, Copy, Debug, PartialEq, Eq)]
pub enum NtStatus {
    Success = 0,
    BufferOverflow = 0x8000_0005,
    NoMoreFiles = 0x8000_0006,
    InvalidInfoClass = 0xC000_0003,
    InfoLengthMismatch = 0xC000_0004,
    MoreProcessingRequired = 0xC000_0016,
    InvalidParameter = 0xC000_000D,
    NoSuchFile = 0xC000_000F,
    InvalidDeviceRequest = 0xC000_0010,
    EndOfFile = 0xC000_0011,
    AccessDenied = 0xC000_0022,
    ObjectNameInvalid = 0xC000_0033,
    ObjectNameNotFound = 0xC000_0034,
    ObjectNameCollision = 0xC000_0035,
    ObjectPathNotFound = 0xC000_003A,
    SharingViolation = 0xC000_0043,
    FileLockConflict = 0xC000_0054,
    LockNotGranted = 0xC000_0055,
    DeletePending = 0xC000_0056,
    LogonFailure = 0xC000_006D,
    RangeNotLocked = 0xC000_007E,
    DiskFull = 0xC000_007F,
    FileIsADirectory = 0xC000_00BA,
    NotSupported = 0xC000_00BB,
    NetworkNameDeleted = 0xC000_00C9,
    BadNetworkName = 0xC000_00CC,
    RequestNotAccepted = 0xC000_00D0,
    DirectoryNotEmpty = 0xC000_0101,
    NotADirectory = 0xC000_0103,
    TooManyOpenedFiles = 0xC000_011F,
    CannotDelete = 0xC000_0121,
    FileClosed = 0xC000_0128,
    InvalidLockRange = 0xC000_01A1,
    UserSessionDeleted = 0xC000_0203,
    /// The share never answers it: a number that no status here has is read as it.
    Unsuccessful = 0xC000_0001,
}

/// The statuses that the share answers.
const STATUSES: [NtStatus; 34] = [
    NtStatus::Success,
    NtStatus::BufferOverflow,
    NtStatus::NoMoreFiles,
    NtStatus::InvalidInfoClass,
    NtStatus::InfoLengthMismatch,
    NtStatus::MoreProcessingRequired,
    NtStatus::InvalidParameter,
    NtStatus::NoSuchFile,
    NtStatus::InvalidDeviceRequest,
    NtStatus::EndOfFile,
    NtStatus::AccessDenied,
    NtStatus::ObjectNameInvalid,
    NtStatus::ObjectNameNotFound,
    NtStatus::ObjectNameCollision,
    NtStatus::ObjectPathNotFound,
    NtStatus::SharingViolation,
    NtStatus::FileLockConflict,
    NtStatus::LockNotGranted,
    NtStatus::DeletePending,
    NtStatus::LogonFailure,
    NtStatus::RangeNotLocked,
    NtStatus::DiskFull,
    NtStatus::FileIsADirectory,
    NtStatus::NotSupported,
    NtStatus::NetworkNameDeleted,
    NtStatus::BadNetworkName,
    NtStatus::RequestNotAccepted,
    NtStatus::DirectoryNotEmpty,
    NtStatus::NotADirectory,
    NtStatus::TooManyOpenedFiles,
    NtStatus::CannotDelete,
    NtStatus::FileClosed,
    NtStatus::InvalidLockRange,
    NtStatus::UserSessionDeleted,
];

impl NtStatus {
    /// The number of the status.
    #[tactic(auto, unfolding(crate::specs::NtStatus::status_code))]
    pub fn code(self) -> u32
        ensures { result ≡ status_code self }
    {
        self as u32
    }

    /// The status that the share answers of a number, or None.
    pub fn known(code: u32) -> Option<NtStatus>
        ensures { result ≡ find (λ status. status_code status == code) statuses }
    {
        STATUSES
            .iter()
            .copied()
            .find(|status| status.code() == code)
    }

    /// The standard's name of the status, such as `STATUS_ACCESS_DENIED`.
    pub fn name(self) -> &'static str {
        match self {
            NtStatus::Success => "STATUS_SUCCESS",
            NtStatus::BufferOverflow => "STATUS_BUFFER_OVERFLOW",
            NtStatus::NoMoreFiles => "STATUS_NO_MORE_FILES",
            NtStatus::InvalidInfoClass => "STATUS_INVALID_INFO_CLASS",
            NtStatus::InfoLengthMismatch => "STATUS_INFO_LENGTH_MISMATCH",
            NtStatus::MoreProcessingRequired => "STATUS_MORE_PROCESSING_REQUIRED",
            NtStatus::InvalidParameter => "STATUS_INVALID_PARAMETER",
            NtStatus::NoSuchFile => "STATUS_NO_SUCH_FILE",
            NtStatus::InvalidDeviceRequest => "STATUS_INVALID_DEVICE_REQUEST",
            NtStatus::EndOfFile => "STATUS_END_OF_FILE",
            NtStatus::AccessDenied => "STATUS_ACCESS_DENIED",
            NtStatus::ObjectNameInvalid => "STATUS_OBJECT_NAME_INVALID",
            NtStatus::ObjectNameNotFound => "STATUS_OBJECT_NAME_NOT_FOUND",
            NtStatus::ObjectNameCollision => "STATUS_OBJECT_NAME_COLLISION",
            NtStatus::ObjectPathNotFound => "STATUS_OBJECT_PATH_NOT_FOUND",
            NtStatus::SharingViolation => "STATUS_SHARING_VIOLATION",
            NtStatus::FileLockConflict => "STATUS_FILE_LOCK_CONFLICT",
            NtStatus::LockNotGranted => "STATUS_LOCK_NOT_GRANTED",
            NtStatus::DeletePending => "STATUS_DELETE_PENDING",
            NtStatus::LogonFailure => "STATUS_LOGON_FAILURE",
            NtStatus::RangeNotLocked => "STATUS_RANGE_NOT_LOCKED",
            NtStatus::DiskFull => "STATUS_DISK_FULL",
            NtStatus::FileIsADirectory => "STATUS_FILE_IS_A_DIRECTORY",
            NtStatus::NotSupported => "STATUS_NOT_SUPPORTED",
            NtStatus::NetworkNameDeleted => "STATUS_NETWORK_NAME_DELETED",
            NtStatus::BadNetworkName => "STATUS_BAD_NETWORK_NAME",
            NtStatus::RequestNotAccepted => "STATUS_REQUEST_NOT_ACCEPTED",
            NtStatus::DirectoryNotEmpty => "STATUS_DIRECTORY_NOT_EMPTY",
            NtStatus::NotADirectory => "STATUS_NOT_A_DIRECTORY",
            NtStatus::TooManyOpenedFiles => "STATUS_TOO_MANY_OPENED_FILES",
            NtStatus::CannotDelete => "STATUS_CANNOT_DELETE",
            NtStatus::FileClosed => "STATUS_FILE_CLOSED",
            NtStatus::InvalidLockRange => "STATUS_INVALID_LOCK_RANGE",
            NtStatus::UserSessionDeleted => "STATUS_USER_SESSION_DELETED",
            NtStatus::Unsuccessful => "STATUS_UNSUCCESSFUL",
        }
    }
}

impl From<u32> for NtStatus {
    ghost from_gives = { λ code status. status ≡ status_of code };

    /// The status of a number. A number that no status has is [`Unsuccessful`](NtStatus::Unsuccessful).
    #[tactic(auto, unfolding(crate::specs::NtStatus::status_of))]
    fn from(code: u32) -> NtStatus {
        match NtStatus::known(code) {
            Some(status) => status,
            None => NtStatus::Unsuccessful,
        }
    }
}

/// The law of statuses and their numbers: the contract is the statement, and the body does nothing.
pub fn laws_of_statuses()
    ensures { EachStatusIsReadAgain }
{}
