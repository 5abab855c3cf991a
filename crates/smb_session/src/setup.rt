//! What a SESSION_SETUP asks, and what is told of it ([MS-SMB2] 2.2.5, 2.2.6).

/// What a SESSION_SETUP asks for.
#[derive(Clone, Copy, Debug)]
pub struct SetupAsk<'a> {
    /// Flags of the request: 1 is BINDING.
    pub flags: u8,
    /// PreviousSessionId: the session that this one is to replace, or 0.
    pub previous_session: u64,
    /// Whether the client asks that each request of the session is signed, where they can be.
    pub signing_required: bool,
    /// The client's token.
    pub token: &'a [u8],
}

/// How a SESSION_SETUP that was not refused came out.
#[derive(Clone, Copy, Debug, PartialEq, Eq)]
pub enum SetupStatus {
    /// The session is finished.
    Success,
    /// The client is to send a further token.
    MoreProcessingRequired,
    /// The client was denied, and the session is gone.
    LogonFailure,
}

/// What is told of a SESSION_SETUP that was not refused.
#[derive(Debug, Drop)]
pub struct SetupDone {
    /// The session's number, found or given.
    pub session: u64,
    pub status: SetupStatus,
    /// Session flags: 1 a guest, 2 without a name; 0 but for success ([MS-SMB2] 2.2.6).
    pub flags: u16,
    /// The token for the client, of at most 4,096 bytes; none where it was denied.
    pub token: Vec<u8>,
    /// The previous session, where it ended.
    pub ended: Option<u64>,
}
