//! What a share answers.

/// What the share answers.
#[derive(Debug, Drop)]
pub enum Answer {
    /// One reply frame, whole, to a connection's client.
    Frame(u64, Vec<u8>),
    /// The share ended a connection.
    End(u64),
}
