//! Which connection a piece came on, and when.

/// The number of a piece's connection, and the moment at which the piece came.
#[derive(Clone, Copy)]
pub struct Arrival {
    pub(crate) connection_id: u64,
    pub(crate) moment: u64,
}
