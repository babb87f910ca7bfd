//! What was asked of a host.
/// A call that had an effect. A print is two: while it goes on, and when it is done.
#[derive(Debug, Drop)]
pub enum Call {
    /// These bytes at this offset.
    Write(u64, Vec<u8>),
    /// What was written is durable.
    Sync,
    /// This piece is being printed.
    Begin(Vec<u8>),
    /// The piece is printed.
    End,
}
