//! The result of a turn of the service.

/// The result of one turn of the service.
#[derive(Drop)]
pub enum Poll<T> {
    /// The reply, all of it.
    Ready(Vec<u8>),
    /// What is left to do before there is a reply.
    Pending(T),
}
