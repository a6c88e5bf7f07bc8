//! What can be due.

use ras_module::EndpointId;

/// Something that is due.
#[derive(Clone, Copy, PartialEq, Eq)]
pub enum DueItem {
    /// The time to live of the registration under this identifier is over.
    RegistrationOver(EndpointId),
    /// This endpoint in a call is to be asked for a sign of life.
    Interrogate(EndpointId),
    /// This endpoint in a call was interrogated `asks` times and gave no sign of life.
    Silent(EndpointId),
    /// The request of the kept entry with this birth is to be served again.
    Retry(u64),
    /// The kept entry with this birth is over.
    KeptOver(u64),
    /// The pools are to make a turn.
    PoolTurn,
}
