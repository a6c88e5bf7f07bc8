//! What an endpoint registers.

use ras_module::{Address, ReplyAliases};

/// What an endpoint registers in full.
#[derive(Drop)]
pub struct Entry {
    pub call_signal: Address,
    pub ras: Address,
    pub aliases: ReplyAliases,
}
