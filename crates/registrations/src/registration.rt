//! Registrations.

ghost use Rattle.std.specs.Prelude.{◌≡◌, IfOk};

use ras_module::{Address, EndpointId, ReplyAliases};
use std::alloc::AllocError;

/// What is known of a registered endpoint. Moments are in milliseconds.
#[derive(PartialEq, Eq, Drop)]
pub struct Registration {
    /// The endpointIdentifier that the gatekeeper gave it (H.225.0, RegistrationConfirm).
    pub identifier: EndpointId,
    /// Its address for call signalling.
    pub call_signal: Address,
    /// Its address for RAS messages.
    pub ras: Address,
    /// Its aliases, in the order of its last full RegistrationRequest.
    pub aliases: ReplyAliases,
    /// When its time to live ends, unless it is renewed.
    pub deadline: u64,
    /// When it was last heard.
    pub heard: u64,
    /// How often it was asked for a sign of life since then, or since it lost its legs for silence.
    pub tries: u8,
    /// When it was last asked, or 0 before the first time.
    pub asked: u64,
}

impl Registration {
    /// An equal registration.
    pub fn copy(&self) -> Result<Self, AllocError>
        ensures { IfOk result (λ copy. copy ≡ self.now) }
    {
        let aliases = self.aliases.copy()?;
        Ok(Registration {
            identifier: self.identifier,
            call_signal: self.call_signal,
            ras: self.ras,
            aliases,
            deadline: self.deadline,
            heard: self.heard,
            tries: self.tries,
            asked: self.asked,
        })
    }
}
