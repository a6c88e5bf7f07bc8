//! Legs of calls.

use ras_module::{Address, BmpString, EndpointId};

/// An endpoint's part in a call: each end that asks for admission has one.
#[derive(Clone, Copy, PartialEq, Eq)]
pub struct Leg {
    /// The endpoint that was admitted.
    pub endpoint: EndpointId,
    /// The address that it was told to call (H.225.0, AdmissionConfirm, destCallSignalAddress).
    pub told: Address,
}

impl Default for Leg {
    /// A leg of no endpoint: it stands in the unused places of a list.
    fn default() -> Leg {
        Leg {
            endpoint: EndpointId::new(BmpString::new(&[48]).unwrap()),
            told: Address {
                ip: [0; 4],
                port: 0,
            },
        }
    }
}
