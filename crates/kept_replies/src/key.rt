//! Datagrams as keys.

ghost use Rattle.std.specs.Prelude.{◌≡◌, [], ◌∷◌, ◌++◌, IfOk};
ghost use Rattle.std.proofs.Common.{rules};
ghost use Rattle.std.specs.Cmp.Rules.{hashing};
ghost use Rattle.std.specs.Hash as fed;

use crate::request_octets::RequestOctets;
use ras_module::Source;
use std::alloc::AllocError;
use std::hash::{Hash, Hasher};

/// The datagram that a reply answers: a request that is sent again has the same octets and comes
/// from the same address.
#[derive(PartialEq, Eq)]
pub struct KeptKey {
    /// The address that the datagram came from.
    pub source: Source,
    /// All its octets, also those after the request.
    pub bytes: RequestOctets,
}

// By hand, so that it is one call where one is dropped.
impl Drop for KeptKey {
    fn drop(self) {
        let KeptKey {
            source: _,
            bytes: _,
        } = self;
    }
}

impl Hash for KeptKey {
    ghost hash_input = { λ k. k.source.ip ∷ (fed.u16 k.source.port ++ k.bytes ∷ []) };

    ghost respects_eq = { Prim.search (hashing, rules) };

    fn hash<H: Hasher>(&self, state: &mut H) {
        // each as a whole, which takes a sixth of the instructions that its octets take one by one
        state.write(self.source.ip.as_slice());
        self.source.port.hash(state);
        state.write(self.bytes.as_slice());
    }
}

impl KeptKey {
    /// An equal key.
    pub fn copy(&self) -> Result<Self, AllocError>
        ensures { IfOk result (λ copy. copy ≡ self.now) }
    {
        Ok(KeptKey {
            source: self.source,
            bytes: self.bytes.copy()?,
        })
    }
}
