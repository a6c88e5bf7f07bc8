//! The octets of datagrams that may be requests.

ghost use Rattle.std.specs.Prelude.{◌≡◌, ◌≤◌, IfOk, IsOk, length, nat_eq, vec_capacity};
ghost use Rattle.std.proofs.Common.{rules};
ghost use Rattle.std.specs.Cmp.Lexicographic.{pointwise};
ghost use Rattle.std.specs.Cmp.Rules.{comparing};
ghost use Rattle.kept_replies.specs.Bounded.{FitsOrReturns};

use ras_module::{Octets, Request};
use std::alloc::{AllocError, Global};
use std::marker::Model;

/// The octets of a datagram that may be a request: at most `Request::MOST`, in a buffer that has
/// room for no more than that. Contracts see the list of octets.
#[derive(Drop)]
pub struct RequestOctets {
    items: Vec<u8>,
}

impl Model for RequestOctets {
    ghost use Rattle.std.specs.Prelude.{ℕ, List};
    ghost use Rattle.kept_replies.specs.Bounded.{IsBounded};

    ghost Value = { List ℕ };

    ghost view = { λ o. o.items.items };

    ghost invariant = { λ o. IsBounded o.items };
}

impl RequestOctets {
    /// The octets of a vector, or the vector itself if they are more than `Request::MOST`. This
    /// takes memory only if they are no more, and the vector has room for more: then they are
    /// copied into a buffer of their length.
    ///
    /// promise kept-datagrams-are-bounded: Octets are taken if and only if they are at most 4,096,
    /// in a buffer with room for no more (`IsBounded`, `FitsOrReturns`).
    pub fn new(octets: Vec<u8>) -> Result<Result<Self, Vec<u8>>, AllocError>
        ensures octets { IfOk result (FitsOrReturns octets) }
        ensures in_place { vec_capacity octets ≤ Request.MOST → IsOk result }
    {
        if octets.len() > Request::MOST {
            return Ok(Err(octets));
        }
        if octets.capacity() > Request::MOST {
            let items = copied(*octets.allocator(), &octets)?;
            return Ok(Ok(RequestOctets { items }));
        }
        Ok(Ok(RequestOctets { items: octets }))
    }

    /// The octets, in order.
    pub fn as_slice(&self) -> &[u8]
        ensures octets { result.now ≡ self.now }
        ensures few { length result.now ≤ Request.MOST }
    {
        &self.items
    }

    /// Equal octets, of any length by their type.
    pub fn octets(&self) -> Result<Octets, AllocError>
        ensures { IfOk result (λ octets. octets ≡ self.now) }
    {
        let items = Vec::from_slice(*self.items.allocator(), &self.items)?;
        Ok(Octets::from_vec(items))
    }

    /// Equal octets.
    pub fn copy(&self) -> Result<Self, AllocError>
        ensures { IfOk result (λ copy. copy ≡ self.now) }
    {
        let items = copied(*self.items.allocator(), &self.items)?;
        Ok(RequestOctets { items })
    }
}

impl PartialEq for RequestOctets {
    ghost eq = { pointwise nat_eq };

    ghost laws = { Prim.search (comparing, rules) };

    fn eq(&self, other: &Self) -> bool {
        self.as_slice() == other.as_slice()
    }
}

impl Eq for RequestOctets {
    ghost laws = { Prim.search (comparing, rules) };
}

/// These octets in a buffer of their length.
fn copied(alloc: Global, octets: &[u8]) -> Result<Vec<u8>, AllocError>
    ensures items { IfOk result (λ copy. copy.items ≡ octets.now) }
    ensures capacity { IfOk result (λ copy. vec_capacity copy ≡ length octets.now) }
{
    let mut copy = Vec::with_capacity(alloc, octets.len())?;
    for octet in octets {
        copy.push_reserved(*octet);
    }
    Ok(copy)
}
