//! The legs of a call.

ghost use Rattle.std.specs.Prelude.{◌≡◌, ◌≤◌, ◌<◌, ◌++◌, ◌∷◌, ◌↔◌, [], length};
ghost use Rattle.std.specs.Prelude.{nat_eq, filter, not, None, IsTrue};
ghost use Rattle.std.specs.List.{find};
ghost use Rattle.std.specs.Option.{option_copied};
ghost use Rattle.std.specs.Cmp.Lexicographic.{pointwise};
ghost use Rattle.std.proofs.Common.{rules};
ghost use Rattle.std.specs.Cmp.Rules.{comparing};
ghost use Rattle.admission.specs.Legs.{AreLegs, leg_of, same_leg, without_leg, has_other};

use crate::leg::Leg;
use arrayvec::ArrayVec;
use ras_module::EndpointId;
use std::marker::Model;

/// The legs of a call, in the order in which they were admitted: one or two, of different
/// endpoints. Contracts see the list.
///
/// promise call-has-two-different-legs: A call has one or two legs, of different endpoints, by its
/// type.
#[derive(Drop)]
pub struct Legs {
    items: ArrayVec<Leg, 2>,
}

impl Model for Legs {
    ghost use Rattle.std.specs.Prelude.{List};
    ghost use Rattle.admission.specs.declared.leg.Leg.{Leg};
    ghost use Rattle.admission.specs.Legs.{AreLegs};

    ghost Value = { List Leg };

    ghost view = { λ l. l.items.items };

    ghost invariant = { λ l. AreLegs l.items.items };
}

impl Legs {
    /// The leg of a call that opens.
    pub fn one(leg: Leg) -> Self
        ensures { result ≡ leg ∷ [] }
    {
        let mut items = ArrayVec::new();
        items.push(leg);
        Legs { items }
    }

    /// The legs, in order.
    pub fn as_slice(&self) -> &[Leg]
        ensures items { result.now ≡ self.now }
        ensures legs { AreLegs self.now }
    {
        self.items.as_slice()
    }

    /// Whether there are two, so that no further endpoint may join.
    pub fn are_two(&self) -> bool
        ensures two { IsTrue result ↔ (length self.now ≡ 2) }
        ensures legs { AreLegs self.now }
    {
        self.items.is_full()
    }

    /// The leg of this endpoint.
    pub fn get(&self, endpoint: &EndpointId) -> Option<&Leg>
        ensures { option_copied result ≡ leg_of self.now endpoint.now }
    {
        leg_in(self.items.as_slice(), endpoint)
    }

    /// Whether another endpoint has a leg.
    pub fn has_other(&self, endpoint: &EndpointId) -> bool
        ensures { result ≡ has_other self.now endpoint.now }
    {
        other_in(self.items.as_slice(), endpoint)
    }

    /// Adds the leg of a second endpoint.
    pub(crate) fn push(&mut self, leg: Leg)
        requires one { length self.old ≡ 1 }
        requires new { leg_of self.old leg.endpoint ≡ None }
        ensures { self.new ≡ self.old ++ leg ∷ [] }
    {
        self.items.push(leg);
    }

    /// Takes the leg of an endpoint out. Another endpoint has to have one.
    pub(crate) fn remove(&mut self, endpoint: &EndpointId)
        requires { IsTrue (has_other self.old endpoint.now) }
        ensures { self.new ≡ without_leg self.old endpoint.now }
    {
        self.items.retain(|leg| leg.endpoint != *endpoint);
    }

    /// Equal legs. This takes no memory.
    pub fn copy(&self) -> Self
        ensures { result ≡ self.now }
    {
        Legs {
            items: copies_of(self.items.as_slice()),
        }
    }
}

impl PartialEq for Legs {
    ghost eq = { pointwise same_leg };

    ghost laws = { Prim.search (comparing, rules) depth 9 };

    fn eq(&self, other: &Self) -> bool {
        self.as_slice() == other.as_slice()
    }
}

impl Eq for Legs {
    ghost laws = { Prim.search (comparing, rules) depth 9 };
}

fn copies_of(legs: &[Leg]) -> ArrayVec<Leg, 2>
    requires { AreLegs legs.now }
    ensures { result.items ≡ legs.now }
{
    let mut items = ArrayVec::new();
    items.push(legs[0]);
    if legs.len() == 2 {
        items.push(legs[1]);
    }
    items
}

fn leg_in<'a>(legs: &'a [Leg], endpoint: &EndpointId) -> Option<&'a Leg>
    ensures { option_copied result ≡ leg_of legs.now endpoint.now }
{
    legs.iter().find(|leg| leg.endpoint == *endpoint)
}

fn other_in(legs: &[Leg], endpoint: &EndpointId) -> bool
    ensures { result ≡ has_other legs.now endpoint.now }
{
    legs.iter().any(|leg| leg.endpoint != *endpoint)
}
