//! The table of the calls.

ghost use Rattle.std.specs.Prelude.{All};
ghost use Rattle.std.specs.Prelude.{◌≡◌, ◌≢◌, ◌<◌, ◌≤◌, ◌+◌, ◌^◌, ◌↔◌, length, None, Err, IsOk};
ghost use Rattle.std.specs.Prelude.{IfSome, IsSome, IsTrue, IfOk, OnOk, OnErr, IsOkUnless};
ghost use Rattle.std.specs.Prelude.{MatchOption, Some, slice_get};
ghost use Rattle.std.specs.Option.{option_copied, option_map};
ghost use Rattle.std.specs.FinMap as map;
ghost use Rattle.keyed.specs.Maps.{update};
ghost use Rattle.ras_module.specs.CallKeys.{same_call_key};
ghost use Rattle.indexmap.specs.IndexMap.{get};
ghost use Rattle.admission.specs.Calls.{in_use, in_use_of, legs_in, leg_at, legs_of, new_call};
ghost use Rattle.admission.specs.Calls.{Adds, with_leg, with_units, after_leave, freed_by_leave};
ghost use Rattle.admission.specs.Calls.{AreNumbered, IsInNoCall, IsConsistent, Stays, Becomes};
ghost use Rattle.admission.specs.Legs.{leg_of, without_leg, has_other};
ghost use Rattle.admission.specs.inside.Stored.{IsIn, Rewrites, with_legs_but};

use crate::call::Call;
use crate::call_list::{CallList, rising};
use crate::copies::copies_of;
use crate::fault::CallFault;
use crate::in_use::InUse;
use crate::leg::Leg;
use crate::legs::Legs;
use crate::sums::{call_from, call_in, legs_with, units_of_pool};
use indexmap::IndexMap;
use ras_module::{CallKey, EndpointId};
use std::alloc::{AllocError, Global};
use std::marker::Model;

/// What an endpoint that left a call has ended.
#[derive(Clone, Copy, Debug, PartialEq, Eq)]
pub struct Left {
    /// The pool and the units of the call, if its last leg went.
    pub ended: Option<(usize, u32)>,
}

/// The calls of a zone by their keys. Contracts see a finite map.
pub struct Calls {
    calls: IndexMap<CallKey, Call>,
    most: usize,
    // what the calls use: changed with the calls
    in_use: InUse,
    // where the call stood that was left last: the next search begins there, so that an endpoint
    // leaves all its calls in one pass
    left_at: usize,
}

// By hand, so that it is one call where such a table is dropped: a derived one is written out at
// each exit of each function that owns a table, field by field down to the buffers.
impl Drop for Calls {
    fn drop(self) {
        let Calls {
            calls: _,
            most: _,
            in_use: _,
            left_at: _,
        } = self;
    }
}

impl Model for Calls {
    ghost use Rattle.std.specs.Coded.{codes};
    ghost use Rattle.std.specs.FinMap as map;
    ghost use Rattle.indexmap.specs.IndexMap.{spare};
    ghost use Rattle.admission.specs.Calls.{CallTable, open_calls_of};
    ghost use Rattle.admission.specs.inside.Stored.{AreStored};
    ghost use Rattle.admission.specs.inside.Counted.{AreCounted};

    ghost Value = { CallTable };

    ghost coded = { Prim.hlevel (codes, map.code) };

    ghost view = { λ t. record {
      calls = open_calls_of t.calls.entries;
      most = t.most;
      room = spare t.calls;
      order = t.calls.entries;
    } };

    ghost invariant = { λ t. AreCounted t.calls t.most t.in_use };
}

impl Calls {
    /// The most calls that a table may be for.
    pub const MOST: usize = 20_000;

    /// A table with no call, in which at most this many may be open. This takes no memory.
    pub fn new(alloc: Global, most: usize) -> Self
        requires some { 1 ≤ most }
        requires few { most ≤ Self.MOST }
        ensures calls { result.calls ≡ map.empty }
        ensures most { result.most ≡ most }
        ensures sound { IsConsistent result }
    {
        Calls {
            calls: IndexMap::new(alloc),
            most,
            in_use: InUse::none(),
            left_at: 0,
        }
    }

    /// A table of copies of these calls, in the same order.
    pub fn copy(&self) -> Result<Self, AllocError>
        ensures calls { IfOk result (λ copy. copy.calls ≡ self.now.calls) }
        ensures most { IfOk result (λ copy. copy.most ≡ self.now.most) }
        ensures order { IfOk result (λ copy. copy.order ≡ self.now.order) }
    {
        let calls = copies_of(*self.calls.allocator(), &self.calls)?;
        Ok(Calls {
            calls,
            most: self.most,
            in_use: self.in_use,
            left_at: self.left_at,
        })
    }

    /// Whether the other table has the same calls. This takes no memory.
    pub fn is_same(&self, other: &Self) -> bool
        ensures { IsTrue result ↔ (self.now.calls ≡ other.now.calls) }
    {
        self.has_all(&other.calls) && other.has_all(&self.calls)
    }

    /// Whether each of these calls is open under its key.
    fn has_all(&self, calls: &IndexMap<CallKey, Call>) -> bool
        ensures { IsTrue result ↔ All (IsIn self.now.calls) calls.now.entries }
    {
        calls.iter().all(|(key, call)| self.has(key, call))
    }

    /// Whether this call is open under this key.
    fn has(&self, key: &CallKey, call: &Call) -> bool
        ensures { IsTrue result ↔ IsIn self.now.calls (key.now, call.now) }
    {
        match self.get(key) {
            Some(found) => found == call,
            None => false,
        }
    }

    /// How many calls are open.
    ///
    /// promise calls-are-numbered: Each call has one number below `len`, by which `nth` returns it
    /// with its key (`AreNumbered`).
    pub fn len(&self) -> usize
        ensures len { result ≡ map.len self.now.calls }
        ensures sound { IsConsistent self.now }
        ensures numbered { AreNumbered self.now }
    {
        self.calls.len()
    }

    /// The call with this key.
    pub fn get(&self, key: &CallKey) -> Option<&Call>
        ensures found { option_copied result ≡ map.get self.now.calls key.now }
        ensures sound { IsConsistent self.now }
    {
        self.calls.get(key)
    }

    /// The call with this number, and its key. The numbers below `len` have one each, and each call
    /// has one number, as long as the table isn't changed.
    pub fn nth(&self, i: usize) -> Option<(&CallKey, &Call)>
        ensures nth { option_map (λ it. (it.0.now, it.1.now)) result ≡ slice_get self.now.order i }
        ensures some { IsSome result ↔ (i < map.len self.now.calls) }
        ensures call { IfSome result (λ it. map.get self.now.calls it.0.now ≡ Some it.1.now) }
        ensures sound { IsConsistent self.now }
    {
        self.calls.get_index(i)
    }

    /// Where the call with this key stands. Only a search for a call asks this.
    fn place_of(&self, key: &CallKey) -> usize {
        self.calls.get_index_of(key).unwrap_or(0)
    }

    /// The leg of this endpoint in the call with this key.
    pub fn leg(&self, key: &CallKey, endpoint: &EndpointId) -> Option<&Leg>
        ensures { option_copied result ≡ leg_at self.now.calls key.now endpoint.now }
    {
        self.get(key)?.legs.get(endpoint)
    }

    /// The key of a call with a leg of this endpoint: any of them. None if there is none.
    pub fn call_of(&self, endpoint: &EndpointId) -> Option<CallKey>
        ensures { MatchOption result (IsInNoCall self.now.calls endpoint.now)
            (λ key. IsSome (leg_at self.now.calls key endpoint.now)) }
    {
        match call_from(&self.calls, self.left_at, endpoint) {
            Some(key) => Some(key),
            None => call_in(&self.calls, endpoint),
        }
    }

    /// In how many calls this endpoint has a leg. This is counted over all calls.
    pub fn legs_of(&self, endpoint: &EndpointId) -> usize
        ensures { result ≡ legs_of self.now.calls endpoint.now }
    {
        legs_with(&self.calls, endpoint)
    }

    /// The units of all calls: the bandwidth in use.
    ///
    /// promise bandwidth-is-the-sum-over-calls: Bandwidth in use is the sum over the live calls
    /// (`in_use`).
    pub fn total(&self) -> u64
        ensures sum { result ≡ in_use self.now.calls }
        ensures bound { result < 2 ^ 47 }
    {
        self.in_use.total
    }

    /// The units of the calls of one pool.
    pub fn total_of(&self, pool: usize) -> u64
        ensures sum { result ≡ in_use_of self.now.calls pool }
        ensures bound { result < 2 ^ 47 }
    {
        match self.in_use.of_pool(pool) {
            Some(units) => *units,
            None => units_of_pool(&self.calls, pool),
        }
    }

    /// Copies, by rising key.
    pub fn list(&self) -> Result<CallList, AllocError>
        ensures { IfOk result (λ list. list ≡ map.entries self.now.calls) }
    {
        rising(*self.calls.allocator(), &self.calls)
    }

    /// Makes room for this many more.
    pub fn reserve(&mut self, more: usize) -> Result<(), AllocError>
        ensures calls { self.new.calls ≡ self.old.calls }
        ensures most { self.new.most ≡ self.old.most }
        ensures order { self.new.order ≡ self.old.order }
        ensures sound { IsConsistent self.new }
        ensures ok { OnOk result (more ≤ self.new.room) }
        ensures room { self.old.room ≤ self.new.room }
        ensures succeeds { more ≤ self.old.room → IsOk result }
    {
        self.calls.reserve(more)
    }

    /// Opens a call with its first leg. Nothing is changed if the limit of open calls is reached,
    /// or for want of memory. It never fails for want of memory if there is room.
    ///
    /// promise calls-are-refused-exactly: A refusal comes if and only if the map shows it, want of
    /// memory aside, and changes nothing.
    pub fn open(&mut self, key: CallKey, pool: usize, units: u32, leg: Leg) -> Result<(), CallFault>
        requires { map.get self.old.calls key ≡ None }
        ensures ok { OnOk result (Adds self.old self.new
            (map.insert self.old.calls key (new_call pool units leg))) }
        ensures full { (result ≡ Err CallFault.Full) ↔ (map.len self.old.calls ≡ self.old.most) }
        ensures other { map.len self.old.calls ≢ self.old.most
            → IsOkUnless result CallFault.Memory }
        ensures reserved { 0 < self.old.room → result ≢ Err CallFault.Memory }
        ensures err { OnErr result (Stays self.old self.new) }
    {
        if self.calls.len() == self.most {
            return Err(CallFault::Full);
        }
        let call = Call {
            pool,
            units,
            legs: Legs::one(leg),
        };
        match self.calls.insert(key, call) {
            Ok(_) => {
                self.in_use.add(pool, units);
                Ok(())
            }
            Err(_) => Err(CallFault::Memory),
        }
    }

    /// Adds the second leg of a call, which uses no further units. This takes no memory.
    pub fn join(&mut self, key: CallKey, leg: Leg) -> Result<(), CallFault>
        requires { leg_at self.old.calls key leg.endpoint ≡ None }
        ensures ok { OnOk result (Becomes self.old self.new
            (update self.old.calls key (with_leg leg))) }
        ensures room { self.new.room ≡ self.old.room }
        ensures joins { IsOk result ↔ (length (legs_in (map.get self.old.calls key)) ≡ 1) }
        ensures two_legs { (result ≡ Err CallFault.TwoLegs)
            ↔ (length (legs_in (map.get self.old.calls key)) ≡ 2) }
        ensures no_call { (result ≡ Err CallFault.NoCall) ↔ (map.get self.old.calls key ≡ None) }
        ensures memory { result ≢ Err CallFault.Memory }
        ensures err { OnErr result (self.new ≡ self.old) }
    {
        let Some(call) = self.get(&key) else {
            return Err(CallFault::NoCall);
        };
        if call.legs.are_two() {
            return Err(CallFault::TwoLegs);
        }
        write_leg(&mut self.calls, &key, leg);
        Ok(())
    }

    /// Changes the units of a call. This takes no memory.
    pub fn set_units(&mut self, key: &CallKey, units: u32) -> Result<(), CallFault>
        ensures ok { OnOk result (Becomes self.old self.new
            (update self.old.calls key.now (with_units units))) }
        ensures room { self.new.room ≡ self.old.room }
        ensures changes { IsOk result ↔ IsSome (map.get self.old.calls key.now) }
        ensures no_call { (result ≡ Err CallFault.NoCall)
            ↔ (map.get self.old.calls key.now ≡ None) }
        ensures memory { result ≢ Err CallFault.Memory }
        ensures err { OnErr result (self.new ≡ self.old) }
    {
        let Some(call) = self.get(key) else {
            return Err(CallFault::NoCall);
        };
        let (pool, before) = (call.pool, call.units);
        write_units(&mut self.calls, key, units);
        self.in_use.take(pool, before);
        self.in_use.add(pool, units);
        Ok(())
    }

    /// Takes an endpoint's leg out of a call. The call ends with its last leg. This takes no
    /// memory.
    ///
    /// promise call-ends-with-its-last-leg: A call ends with its last leg and not before; its pool
    /// and units are named then, without memory.
    pub fn leave(&mut self, key: &CallKey, endpoint: &EndpointId) -> Result<Left, CallFault>
        ensures ok { OnOk result (Becomes self.old self.new
            (after_leave self.old.calls key.now endpoint.now)) }
        ensures ended { IfOk result (λ left. left.ended
            ≡ freed_by_leave self.old.calls key.now endpoint.now) }
        ensures leaves { IsOk result ↔ IsSome (leg_at self.old.calls key.now endpoint.now) }
        ensures no_call { (result ≡ Err CallFault.NoCall)
            ↔ (map.get self.old.calls key.now ≡ None) }
        ensures no_leg { (result ≡ Err CallFault.NoLeg) ↔ (IsSome (map.get self.old.calls key.now)
            × (leg_at self.old.calls key.now endpoint.now ≡ None)) }
        ensures memory { result ≢ Err CallFault.Memory }
        ensures err { OnErr result (self.new ≡ self.old) }
    {
        let Some(call) = self.get(key) else {
            return Err(CallFault::NoCall);
        };
        if call.legs.get(endpoint).is_none() {
            return Err(CallFault::NoLeg);
        }
        if call.legs.has_other(endpoint) {
            self.left_at = self.place_of(key);
            write_without(&mut self.calls, key, endpoint);
            return Ok(Left { ended: None });
        }
        let (pool, units) = (call.pool, call.units);
        self.left_at = self.place_of(key);
        self.calls.swap_remove(key);
        self.in_use.take(pool, units);
        Ok(Left {
            ended: Some((pool, units)),
        })
    }
}

fn write_leg(calls: &mut IndexMap<CallKey, Call>, key: &CallKey, leg: Leg)
    requires one { length (legs_in (get same_call_key calls.old key.now)) ≡ 1 }
    requires new { leg_of (legs_in (get same_call_key calls.old key.now)) leg.endpoint ≡ None }
    ensures { Rewrites (with_leg leg) calls.old calls.new key.now }
{
    if let Some(call) = calls.get_mut(key) {
        call.legs.push(leg);
    }
}

fn write_units(calls: &mut IndexMap<CallKey, Call>, key: &CallKey, units: u32)
    ensures { Rewrites (with_units units) calls.old calls.new key.now }
{
    if let Some(call) = calls.get_mut(key) {
        call.units = units;
    }
}

fn write_without(calls: &mut IndexMap<CallKey, Call>, key: &CallKey, endpoint: &EndpointId)
    requires { IsTrue (has_other (legs_in (get same_call_key calls.old key.now)) endpoint.now) }
    ensures { Rewrites (with_legs_but endpoint.now) calls.old calls.new key.now }
{
    if let Some(call) = calls.get_mut(key) {
        call.legs.remove(endpoint);
    }
}
