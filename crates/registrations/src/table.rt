//! The table of the registrations.

ghost use Rattle.std.specs.Prelude.{◌≡◌, ◌≢◌, ◌≤◌, ◌<◌, ◌+◌, ◌++◌, ◌∷◌, [], ◌↔◌, ℕ, List, Option};
ghost use Rattle.std.specs.Prelude.{None, Some, Err, IsOk, IsSome, IfSome, IsTrue, IfOk, OnOk};
ghost use Rattle.std.specs.Prelude.{OnErr, nat_eq, slice_get, ◌-◌, length};
ghost use Rattle.std.specs.Option.{option_copied, option_map, IsSomeAnd};
ghost use Rattle.std.specs.Cmp.Lexicographic.{pointwise};
ghost use Rattle.std.specs.FinMap as map;
ghost use Rattle.slab.specs.Slab as slots;
ghost use Rattle.indexmap.specs.IndexMap as index;
ghost use Rattle.keyed.specs.Maps.{update};
ghost use Rattle.registrations.specs.inside.Stored.{IsIn, AreAllIn};
ghost use Rattle.registrations.specs.Registry.{at_address, IsUnused, IsListOf, IsConsistent};
ghost use Rattle.registrations.specs.Registry.{IsNumbered, IsSound, Stays, Updates, Becomes, Adds};
ghost use Rattle.registrations.specs.Registry.{with_identifier, with_deadline, after_rewrite};
ghost use Rattle.registrations.specs.Numbers.{start_after, IsFoundFrom};

use crate::fault::AddFault;
use crate::fresh::{is_taken, unused_from};
use crate::list::{RegistrationList, rising};
use crate::number::raised;
use crate::registration::Registration;
use crate::silence::{end_of, write_end};
use crate::times::Times;
use deadlines::Deadlines;
use indexmap::IndexMap;
use ras_module::{Address, EndpointId, ReplyAliases};
use slab::Slab;
use std::alloc::{AllocError, Global};
use std::marker::Model;

/// The registrations of a zone. No two of them share an identifier or a call signal address.
/// Contracts see a finite map.
pub struct Registrations {
    pub(crate) rows: Slab<Registration>,
    // where the row with each identifier stands, and the row with each call signal address
    pub(crate) by_identifier: IndexMap<EndpointId, usize>,
    by_address: IndexMap<Address, usize>,
    // of each row, by where its identifier stands in the index: its deadline, the number of legs of
    // its endpoint, and the moment at which the silence of that endpoint ends, if it has a leg
    deadlines: Deadlines,
    pub(crate) legs: Vec<usize>,
    pub(crate) ends: Deadlines,
    pub(crate) times: Times,
    most: usize,
    // where the search for an unused identifier begins, so that it needn't pass those in use: after
    // each number that was in use, and at 1 again after the last number of all
    next_number: u64,
}

// By hand, so that it is one call where such a table is dropped: a derived one is written out at
// each exit of each function that owns a table, field by field down to the buffers.
impl Drop for Registrations {
    fn drop(self) {
        let Registrations {
            rows: _,
            by_identifier: _,
            by_address: _,
            deadlines: _,
            legs: _,
            ends: _,
            times: _,
            most: _,
            next_number: _,
        } = self;
    }
}

impl Model for Registrations {
    ghost use Rattle.std.specs.Coded.{codes};
    ghost use Rattle.std.specs.FinMap as map;
    ghost use Rattle.registrations.specs.Registry.{Registry};
    ghost use Rattle.registrations.specs.inside.Stored.{IsTable, registry_of};

    ghost Value = { Registry };

    ghost coded = { Prim.hlevel (codes, map.code) };

    ghost view = { λ t. registry_of t.rows t.by_identifier t.by_address t.deadlines t.legs t.ends
        t.times t.most t.next_number };

    ghost invariant = { λ t. IsTable t.rows t.by_identifier t.by_address t.deadlines t.legs t.ends
        t.times t.most };
}

impl Registrations {
    /// The most registrations that a table may be for.
    pub const MOST: usize = 20_000;

    /// The most legs that are counted of one endpoint: one of each call that may be open.
    pub const MOST_LEGS: usize = 20_000;

    /// A table with no registration, for at most this many. No endpoint is ever silent for too
    /// long. This takes no memory.
    pub fn new(alloc: Global, most: usize) -> Self
        requires { most ≤ Self.MOST }
        ensures live { result.live ≡ map.empty }
        ensures most { result.most ≡ most }
        ensures sound { IsSound result }
        ensures legs { result.legs ≡ map.empty }
    {
        let never = Times {
            silence: u64::MAX,
            asks: 1,
            ask_wait: u64::MAX,
        };
        Registrations::with_times(alloc, most, never)
    }

    /// The same, in which an endpoint in a call may be silent for these times.
    pub fn with_times(alloc: Global, most: usize, times: Times) -> Self
        requires { most ≤ Self.MOST }
        ensures live { result.live ≡ map.empty }
        ensures most { result.most ≡ most }
        ensures sound { IsSound result }
        ensures legs { result.legs ≡ map.empty }
        ensures times { result.times ≡ times }
    {
        Registrations {
            rows: Slab::new(alloc),
            by_identifier: IndexMap::new(alloc),
            by_address: IndexMap::new(alloc),
            deadlines: Deadlines::new(alloc),
            legs: Vec::new(alloc),
            ends: Deadlines::new(alloc),
            times,
            most,
            next_number: 1,
        }
    }

    /// A table of copies of these registrations, in the same order and with the same legs.
    pub fn copy(&self) -> Result<Self, AllocError>
        ensures live { IfOk result (λ copy. copy.live ≡ self.now.live) }
        ensures most { IfOk result (λ copy. copy.most ≡ self.now.most) }
        ensures order { IfOk result (λ copy. copy.order ≡ self.now.order) }
        ensures legs { IfOk result (λ copy. copy.legs ≡ self.now.legs) }
        ensures times { IfOk result (λ copy. copy.times ≡ self.now.times) }
        ensures next { IfOk result (λ copy. copy.next ≡ self.now.next) }
    {
        let alloc = *self.by_identifier.allocator();
        let mut copy = Registrations::with_room(alloc, self.most, self.times, self.len())?;
        for i in 0..self.len() {
            copy.put(self.nth(i).unwrap().copy()?, self.legs[i]);
        }
        copy.next_number = self.next_number;
        Ok(copy)
    }

    /// A table with no registration, and with room for some.
    fn with_room(alloc: Global, most: usize, times: Times, room: usize) -> Result<Self, AllocError>
        requires { most ≤ Self.MOST }
        ensures most { IfOk result (λ t. t.most ≡ most) }
        ensures order { IfOk result (λ t. t.order ≡ []) }
        ensures live { IfOk result (λ t. t.live ≡ map.empty) }
        ensures room { IfOk result (λ t. room ≤ t.room) }
        ensures legs { IfOk result (λ t. t.legs ≡ map.empty) }
        ensures times { IfOk result (λ t. t.times ≡ times) }
    {
        let mut deadlines = Deadlines::new(alloc);
        deadlines.reserve(room)?;
        let mut ends = Deadlines::new(alloc);
        ends.reserve(room)?;
        let legs = Vec::with_capacity(alloc, room)?;
        Ok(Registrations {
            rows: Slab::with_capacity(alloc, room)?,
            by_identifier: IndexMap::with_capacity(alloc, room)?,
            by_address: IndexMap::with_capacity(alloc, room)?,
            deadlines,
            legs,
            ends,
            times,
            most,
            next_number: 1,
        })
    }

    /// Whether the other table has the same registrations. This takes no memory.
    pub fn is_same(&self, other: &Self) -> bool
        ensures { IsTrue result ↔ (self.now.live ≡ other.now.live) }
    {
        self.has_all(&other.rows) && other.has_all(&self.rows)
    }

    /// Whether each of these registrations is in the table.
    fn has_all(&self, rows: &Slab<Registration>) -> bool
        ensures { IsTrue result ↔ AreAllIn self.now.live rows.now }
    {
        for (_place, row) in rows.iter() {
            if !self.has(row) {
                return false;
            }
        }
        true
    }

    /// Whether this registration is in the table.
    fn has(&self, row: &Registration) -> bool
        ensures { IsTrue result ↔ IsIn self.now.live row.now }
    {
        match self.get(&row.identifier) {
            Some(found) => found == row,
            None => false,
        }
    }

    /// How many endpoints are registered.
    ///
    /// promise endpoints-are-numbered: Each registration has one number below `len`, by which
    /// `nth` returns it (`IsNumbered`).
    pub fn len(&self) -> usize
        ensures len { result ≡ map.len self.now.live }
        ensures few { map.len self.now.live ≤ self.now.most }
        ensures sound { IsConsistent self.now.live }
        ensures numbered { IsNumbered self.now }
    {
        self.by_identifier.len()
    }

    /// The registration under this identifier.
    ///
    /// promise registrations-are-a-finite-map: A look-up returns what the map has; no two
    /// registrations share a call signal address (`IsConsistent`).
    pub fn get(&self, id: &EndpointId) -> Option<&Registration>
        ensures found { option_copied result ≡ map.get self.now.live id.now }
        ensures sound { IsConsistent self.now.live }
    {
        let place = self.by_identifier.get(id)?;
        self.rows.get(*place)
    }

    /// The registration with this call signal address.
    pub fn by_address(&self, address: Address) -> Option<&Registration>
        ensures found { option_copied result ≡ at_address self.now.live address }
        ensures sound { IsConsistent self.now.live }
    {
        let place = self.by_address.get(&address)?;
        self.rows.get(*place)
    }

    /// A registration whose time to live is over: its deadline is not after `now`. None if there is
    /// none.
    pub fn over(&self, now: u64) -> Option<&Registration>
        ensures over { IfSome result (λ r. r.now.deadline ≤ now) }
        ensures live { IfSome result (λ r. map.get self.now.live r.now.identifier ≡ Some r.now) }
        ensures none { result ≡ None → (id : List ℕ) (r : Registration)
            → map.get self.now.live id ≡ Some r → now < r.deadline }
    {
        let (deadline, i) = self.deadlines.earliest()?;
        if deadline > now {
            return None;
        }
        self.nth(i)
    }

    /// The registration with this number. The numbers below `len` have one each, and each
    /// registration has one number, as long as the table isn't changed.
    pub fn nth(&self, i: usize) -> Option<&Registration>
        ensures nth { option_copied result ≡ slice_get self.now.order i }
        ensures some { IsSome result ↔ (i < map.len self.now.live) }
        ensures live { IfSome result (λ r. map.get self.now.live r.now.identifier ≡ Some r.now) }
    {
        let (_identifier, place) = self.by_identifier.get_index(i)?;
        self.rows.get(*place)
    }

    /// Copies, by rising identifier: character by character, a prefix before what it begins.
    ///
    /// promise endpoints-are-listed-in-order: The list has all registrations, by rising identifier
    /// (`IsListOf`).
    pub fn list(&self) -> Result<RegistrationList, AllocError>
        ensures { IfOk result (IsListOf self.now.live) }
    {
        let copies = self.copies()?;
        Ok(rising(copies))
    }

    /// Copies, in the order in which the registrations are numbered.
    fn copies(&self) -> Result<Vec<Registration>, AllocError>
        ensures copies { IfOk result (λ copies. copies.items ≡ self.now.order) }
        ensures numbered { IsNumbered self.now }
    {
        let mut copies = Vec::new(*self.by_identifier.allocator());
        copies.reserve(self.len())?;
        for i in 0..self.len() {
            copies.push(self.nth(i).unwrap().copy()?)?;
        }
        Ok(copies)
    }

    /// Whether the identifier may be handed out, if these are taken.
    pub fn is_unused(&self, id: &EndpointId, taken: &[EndpointId]) -> bool
        ensures { IsTrue result ↔ IsUnused self.now.live taken.now id.now }
    {
        self.get(id).is_none() && !is_taken(taken, id)
    }

    /// An identifier that no registration has, and that is not taken: any such one.
    ///
    /// promise free-identifier-is-not-reused-soon: An unused identifier isn't below where the
    /// search begins, unless the search could pass 2^64 (`IsFoundFrom`).
    pub fn unused(&self, taken: &[EndpointId]) -> EndpointId
        ensures unused { IsUnused self.now.live taken.now result }
        ensures from { IsFoundFrom self.now.next
            (map.len self.now.live + length taken.now) result }
    {
        unused_from(self, taken, self.next_number)
    }

    /// Makes room for this many more.
    pub fn reserve(&mut self, more: usize) -> Result<(), AllocError>
        ensures stays { Stays self.old self.new }
        ensures ok { OnOk result (more ≤ self.new.room) }
        ensures succeeds { more ≤ self.old.room → IsOk result }
    {
        self.rows.reserve(more)?;
        self.by_identifier.reserve(more)?;
        self.by_address.reserve(more)?;
        // that there is a capacity shows that the sum fits
        let _capacity = self.by_identifier.capacity();
        let places = self.by_identifier.len() + more;
        self.deadlines.reserve(places)?;
        self.legs.reserve(more)?;
        self.ends.reserve(places)
    }

    /// Registers an endpoint under an unused identifier, which is written into the registration.
    /// Nothing is added if the table is full, or for want of memory. It never fails for want of
    /// memory if there is room.
    ///
    /// promise new-endpoint-has-unused-identifier: An endpoint is refused as Full if and only if
    /// the table is; else, want of memory aside, it gets an identifier that nobody has and that
    /// isn't taken, and the next search begins behind that (`IsUnused`, `start_after`).
    pub fn add(
        &mut self,
        registration: Registration,
        taken: &[EndpointId],
    ) -> Result<EndpointId, AddFault>
        requires { at_address self.old.live registration.call_signal ≡ None }
        ensures unused { IfOk result (IsUnused self.old.live taken.now) }
        ensures from { IfOk result (IsFoundFrom self.old.next
            (map.len self.old.live + length taken.now)) }
        ensures ok { IfOk result (λ id. Adds self.old self.new
            (map.insert self.old.live id (with_identifier id registration))) }
        ensures legs { IfOk result (λ id. self.new.legs ≡ map.insert self.old.legs id 0) }
        ensures next { IfOk result (λ id. self.new.next ≡ start_after self.old.next id) }
        ensures full { (result ≡ Err AddFault.Full) ↔ (map.len self.old.live ≡ self.old.most) }
        ensures reserved { 0 < self.old.room → result ≢ Err AddFault.Memory }
        ensures err { OnErr result (Stays self.old self.new) }
    {
        let identifier = self.unused(taken);
        let registration = Registration {
            identifier,
            ..registration
        };
        self.insert(registration)?;
        Ok(identifier)
    }

    /// Registers an endpoint under the identifier that it has. It has no leg yet.
    pub fn insert(&mut self, registration: Registration) -> Result<(), AddFault>
        requires identifier { map.get self.old.live registration.identifier ≡ None }
        requires address { at_address self.old.live registration.call_signal ≡ None }
        ensures ok { OnOk result (Adds self.old self.new
            (map.insert self.old.live registration.identifier registration)) }
        ensures legs { OnOk result
            (self.new.legs ≡ map.insert self.old.legs registration.identifier 0) }
        ensures next { OnOk result
            (self.new.next ≡ start_after self.old.next registration.identifier) }
        ensures full { (result ≡ Err AddFault.Full) ↔ (map.len self.old.live ≡ self.old.most) }
        ensures reserved { 0 < self.old.room → result ≢ Err AddFault.Memory }
        ensures err { OnErr result (Stays self.old self.new) }
    {
        if self.len() == self.most {
            return Err(AddFault::Full);
        }
        match self.reserve(1) {
            Ok(()) => {}
            Err(_) => return Err(AddFault::Memory),
        }
        self.put(registration, 0);
        Ok(())
    }

    /// Enters a registration after all others, of an endpoint with this many legs. There has to be
    /// room. This takes no memory.
    fn put(&mut self, registration: Registration, legs: usize)
        requires few { map.len self.old.live < self.old.most }
        requires room { 0 < self.old.room }
        requires identifier { map.get self.old.live registration.identifier ≡ None }
        requires address { at_address self.old.live registration.call_signal ≡ None }
        ensures adds { Adds self.old self.new
            (map.insert self.old.live registration.identifier registration) }
        ensures order { self.new.order ≡ self.old.order ++ registration ∷ [] }
        ensures legs { self.new.legs ≡ map.insert self.old.legs registration.identifier legs }
        ensures next { self.new.next ≡ start_after self.old.next registration.identifier }
    {
        self.next_number = raised(self.next_number, &registration.identifier);
        let i = self.by_identifier.len();
        self.deadlines.set(i, registration.deadline);
        write_end(&mut self.ends, i, end_of(&registration, legs, &self.times));
        self.legs.push_reserved(legs);
        let identifier = registration.identifier;
        let address = registration.call_signal;
        let place = self.rows.insert_reserved(registration);
        self.by_identifier.insert(identifier, place).unwrap();
        self.by_address.insert(address, place).unwrap();
    }

    /// Takes a registration out, with the count of its endpoint's legs.
    pub fn remove(&mut self, id: &EndpointId) -> Option<Registration>
        ensures found { result ≡ map.get self.old.live id.now }
        ensures removed { Becomes self.old self.new (map.remove self.old.live id.now) }
        ensures legs { self.new.legs ≡ map.remove self.old.legs id.now }
    {
        let (i, place) = entry_of(&self.by_identifier, id)?;
        let registration = self.rows.remove(place);
        self.by_address.swap_remove(&registration.call_signal);
        self.by_identifier.swap_remove_index(i);
        // the last one took the place of the one that is gone
        let last = self.by_identifier.len();
        self.deadlines.clear(i);
        self.deadlines.rename(last, i);
        self.legs.swap_remove(i);
        self.ends.clear(i);
        self.ends.rename(last, i);
        Some(registration)
    }

    /// Grants a new time to live.
    pub fn renew(&mut self, id: &EndpointId, deadline: u64)
        requires { IsSome (map.get self.old.live id.now) }
        ensures { Updates self.old self.new (update self.old.live id.now (with_deadline deadline)) }
    {
        let (i, place) = live_entry(&self.by_identifier, id);
        self.rows[place].deadline = deadline;
        self.deadlines.set(i, deadline);
    }

    /// Replaces what an endpoint registered, except its call signal address.
    pub fn rewrite(&mut self, id: &EndpointId, ras: Address, aliases: ReplyAliases, deadline: u64)
        requires { IsSome (map.get self.old.live id.now) }
        ensures { Updates self.old self.new
            (update self.old.live id.now (after_rewrite ras aliases deadline)) }
    {
        let (i, place) = live_entry(&self.by_identifier, id);
        let row = &mut self.rows[place];
        row.ras = ras;
        row.aliases = aliases;
        row.deadline = deadline;
        self.deadlines.set(i, deadline);
    }
}

/// Where the identifier stands in the index, and where its registration does.
pub(crate) fn entry_of(
    by_identifier: &IndexMap<EndpointId, usize>,
    id: &EndpointId,
) -> Option<(usize, usize)>
    ensures place { option_map (λ at. at.1) result
        ≡ index.get (pointwise nat_eq) by_identifier.now id.now }
    ensures entry { IfSome result (λ at. IsSomeAnd (slice_get by_identifier.now.entries at.0)
        (λ e. e.1 ≡ at.1)) }
{
    let (i, _identifier, place) = by_identifier.get_full(id)?;
    Some((i, *place))
}

/// The same for an identifier that has an entry.
pub(crate) fn live_entry(
    by_identifier: &IndexMap<EndpointId, usize>,
    id: &EndpointId,
) -> (usize, usize)
    requires { IsSome (index.get (pointwise nat_eq) by_identifier.now id.now) }
    ensures place { index.get (pointwise nat_eq) by_identifier.now id.now ≡ Some result.1 }
    ensures entry { IsSomeAnd (slice_get by_identifier.now.entries result.0)
        (λ e. e.1 ≡ result.1) }
{
    entry_of(by_identifier, id).unwrap()
}
