//! The table of the kept replies: the map, and its changes.

ghost use Rattle.std.specs.Prelude.{◌≡◌, ◌≢◌, ◌<◌, ◌≤◌, ◌↔◌, None, Err};
ghost use Rattle.std.specs.Prelude.{All, IsOk, IsSome, IsTrue, IfOk, IfSome, OnOk};
ghost use Rattle.std.specs.Option.{option_copied, IsSomeAnd};
ghost use Rattle.std.specs.FinMap as map;
ghost use Rattle.keyed.specs.Maps.{update};
ghost use Rattle.kept_replies.specs.Kept.{done, pending, is_over, left_in};
ghost use Rattle.kept_replies.specs.Kept.{Passes, NonePasses, IsBusy};
ghost use Rattle.kept_replies.specs.Kept.{IsFreeBirth, IsEntry, IsConsistent, Becomes, Adds};
ghost use Rattle.kept_replies.specs.Kept.{finished, postponed, without_birth};
ghost use Rattle.kept_replies.specs.inside.Stored.{IsIn};

use crate::birth_places::BirthPlaces;
use crate::copies::copies_of;
use crate::due_moments::DueMoments;
use crate::entry::{KeptEntry, KeptState};
use crate::fault::ReserveFault;
use crate::in_progress::InProgress;
use crate::kept_reply::KeptReply;
use crate::key::KeptKey;
use crate::rows::{replace_entry, take_row, write_done, write_retry};
use crate::told_counts::ToldCounts;
use indexmap::IndexMap;
use ras_module::Request;
use std::alloc::{AllocError, Global};
use std::marker::Model;

/// The replies that a gatekeeper keeps, by the datagrams that they answer. Contracts see a finite
/// map.
pub struct Kept {
    pub(crate) rows: IndexMap<KeptKey, KeptEntry>,
    // by the places of the rows
    pub(crate) births: BirthPlaces,
    pub(crate) due: DueMoments,
    // how often identifiers are told
    pub(crate) told: ToldCounts,
    most: usize,
}

// By hand, so that it is one call where a table is dropped: a derived one is written out at each
// exit of each function that owns some, field by field down to the buffers.
impl Drop for Kept {
    fn drop(self) {
        let Kept {
            rows: _,
            births: _,
            due: _,
            told: _,
            most: _,
        } = self;
    }
}

impl Model for Kept {
    ghost use Rattle.std.specs.Coded.{codes};
    ghost use Rattle.std.specs.FinMap as map;
    ghost use Rattle.indexmap.specs.IndexMap.{spare};
    ghost use Rattle.kept_replies.specs.Kept.{KeptTable, kept_of};
    ghost use Rattle.kept_replies.specs.inside.Births.{AreBorn};
    ghost use Rattle.kept_replies.specs.inside.Rows.{rows_seen, AreRows};
    ghost use Rattle.kept_replies.specs.inside.Stored.{AreStored};
    ghost use Rattle.kept_replies.specs.inside.Told.{AreTold};

    ghost Value = { KeptTable };

    ghost coded = { Prim.hlevel (codes, map.code) };

    ghost view = { λ t. record {
      kept = kept_of t.rows.entries;
      most = t.most;
      room = spare (rows_seen t.rows t.due);
    } };

    ghost invariant = { λ t. AreStored (rows_seen t.rows t.due) t.most × AreRows t.rows t.due
        × AreBorn t.rows.entries t.births × AreTold t.rows.entries t.told };
}

impl Kept {
    /// The most replies that a table may be for.
    pub const MOST: usize = 65_536;

    /// A table with nothing kept, for at most this many replies. This takes no memory.
    pub fn new(alloc: Global, most: usize) -> Self
        requires some { 1 ≤ most }
        requires few { most ≤ Self.MOST }
        ensures kept { result.kept ≡ map.empty }
        ensures most { result.most ≡ most }
        ensures sound { IsConsistent result }
    {
        Kept {
            rows: IndexMap::new(alloc),
            births: BirthPlaces::new(alloc),
            due: DueMoments::new(alloc),
            told: ToldCounts::new(alloc),
            most,
        }
    }

    /// A table of copies of what is kept.
    pub fn copy(&self) -> Result<Self, AllocError>
        ensures kept { IfOk result (λ copy. copy.kept ≡ self.now.kept) }
        ensures most { IfOk result (λ copy. copy.most ≡ self.now.most) }
    {
        let rows = copies_of(*self.rows.allocator(), &self.rows)?;
        let due = self.due.copy()?;
        let births = BirthPlaces::of(*rows.allocator(), &rows);
        let told = ToldCounts::of(*rows.allocator(), &rows);
        Ok(Kept {
            rows,
            births,
            due,
            told,
            most: self.most,
        })
    }

    /// Whether the other table keeps the same. This takes no memory.
    pub fn is_same(&self, other: &Self) -> bool
        ensures { IsTrue result ↔ (self.now.kept ≡ other.now.kept) }
    {
        self.has_all(&other.rows) && other.has_all(&self.rows)
    }

    /// Whether each of these entries is kept for its datagram.
    fn has_all(&self, rows: &IndexMap<KeptKey, KeptEntry>) -> bool
        ensures { IsTrue result ↔ All (IsIn self.now.kept) rows.now.entries }
    {
        rows.iter().all(|(key, entry)| self.has(key, entry))
    }

    /// Whether this entry is kept for this datagram.
    fn has(&self, key: &KeptKey, entry: &KeptEntry) -> bool
        ensures { IsTrue result ↔ IsIn self.now.kept (key.now, entry.now) }
    {
        match self.find(key) {
            Some(found) => found == entry,
            None => false,
        }
    }

    /// How many replies are kept.
    pub fn len(&self) -> usize
        ensures len { result ≡ map.len self.now.kept }
        ensures sound { IsConsistent self.now }
    {
        self.rows.len()
    }

    /// What is kept for this datagram.
    ///
    /// promise kept-replies-are-a-finite-map: A look-up returns what is kept for a datagram.
    pub fn find(&self, key: &KeptKey) -> Option<&KeptEntry>
        ensures found { option_copied result ≡ map.get self.now.kept key.now }
        ensures sound { IsConsistent self.now }
    {
        self.rows.get(key)
    }

    /// Whether the limit of kept replies is reached.
    pub fn is_full(&self) -> bool
        ensures full { IsTrue result ↔ (map.len self.now.kept ≡ self.now.most) }
        ensures sound { IsConsistent self.now }
    {
        self.rows.len() == self.most
    }

    /// Whether the limit of kept replies is reached, and none of them is over.
    pub fn is_busy(&self, now: u64) -> bool
        ensures { IsTrue result ↔ IsBusy self.now now }
    {
        self.is_full() && self.over(now).is_none()
    }

    /// Makes room for one more, if there may be one more after an entry that is over was dropped.
    ///
    /// promise busy-if-full-and-nothing-over: One more is refused as Busy if and only if the map is
    /// full and nothing in it is over (`IsBusy`).
    pub fn reserve(&mut self, now: u64) -> Result<(), ReserveFault>
        ensures kept { self.new.kept ≡ self.old.kept }
        ensures most { self.new.most ≡ self.old.most }
        ensures sound { IsConsistent self.new }
        ensures busy { (result ≡ Err ReserveFault.Busy) ↔ IsBusy self.old now }
        ensures ok { OnOk result (0 < self.new.room) }
        ensures room { self.old.room ≤ self.new.room }
        ensures succeeds { 0 < self.old.room → result ≢ Err ReserveFault.Memory }
    {
        let _ = &self.rows;
        if self.is_busy(now) {
            return Err(ReserveFault::Busy);
        }
        match self.make_room() {
            Ok(()) => Ok(()),
            Err(_) => Err(ReserveFault::Memory),
        }
    }

    /// Makes room for one more. How many there may be, and which are over, isn't looked at.
    ///
    /// promise room-is-made-or-memory-refused: Room for one more is made, or refused for want of
    /// memory alone, which changes nothing.
    pub fn make_room(&mut self) -> Result<(), AllocError>
        ensures kept { self.new.kept ≡ self.old.kept }
        ensures most { self.new.most ≡ self.old.most }
        ensures sound { IsConsistent self.new }
        ensures ok { OnOk result (0 < self.new.room) }
        ensures room { self.old.room ≤ self.new.room }
        ensures succeeds { 0 < self.old.room → IsOk result }
    {
        self.rows.reserve(1)?;
        self.due.reserve(self.rows.len() + 1)?;
        self.births.prepare(&self.rows);
        self.told.prepare(&self.rows);
        Ok(())
    }

    /// Keeps a reply until a moment. This takes no memory.
    pub fn keep(&mut self, key: KeptKey, born: u64, reply: KeptReply, until: u64)
        requires few { map.get self.old.kept key ≡ None → map.len self.old.kept < self.old.most }
        requires room { map.get self.old.kept key ≡ None → 0 < self.old.room }
        requires birth { IsFreeBirth self.old.kept key born }
        ensures adds { Adds self.old self.new
            (map.insert self.old.kept key (done born reply until)) }
        ensures replaces { map.get self.old.kept key ≢ None → self.old.room ≤ self.new.room }
        ensures sound { IsConsistent self.new }
    {
        let state = KeptState::Done { reply, until };
        self.put(key, KeptEntry { born, state });
    }

    /// Keeps a request that was told to wait by this reply. It is to be served again at the moment
    /// `retry`, and at most `left` times in all. This takes no memory.
    pub fn pend(
        &mut self,
        key: KeptKey,
        born: u64,
        request: Request,
        reply: InProgress,
        retry: u64,
        left: u64,
    )
        requires few { map.get self.old.kept key ≡ None → map.len self.old.kept < self.old.most }
        requires room { map.get self.old.kept key ≡ None → 0 < self.old.room }
        requires birth { IsFreeBirth self.old.kept key born }
        requires left { 1 ≤ left }
        ensures adds { Adds self.old self.new
            (map.insert self.old.kept key (pending born request reply retry left)) }
        ensures replaces { map.get self.old.kept key ≢ None → self.old.room ≤ self.new.room }
        ensures sound { IsConsistent self.new }
    {
        let state = KeptState::Pending {
            request,
            reply,
            retry,
            left,
        };
        self.put(key, KeptEntry { born, state });
    }

    /// Keeps an entry for a datagram for which nothing is kept, without a search for it. This takes
    /// no memory.
    pub fn add(&mut self, key: KeptKey, entry: KeptEntry)
        requires new { map.get self.old.kept key ≡ None }
        requires few { map.len self.old.kept < self.old.most }
        requires room { 0 < self.old.room }
        requires birth { IsFreeBirth self.old.kept key entry.born }
        requires entry { IsEntry entry }
        ensures adds { Adds self.old self.new (map.insert self.old.kept key entry) }
        ensures sound { IsConsistent self.new }
    {
        self.births.add(entry.born);
        self.told.add(entry.identifier());
        self.due.write(self.rows.len(), &entry.state);
        self.rows.insert(key, entry).unwrap();
    }

    /// Keeps an entry for a datagram, in place of what is kept for it.
    fn put(&mut self, key: KeptKey, entry: KeptEntry)
        requires few { map.get self.old.kept key ≡ None → map.len self.old.kept < self.old.most }
        requires room { map.get self.old.kept key ≡ None → 0 < self.old.room }
        requires birth { IsFreeBirth self.old.kept key entry.born }
        requires entry { IsEntry entry }
        ensures adds { Adds self.old self.new (map.insert self.old.kept key entry) }
        ensures replaces { map.get self.old.kept key ≢ None → self.old.room ≤ self.new.room }
        ensures sound { IsConsistent self.new }
    {
        match self.rows.get_index_of(&key) {
            Some(place) => {
                self.births.replace(place, entry.born);
                self.told.replace(&self.rows, &key, entry.identifier());
                self.due.write(place, &entry.state);
                replace_entry(&mut self.rows, &key, entry);
            }
            None => self.add(key, entry),
        }
    }

    /// Notes that the request of an entry was answered, and keeps its reply until a moment. This
    /// takes no memory.
    pub fn finish(&mut self, key: &KeptKey, reply: KeptReply, until: u64)
        requires { IsSome (map.get self.old.kept key.now) }
        ensures becomes { Becomes self.old self.new
            (update self.old.kept key.now (finished reply until)) }
        ensures sound { IsConsistent self.new }
    {
        if let Some(place) = self.rows.get_index_of(key) {
            self.told.replace(&self.rows, key, reply.identifier());
            write_done(&mut self.rows, key, reply, until);
            self.due.finish(place, until);
        }
    }

    /// Makes the request of an entry wait once more, until the moment `retry`. This takes no
    /// memory.
    pub fn postpone(&mut self, key: &KeptKey, retry: u64)
        requires { IsSomeAnd (map.get self.old.kept key.now) (λ entry. 2 ≤ left_in entry.state) }
        ensures becomes { Becomes self.old self.new
            (update self.old.kept key.now (postponed retry)) }
        ensures sound { IsConsistent self.new }
    {
        if let Some(place) = self.rows.get_index_of(key) {
            write_retry(&mut self.rows, key, retry);
            self.due.wait(place, retry);
        }
    }

    /// Drops an entry that is over, any of them, and returns its birth. If none is over, it returns
    /// None and nothing is changed. This takes no memory.
    ///
    /// promise only-what-is-over-is-dropped: One entry that is over is dropped, and its birth is
    /// returned; None if and only if none is over.
    pub fn drop_one_expired(&mut self, now: u64) -> Option<u64>
        ensures over { IfSome result (Passes (is_over now) self.old.kept) }
        ensures dropped { IfSome result
            (λ born. Becomes self.old self.new (without_birth self.old.kept born)) }
        ensures none { result ≡ None → NonePasses (is_over now) self.old.kept }
        ensures unchanged { result ≡ None → self.new ≡ self.old }
    {
        let born = self.over(now)?;
        self.drop_born(born);
        Some(born)
    }

    /// Drops the entry with this birth, if there is one. This takes no memory.
    pub fn drop_born(&mut self, born: u64)
        ensures becomes { Becomes self.old self.new (without_birth self.old.kept born) }
        ensures sound { IsConsistent self.new }
    {
        let Some(place) = self.births.place_of(&self.rows, born) else {
            return;
        };
        let Some((_key, entry)) = self.rows.get_index(place) else {
            return;
        };
        self.told.take_out(entry.identifier());
        take_row(&mut self.rows, place);
        self.births.take_out(place);
        self.due.take_out(place, self.rows.len());
    }
}
