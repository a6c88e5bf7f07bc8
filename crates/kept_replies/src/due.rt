//! What is kept by birth: what is due, and the identifiers that are told.

ghost use Rattle.std.specs.Prelude.{◌≡◌, ◌↔◌, ℕ, List};
ghost use Rattle.std.specs.Prelude.{Contains, IsTrue, IfOk, MatchOption};
ghost use Rattle.std.specs.Option.{option_map};
ghost use Rattle.std.specs.Map.Iter.{deref_pair};
ghost use Rattle.std.specs.FinMap as map;
ghost use Rattle.kept_replies.specs.Kept.{births, is_over, is_retry, Passes, NonePasses};
ghost use Rattle.kept_replies.specs.Kept.{IsNamed, IsListOf, IsFreeBirth, IsConsistent};

use crate::entry::KeptEntry;
use crate::key::KeptKey;
use crate::list::{KeptList, rising};
use crate::rows::born_at;
use crate::searches::identifiers_in;
use crate::table::Kept;
use ras_module::EndpointId;
use std::alloc::AllocError;

impl Kept {
    /// The entry with this birth, with its datagram.
    pub fn by_born(&self, born: u64) -> Option<(&KeptKey, &KeptEntry)>
        ensures found { option_map deref_pair result ≡ map.get (births self.now.kept) born }
        ensures sound { IsConsistent self.now }
    {
        let place = self.births.place_of(&self.rows, born)?;
        self.rows.get_index(place)
    }

    /// Whether an entry for this datagram may have this birth. It may if no entry for another
    /// datagram has it.
    pub fn is_free(&self, key: &KeptKey, born: u64) -> bool
        ensures { IsTrue result ↔ IsFreeBirth self.now.kept key.now born }
    {
        match self.by_born(born) {
            None => true,
            Some((other, _entry)) => *other == *key,
        }
    }

    /// The birth of an entry that is over: any of them. None if there is none.
    pub fn over(&self, now: u64) -> Option<u64>
        ensures found { MatchOption result (NonePasses (is_over now) self.now.kept)
            (Passes (is_over now) self.now.kept) }
        ensures sound { IsConsistent self.now }
    {
        let place = self.due.over(now)?;
        born_at(&self.rows, place)
    }

    /// The birth of an entry whose request is to be served again: any of them. None if there is
    /// none.
    pub fn retry(&self, now: u64) -> Option<u64>
        ensures found { MatchOption result (NonePasses (is_retry now) self.now.kept)
            (Passes (is_retry now) self.now.kept) }
        ensures sound { IsConsistent self.now }
    {
        let place = self.due.retry(now)?;
        born_at(&self.rows, place)
    }

    /// Whether a kept RegistrationConfirm tells this identifier, be it over or not.
    pub fn is_named(&self, id: &EndpointId) -> bool
        ensures { IsTrue result ↔ IsNamed self.now.kept id.now }
    {
        self.told.is_told(&self.rows, id)
    }

    /// The identifiers that the kept RegistrationConfirms tell, in any order.
    ///
    /// promise told-identifiers-are-listed: The identifiers are exactly those that kept RCFs tell.
    pub fn identifiers(&self) -> Result<Vec<EndpointId>, AllocError>
        ensures { IfOk result
            (λ ids. (id : List ℕ) → Contains ids.items id ↔ IsNamed self.now.kept id) }
    {
        identifiers_in(*self.rows.allocator(), &self.rows)
    }

    /// Copies, by rising birth.
    ///
    /// promise kept-replies-have-one-birth: The list is by rising birth, which no two entries share
    /// (`IsListOf`).
    pub fn list(&self) -> Result<KeptList, AllocError>
        ensures { IfOk result (IsListOf self.now.kept) }
    {
        rising(*self.rows.allocator(), &self.rows)
    }
}
