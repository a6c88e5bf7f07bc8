//! Endpoints in calls: their legs, and when their silence ends.

ghost use Rattle.std.specs.Prelude.{◌≡◌, ◌≤◌, ◌<◌, ◌+◌, ◌-◌, ℕ, List, None, Some, IsSome, IfSome};
ghost use Rattle.std.specs.Option.{IsSomeAnd};
ghost use Rattle.std.specs.FinMap as map;
ghost use Rattle.keyed.specs.Maps.{update};
ghost use Rattle.registrations.specs.Registry.{Counts, Updates, after_hear, after_ask, after_calm};
ghost use Rattle.registrations.specs.Silence.{HasEnded};

use crate::registration::Registration;
use crate::silence::{end_of, write_end};
use crate::table::{Registrations, entry_of, live_entry};
use ras_module::EndpointId;

impl Registrations {
    /// In how many calls this endpoint has a leg. None if it isn't registered.
    pub fn legs(&self, id: &EndpointId) -> Option<usize>
        ensures legs { result ≡ map.get self.now.legs id.now }
        ensures live { IsSome result → IsSome (map.get self.now.live id.now) }
    {
        let (i, _place) = entry_of(&self.by_identifier, id)?;
        Some(self.legs[i])
    }

    /// A registration whose endpoint has a leg and has been silent for too long: any of them. None
    /// if there is none.
    ///
    /// promise ended-silence-is-told: An endpoint is told whose silence has ended; None if and only
    /// if there is none.
    pub fn silent(&self, now: u64) -> Option<&Registration>
        ensures ended { IfSome result (λ r.
            HasEnded now self.now.times self.now.live self.now.legs r.now.identifier) }
        ensures live { IfSome result (λ r. map.get self.now.live r.now.identifier ≡ Some r.now) }
        ensures none { result ≡ None → (id : List ℕ)
            → HasEnded now self.now.times self.now.live self.now.legs id → ⊥ }
    {
        let (end, i) = self.ends.earliest()?;
        if end > now {
            return None;
        }
        self.nth(i)
    }

    /// Notes that an endpoint was heard, if it is registered.
    pub fn hear(&mut self, id: &EndpointId, now: u64)
        ensures { Updates self.old self.new (update self.old.live id.now (after_hear now)) }
    {
        let Some((i, place)) = entry_of(&self.by_identifier, id) else {
            return;
        };
        let row = &mut self.rows[place];
        row.heard = now;
        row.tries = 0;
        let end = end_of(row, self.legs[i], &self.times);
        write_end(&mut self.ends, i, end);
    }

    /// Notes that an endpoint was asked for a sign of life. It may be asked 16 times in a row.
    pub fn asked(&mut self, id: &EndpointId, now: u64)
        requires { IsSomeAnd (map.get self.old.live id.now) (λ r. r.tries < 16) }
        ensures { Updates self.old self.new (update self.old.live id.now (after_ask now)) }
    {
        let (i, place) = live_entry(&self.by_identifier, id);
        let row = &mut self.rows[place];
        row.asked = now;
        row.tries += 1;
        let end = end_of(row, self.legs[i], &self.times);
        write_end(&mut self.ends, i, end);
    }

    /// Counts the tries of an endpoint from 0 again.
    pub fn calm(&mut self, id: &EndpointId)
        requires { IsSome (map.get self.old.live id.now) }
        ensures { Updates self.old self.new (update self.old.live id.now after_calm) }
    {
        let (i, place) = live_entry(&self.by_identifier, id);
        let registration = &mut self.rows[place];
        registration.tries = 0;
        let end = end_of(registration, self.legs[i], &self.times);
        write_end(&mut self.ends, i, end);
    }

    /// Notes that an endpoint takes part in one call more.
    ///
    /// promise legs-are-counted: Each endpoint's number of legs is counted, without memory
    /// (`Counts`).
    pub fn leg_comes(&mut self, id: &EndpointId)
        requires live { IsSome (map.get self.old.live id.now) }
        requires few { IfSome (map.get self.old.legs id.now) (λ legs. legs ≤ Self.MOST_LEGS) }
        ensures { Counts self.old self.new (update self.old.legs id.now (λ legs. legs + 1)) }
    {
        let (i, _place) = live_entry(&self.by_identifier, id);
        let legs = self.legs[i] + 1;
        self.count_legs(id, legs);
    }

    /// Notes that an endpoint takes part in one call fewer.
    pub fn leg_goes(&mut self, id: &EndpointId)
        requires live { IsSome (map.get self.old.live id.now) }
        requires some { IfSome (map.get self.old.legs id.now) (λ legs. 1 ≤ legs) }
        ensures { Counts self.old self.new (update self.old.legs id.now (λ legs. legs - 1)) }
    {
        let (i, _place) = live_entry(&self.by_identifier, id);
        let legs = self.legs[i] - 1;
        self.count_legs(id, legs);
    }

    /// Notes that an endpoint takes part in no call.
    pub fn no_legs(&mut self, id: &EndpointId)
        requires { IsSome (map.get self.old.live id.now) }
        ensures { Counts self.old self.new (map.insert self.old.legs id.now 0) }
    {
        self.count_legs(id, 0);
    }

    /// Notes in how many calls an endpoint takes part.
    fn count_legs(&mut self, id: &EndpointId, legs: usize)
        requires { IsSome (map.get self.old.live id.now) }
        ensures { Counts self.old self.new (map.insert self.old.legs id.now legs) }
    {
        let (i, place) = live_entry(&self.by_identifier, id);
        let end = end_of(&self.rows[place], legs, &self.times);
        self.legs[i] = legs;
        write_end(&mut self.ends, i, end);
    }
}
