//! A server that runs, as those who look at it see it.

ghost use Rattle.std.specs.Prelude.{◌≡◌, ◌<◌, All, [], vec_capacity, vec_len};
ghost use Rattle.zone_lock.specs.Views.{AreCallsUnderLock, AreEndpointsUnderLock};
ghost use Rattle.zone_lock.specs.Views.{IsCallUnderLock, IsEndpointUnderLock};

use crate::board::Board;
use crate::history::RunningHistory;
use crate::tally::Tallies;
use books::Entry;
use pools::{Figures, Pool};
use std::sync::Wait;
use std::sync::ledger::Ledger;
use zone_lock::{Hall, HandedOut, ZoneLock};
use zone_view::{CallRow, Counts, EndpointRow, RunningZone, ServerFigures, ZoneFigures};

/// A server that runs: the lock of its zone, what its threads count, and whether they have ended.
#[derive(Drop)]
pub(crate) struct View<'a, P: Pool, D: Hall, T: Ledger, U: Ledger, V: Ledger, R> {
    pub(crate) rt: &'a R,
    pub(crate) lock: &'a ZoneLock<P, D, T, U, V>,
    pub(crate) tallies: &'a Tallies,
    pub(crate) board: &'a Board,
    pub(crate) workers: usize,
}

impl<P: Pool, D: Hall, T: Ledger, U: Ledger, V: Ledger, R: Wait> RunningHistory
    for View<'_, P, D, T, U, V, R> {
    ghost use Rattle.zone_lock.specs.Held.{IsHandedOutUnderLock};

    ghost gives = { λ view first entries is_recorded.
        IsHandedOutUnderLock D.opened first entries is_recorded };

    fn hand_out(&self, room: Vec<Entry>) -> HandedOut {
        self.lock.hand_out(self.rt, room)
    }

    fn stop(&self, room: Vec<Entry>) {
        drop(self.lock.discard(self.rt, room));
    }
}

impl<P: Pool, D: Hall, T: Ledger, U: Ledger, V: Ledger, R: Wait> RunningZone
    for View<'_, P, D, T, U, V, R> {
    ghost use Rattle.zone_lock.specs.Views.{AreCallsUnderLock, AreEndpointsUnderLock};
    ghost use Rattle.zone_lock.specs.Views.{AreFiguresUnderLock, IsCallUnderLock};
    ghost use Rattle.zone_lock.specs.Views.{IsEndpointUnderLock};

    ghost has_figures = { λ view figures pools. AreFiguresUnderLock D.opened figures pools };

    ghost has_endpoint = { λ view row. IsEndpointUnderLock D.opened row };

    ghost has_call = { λ view row. IsCallUnderLock D.opened row };

    ghost has_endpoints_below = { λ view place rows next.
        AreEndpointsUnderLock D.opened place rows next };

    ghost has_calls_below = { λ view place rows next. AreCallsUnderLock D.opened place rows next };

    fn figures(&self, pools: &mut Vec<Figures>) -> ZoneFigures {
        self.lock.figures(self.rt, pools)
    }

    fn server(&self) -> ServerFigures {
        self.tallies.server()
    }

    fn counts(&self) -> Counts {
        self.tallies.counts()
    }

    fn endpoints_below(&self, place: usize, rows: &mut Vec<EndpointRow>) -> usize
        requires empty { rows.old.items ≡ [] }
        ensures rows { All (IsEndpointUnderLock D.opened) rows.new.items }
        ensures told { AreEndpointsUnderLock D.opened place rows.new.items result }
        ensures full { 0 < result → vec_len rows.new ≡ vec_capacity rows.new }
        ensures room { vec_capacity rows.new ≡ vec_capacity rows.old }
    {
        self.lock.endpoints_below(self.rt, place, rows)
    }

    fn calls_below(&self, place: usize, rows: &mut Vec<CallRow>) -> usize
        requires empty { rows.old.items ≡ [] }
        ensures rows { All (IsCallUnderLock D.opened) rows.new.items }
        ensures told { AreCallsUnderLock D.opened place rows.new.items result }
        ensures full { 0 < result → vec_len rows.new ≡ vec_capacity rows.new }
        ensures room { vec_capacity rows.new ≡ vec_capacity rows.old }
    {
        self.lock.calls_below(self.rt, place, rows)
    }

    fn has_ended(&self) -> bool {
        self.board.have_ended(self.rt, self.workers).is_some()
    }
}
