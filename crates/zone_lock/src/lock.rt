//! The lock.

ghost use Rattle.std.specs.Prelude.{◌≡◌, ◌≢◌, ◌≤◌, ◌+◌, ◌<◌, ℕ, Some, slice_get, sum_by, vec_len};
ghost use Rattle.std.specs.Prelude.{All, ◌^◌, length, IfOk, IfErr, OnOk, OnErr, vec_capacity, ◌⊎◌, []};
ghost use Rattle.pools.specs.Replacing.{IsHandedBack};
ghost use Rattle.ras_machine.specs.Soundness.{Sound};
ghost use Rattle.ras_core.specs.Replacing.{change_by};
ghost use Rattle.books.specs.Books.{BookRun};
ghost use Rattle.books.specs.Totals.{changes_of, datagrams_of, lent_of, returned_by, turns_of};
ghost use Rattle.zone_lock.specs.Held.{IsBookUnderLock, IsChapterUnderLock, IsClosed};
ghost use Rattle.zone_lock.specs.Held.{IsLedInUse, IsMadeUnderLock, IsOpen, IsStepUnderLock};
ghost use Rattle.zone_lock.specs.Held.{IsHandedOutUnderLock};
ghost use Rattle.zone_lock.specs.Held.{IsRefusedUnderLock, IsReplacedUnderLock, IsWholeHistory};
ghost use Rattle.zone_lock.specs.Held.{IsWithoutBase, entry_by, receipt_at};
ghost use Rattle.zone_lock.specs.Faults.{open_fault_number};
ghost use Rattle.zone_lock.specs.Listings.{IsListingUnderLock};
ghost use Rattle.zone_lock.specs.Seats.{IsSeatCount, seated, seated_after};
ghost use Rattle.zone_lock.specs.Turns.{AreTurnsUnderLock};
ghost use Rattle.zone_lock.specs.Views.{AreCallsUnderLock, AreEndpointsUnderLock};
ghost use Rattle.zone_lock.specs.Views.{AreFiguresUnderLock, IsCallUnderLock, IsEndpointUnderLock};

use crate::cutting::{CutFault, Discarded, cut_locked, discard_locked};
use crate::ending::finish_locked;
use crate::handing::{HandedOut, hand_out_locked};
use crate::ledgers::Ledgers;
use crate::listing::Listing;
use crate::locked::{Locked, fault_without_order, list_locked, make_step};
use crate::looking::{calls_locked, endpoints_locked, figures_locked};
use crate::order::ToldOrder;
use crate::replacing::replace_locked;
use crate::seat::{Hall, Seat};
use crate::stepping::step_locked;
use crate::turns::{TurnsEnd, turns_locked};
use books::{Chapter, Entry, Finished, Receipt, SharedSnapshot, Totals};
use pools::{Figures, Pool, ReplaceFault};
use ras_core::{Change, Datagram, Moment, Outcome, Prepared, StepFault, Zone};
use std::alloc::{AllocError, Global};
use std::sync::ledger::{Blank, Ledger, Share};
use std::sync::{Mutex, Wait};
use zone_view::{CallRow, Counts, EndpointRow, ZoneFigures};

/// A zone behind a lock.
pub struct ZoneLock<P: Pool, D: Hall, T: Ledger, U: Ledger, V: Ledger> {
    alloc: Global,
    seats: usize,
    inner: Mutex<Locked<P, D, T, U, V>>,
    ghost some: { 0 < seats },
    ghost all: { seats ≡ D.all },
}

// Written by hand, so that whoever owns a lock makes one call at each exit.
impl<P: Pool, D: Hall, T: Ledger, U: Ledger, V: Ledger> Drop for ZoneLock<P, D, T, U, V> {
    fn drop(self) {
        let ZoneLock {
            alloc: _,
            seats: _,
            inner: _,
        } = self;
    }
}

/// Four new ledgers, with a part for each seat: of datagrams, of turns, of units lent, and of pools
/// that took the place of others.
#[derive(Drop)]
pub struct Blanks {
    pub datagrams: Blank,
    pub turns: Blank,
    pub lent: Blank,
    pub changes: Blank,
}

impl Blanks {
    /// For this many seats.
    pub fn new(seats: usize) -> Self
        ensures datagrams { result.datagrams.parts ≡ seats }
        ensures turns { result.turns.parts ≡ seats }
        ensures lent { result.lent.parts ≡ seats }
        ensures changes { result.changes.parts ≡ seats }
    {
        Blanks {
            datagrams: Blank::new(seats as u64),
            turns: Blank::new(seats as u64),
            lent: Blank::new(seats as u64),
            changes: Blank::new(seats as u64),
        }
    }
}

/// Why a lock isn't made.
#[derive(Clone, Copy, Debug, PartialEq, Eq, Drop)]
pub enum OpenFault {
    /// There are to be 1 to 16 seats.
    BadSeats,
    Memory,
}

impl OpenFault {
    /// The number of the fault.
    pub fn number(&self) -> u8
        ensures { result ≡ open_fault_number self.now }
    {
        match self {
            OpenFault::BadSeats => 1,
            OpenFault::Memory => 2,
        }
    }
}

impl<P: Pool, D: Hall, T: Ledger, U: Ledger, V: Ledger> ZoneLock<P, D, T, U, V> {
    /// Locks a zone, and makes its seats, which made no step yet. If there are not 1 to 16 of them,
    /// or if there is no memory, the zone comes back.
    ///
    /// promise lock-has-its-seats: A lock has 1 to 16 seats, which made no step; else the zone
    /// comes back (`IsSeatCount`).
    pub fn open(
        alloc: Global,
        zone: Zone<P>,
        seats: usize,
        blanks: Blanks,
    ) -> Result<(Self, Vec<Seat<D, T, U, V>>), (Zone<P>, OpenFault)>
        requires datagrams { (blanks.datagrams.name ≡ D.name)
            × (blanks.datagrams.parts ≡ D.parts) × (D.parts ≡ seats) }
        requires turns { (blanks.turns.name ≡ T.name)
            × (blanks.turns.parts ≡ T.parts) × (T.parts ≡ seats) }
        requires lent { (blanks.lent.name ≡ U.name)
            × (blanks.lent.parts ≡ U.parts) × (U.parts ≡ seats) }
        requires changes { (blanks.changes.name ≡ V.name)
            × (blanks.changes.parts ≡ V.parts) × (V.parts ≡ seats) }
        requires opened { (D.all ≡ seats) × (D.opened ≡ zone.state) }
        ensures len { IfOk result (λ made. vec_len made.1 ≡ seats) }
        ensures seats { IfOk result (λ made. (k : ℕ) → k < seats
            → slice_get made.1.items k ≡ Some (seated k 0 0 0 0 0)) }
        ensures range { OnOk result (IsSeatCount seats) }
        ensures handed_back { IfErr result (λ fault. fault.0 ≡ zone) }
        ensures fault { IfErr result (λ fault.
            ((fault.1 ≡ OpenFault.BadSeats) × ¬ IsSeatCount seats)
            ⊎ ((fault.1 ≡ OpenFault.Memory) × IsSeatCount seats)) }
    {
        if seats == 0 || seats > 16 {
            return Err((zone, OpenFault::BadSeats));
        }
        let Ok(base) = base_of(alloc, &zone) else {
            return Err((zone, OpenFault::Memory));
        };
        let Ok(all) = Vec::with_capacity(alloc, seats) else {
            return Err((zone, OpenFault::Memory));
        };
        let (ledgers, all) = seats_of(alloc, all, seats, blanks);
        let locked = Locked {
            first: 0,
            carried: Totals::none(),
            so_far: Totals::none(),
            opened_units: zone.in_use(),
            base: Some(base),
            is_recorded: true,
            entries: Vec::new(alloc),
            zone,
            ledgers,
        };
        let inner = Mutex::new(locked);
        Ok((
            ZoneLock {
                alloc,
                seats,
                inner,
            },
            all,
        ))
    }

    /// Waits for the lock and makes one step. What it needs of memory but for its place in the book
    /// is there before.
    ///
    /// promise waiting-step-is-one-step: What is made is one step of this lock's zone, of the caller's
    /// event; else Closed if it made 2^62 steps, or want of memory, and the seat stays
    /// (`IsStepUnderLock`, `IsClosed`, `IsOpen`).
    pub fn apply<R: Wait>(
        &self,
        rt: &R,
        seat: &mut Seat<D, T, U, V>,
        prepared: Prepared,
    ) -> Result<Receipt, StepFault>
        ensures receipt { IfOk result (λ receipt. receipt ≡ receipt_at receipt.place
            (entry_by seat.old.number seat.old.calls (Change.Event prepared) receipt.outcome)) }
        ensures step { IfOk result (λ receipt. IsStepUnderLock D.opened receipt.place
            (entry_by seat.old.number seat.old.calls (Change.Event prepared) receipt.outcome)) }
        ensures seat { IfOk result (λ receipt.
            seat.new ≡ seated_after seat.old (Change.Event prepared) receipt.outcome) }
        ensures closed { result ≡ Err StepFault.Closed → IsClosed D.opened }
        ensures memory { result ≡ Err StepFault.Memory → IsOpen D.opened }
        ensures err { OnErr result (seat.new ≡ seat.old) }
    {
        match ToldOrder::new(self.alloc, prepared, seat) {
            Ok(ordered) => make_step(&mut *self.inner.lock(rt), seat, ordered),
            Err(_) => Err(fault_without_order(&*self.inner.lock(rt))),
        }
    }

    /// Waits for the lock and makes one step. Its outcome is made where the caller wants it.
    /// Nothing else tells of the step, unless steps are recorded: then it is, as `step_locked`
    /// does. After a refusal what stands in place of the outcome means nothing.
    ///
    /// promise waiting-unrecorded-step-is-one-step: It is one step of this lock's zone, as by
    /// `step_locked` (`IsMadeUnderLock`).
    pub fn step<R: Wait>(
        &self,
        rt: &R,
        seat: &mut Seat<D, T, U, V>,
        prepared: Prepared,
        outcome: &mut Outcome,
    ) -> Result<(), StepFault>
        ensures step { OnOk result (IsMadeUnderLock D.opened
            (entry_by seat.old.number seat.old.calls (Change.Event prepared) outcome.new)) }
        ensures seat { OnOk result
            (seat.new ≡ seated_after seat.old (Change.Event prepared) outcome.new) }
        ensures closed { result ≡ Err StepFault.Closed → IsClosed D.opened }
        ensures memory { result ≡ Err StepFault.Memory → IsOpen D.opened }
        ensures err { OnErr result (seat.new ≡ seat.old) }
    {
        step_locked(&mut *self.inner.lock(rt), seat, prepared, outcome)
    }

    /// Waits for the lock and makes turns at this moment, at most `most` before it is free again,
    /// as `turns_locked` does. What they send is put into `replies` in order, which has none yet,
    /// and room for all. What is counted of them is added to the counts. Each is one step, as
    /// `step` makes it. What stands in place of the outcome afterwards means nothing.
    ///
    /// promise waiting-turns-follow-one-another: What is made are turns of this lock's zone, as by
    /// `turns_locked` (`AreTurnsUnderLock`).
    pub fn turns<R: Wait>(
        &self,
        rt: &R,
        seat: &mut Seat<D, T, U, V>,
        moment: Moment,
        most: usize,
        outcome: &mut Outcome,
        replies: &mut Vec<Datagram>,
        counts: &mut Counts,
    ) -> TurnsEnd
        requires empty { replies.old.items ≡ [] }
        requires room { most ≤ vec_capacity replies.old }
        ensures made { AreTurnsUnderLock D.opened seat.old moment most replies.new.items result
            seat.new counts.old counts.new }
        ensures closed { result ≡ TurnsEnd.Refused StepFault.Closed → IsClosed D.opened }
    {
        turns_locked(
            &mut *self.inner.lock(rt),
            seat,
            moment,
            most,
            outcome,
            replies,
            counts,
        )
    }

    /// Waits for the lock and puts a fresh pool in the place of the zone's pool with this number,
    /// as `replace_locked` does. The old pool comes back with nothing lent; or nothing changes, and
    /// the fresh pool comes back.
    ///
    /// promise waiting-replacement-is-one-step: A pool of this lock's zone is replaced or not, as
    /// by `replace_locked` (`IsReplacedUnderLock`, `IsRefusedUnderLock`).
    pub fn replace<R: Wait>(
        &self,
        rt: &R,
        seat: &mut Seat<D, T, U, V>,
        pool: usize,
        fresh: P,
        moment: Moment,
    ) -> Result<(Receipt, P), (P, ReplaceFault)>
        ensures receipt { IfOk result (λ done. done.0 ≡ receipt_at done.0.place
            (entry_by seat.old.number seat.old.calls
            (Change.PoolChange (change_by pool (P.account fresh) moment)) done.0.outcome)) }
        ensures step { IfOk result (λ done. IsReplacedUnderLock D.opened done.0.place
            (entry_by seat.old.number seat.old.calls
            (Change.PoolChange (change_by pool (P.account fresh) moment)) done.0.outcome)
            pool (P.account done.1)) }
        ensures seat { IfOk result (λ done. seat.new ≡ seated_after seat.old
            (Change.PoolChange (change_by pool (P.account fresh) moment)) done.0.outcome) }
        ensures fault { IfErr result (λ refused. IsRefusedUnderLock D.opened pool
            (P.account fresh) (P.account refused.0) refused.1) }
        ensures unasked { IfErr result (λ refused. refused.1 ≢ ReplaceFault.NotLent →
            refused.0 ≡ fresh) }
        ensures handed_back { IfErr result (λ refused. refused.1 ≡ ReplaceFault.NotLent →
            IsHandedBack (P.account fresh) (P.account refused.0)) }
        ensures err { OnErr result (seat.new ≡ seat.old) }
    {
        replace_locked(&mut *self.inner.lock(rt), seat, pool, fresh, moment)
    }

    /// Waits for the lock and lists what the zone has.
    ///
    /// promise listing-is-of-one-moment: It lists what the zone of this lock had at one moment,
    /// within its limit (`IsListing`, `IsListingUnderLock`).
    pub fn list<R: Wait>(&self, rt: &R) -> Result<Listing, AllocError>
        ensures { IfOk result (IsListingUnderLock D.opened) }
    {
        list_locked(&*self.inner.lock(rt))
    }

    /// Waits for the lock and tells the zone's figures, as `figures_locked` does.
    ///
    /// promise figures-are-of-one-moment: Figures are those of a sound zone that stood behind this
    /// lock, with bandwidth in use within the limit (`AreFigures`, `AreFiguresUnderLock`).
    pub fn figures<R: Wait>(&self, rt: &R, pools: &mut Vec<Figures>) -> ZoneFigures
        requires empty { pools.old.items ≡ [] }
        requires room { 16 ≤ vec_capacity pools.old }
        ensures figures { AreFiguresUnderLock D.opened result pools.new.items }
        ensures within { result.in_use ≤ result.limit }
    {
        figures_locked(&*self.inner.lock(rt), pools)
    }

    /// Waits for the lock and puts rows of endpoints at places below this one into `rows`, as
    /// `endpoints_locked` does. Returns the place below which the next ones stand; 0 if there are
    /// none.
    ///
    /// promise rows-are-of-one-moment: Rows are those of a zone that stood behind this lock, one
    /// for each place below the given one, as many as there is room for; likewise of calls. Each
    /// endpoint and each call has one place, and rows fall by it (`IsEndpointRow`,
    /// `AreEndpointRowsBelow`, `AreCallRowsBelow`).
    pub fn endpoints_below<R: Wait>(
        &self,
        rt: &R,
        place: usize,
        rows: &mut Vec<EndpointRow>,
    ) -> usize
        requires empty { rows.old.items ≡ [] }
        ensures rows { AreEndpointsUnderLock D.opened place rows.new.items result }
        ensures each { All (IsEndpointUnderLock D.opened) rows.new.items }
        ensures full { 0 < result → vec_len rows.new ≡ vec_capacity rows.new }
        ensures room { vec_capacity rows.new ≡ vec_capacity rows.old }
    {
        endpoints_locked(&*self.inner.lock(rt), place, rows)
    }

    /// Waits for the lock and puts rows of calls at places below this one into `rows`, as
    /// `calls_locked` does. Returns the place below which the next ones stand; 0 if there are none.
    pub fn calls_below<R: Wait>(&self, rt: &R, place: usize, rows: &mut Vec<CallRow>) -> usize
        requires empty { rows.old.items ≡ [] }
        ensures rows { AreCallsUnderLock D.opened place rows.new.items result }
        ensures each { All (IsCallUnderLock D.opened) rows.new.items }
        ensures full { 0 < result → vec_len rows.new ≡ vec_capacity rows.new }
        ensures room { vec_capacity rows.new ≡ vec_capacity rows.old }
    {
        calls_locked(&*self.inner.lock(rt), place, rows)
    }

    /// Waits for the lock and ends a chapter. It is refused as NoBase only if the state in which
    /// the chapter would begin was let go.
    ///
    /// promise waiting-cut-is-a-chapter: It gives a chapter of what stood behind this lock
    /// (`IsChapterUnderLock`).
    pub fn cut<R: Wait>(&self, rt: &R) -> Result<Chapter, CutFault>
        ensures chapter { IfOk result (IsChapterUnderLock D.opened) }
        ensures no_base { result ≡ Err CutFault.NoBase → IsWithoutBase D.opened }
    {
        cut_locked(&mut *self.inner.lock(rt))
    }

    /// Waits for the lock and takes the entries so far out of it. Letting them go is for the
    /// caller, once the lock is free. No chapter can be cut afterwards, and steps that come next
    /// aren't recorded; entries of pools that are replaced stand in `room`, which has none yet.
    ///
    /// promise waiting-discard-is-a-book: It gives a book that stood behind this lock
    /// (`IsBookUnderLock`).
    pub fn discard<R: Wait>(&self, rt: &R, room: Vec<Entry>) -> Discarded
        requires { room.items ≡ [] }
        ensures { IsBookUnderLock D.opened result.base result.entries.items }
    {
        discard_locked(&mut *self.inner.lock(rt), room)
    }

    /// Waits for the lock and takes the entries so far out of it, as `hand_out_locked` does.
    ///
    /// promise waiting-hand-out-is-a-book: It gives the entries of a book that stood behind this
    /// lock, with their place (`IsHandedOutUnderLock`).
    pub fn hand_out<R: Wait>(&self, rt: &R, room: Vec<Entry>) -> HandedOut
        requires { room.items ≡ [] }
        ensures { IsHandedOutUnderLock D.opened result.first result.entries.items
            result.is_recorded }
    {
        hand_out_locked(&mut *self.inner.lock(rt), room)
    }

    /// Takes the zone out, with its history since the last chapter. If entries were discarded, so
    /// are those since then, and the history is left without entries. It is refused if and only if
    /// the seats are not all of this lock's; lock and seats then come back.
    ///
    /// promise history-under-the-lock-is-a-run: All steps are a run to the zone, and the seats'
    /// shares add up to its totals; refused if and only if seats are missing, which come back with
    /// the lock (`IsWholeHistory`, `IsLedInUse`).
    pub fn finish(
        self,
        seats: Vec<Seat<D, T, U, V>>,
    ) -> Result<Finished<P>, (Self, Vec<Seat<D, T, U, V>>)>
        ensures all { OnOk result (vec_len seats ≡ D.all) }
        ensures history { IfOk result (IsWholeHistory D.opened) }
        ensures run { IfOk result (λ f. BookRun f.base f.entries f.zone.state) }
        ensures sound { IfOk result (λ f. Sound f.zone.state) }
        ensures opened { IfOk result (λ f. f.first ≡ 0 → f.base ≡ D.opened) }
        ensures first { IfOk result (λ f.
            f.carried.datagrams + f.carried.turns + f.carried.changes ≡ f.first) }
        ensures few { IfOk result (λ f. f.first + length f.entries ≤ 2 ^ 62) }
        ensures datagrams { IfOk result (λ f.
            f.carried.datagrams + datagrams_of f.entries
            ≡ sum_by (λ s. s.datagrams) seats.items) }
        ensures turns { IfOk result (λ f. f.carried.turns + turns_of f.entries
            ≡ sum_by (λ s. s.turns) seats.items) }
        ensures lent { IfOk result (λ f. f.carried.lent + lent_of f.entries
            ≡ sum_by (λ s. s.lent) seats.items) }
        ensures changes { IfOk result (λ f. f.carried.changes + changes_of f.entries
            ≡ sum_by (λ s. s.changes) seats.items) }
        ensures in_use { IfOk result (λ f. IsLedInUse D.opened f.zone.state
            (f.carried.lent + lent_of f.entries)
            (f.carried.returned + returned_by f.base f.entries f.zone.state)) }
        ensures settings { IfOk result (λ f.
            f.base.tables.config ≡ D.opened.tables.config) }
        ensures refused { IfErr result (λ back. vec_len seats ≢ D.all) }
        ensures handed_back { IfErr result (λ back. back.1 ≡ seats) }
    {
        if seats.len() != self.seats {
            return Err((self, seats));
        }
        let ZoneLock {
            alloc: _,
            seats: _,
            inner,
        } = self;
        let mut locked = inner.into_inner();
        audit_all(&mut locked, seats);
        Ok(finish_locked(locked))
    }
}

/// Changes nothing: the seats of a lock have together made what the totals of its history say.
fn audit_all<P: Pool, D: Hall, T: Ledger, U: Ledger, V: Ledger>(
    locked: &mut Locked<P, D, T, U, V>,
    seats: Vec<Seat<D, T, U, V>>,
)
    requires some { 0 < vec_len seats }
    requires all { (D.parts ≡ vec_len seats) × (T.parts ≡ vec_len seats)
        × (U.parts ≡ vec_len seats) × (V.parts ≡ vec_len seats) }
    ensures datagrams { locked.old.carried.datagrams + datagrams_of locked.old.entries
        ≡ sum_by (λ s. s.datagrams) seats.items }
    ensures turns { locked.old.carried.turns + turns_of locked.old.entries
        ≡ sum_by (λ s. s.turns) seats.items }
    ensures lent { locked.old.carried.lent + lent_of locked.old.entries
        ≡ sum_by (λ s. s.lent) seats.items }
    ensures changes { locked.old.carried.changes + changes_of locked.old.entries
        ≡ sum_by (λ s. s.changes) seats.items }
    ensures same { locked.new ≡ locked.old }
{
    let (mut my_datagrams, mut my_turns, mut my_lent, mut my_changes) = merged(seats);
    locked.ledgers.datagrams.audit(&mut my_datagrams);
    locked.ledgers.turns.audit(&mut my_turns);
    locked.ledgers.lent.audit(&mut my_lent);
    locked.ledgers.changes.audit(&mut my_changes);
}

/// The state of a zone, which is the base of its history.
fn base_of<P: Pool>(alloc: Global, zone: &Zone<P>) -> Result<SharedSnapshot, AllocError>
    ensures base { IfOk result (λ base. base ≡ zone.now.state) }
    ensures sound { OnOk result (Sound zone.now.state) }
{
    let snapshot = zone.snapshot()?;
    // The state that a snapshot shows is sound.
    let _ = snapshot.machine();
    SharedSnapshot::new(alloc, snapshot)
}

/// This many seats, which made no step, with the books of their ledgers.
fn seats_of<D: Hall, T: Ledger, U: Ledger, V: Ledger>(
    alloc: Global,
    room: Vec<Seat<D, T, U, V>>,
    seats: usize,
    blanks: Blanks,
) -> (Ledgers<D, T, U, V>, Vec<Seat<D, T, U, V>>)
    requires datagrams { (blanks.datagrams.name ≡ D.name)
        × (blanks.datagrams.parts ≡ D.parts) × (D.parts ≡ seats) }
    requires turns { (blanks.turns.name ≡ T.name)
        × (blanks.turns.parts ≡ T.parts) × (T.parts ≡ seats) }
    requires lent { (blanks.lent.name ≡ U.name)
        × (blanks.lent.parts ≡ U.parts) × (U.parts ≡ seats) }
    requires changes { (blanks.changes.name ≡ V.name)
        × (blanks.changes.parts ≡ V.parts) × (V.parts ≡ seats) }
    requires room { (vec_len room ≡ 0) × (seats ≤ vec_capacity room) }
    ensures datagrams { result.0.datagrams.total ≡ 0 }
    ensures turns { result.0.turns.total ≡ 0 }
    ensures lent { result.0.lent.total ≡ 0 }
    ensures changes { result.0.changes.total ≡ 0 }
    ensures len { vec_len result.1 ≡ seats }
    ensures seats { (k : ℕ) → k < seats → slice_get result.1.items k
        ≡ Some (seated k 0 0 0 0 0) }
{
    let mut all = room;
    let Blanks {
        datagrams,
        turns,
        lent,
        changes,
    } = blanks;
    let (datagrams, mut my_datagrams) = datagrams.open::<D>();
    let (turns, mut my_turns) = turns.open::<T>();
    let (lent, mut my_lent) = lent.open::<U>();
    let (changes, mut my_changes) = changes.open::<V>();
    for number in 0..seats {
        all.push_reserved(Seat {
            number,
            calls: 0,
            datagrams: my_datagrams.split_off(1, 0),
            turns: my_turns.split_off(1, 0),
            lent: my_lent.split_off(1, 0),
            changes: my_changes.split_off(1, 0),
            buffer: Vec::new(alloc),
        });
    }
    (
        Ledgers {
            datagrams,
            turns,
            lent,
            changes,
        },
        all,
    )
}

/// What the seats have together.
fn merged<D: Hall, T: Ledger, U: Ledger, V: Ledger>(
    seats: Vec<Seat<D, T, U, V>>,
) -> (Share<D>, Share<T>, Share<U>, Share<V>)
    requires { 0 < vec_len seats }
    ensures parts { (result.0.parts ≡ vec_len seats) × (result.1.parts ≡ vec_len seats)
        × (result.2.parts ≡ vec_len seats) × (result.3.parts ≡ vec_len seats) }
    ensures datagrams { result.0.amount ≡ sum_by (λ s. s.datagrams) seats.items }
    ensures turns { result.1.amount ≡ sum_by (λ s. s.turns) seats.items }
    ensures lent { result.2.amount ≡ sum_by (λ s. s.lent) seats.items }
    ensures changes { result.3.amount ≡ sum_by (λ s. s.changes) seats.items }
{
    let mut seats = seats;
    let Some(first) = seats.pop() else {
        unreachable!()
    };
    let Seat {
        number: _,
        calls: _,
        mut datagrams,
        mut turns,
        mut lent,
        mut changes,
        buffer: _,
    } = first;
    while let Some(seat) = seats.pop() {
        let Seat {
            number: _,
            calls: _,
            datagrams: d,
            turns: t,
            lent: u,
            changes: v,
            buffer: _,
        } = seat;
        datagrams.merge(d);
        turns.merge(t);
        lent.merge(u);
        changes.merge(v);
    }
    (datagrams, turns, lent, changes)
}
