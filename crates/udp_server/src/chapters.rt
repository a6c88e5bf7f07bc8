//! How the history is kept short while a server runs.

ghost use Rattle.std.specs.Prelude.{◌≡◌, ◌<◌, [], IsFalse, IsTrue, OnErr, OnOk, vec_capacity};
ghost use Rattle.std.specs.Prelude.{vec_len};
ghost use Rattle.udp_server.specs.LatestChapters.{AreLatest, AreLetGo, IsChapterDue};
ghost use Rattle.udp_server.specs.LatestChapters.{IsEndedIfDue, IsKeptBehind, IsNoChapterDue};
ghost use Rattle.udp_server.specs.LatestChapters.{kept, place_behind};

use crate::gate::Gate;
use crate::plan::Plan;
use crate::worker::Shared;
use books::{Chapter, Entry};
use pools::Pool;
use std::alloc::{AllocError, Global};
use std::mem;
use std::sync::Wait;
use std::sync::ledger::Ledger;
use zone_lock::{Discarded, Hall};

/// The latest chapters, and the place of the first entry behind them. If no chapter is kept, the
/// room of the entries that were let go last: the next ones stand there.
#[derive(Drop)]
pub(crate) struct Chapters {
    latest: Vec<Chapter>,
    first: usize,
    room: Vec<Entry>,
    ghost room_is_empty: { room.items ≡ [] },
}

impl Chapters {
    /// No chapter has ended.
    pub(crate) fn new(alloc: Global) -> Chapters
        ensures latest { result.latest.items ≡ [] }
        ensures first { result.first ≡ 0 }
    {
        Chapters {
            latest: Vec::new(alloc),
            first: 0,
            room: Vec::new(alloc),
        }
    }

    /// Ends a chapter if one is due by the plan: a step was the entry at this place. If no chapter
    /// is kept, none is made: the entries are let go, once the lock is free.
    ///
    /// promise server-keeps-its-latest-chapters: The chapters that are kept change only behind a
    /// step at which one is due: then one of what stood behind the lock comes behind them, and the
    /// oldest one goes if they were as many as the plan says (`IsChapterDue`, `AreLatest`).
    /// promise server-counts-entries-behind-a-chapter: Behind a chapter that ended, the next one is
    /// due once there are as many entries again (`IsEndedIfDue`, `IsChapterCut`, `AreLetGo`).
    pub(crate) fn end_if_due<P: Pool, D: Hall, T: Ledger, U: Ledger, V: Ledger, R: Wait, G: Gate>(
        &mut self,
        shared: &Shared<'_, P, D, T, U, V, R, G>,
        place: usize,
    ) -> Result<(), AllocError>
        ensures latest { AreLatest D.opened shared.now.plan.latest
            self.old.latest.items self.new.latest.items }
        ensures none_due { IsNoChapterDue shared.now.plan.chapter self.old.first place
            → (self.new.first ≡ self.old.first) × (self.new.latest.items ≡ self.old.latest.items) }
        ensures ended { OnOk result (IsEndedIfDue D.opened shared.now.plan place
            (kept self.old.latest.items self.old.first)
            (kept self.new.latest.items self.new.first)) }
        ensures due { OnErr result
            (IsChapterDue shared.now.plan.chapter self.old.first place) }
        ensures err { OnErr result (self.new.latest.items ≡ self.old.latest.items) }
        ensures place { OnErr result (self.new.first ≡ self.old.first) }
    {
        if !self.is_due(shared.plan, place) {
            return Ok(());
        }
        if shared.plan.latest == 0 {
            self.let_go(shared);
            return Ok(());
        }
        self.make_room(shared.plan)?;
        let Ok(chapter) = shared.lock.cut(shared.rt) else {
            return Err(AllocError);
        };
        self.keep(shared.plan, chapter);
        Ok(())
    }

    /// Whether a chapter is due by the plan behind a step whose entry is at this place.
    fn is_due(&self, plan: Plan, place: usize) -> bool
        ensures due { IsTrue result → IsChapterDue plan.chapter self.now.first place }
        ensures none { IsFalse result → IsNoChapterDue plan.chapter self.now.first place }
    {
        plan.chapter != 0 && place.saturating_sub(self.first) >= plan.chapter - 1
    }

    /// Lets the entries so far go, once the lock is free.
    fn let_go<P: Pool, D: Hall, T: Ledger, U: Ledger, V: Ledger, R: Wait, G: Gate>(
        &mut self,
        shared: &Shared<'_, P, D, T, U, V, R, G>,
    )
        ensures latest { self.new.latest ≡ self.old.latest }
        ensures gone { AreLetGo D.opened (kept self.old.latest.items self.old.first)
            (kept self.new.latest.items self.new.first) }
    {
        let room = mem::replace(&mut self.room, Vec::new(shared.alloc));
        let Discarded {
            base: _,
            mut entries,
        } = shared.lock.discard(shared.rt, room);
        self.first = self.first.saturating_add(entries.len());
        entries.clear();
        self.room = entries;
    }

    /// Makes room for a chapter, if it is to be kept beside those that are there.
    fn make_room(&mut self, plan: Plan) -> Result<(), AllocError>
        ensures room { OnOk result (vec_len self.new.latest < plan.latest
            → vec_len self.new.latest < vec_capacity self.new.latest) }
        ensures same { self.new.latest.items ≡ self.old.latest.items }
        ensures place { self.new.first ≡ self.old.first }
    {
        if self.latest.len() < plan.latest {
            self.latest.reserve(1)?;
        }
        Ok(())
    }

    /// Keeps a chapter, and lets the oldest one go if there are as many as are kept. The first entry
    /// is then the one behind it.
    fn keep(&mut self, plan: Plan, chapter: Chapter)
        requires some { 0 < plan.latest }
        requires room { vec_len self.old.latest < plan.latest
            → vec_len self.old.latest < vec_capacity self.old.latest }
        ensures latest { IsKeptBehind plan.latest chapter
            self.old.latest.items self.new.latest.items }
        ensures first { self.new.first ≡ place_behind chapter.first chapter.entries }
    {
        self.first = chapter.first().saturating_add(chapter.entries().len());
        if self.latest.len() >= plan.latest {
            let _ = self.latest.remove(0);
        }
        self.latest.push_reserved(chapter);
    }

    /// The latest chapters, in order.
    pub(crate) fn into_latest(self) -> Vec<Chapter>
        ensures { result ≡ self.latest }
    {
        self.latest
    }
}
