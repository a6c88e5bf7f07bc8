//! Whether the chapters of a history belong together.

ghost use Rattle.std.specs.Prelude.{◌≡◌, ◌≤◌, ◌+◌, ◌-◌, ◌*◌, ◌^◌, ◌↔◌, IsTrue, IfNone, IfSome};
ghost use Rattle.std.specs.Prelude.{OnSome};
ghost use Rattle.std.specs.Bool.{OnTrue};
ghost use Rattle.admission.specs.Calls.{in_use};
ghost use Rattle.books.specs.Books.{BookRun};
ghost use Rattle.book_audit.specs.Joined.{AreTotals, ChaptersLead, IsJoined, beginning};
ghost use Rattle.book_audit.specs.Joined.{chapters_totals, entries_of, history_entries};
ghost use Rattle.book_audit.specs.inside.Runs.{AreRuns};

use crate::sums::{are_same, totals_after, totals_in};
use books::{Chapter, Finished, Totals};
use pools::Pool;
use ras_machine::Machine;

/// The totals of a history that is joined. None, if it isn't.
pub(crate) fn joined_totals<P: Pool>(chapters: &[Chapter], finished: &Finished<P>) -> Option<Totals>
    ensures joined { OnSome result (IsJoined chapters.now finished.now) }
    ensures run { OnSome result (BookRun (beginning chapters.now finished.now)
        (history_entries chapters.now finished.now) finished.now.zone.state) }
    ensures totals { IfSome result (AreTotals (beginning chapters.now finished.now)
        (history_entries chapters.now finished.now) finished.now.zone.state) }
    ensures none { IfNone result (IsJoined chapters.now finished.now → ⊥) }
{
    let start = beginning(chapters, finished);
    let base = finished.base();
    if !do_lead(chapters, start, finished.first(), base) {
        return None;
    }
    let mut totals = totals_in(chapters);
    totals.returned = returned_between(start, totals.lent, base);
    if !are_same(&totals, &finished.carried()) {
        return None;
    }
    totals = totals_after(totals, finished.entries());
    totals.returned = returned_between(start, totals.lent, finished.zone().machine());
    Some(totals)
}

/// The state with which the history began.
fn beginning<'a, P: Pool>(chapters: &'a [Chapter], finished: &'a Finished<P>) -> &'a Machine
    ensures { result.now ≡ beginning chapters.now finished.now }
{
    match chapters.first() {
        Some(chapter) => chapter.base().machine(),
        None => finished.base(),
    }
}

/// What came back from one state to the other, if `lent` units were lent between them.
fn returned_between(start: &Machine, lent: u128, last: &Machine) -> u128
    requires few { lent ≤ 2 ^ 126 }
    requires fair { in_use last.now.tables.calls ≤ in_use start.now.tables.calls + lent }
    ensures { result ≡ in_use start.now.tables.calls + lent - in_use last.now.tables.calls }
{
    start.tables().calls().total() as u128 + lent - last.tables().calls().total() as u128
}

/// Whether the chapters lead from place 0 and the one state to this place and the other state.
fn do_lead(chapters: &[Chapter], start: &Machine, last_place: usize, last: &Machine) -> bool
    ensures lead { IsTrue result ↔ ChaptersLead 0 start.now chapters.now last_place last.now }
    ensures runs { OnTrue result (AreRuns chapters.now) }
{
    let mut place = 0;
    let mut state = start;
    for chapter in chapters {
        let end = chapter.end().machine();
        if chapter.first() != place || !chapter.base().machine().is_same(state) {
            return false;
        }
        place += chapter.entries().len();
        state = end;
    }
    place == last_place && state.is_same(last)
}
