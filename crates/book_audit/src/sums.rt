//! Totals of parts of a history.

ghost use Rattle.std.specs.Prelude.{◌≡◌, ◌≤◌, ◌+◌, ◌*◌, ◌^◌, ◌↔◌, IsTrue, length};
ghost use Rattle.books.specs.Totals.{no_totals, totals_with};
ghost use Rattle.book_audit.specs.Joined.{entries_of};

use books::{Chapter, Entry, Totals, totals_of};

/// Totals with those of these entries. What came back stays as it is.
pub(crate) fn totals_after(totals: Totals, entries: &[Entry]) -> Totals
    requires steps { totals.datagrams + totals.turns + totals.changes + length entries.now
        ≤ 2 ^ 62 }
    requires units { totals.lent ≤ 2 ^ 64 * (totals.datagrams + totals.turns + totals.changes) }
    ensures totals { result ≡ totals_with totals entries.now 0 }
    ensures steps { result.datagrams + result.turns + result.changes
        ≡ totals.datagrams + totals.turns + totals.changes + length entries.now }
    ensures units { result.lent ≤ 2 ^ 64 * (result.datagrams + result.turns + result.changes) }
{
    let more = totals_of(entries);
    Totals {
        datagrams: totals.datagrams + more.datagrams,
        turns: totals.turns + more.turns,
        lent: totals.lent + more.lent,
        returned: totals.returned,
        changes: totals.changes + more.changes,
    }
}

/// The totals of the entries of these chapters. What came back isn't told by them, and is 0 here.
pub(crate) fn totals_in(chapters: &[Chapter]) -> Totals
    requires { length (entries_of chapters.now) ≤ 2 ^ 62 }
    ensures totals { result ≡ totals_with no_totals (entries_of chapters.now) 0 }
    ensures steps { result.datagrams + result.turns + result.changes
        ≡ length (entries_of chapters.now) }
    ensures units { result.lent ≤ 2 ^ 64 * (result.datagrams + result.turns + result.changes) }
{
    let mut totals = Totals::none();
    for chapter in chapters {
        totals = totals_after(totals, chapter.entries());
    }
    totals
}

/// Whether two totals are the same.
pub(crate) fn are_same(a: &Totals, b: &Totals) -> bool
    ensures { IsTrue result ↔ (a.now ≡ b.now) }
{
    a.datagrams == b.datagrams
        && a.turns == b.turns
        && a.lent == b.lent
        && a.returned == b.returned
        && a.changes == b.changes
}
