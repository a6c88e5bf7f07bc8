//! The audit.

ghost use Rattle.std.specs.Prelude.{◌≡◌, IfErr, IfOk, OnOk, length};
ghost use Rattle.books.specs.Books.{BookRun};
ghost use Rattle.book_audit.specs.Audits.{IsFault};
ghost use Rattle.book_audit.specs.Joined.{AreTotals, IsJoined, beginning, history_entries};
ghost use Rattle.book_audit.specs.Receipts.{AreGoodBelow, AreTold};

use crate::fault::AuditFault;
use crate::joined::joined_totals;
use crate::receipts::check_receipts;
use books::{Chapter, Finished, Receipt, Totals};
use pools::Pool;

/// The totals of a whole history: its chapters in their order, and what is left of it behind them.
/// If there are as many receipts as entries, the receipts tell of each entry.
///
/// It is refused as NotJoined if and only if the first place isn't 0, a chapter or the rest doesn't
/// begin at the place and in the state to which the one before it leads, or the totals that were
/// carried aren't those of the chapters. Else the first receipt that isn't good is told of, by its
/// first fault: its place isn't in the history, the entry there is another one, an earlier receipt
/// has this place, or an earlier receipt of its seat has a higher one. This takes no memory, and it
/// looks for each receipt at all chapters and at all receipts before it.
///
/// promise audit-passes-if-joined-and-good: A history passes if and only if its chapters are joined
/// and its receipts good; else the fault is the first (`IsJoined`, `IsGood`, `IsFault`).
/// promise audited-history-is-a-run: If an audit passes, the entries are a run with these totals, and
/// as many receipts as entries tell each. It wants no memory (`AreTotals`, `AreTold`).
pub fn audit<P: Pool>(
    chapters: &[Chapter],
    finished: &Finished<P>,
    receipts: &[Receipt],
) -> Result<Totals, AuditFault>
    ensures joined { OnOk result (IsJoined chapters.now finished.now) }
    ensures run { OnOk result (BookRun (beginning chapters.now finished.now)
        (history_entries chapters.now finished.now) finished.now.zone.state) }
    ensures receipts { OnOk result (AreGoodBelow (history_entries chapters.now finished.now)
        receipts.now (length receipts.now)) }
    ensures whole { OnOk result (length receipts.now
        ≡ length (history_entries chapters.now finished.now)
        → AreTold (history_entries chapters.now finished.now) receipts.now) }
    ensures totals { IfOk result (AreTotals (beginning chapters.now finished.now)
        (history_entries chapters.now finished.now) finished.now.zone.state) }
    ensures err { IfErr result (IsFault chapters.now finished.now receipts.now) }
{
    let Some(totals) = joined_totals(chapters, finished) else {
        return Err(AuditFault::NotJoined);
    };
    check_receipts(chapters, finished.entries(), receipts)?;
    Ok(totals)
}
