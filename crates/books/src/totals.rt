//! What the steps of a history add up to.

ghost use Rattle.std.specs.Prelude.{◌≡◌, ◌≤◌, ◌<◌, ◌+◌, ◌*◌, ◌^◌, length};
ghost use Rattle.books.specs.Totals.{changes_of_kind, datagrams_of_kind, no_totals, totals_with};
ghost use Rattle.books.specs.Totals.{turns_of_kind, units_lent};

use crate::book::Entry;
use crate::kind::StepKind;
use pools::Lend;

/// How many datagrams and how many turns there were, how many units were lent, how many came back,
/// and how many pools took the place of another one.
#[derive(Clone, Copy, Debug, PartialEq, Eq)]
pub struct Totals {
    pub datagrams: u64,
    pub turns: u64,
    pub lent: u128,
    pub returned: u128,
    pub changes: u64,
}

impl Totals {
    /// The totals of no steps.
    pub fn none() -> Self
        ensures { result ≡ no_totals }
    {
        Totals {
            datagrams: 0,
            turns: 0,
            lent: 0,
            returned: 0,
            changes: 0,
        }
    }

    /// The totals with one step more, of this kind and with this answer of a pool, in which nothing
    /// came back.
    pub fn with_step(self, kind: StepKind, answer: Option<Lend>) -> Self
        requires steps { self.datagrams + self.turns + self.changes + 1 < 2 ^ 64 }
        requires units { self.lent + 2 ^ 64 < 2 ^ 128 }
        ensures datagrams { result.datagrams ≡ self.datagrams + datagrams_of_kind kind }
        ensures turns { result.turns ≡ self.turns + turns_of_kind kind }
        ensures lent { result.lent ≡ self.lent + units_lent answer }
        ensures few { units_lent answer < 2 ^ 64 }
        ensures returned { result.returned ≡ self.returned }
        ensures changes { result.changes ≡ self.changes + changes_of_kind kind }
    {
        Totals {
            datagrams: self.datagrams + kind.datagrams(),
            turns: self.turns + kind.turns(),
            lent: self.lent + units_lent(answer) as u128,
            returned: self.returned,
            changes: self.changes + kind.changes(),
        }
    }
}

/// What these steps add up to. What came back is not told by the steps alone, and is 0 here.
///
/// promise totals-are-sums: Totals are sums over the entries; a loan that went back counts as lent
/// (`totals_with`, `units_lent`).
pub fn totals_of(entries: &[Entry]) -> Totals
    ensures totals { result ≡ totals_with no_totals entries.now 0 }
    ensures few { result.lent ≤ 2 ^ 64 * length entries.now }
{
    let mut totals = Totals::none();
    for entry in entries {
        totals = totals.with_step(StepKind::of(&entry.event), entry.outcome.answer);
    }
    totals
}

/// The units that a pool lent by its answer.
pub fn units_lent(answer: Option<Lend>) -> u64
    ensures { result ≡ units_lent answer }
{
    match answer {
        Some(Lend::Lent(units)) => units,
        Some(Lend::Refused) => 0,
        Some(Lend::Wait) => 0,
        None => 0,
    }
}
