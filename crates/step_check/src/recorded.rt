//! A lender that repeats a recorded answer.

ghost use Rattle.std.specs.Prelude.{◌≡◌, ◌↔◌, ◌≤◌, IsTrue};
ghost use Rattle.pools.specs.Account.{IsAnswer};
ghost use Rattle.step_check.specs.Recorded.{Repeats};

use pools::{Figures, Lend};
use zone_tables::{Lender, PoolFigures};

/// Repeats a recorded answer if a pool may give it, and refuses else. Nothing is lent.
pub struct Recorded {
    pub answer: Option<Lend>,
}

// By hand, so that it is one call where one is dropped.
impl Drop for Recorded {
    fn drop(self) {
        let Recorded { answer: _ } = self;
    }
}

impl Lender for Recorded {
    ghost use Rattle.std.specs.Prelude.{List};
    ghost use Rattle.zone_tables.specs.Pools.{figures_at};
    ghost use Rattle.step_check.specs.Recorded.{Repeats};

    ghost lends_for = { λ lender figures. Unit {0} };

    ghost lends = { λ old figures requested answer new.
        Repeats old.answer (figures_at figures requested.pool) requested.units answer };

    fn ask(&mut self, pools: &PoolFigures, pool: usize, units: u64, _least: u64) -> Lend {
        repeated(pools.get(pool), units, self.answer)
    }
}

/// The recorded answer to a request for units, if a pool with these figures may give it; else a
/// refusal.
fn repeated(figures: Figures, units: u64, recorded: Option<Lend>) -> Lend
    requires { figures.lent ≤ figures.limit }
    ensures repeats { Repeats recorded figures units result }
    ensures answer { IsAnswer figures units result }
{
    match recorded {
        Some(answer) if may_answer(figures, units, answer) => answer,
        _ => Lend::Refused,
    }
}

/// Whether a pool with these figures may give this answer to a request for units.
fn may_answer(figures: Figures, units: u64, answer: Lend) -> bool
    requires { figures.lent ≤ figures.limit }
    ensures { IsTrue result ↔ IsAnswer figures units answer }
{
    match answer {
        Lend::Lent(n) => 1 <= n && n <= units && n <= figures.limit - figures.lent,
        Lend::Refused | Lend::Wait => true,
    }
}
