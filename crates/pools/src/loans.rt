//! What a pool has lent, and what it answered last.
ghost use Rattle.std.specs.Prelude.{◌≡◌, ◌-◌, ◌≤◌};
ghost use Rattle.pools.specs.Account.{MayAsk, IsAnswer, opening_account};
ghost use Rattle.pools.specs.Account.{account_after_answer, account_after_return};

use crate::interface::{Figures, Lend};
use std::marker::Model;

/// The books that every kind of pool keeps. They are seen as the pool's account.
#[derive(Debug, Drop)]
pub struct Loans {
    figures: Figures,
    last: Option<(u64, Lend)>,
}

impl Model for Loans {
    ghost use Rattle.std.specs.Prelude.{◌≤◌};
    ghost use Rattle.pools.specs.Account.{Account};

    ghost Value = { Account };

    ghost view = { λ l. record { figures = l.figures; last = l.last } };

    ghost invariant = { λ l. l.figures.lent ≤ l.figures.limit };
}

impl Loans {
    /// The books of a pool that was asked nothing yet.
    pub fn new(limit: u64) -> Loans
        ensures { result ≡ opening_account limit }
    {
        Loans {
            figures: Figures {
                limit,
                lent: 0,
                refusals: 0,
                waits: 0,
            },
            last: None,
        }
    }

    pub fn figures(&self) -> Figures
        ensures value { result ≡ self.now.figures }
        ensures within { result.lent ≤ result.limit }
    {
        self.figures
    }

    pub fn last(&self) -> Option<(u64, Lend)>
        ensures { result ≡ self.now.last }
    {
        self.last
    }

    /// The units that are not lent.
    pub fn left(&self) -> u64
        ensures { result ≡ self.now.figures.limit - self.now.figures.lent }
    {
        self.figures.limit - self.figures.lent
    }

    /// Enters the answer to a request.
    pub fn enter(&mut self, asked: u64, answer: Lend)
        requires may { MayAsk self.old asked }
        requires answer { IsAnswer self.old.figures asked answer }
        ensures { self.new ≡ account_after_answer self.old asked answer }
    {
        match answer {
            Lend::Lent(n) => self.figures.lent += n,
            Lend::Refused => self.figures.refusals += 1,
            Lend::Wait => self.figures.waits += 1,
        }
        self.last = Some((asked, answer));
    }

    pub fn take_back(&mut self, n: u64)
        requires { n ≤ self.old.figures.lent }
        ensures { self.new ≡ account_after_return self.old n }
    {
        self.figures.lent -= n;
    }
}
