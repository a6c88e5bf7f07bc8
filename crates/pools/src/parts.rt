//! Loans of more units than one request asks for.
ghost use Rattle.std.specs.Prelude.{◌≡◌, ◌≤◌, IsTrue, MatchOption};
ghost use Rattle.pools.specs.Account.{account_without_loans, is_idle};
ghost use Rattle.pools.specs.Replacing.{account_with_loans, loans_for, FellShort};

use crate::interface::{Lend, Pool};

/// The most units that one request asks for: the most that a `BandWidth` of H.225.0 names.
const MOST_ASKED: u64 = 4_294_967_295;

/// Asks an idle pool for any number of units, in loans that are each of the lesser of 4,294,967,295
/// units and what is still to be lent. It returns how many loans these are. If an answer is no loan
/// of all that was asked, the pool is asked no more, and takes back all that it lent: None.
pub fn lend_in_parts<P: Pool>(pool: &mut P, units: u64) -> Option<u64>
    requires { IsTrue (is_idle (P.account pool.old)) }
    ensures count { MatchOption result
        (FellShort (P.account pool.old) units (P.account pool.new))
        (λ loans. loans ≡ loans_for units) }
    ensures after { MatchOption result
        ((P.account pool.new).figures.lent ≡ 0)
        (λ _. P.account pool.new ≡ account_with_loans (P.account pool.old) units) }
    ensures within { MatchOption result Unit
        (λ _. units ≤ (P.account pool.old).figures.limit) }
{
    let mut left = units;
    let mut loans = 0;
    while left > 0 {
        let asked = left.min(MOST_ASKED);
        if pool.lend(asked) != Lend::Lent(asked) {
            return_loans(pool);
            return None;
        }
        left -= asked;
        loans += 1;
    }
    Some(loans)
}

/// Gives back to a pool all that it has lent. It is called only if that is something.
fn return_loans<P: Pool>(pool: &mut P)
    ensures { P.account pool.new ≡ account_without_loans (P.account pool.old) }
{
    let n = pool.lent();
    if n > 0 {
        pool.take_back(n);
    }
}
