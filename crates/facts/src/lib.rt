//! How tests name the fact that failed.
#![tactic(auto)]

use std::test::Fail;

/// Fails with this fact, unless it holds.
pub fn ensure(holds: bool, fact: &str) -> Result<(), Fail> {
    if holds {
        Ok(())
    } else {
        Err(Fail::new(format_args!("it doesn't hold that {fact}")))
    }
}

/// Fails with the first of these facts that doesn't hold.
///
/// One call of it is cheaper to prove than a chain of `ensure`, each of which is an exit.
pub fn all_hold(facts: &[(bool, &str)]) -> Result<(), Fail> {
    for (holds, fact) in facts {
        ensure(*holds, fact)?;
    }
    Ok(())
}

/// Fails with the name of a row of a table of cases and this fact of it, unless it holds.
pub fn ensure_of(row: &str, holds: bool, fact: &str) -> Result<(), Fail> {
    if holds {
        Ok(())
    } else {
        Err(Fail::new(format_args!("{row}: it doesn't hold that {fact}")))
    }
}

/// This fact, unless it holds. It can be let go, and can leave a thread.
pub fn expect(holds: bool, fact: &'static str) -> Result<(), &'static str> {
    if holds { Ok(()) } else { Err(fact) }
}
