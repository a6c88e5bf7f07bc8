//! What the tests of the lock and of the server share.

use facts::expect;

/// The units of the worked call.
pub const CALL: u64 = 1_280;

/// What a test returns: the first fact that doesn't hold, if any. It can be let go, and can leave a
/// thread.
pub type Looked = Result<(), &'static str>;

/// The first of these facts that doesn't hold, if any.
pub fn all_hold(facts: &[(bool, &'static str)]) -> Looked {
    for (holds, fact) in facts {
        expect(*holds, fact)?;
    }
    Ok(())
}
