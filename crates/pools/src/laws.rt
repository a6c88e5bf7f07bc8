//! What holds of the members of a set, whatever its pools are.
ghost use Rattle.std.specs.Prelude.{◌≡◌, ◌≢◌, ◌+◌, ◌<◌, ℕ, List, length, slice_set, IsTrue, All};
ghost use Rattle.pools.specs.Account.{is_idle};
ghost use Rattle.pools.specs.Members.{Member, member_at, total_loans};

/// If one member of a list changes, the number of members stays, and the others stay. What all
/// pools have lent changes by the same number of units as what that pool has lent.
pub fn one_member_changes()
    ensures count { (members : List Member) (i : ℕ) (after : Member) →
        length (slice_set members i after) ≡ length members }
    ensures changed { (members : List Member) (i : ℕ) (after : Member) → i < length members →
        member_at (slice_set members i after) i ≡ after }
    ensures others { (members : List Member) (i j : ℕ) (after : Member) → j ≢ i →
        member_at (slice_set members i after) j ≡ member_at members j }
    ensures total { (members : List Member) (i : ℕ) (after : Member) → i < length members →
        total_loans (slice_set members i after) + (member_at members i).account.figures.lent
        ≡ total_loans members + after.account.figures.lent }
{}

/// Idle pools have lent nothing at all.
pub fn idle_pools_lend_nothing()
    ensures { (members : List Member) → All (λ m. IsTrue (is_idle m.account)) members →
        total_loans members ≡ 0 }
{}
