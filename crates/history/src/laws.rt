//! What holds of worlds in every order of their steps.

ghost use Rattle.std.specs.Prelude.{◌≡◌, ◌≤◌, ℕ, List, Some, length, slice_get};
ghost use Rattle.zone_events.specs.declared.outcome.Datagram.{Datagram};
ghost use Rattle.history.specs.Workers.{WorkerState};
ghost use Rattle.history.specs.Worlds.{Happens, IsInOrder, Scene};
ghost use Rattle.history.specs.Orders.{AreServedInOrder, Deed, Interleaving, outputs_of_worker};

use crate::world::{Acted, WorldStep};

/// Whatever the workers do, in whichever order, and whichever pools are replaced meanwhile: the
/// book leads from where the world began to the zone's state, the zone is sound, and each worker's
/// replies are served in order. Where the world began stays.
///
/// promise every-interleaving-is-a-run: Whatever acts and replacements come, in any order, replies
/// and zone are a run of the machine (`IsInOrder`).
pub fn every_interleaving_is_in_order()
    ensures { (x y : Scene) (deeds : List Deed) → IsInOrder x
        → Interleaving x deeds y → IsInOrder y × (y.base ≡ x.base) }
{}

/// Of each worker's outputs that were not dropped, the first were taken, the next wait in its ring,
/// and the last one is in its hand.
///
/// promise replies-are-taken-in-order: Replies of each worker are taken in order, each once, but
/// for dropped ones (`AreServedInOrder`, `Interleaving`).
pub fn replies_are_served_in_order()
    ensures { (x : Scene) (w : ℕ) (k : WorkerState) → IsInOrder x
        → slice_get x.workers w ≡ Some k → AreServedInOrder x w k }
{}

/// If n outputs of a worker were taken before, the one that is taken is number n, counted from 0,
/// of its outputs that were not dropped.
///
/// promise next-reply-is-taken: What is taken from a ring is its next reply.
pub fn the_next_reply_is_taken()
    ensures { (x y : Scene) (w : ℕ) (k : WorkerState) (output : Datagram) → IsInOrder x
        → slice_get x.workers w ≡ Some k → Happens x (WorldStep.Take w) (Acted.Took output) y
        → slice_get (outputs_of_worker x w k) k.taken ≡ Some output }
{}

/// A reply is dropped only if the ring has as many as it has places.
///
/// promise only-a-full-ring-drops: A reply is dropped only by a post to a full ring.
pub fn a_reply_is_dropped_only_by_a_full_ring()
    ensures { (x y : Scene) (w : ℕ) (k : WorkerState) → slice_get x.workers w ≡ Some k
        → Happens x (WorldStep.Post w) Acted.Dropped y → x.capacity ≤ length k.ring }
{}
