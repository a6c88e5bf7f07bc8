//! Several rings at once.
ghost use Rattle.std.specs.Prelude.{◌≡◌, ◌≤◌, IfOk, vec_len};
ghost use Rattle.reply_queues.specs.Rings.{EachIsNewRing};

use crate::inlet::Inlet;
use crate::outlet::Outlet;
use rtrb::RingBuffer;
use std::alloc::{AllocError, Global};

/// The most rings that are made at once.
pub const MAX_RINGS: usize = 16;

/// The most datagrams that a ring has room for.
pub const MAX_CAPACITY: usize = 4096;

/// `n` empty rings, each with room for `capacity` datagrams: the outlets in one list, and in the
/// other at the same places the inlets.
pub fn rings(
    alloc: Global,
    n: usize,
    capacity: usize,
) -> Result<(Vec<Outlet>, Vec<Inlet>), AllocError>
    requires count { n ≤ MAX_RINGS }
    requires capacity { (1 ≤ capacity) × (capacity ≤ MAX_CAPACITY) }
    ensures outlets { IfOk result (λ ends. vec_len ends.0 ≡ n) }
    ensures inlets { IfOk result (λ ends. vec_len ends.1 ≡ n) }
    ensures rings { IfOk result (λ ends. EachIsNewRing capacity ends.0.items ends.1.items) }
{
    let mut outlets = Vec::with_capacity(alloc, n)?;
    let mut inlets = Vec::with_capacity(alloc, n)?;
    for _ring in 0..n {
        let (producer, consumer) = RingBuffer::new(alloc, capacity)?;
        outlets.push_reserved(Outlet { producer });
        inlets.push_reserved(Inlet { consumer, taken: 0 });
    }
    Ok((outlets, inlets))
}
