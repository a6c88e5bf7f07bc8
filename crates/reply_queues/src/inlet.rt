//! The end of a ring that takes.
ghost use Rattle.std.specs.Prelude.{◌≡◌};
ghost use Rattle.rtrb.specs.Ring.{received};
ghost use Rattle.reply_queues.specs.Counts.{saturating_count};

use crate::outlet::Ended;
use rtrb::Consumer;
use zone_events::Datagram;

/// The end that takes datagrams out of a ring. It may move to another thread than the outlet's.
#[derive(Drop)]
pub struct Inlet {
    pub(crate) consumer: Consumer<Datagram>,
    pub(crate) taken: u64,
    ghost counted: { taken ≡ saturating_count (received consumer) },
}

/// What is known of a ring of which nothing more is taken.
#[derive(Clone, Copy, PartialEq, Eq, Debug)]
pub enum Settled {
    /// All that was put was taken, in order, whole and once; `taken` datagrams were. That number
    /// stays at `u64::MAX` once it is there.
    Whole { taken: u64 },
    /// The ring has no mark, so that more could have been put, or something was left in it.
    Unknown,
}

impl Inlet {
    ghost use Rattle.std.specs.Prelude.{◌≡◌, ◌<◌, ◌∷◌, [], ◌++◌, length, IsSome, IfSome, IfNone};
    ghost use Rattle.std.specs.Option.{ForSome};
    ghost use mathlib.Core.List.{IsPrefix};
    ghost use Rattle.reply_queues.specs.Rings.{datagrams_taken, datagrams_seen, all_datagrams};
    ghost use Rattle.reply_queues.specs.Rings.{SameInlet, IsMarkOf, Settles};

    /// Takes the next datagram, if the ring has one. The outlet may put one at any time.
    ///
    /// promise next-datagram-is-taken: The next datagram is taken; one that was seen is given
    /// (`datagrams_taken`, `datagrams_seen`).
    pub fn take(&mut self) -> Option<Datagram>
        ensures ring { SameInlet self.old self.new }
        ensures taken { IfSome result
            (λ next. datagrams_taken self.new ≡ datagrams_taken self.old ++ next ∷ []) }
        ensures unchanged { IfNone result (datagrams_taken self.new ≡ datagrams_taken self.old) }

        // What the inlet has seen comes next, and it looks before it tells that there is none.
        ensures seen_next { IfSome result
            (λ next. IsPrefix (datagrams_seen self.old) (next ∷ datagrams_seen self.new)) }
        ensures given { 0 < length (datagrams_seen self.old) → IsSome result }
        ensures none_seen { IfNone result (datagrams_seen self.new ≡ []) }
    {
        let Inlet { consumer, taken } = self;
        let datagram = consumer.pop().ok()?;
        *taken = taken.saturating_add(1);
        Some(datagram)
    }

    /// Takes nothing more, and tells whether all that was put was taken. What is left in the ring
    /// is let go.
    ///
    /// promise whole-ring-lost-nothing: A ring settles as whole if and only if it has its mark and
    /// nothing is left; then all that was put was taken, in order (`Settles`, `Ends`).
    pub fn settle(self, mark: Option<Ended>) -> Settled
        requires own_mark { ForSome mark (λ ended. IsMarkOf ended self) }
        ensures no_mark { IfNone mark (result ≡ Settled.Unknown) }
        ensures settled { IfSome mark (λ ended. Settles ended self result) }

        // Also if something is left: what was taken is what was put first.
        ensures in_order { IfSome mark
            (λ ended. IsPrefix (datagrams_taken self) (all_datagrams ended)) }
    {
        let Inlet {
            mut consumer,
            taken,
        } = self;
        let Some(Ended { mut finished }) = mark else {
            return Settled::Unknown;
        };
        if consumer.slots_after(&mut finished) == 0 {
            Settled::Whole { taken }
        } else {
            Settled::Unknown
        }
    }
}
