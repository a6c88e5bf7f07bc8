//! The headline, of what a server leaves.

ghost use Rattle.std.specs.Prelude.{ℕ};
ghost use Rattle.books.specs.Chapters.{FinishedValue};
ghost use Rattle.ras_machine.specs.Soundness.{Sound};
ghost use Rattle.ras_machine.specs.State.{State};
ghost use Rattle.udp_server.specs.Headline.{Headline};
ghost use Rattle.udp_server.specs.Served.{IsServed};

/// What `serve_zone` leaves of a zone, which is always sound, is as the headline says. `datagrams`,
/// `turns` and `changes` are the totals that its report tells.
///
/// promise headline-holds-of-a-server: What a server leaves is a run with unused identifiers, kept
/// replies for repeats, and bandwidth within the limit (`Headline`, `HandsOutUnused`,
/// `RepeatsKeptReply`).
pub fn the_headline()
    ensures { (opened : State) (f : FinishedValue) (datagrams turns changes : ℕ)
        → Sound opened → IsServed opened f datagrams turns changes → Headline opened f }
{}
