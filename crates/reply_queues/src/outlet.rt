//! The end of a ring that puts.

use rtrb::{Finished, Producer, PushError};
use zone_events::Datagram;

/// The end that puts datagrams into a ring. It may move to another thread than the inlet's.
#[derive(Drop)]
pub struct Outlet {
    pub(crate) producer: Producer<Datagram>,
}

/// The mark of a ring that nothing more is put into it. It knows what was put.
#[derive(Drop)]
pub struct Ended {
    pub(crate) finished: Finished<Datagram>,
}

impl Outlet {
    ghost use Rattle.std.specs.Prelude.{◌≡◌, ◌+◌, ◌<◌, ◌≤◌, ◌∷◌, [], ◌++◌};
    ghost use Rattle.std.specs.Prelude.{IsOk, OnOk, IfErr, OnErr, IfSome};
    ghost use Rattle.reply_queues.specs.Rings.{datagrams_put, free_places, SameOutlet, Ends};

    /// Puts a datagram behind those that were put, or hands it back if it finds no place. The
    /// inlet may free places at any time.
    ///
    /// promise offered-reply-stands-behind: A datagram stands behind those that were put, or comes
    /// back; a new ring takes as many as its capacity (`datagrams_put`, `free_places`).
    pub fn offer(&mut self, datagram: Datagram) -> Result<(), Datagram>
        ensures ring { SameOutlet self.old self.new }
        ensures put { OnOk result
            (datagrams_put self.new ≡ datagrams_put self.old ++ datagram ∷ []) }
        ensures one_place { OnOk result (free_places self.old ≤ free_places self.new + 1) }

        // If no place is found, nothing happens.
        ensures handed_back { IfErr result (λ back. back ≡ datagram) }
        ensures unchanged { OnErr result (datagrams_put self.new ≡ datagrams_put self.old) }
        ensures full { OnErr result (free_places self.new ≡ 0) }

        ensures accepted { 0 < free_places self.old → IsOk result }
    {
        match self.producer.push(datagram) {
            Ok(()) => Ok(()),
            Err(PushError::Full(back)) => Err(back),
        }
    }

    /// Puts nothing more, and gives the ring's mark for that. There is none if the inlet is
    /// gone: nobody takes then what was put.
    pub fn end(self) -> Option<Ended>
        ensures { IfSome result (λ mark. Ends self mark) }
    {
        let Outlet { producer } = self;
        let finished = producer.finish()?;
        Some(Ended { finished })
    }
}
