//! An end in memory that gives the datagrams of a script, and notes what is sent, and a clock.

use ras_core::{Datagram, Event, Moment};
use std::alloc::{AllocError, Global};
use std::sync::{Mutex, Wait};
use udp_server::{Datagrams, DeviceFault, Moments, Received};

/// A clock that stands still, so that no turn finds anything that is due.
#[derive(Drop)]
pub struct Still;

impl Moments for Still {
    fn now(&mut self) -> Moment {
        Moment::START
    }
}

/// An end that gives the datagrams among these events, in order, and then has stopped. It notes
/// what it sends; no call of it fails.
#[derive(Drop)]
pub struct End<'a, R> {
    pub rt: &'a R,
    pub alloc: Global,
    pub sent: &'a Mutex<Vec<Datagram>>,
    pub events: &'a [Event],
    pub next: usize,
}

impl<R: Wait> End<'_, R> {
    fn try_copy(&self, datagram: &Datagram) -> Result<Datagram, AllocError> {
        let octets = datagram.bytes.as_slice();
        Ok(datagram.copy_into(Vec::with_capacity(self.alloc, octets.len())?))
    }

    /// Adds this datagram to those that were sent.
    fn try_note(&self, datagram: &Datagram) -> Result<(), AllocError> {
        let copy = self.try_copy(datagram)?;
        self.sent.lock(self.rt).push(copy).map_err(AllocError::from)
    }
}

impl<R: Wait> Datagrams for End<'_, R> {
    ghost faults = { λ end. 0 };

    fn receive(&mut self, buffer: &mut [u8; 4_097]) -> Result<Received, DeviceFault> {
        let event = self.events.get(self.next);
        self.next = self.next.saturating_add(1);
        match event {
            None => Ok(Received::Stopped),
            Some(Event::Turn(_)) => Ok(Received::Quiet),
            Some(Event::Datagram(source, octets, _)) => {
                let octets = octets.as_slice();
                match buffer.get_mut(..octets.len()) {
                    Some(front) => {
                        front.copy_from_slice(octets);
                        Ok(Received::Datagram(*source, octets.len()))
                    }
                    None => Ok(Received::Quiet),
                }
            }
        }
    }

    fn send(&mut self, datagram: &Datagram) -> Result<(), DeviceFault> {
        // One request is refused at most. What isn't noted is missed when the server has ended.
        if self.try_note(datagram).is_err() {
            let _ = self.try_note(datagram);
        }
        Ok(())
    }

    fn failures(&self) -> u64 {
        0
    }
}
