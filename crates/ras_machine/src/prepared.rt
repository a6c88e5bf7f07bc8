//! Events whose datagrams were read before anything of the zone is needed.

ghost use Rattle.std.specs.Prelude.{◌≡◌, ◌↔◌, ℕ, IfOk, IsTrue};
ghost use Rattle.ras_reading.specs.Messages.{message_reading};
ghost use Rattle.zone_events.specs.Events.{moment_in};
ghost use Rattle.ras_machine.specs.Prepared.{IsRead, event_at, message_by};

use kept_replies::{KeptKey, RequestOctets};
use ras_codec::{ReadFault, read};
use ras_module::{Octets, Request, Source};
use std::alloc::{AllocError, Global};
use std::marker::Model;
use zone_config::Moment;
use zone_events::Event;

/// What the octets of a datagram are, as they are read.
#[derive(Drop)]
pub enum Message {
    /// No RAS message of the profile.
    Unreadable,
    /// A message that the gatekeeper doesn't serve.
    NotServed,
    /// A request.
    Request(Request),
}

/// What arrived: a datagram with what its octets are, or the moment for a turn.
#[derive(Drop)]
pub enum Arrival {
    /// A datagram that may be kept, by its source and its octets, with what these are.
    Datagram(KeptKey, Message),
    /// A datagram of more octets than `Request::MOST`, with its source. It isn't read.
    TooLong(Source, Octets),
    /// The moment for a turn.
    Turn,
}

/// An event whose datagram was read. Contracts see the event.
pub struct Prepared {
    moment: Moment,
    arrival: Arrival,
}

// By hand, so that it is one call where one is dropped.
impl Drop for Prepared {
    fn drop(self) {
        let Prepared {
            moment: _,
            arrival: _,
        } = self;
    }
}

impl Model for Prepared {
    ghost use Rattle.zone_events.specs.declared.event.Event.{Event};
    ghost use Rattle.ras_machine.specs.Prepared.{IsRead, event_at};

    ghost Value = { Event };

    ghost view = { λ p. event_at p.moment p.arrival };

    ghost invariant = { λ p. IsRead p.arrival };
}

/// Reads the datagram of an event, so that its step needs no reading.
///
/// promise datagram-is-read-before-its-step: What was read is the datagram of its event, read as it
/// should be (`message_in`).
pub fn prepare(alloc: Global, event: Event) -> Result<Prepared, AllocError>
    ensures { IfOk result (λ prepared. prepared ≡ event) }
{
    match event {
        Event::Datagram(source, octets, moment) => {
            let arrival = datagram_read(alloc, source, octets)?;
            Ok(Prepared { moment, arrival })
        }
        Event::Turn(moment) => Ok(Prepared {
            moment,
            arrival: Arrival::Turn,
        }),
    }
}

/// A datagram, with what its octets are, unless it is too long.
fn datagram_read(alloc: Global, source: Source, octets: Octets) -> Result<Arrival, AllocError>
    ensures event { IfOk result (λ arrival. (moment : ℕ)
        → event_at moment arrival ≡ Event.Datagram source octets moment) }
    ensures read { IfOk result IsRead }
{
    match RequestOctets::new(octets.into_vec())? {
        Ok(bytes) => {
            let message = message_of(alloc, bytes.as_slice())?;
            Ok(Arrival::Datagram(KeptKey { source, bytes }, message))
        }
        Err(octets) => Ok(Arrival::TooLong(source, Octets::from_vec(octets))),
    }
}

/// What octets are, as they are read.
fn message_of(alloc: Global, octets: &[u8]) -> Result<Message, AllocError>
    ensures { IfOk result (λ message. message ≡ message_by (message_reading octets.now)) }
{
    match read(alloc, octets) {
        Ok(Some(request)) => Ok(Message::Request(request)),
        Ok(None) => Ok(Message::NotServed),
        Err(ReadFault::Memory) => Err(AllocError),
        Err(_) => Ok(Message::Unreadable),
    }
}

impl Prepared {
    /// The moment of the event.
    pub fn moment(&self) -> Moment
        ensures { result ≡ moment_in self.now }
    {
        self.moment
    }

    /// Whether it is a turn.
    pub fn is_turn(&self) -> bool
        ensures { IsTrue result ↔ (self.now ≡ Event.Turn (moment_in self.now)) }
    {
        match self.arrival {
            Arrival::Datagram(_, _) | Arrival::TooLong(_, _) => false,
            Arrival::Turn => true,
        }
    }

    /// An equal event.
    pub fn event(&self) -> Result<Event, AllocError>
        ensures { IfOk result (λ event. event ≡ self.now) }
    {
        match &self.arrival {
            Arrival::Datagram(key, _) => {
                Ok(Event::Datagram(key.source, key.bytes.octets()?, self.moment))
            }
            Arrival::TooLong(source, octets) => {
                Ok(Event::Datagram(*source, octets.copy()?, self.moment))
            }
            Arrival::Turn => Ok(Event::Turn(self.moment)),
        }
    }

    /// What arrived. This takes no memory.
    pub fn into_arrival(self) -> Arrival
        ensures event { event_at (moment_in self) result ≡ self }
        ensures read { IsRead result }
    {
        let Prepared { moment: _, arrival } = self;
        arrival
    }
}
