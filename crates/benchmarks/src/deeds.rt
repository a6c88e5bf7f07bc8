//! What is done in a measured step.

use crate::requests::{
    Endpoint, admission, answer, bandwidth, discovery, disengage, keep_alive, registration_with,
    response, unregistration,
};
use crate::zones::datagram;
use anyhow::{Context, Result};
use ras_core::{DueItem, Event, Moment, Note, Outcome};
use ras_module::Octets;
use std::alloc::Global;

/// The number of the first endpoint that registers while it is measured.
const FIRST_NEW: u16 = 25_000;

/// The requestSeqNum of the first request that is measured.
const FIRST_SEQ: u16 = 40_000;

/// The number of the first call that is opened while it is measured.
const FIRST_CALL: u64 = 1_000_000;

/// What is done in a step.
#[derive(Clone, Copy, PartialEq, Eq)]
pub enum Deed {
    /// An endpoint that isn't registered looks for a gatekeeper.
    Discover,
    /// An endpoint says that it is there.
    KeepAlive,
    /// It opens a call to the first endpoint.
    Open,
    /// It asks for more bandwidth.
    Raise,
    /// The first endpoint answers that call.
    Join,
    /// The one that opened it leaves it.
    Leave,
    /// The first endpoint leaves it, too.
    End,
    /// A new endpoint registers.
    Register,
    /// It unregisters.
    Unregister,
    /// It registers by another datagram.
    Return,
    /// An endpoint tells of its calls.
    Respond,
    /// Another endpoint that isn't registered looks for a gatekeeper.
    DiscoverLater,
    /// The zone does what is due.
    Turn,
}

/// What a step has to come to.
#[derive(Clone, Copy, PartialEq, Eq)]
pub enum Wanted {
    /// The request is served by a message with this number among those of RAS (H.225.0,
    /// RasMessage).
    Reply(u8),
    /// The same, and a kept reply is dropped to make room.
    ReplyInPlaceOfAnother(u8),
    /// The kept reply is sent once more.
    Repeat,
    /// The sign of life is heard.
    Heard,
    /// Nothing is due.
    Idle,
    /// A kept reply whose window is over is dropped.
    KeptOver,
    /// An endpoint is asked for a sign of life.
    Interrogation,
    /// A registration ends with its time to live.
    RegistrationOver,
}

impl Deed {
    /// The number of who sends it.
    fn sender(self, endpoints: &[Endpoint], number: u16) -> Option<u16> {
        match self {
            Deed::Register | Deed::Unregister | Deed::Return | Deed::DiscoverLater => {
                Some(FIRST_NEW.saturating_add(number))
            }
            Deed::Join | Deed::End => Some(endpoints.first()?.number),
            _ => Some(caller(endpoints, number)?.number),
        }
    }

    /// The octets of the request with this number, and None if nothing is sent.
    fn request(self, alloc: Global, endpoints: &[Endpoint], number: u16) -> Result<Option<Octets>> {
        let seq = FIRST_SEQ.saturating_add(number);
        let call = FIRST_CALL + u64::from(number);
        let new = FIRST_NEW.saturating_add(number);
        let first = endpoints.first().context("no endpoints")?;
        let one = caller(endpoints, number).context("no second endpoint")?;
        Ok(Some(match self {
            Deed::Discover | Deed::DiscoverLater => {
                Octets::from_vec(Vec::from_slice(alloc, &discovery(seq))?)
            }
            Deed::KeepAlive => keep_alive(alloc, one, seq)?,
            Deed::Open => admission(alloc, one, seq, first.number, call)?,
            Deed::Raise => bandwidth(alloc, one, seq, call)?,
            Deed::Join => answer(alloc, first, seq, call)?,
            Deed::Leave => disengage(alloc, one, seq, call)?,
            Deed::End => disengage(alloc, first, seq, call)?,
            Deed::Register => registration_with(alloc, new, 1)?,
            Deed::Unregister => unregistration(alloc, new, seq)?,
            Deed::Return => registration_with(alloc, new, seq)?,
            Deed::Respond => response(alloc, one, seq)?,
            Deed::Turn => return Ok(None),
        }))
    }

    /// The event of the step with this number.
    pub fn event(
        self,
        alloc: Global,
        endpoints: &[Endpoint],
        number: u16,
        moment: Moment,
    ) -> Result<Event> {
        let Some(octets) = self.request(alloc, endpoints, number)? else {
            return Ok(Event::Turn(moment));
        };
        let sender = self.sender(endpoints, number).context("no sender")?;
        Ok(datagram(sender, octets, moment))
    }
}

/// Who opens the call with this number: any endpoint but the first one.
fn caller(endpoints: &[Endpoint], number: u16) -> Option<&Endpoint> {
    let others = endpoints.get(1..)?;
    if others.is_empty() {
        return None;
    }
    others.get(usize::from(number) % others.len())
}

/// The number of the message that is sent, among those of RAS.
fn sent(outcome: &Outcome) -> Option<u8> {
    let first = outcome.output.as_ref()?.bytes.as_slice().first()?;
    Some(*first >> 2 & 31)
}

impl Wanted {
    /// Whether a step came to this.
    pub fn is_met(self, outcome: &Outcome) -> bool {
        match self {
            Wanted::Reply(message) => {
                outcome.note == Note::Served
                    && sent(outcome) == Some(message)
                    && outcome.dropped.is_none()
            }
            Wanted::ReplyInPlaceOfAnother(message) => {
                outcome.note == Note::Served
                    && sent(outcome) == Some(message)
                    && outcome.dropped.is_some()
            }
            Wanted::Repeat => outcome.note == Note::Kept,
            Wanted::Heard => outcome.note == Note::Served && outcome.output.is_none(),
            Wanted::Idle => outcome.note == Note::Idle,
            Wanted::KeptOver => matches!(outcome.note, Note::Done(DueItem::KeptOver(_))),
            Wanted::Interrogation => matches!(outcome.note, Note::Done(DueItem::Interrogate(_))),
            Wanted::RegistrationOver => {
                matches!(outcome.note, Note::Done(DueItem::RegistrationOver(_)))
            }
        }
    }
}
