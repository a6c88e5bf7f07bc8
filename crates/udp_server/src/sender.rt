//! The sender.

ghost use Rattle.std.specs.Prelude.{◌≡◌, ◌≤◌, ◌+◌, ◌∷◌, [], All, IsFalse, IsTrue, length};
ghost use Rattle.reply_queues.specs.Rings.{datagrams_seen, datagrams_taken};
ghost use Rattle.udp_server.specs.Sending.{AreLookedAt, IsAnyTaken, IsLookedAt, IsNextSent};
ghost use Rattle.udp_server.specs.Sending.{AreSendsCounted, IsSendCounted, all_counted};

use crate::board::{AllEnded, Board};
use crate::datagrams::{Datagrams, DeviceFault};
use crate::tally::Tallies;
use reply_queues::Inlet;
use std::sync::Wait;
use zone_events::Datagram;

/// An end that sends, and how many replies were sent and how many sends have failed.
#[derive(Drop)]
struct Sender<N: Datagrams> {
    end: N,
    sent: SendCounts,
}

/// How many replies were sent, and how many sends have failed. A count at `u64::MAX` stays there.
#[derive(Clone, Copy)]
pub(crate) struct SendCounts {
    pub(crate) replies: u64,
    pub(crate) faults: u64,
}

/// What the sender leaves: what it counted, and of how many workers it awaited the end.
#[derive(Clone, Copy)]
pub(crate) struct Sent {
    pub(crate) counts: SendCounts,
    pub(crate) awaited: usize,
}

/// Sends what the workers hand over, until this many of them have ended and their rings are empty.
pub(crate) fn send_all<R: Wait, N: Datagrams>(
    rt: &R,
    board: &Board,
    tallies: &Tallies,
    workers: usize,
    inlets: Vec<Inlet>,
    end: N,
) -> Sent
    ensures { result.awaited ≡ workers }
{
    let mut inlets = inlets;
    let mut sender = Sender {
        end,
        sent: SendCounts {
            replies: 0,
            faults: 0,
        },
    };
    let mut all_ended = None;
    for _ in rt.forever() {
        if sender.has_sent(&mut inlets) {
            tallies.show_sent(sender.sent);
            continue;
        }
        // Who has ended hands nothing over any more, so the look at the rings behind that is the
        // last one.
        if let Some(AllEnded { awaited }) = all_ended {
            return Sent {
                counts: sender.sent,
                awaited,
            };
        }
        if board.has_reply_soon() {
            continue;
        }
        all_ended = board.have_ended(rt, workers);
        if all_ended.is_none() {
            board.wait_for_reply(rt);
        }
    }
    unreachable!()
}

impl<N: Datagrams> Sender<N> {
    /// Looks at each ring once, and sends its next reply, if there is one. Whether there was any.
    ///
    /// promise sender-counts-each-reply: As many sends are counted as replies were taken out of the
    /// rings, each as sent or as failed (`AreSendsCounted`).
    #[tactic(auto, using(crate::proofs::Sends::one_more_at_most, crate::proofs::Sent::none_yet))]
    fn has_sent(&mut self, inlets: &mut [Inlet]) -> bool
        ensures looked { IsFalse result → All (λ inlet. datagrams_seen inlet ≡ []) inlets.new }
        ensures same { IsFalse result → self.new.sent ≡ self.old.sent }
        ensures taken { IsTrue result → IsAnyTaken inlets.old inlets.new }
        ensures each { AreLookedAt inlets.old inlets.new }
        ensures once { all_counted self.new.sent
            ≤ all_counted self.old.sent + length inlets.old }
        ensures counted { AreSendsCounted inlets.old inlets.new self.old.sent self.new.sent }
    {
        let mut is_any = false;
        for inlet in inlets.iter_mut() {
            if self.has_sent_next(inlet) {
                is_any = true;
            }
        }
        is_any
    }

    /// Sends the next reply of a ring, if there is one. Whether there was one.
    ///
    /// promise sender-sends-each-once: A reply taken from a ring is the next there, is handed to
    /// the end once, and is counted as sent or failed; the sender tells that there was none only if
    /// it looked and saw none (`IsNextSent`, `IsSendCounted`, `datagrams_seen`).
    #[tactic(auto, using(crate::proofs::Sent::if_none, crate::proofs::Sent::if_next))]
    fn has_sent_next(&mut self, inlet: &mut Inlet) -> bool
        ensures none { IsFalse result → datagrams_taken inlet.new ≡ datagrams_taken inlet.old }
        ensures same { IsFalse result → self.new.sent ≡ self.old.sent }
        ensures looked { IsFalse result → datagrams_seen inlet.new ≡ [] }
        ensures ring { IsLookedAt inlet.old inlet.new }
        ensures next { IsTrue result
            → IsNextSent (λ datagram given. N.sends self.old.end datagram given self.new.end)
            (datagrams_taken inlet.old) (datagrams_taken inlet.new)
            (N.faults self.old.end) (N.faults self.new.end) self.old.sent self.new.sent }
        ensures counted { AreSendsCounted (inlet.old ∷ []) (inlet.new ∷ [])
            self.old.sent self.new.sent }
    {
        let Some(reply) = inlet.take() else {
            return false;
        };
        self.send(&reply);
        true
    }

    /// Sends a reply, and counts it, or that the send failed.
    fn send(&mut self, reply: &Datagram)
        ensures { IsSendCounted (λ datagram given. N.sends self.old.end datagram given self.new.end)
            reply.now (N.faults self.old.end) (N.faults self.new.end)
            self.old.sent self.new.sent }
    {
        match self.end.send(reply) {
            Ok(()) => self.sent.replies = self.sent.replies.saturating_add(1),
            Err(DeviceFault) => self.sent.faults = self.sent.faults.saturating_add(1),
        }
    }
}
