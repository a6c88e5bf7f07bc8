//! The reply to a request for which a pool was asked for units.

ghost use Rattle.std.specs.Prelude.{◌≡◌};
ghost use Rattle.ras_requests.specs.Replies.{IsAnswered, IsBandWidth, granted_reply};
ghost use Rattle.ras_requests.specs.Replies.{refused_reply, reply_of};

use pools::Lend;
use ras_module::{AdmissionRejectReason, BandRejectReason, Delay, Reply, RequestSeqNum};
use zone_tables::{Purpose, UnitRequest};

/// The reply after a pool's answer, or the reply that the request is in progress.
///
/// promise reply-follows-the-pool-answer: The reply is a confirm with the units granted, a reject
/// without any, or a RequestInProgress (`reply_of`).
pub fn unit_reply(
    seq: RequestSeqNum,
    request: &UnitRequest,
    answer: Lend,
    waits: bool,
    delay: Delay,
) -> Reply
    requires { IsAnswered request.now answer }
    ensures { result ≡ reply_of seq request.now answer waits delay }
{
    if waits {
        return Reply::Rip { seq, delay };
    }
    match request.grant(answer) {
        Some(units) => granted(seq, request.purpose, units as u32),
        None => refused(seq, request.purpose),
    }
}

/// The reply to a request that gets these units.
fn granted(seq: RequestSeqNum, purpose: Purpose, units: u32) -> Reply
    requires { IsBandWidth purpose units }
    ensures { result ≡ granted_reply seq purpose units }
{
    match purpose {
        Purpose::Opening(dest) => Reply::Acf { seq, units, dest },
        Purpose::Raising(had) => Reply::Bcf {
            seq,
            units: had + units,
        },
    }
}

/// The reply to one that gets none.
fn refused(seq: RequestSeqNum, purpose: Purpose) -> Reply
    ensures { result ≡ refused_reply seq purpose }
{
    match purpose {
        Purpose::Opening(_) => Reply::Arj {
            seq,
            reason: AdmissionRejectReason::RequestDenied,
        },
        Purpose::Raising(allowed) => Reply::Brj {
            seq,
            reason: BandRejectReason::InsufficientResources,
            allowed,
        },
    }
}
