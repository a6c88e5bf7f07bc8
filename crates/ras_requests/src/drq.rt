//! Disengaging from calls.

ghost use Rattle.std.specs.Prelude.{◌≡◌};
ghost use Rattle.ras_requests.specs.Drq.{disengagement};
ghost use Rattle.ras_requests.specs.Planned.{Settles};

use crate::plan::Settlement;
use ras_module::{DisengageRejectReason, DisengageRequest, Reply, Request};
use zone_config::Moment;
use zone_tables::{CallChange, Change, ZoneTables};

/// What is decided about a DisengageRequest.
pub(crate) fn disengage(tables: &ZoneTables, now: Moment, q: &DisengageRequest) -> Settlement
    ensures settles { Settles tables.now now (Request.Drq q.now)
        (disengagement tables.now q.now) result }
{
    if tables.registrations().get(&q.endpoint).is_none() {
        return rejection(q, DisengageRejectReason::NotRegistered);
    }
    if tables.calls().leg(&q.call, &q.endpoint).is_none() {
        return rejection(q, DisengageRejectReason::RequestToDropOther);
    }
    Settlement::calls(Reply::Dcf { seq: q.seq }, CallChange::Leaving(q.call))
}

/// A DisengageReject.
fn rejection(q: &DisengageRequest, reason: DisengageRejectReason) -> Settlement
    ensures { result ≡ record {
      reply = Reply.Drj q.now.seq reason;
      change = Change.Nothing;
    } }
{
    Settlement::reply(Reply::Drj { seq: q.seq, reason })
}
