//! What is kept of a request that was served.

ghost use Rattle.std.specs.Prelude.{◌≡◌, ◌≤◌, IsTrue, OnOk};
ghost use Rattle.kept_replies.specs.Kept.{IsConsistent};
ghost use Rattle.ras_machine.specs.Keeping.{after_drop, kept_with, state_after};
ghost use Rattle.ras_machine.specs.inside.Room.{HasRoom, IsInProgress, IsPlaced, MayBeKept};
ghost use Rattle.ras_machine.specs.Soundness.{AreBornBefore};

use crate::job::{Job, Occasion};
use kept_replies::{InProgress, Kept, KeptEntry, KeptReply, KeptState};
use ras_module::{Reply, Request};
use std::alloc::AllocError;
use zone_config::Term;

/// Makes room for the reply to a request, whose datagram has an entry or finds a place for one.
pub fn reserve(kept: &mut Kept, job: &Job) -> Result<(), AllocError>
    requires place { IsPlaced kept.old job.now.key job.now.occasion }
    ensures kept { kept.new.kept ≡ kept.old.kept }
    ensures most { kept.new.most ≡ kept.old.most }
    ensures room { OnOk result (HasRoom kept.new job.now.key) }
{
    match job.occasion {
        Occasion::First { .. } => kept.make_room(),
        Occasion::Anew | Occasion::Again { .. } => Ok(()),
    }
}

/// How far a request is that was told this reply: it waits, or its reply is kept.
pub fn state_after(
    request: Request,
    reply: Reply,
    kept: KeptReply,
    waits: bool,
    term: Term,
) -> KeptState
    requires told { IsTrue waits → IsInProgress reply }
    requires same { kept ≡ reply }
    ensures { result ≡ state_after request reply waits term }
{
    match &reply {
        Reply::Rip { seq, delay } if waits => KeptState::Pending {
            request,
            reply: InProgress::new(*seq, *delay),
            retry: term.retry,
            left: term.times,
        },
        _ => KeptState::Done {
            reply: kept,
            until: term.until,
        },
    }
}

/// The entry with this birth is dropped, if there is to be one.
fn drop_entry(kept: &mut Kept, dropped: Option<u64>)
    ensures kept { kept.new.kept ≡ after_drop kept.old.kept dropped }
    ensures most { kept.new.most ≡ kept.old.most }
    ensures room { kept.old.room ≤ kept.new.room }
{
    if let Some(born) = dropped {
        kept.drop_born(born);
    }
}

/// Keeps how far a request is, in an entry that is born now, or in the one that waited. This takes
/// no memory.
pub fn keep(kept: &mut Kept, job: Job, born: u64, state: KeptState)
    requires place { IsPlaced kept.old job.key job.occasion }
    requires room { HasRoom kept.old job.key }
    requires births { AreBornBefore born kept.old.kept }
    requires state { MayBeKept job.occasion state }
    ensures kept { kept.new.kept ≡ kept_with kept.old.kept job.key job.occasion born state }
    ensures most { kept.new.most ≡ kept.old.most }
    ensures sound { IsConsistent kept.new }
{
    let Job { key, occasion } = job;
    match occasion {
        Occasion::First { dropped } => {
            drop_entry(kept, dropped);
            kept.add(key, KeptEntry { born, state });
        }
        Occasion::Anew => match state {
            KeptState::Done { reply, until } => kept.keep(key, born, reply, until),
            KeptState::Pending {
                request,
                reply,
                retry,
                left,
            } => kept.pend(key, born, request, reply, retry, left),
        },
        Occasion::Again { .. } => match state {
            KeptState::Done { reply, until } => kept.finish(&key, reply, until),
            KeptState::Pending { retry, .. } => kept.postpone(&key, retry),
        },
    }
}
