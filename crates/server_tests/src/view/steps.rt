//! What is counted of a step, by the worked messages.

use crate::shared::{Looked, all_hold};
use pools::Lend;
use ras_module::{Address, Octets};
use std::alloc::{AllocError, Global};
use std::test::Fail;
use vectors::replies::{
    ACF_900, ACF_1220, ACF_1280, ARJ, BCF, BRJ, DCF, DRJ, GCF, GRJ, IRQ, RCF_0001, RCF_0002, RIP,
    RRJ_DUPLICATE, RRJ_FULL, UCF, URJ,
};
use zone_events::{Datagram, DueItem, IgnoredCause, Note, Outcome};
use zone_view::{Answer, Reject, ReplyKind, RequestKind, StepCounts, TurnDeed};

const HERE: Address = Address {
    ip: [10, 0, 0, 5],
    port: 1719,
};

/// What is counted of a step that sends these octets.
fn sending(alloc: Global, octets: &[u8]) -> Result<StepCounts, AllocError> {
    let bytes = Octets::from_vec(Vec::from_slice(alloc, octets)?);
    let outcome = Outcome::noted(Note::Served, Some(Datagram { to: HERE, bytes }));
    Ok(StepCounts::of(None, &outcome))
}

/// Counts a step that sends these octets: as this message, which rejects for this reason, if it
/// does. Fails with the message's name otherwise.
fn count(
    alloc: Global,
    octets: &[u8],
    reply: ReplyKind,
    reject: Option<Reject>,
) -> Result<(), Fail> {
    let counts = sending(alloc, octets)?;
    if counts.reply == Some(reply) && counts.reject == reject {
        return Ok(());
    }
    Err(Fail::from(reply.label()))
}

/// What sends each confirm, and each question.
const CONFIRMS: [(&[u8], ReplyKind); 11] = [
    (&GCF, ReplyKind::Gcf),
    (&RCF_0001, ReplyKind::Rcf),
    (&RCF_0002, ReplyKind::Rcf),
    (&UCF, ReplyKind::Ucf),
    (&ACF_900, ReplyKind::Acf),
    (&ACF_1220, ReplyKind::Acf),
    (&ACF_1280, ReplyKind::Acf),
    (&BCF, ReplyKind::Bcf),
    (&DCF, ReplyKind::Dcf),
    (&IRQ, ReplyKind::Irq),
    (&RIP, ReplyKind::Rip),
];

#[test]
fn each_confirm_is_counted_as_its_message(rt: HostRuntime) -> Result<(), Fail> {
    for (octets, reply) in &CONFIRMS {
        count(rt.alloc(), octets, *reply, None)?;
    }
    Ok(())
}

/// Each reject with its reason.
const REJECTS: [(&[u8], ReplyKind, Reject); 7] = [
    (&GRJ, ReplyKind::Grj, Reject::DiscoveryTerminalExcluded),
    (
        &RRJ_FULL,
        ReplyKind::Rrj,
        Reject::RegistrationFullRegistrationRequired,
    ),
    (
        &RRJ_DUPLICATE,
        ReplyKind::Rrj,
        Reject::RegistrationDuplicateAlias,
    ),
    (&URJ, ReplyKind::Urj, Reject::UnregistrationCallInProgress),
    (&ARJ, ReplyKind::Arj, Reject::AdmissionRequestDenied),
    (&BRJ, ReplyKind::Brj, Reject::BandwidthInsufficientResources),
    (&DRJ, ReplyKind::Drj, Reject::DisengageRequestToDropOther),
];

#[test]
fn each_reject_is_counted_by_its_reason(rt: HostRuntime) -> Result<(), Fail> {
    for (octets, reply, reject) in &REJECTS {
        count(rt.alloc(), octets, *reply, Some(*reject))?;
    }
    Ok(())
}

/// What is counted of a step of a datagram with this first octet in which this happened.
fn noting(first: u8, note: Note) -> StepCounts {
    StepCounts::of(Some(first), &Outcome::noted(note, None))
}

// The first octet of a root alternative is four times its index in RasMessage, with the first bits
// of its fields behind (H.225.0).
#[test]
fn a_request_that_was_read_is_counted_by_its_kind(rt: HostRuntime) {
    assert!(rt; noting(0x00, Note::Served).request == Some(RequestKind::Grq));
    assert!(rt; noting(0x0E, Note::Served).request == Some(RequestKind::Rrq));
    assert!(rt; noting(0x19, Note::Served).request == Some(RequestKind::Urq));
    assert!(rt; noting(0x27, Note::Kept).request == Some(RequestKind::Arq));
    assert!(rt; noting(0x30, Note::Served).request == Some(RequestKind::Brq));
    assert!(rt; noting(0x3E, Note::Served).request == Some(RequestKind::Drq));
    assert!(rt; noting(0x58, Note::Served).request == Some(RequestKind::Irr));
    let busy = noting(0x27, Note::Ignored(IgnoredCause::Busy));
    assert!(rt; busy.request == Some(RequestKind::Arq));
    let unreadable = noting(0x27, Note::Ignored(IgnoredCause::Unreadable));
    assert!(rt; unreadable.request == None);
    assert!(rt; unreadable.ignored == Some(IgnoredCause::Unreadable));
}

/// What is counted of a step in which the pool answered so.
fn answered(answer: Lend) -> Option<Answer> {
    let mut outcome = Outcome::noted(Note::Served, None);
    outcome.answer = Some(answer);
    StepCounts::of(None, &outcome).answer
}

#[test]
fn turns_repeats_and_answers_are_counted() -> Looked {
    let turn = StepCounts::of(None, &Outcome::noted(Note::Done(DueItem::PoolTurn), None));
    let idle = StepCounts::of(None, &Outcome::noted(Note::Idle, None));
    let (lent, waits) = (answered(Lend::Lent(5)), answered(Lend::Wait));
    all_hold(&[
        (
            turn.turn == Some(TurnDeed::PoolTurn),
            "a turn of the pools is counted",
        ),
        (idle.turn == Some(TurnDeed::Idle), "an idle turn is counted"),
        (noting(0x00, Note::Kept).is_repeat, "a repeat is counted"),
        (
            !noting(0x00, Note::Served).is_repeat,
            "what was served is none",
        ),
        (lent == Some(Answer::Lent), "a loan is counted"),
        (waits == Some(Answer::Wait), "a request to wait is counted"),
    ])
}
