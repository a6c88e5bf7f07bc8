//! Counts, by what is counted.

use crate::shared::{Looked, all_hold};
use zone_events::{DueItem, IgnoredCause, Note, Outcome};
use zone_view::{Count, Counts, Reject, ReplyKind, RequestKind, StepCounts, TurnDeed};

/// Counts each thing as often as the number of its group says.
fn count_each(counts: &mut Counts) {
    for kind in RequestKind::ALL {
        counts.add(Count::Request(kind), 1);
    }
    for kind in ReplyKind::ALL {
        counts.add(Count::Reply(kind), 2);
    }
    for reject in Reject::ALL {
        counts.add(Count::Reject(reject), 3);
    }
    for deed in TurnDeed::ALL {
        counts.add(Count::Turn(deed), 4);
    }
}

/// Whether each thing of these groups has its number.
fn is_each_counted(counts: &Counts) -> bool {
    let mut are_so = true;
    for kind in RequestKind::ALL {
        are_so = are_so && counts.get(Count::Request(kind)) == 1;
    }
    for kind in ReplyKind::ALL {
        are_so = are_so && counts.get(Count::Reply(kind)) == 2;
    }
    for reject in Reject::ALL {
        are_so = are_so && counts.get(Count::Reject(reject)) == 3;
    }
    for deed in TurnDeed::ALL {
        are_so = are_so && counts.get(Count::Turn(deed)) == 4;
    }
    are_so
}

#[test]
fn each_thing_has_a_place_of_its_own() -> Looked {
    let mut counts = Counts::none();
    count_each(&mut counts);
    counts.add(Count::Ignored(IgnoredCause::TooLong), 5);
    counts.add(Count::Ignored(IgnoredCause::UnknownEndpoint), 6);
    counts.add(Count::Repeat, 7);
    let long = counts.get(Count::Ignored(IgnoredCause::TooLong));
    let busy = counts.get(Count::Ignored(IgnoredCause::Busy));
    let unknown = counts.get(Count::Ignored(IgnoredCause::UnknownEndpoint));
    all_hold(&[
        (is_each_counted(&counts), "each thing has its number"),
        (long == 5, "so have datagrams that are too long"),
        (busy == 0, "none was ignored for being busy"),
        (unknown == 6, "so have datagrams of unknown endpoints"),
        (counts.get(Count::Repeat) == 7, "so have repeats"),
    ])
}

#[test]
fn a_step_adds_one_to_each_of_its_counts() -> Looked {
    let mut counts = Counts::none();
    counts.add_step(&StepCounts::of(Some(0x27), &Outcome::noted(Note::Kept, None)));
    let due = Note::Done(DueItem::PoolTurn);
    counts.add_step(&StepCounts::of(None, &Outcome::noted(due, None)));
    let asked = counts.get(Count::Request(RequestKind::Arq));
    let turned = counts.get(Count::Turn(TurnDeed::PoolTurn));
    let idle = counts.get(Count::Turn(TurnDeed::Idle));
    all_hold(&[
        (asked == 1, "one request is counted"),
        (counts.get(Count::Repeat) == 1, "one repeat is counted"),
        (turned == 1, "one turn of the pools is counted"),
        (idle == 0, "no idle turn is counted"),
    ])
}

#[test]
fn a_count_that_is_as_high_as_it_can_be_stays_there(rt: HostRuntime) {
    let mut counts = Counts::none();
    counts.add(Count::Repeat, u64::MAX);
    counts.add(Count::Repeat, 1);
    assert!(rt; counts.get(Count::Repeat) == u64::MAX);
}
