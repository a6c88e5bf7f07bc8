//! Replies that are kept, and requests that wait.

use crate::fixtures::{
    SOURCE, all_hold_of, confirm, datagram, endpoint, is_confirmed, keep, keep_confirm, kept_reply,
    no_alias, pend, seq,
};
use facts::{all_hold, ensure};
use kept_replies::{Kept, KeptEntry, KeptKey, KeptList, KeptReply, KeptState, ReserveFault};
use ras_module::{Boxed, Name, RegistrationConfirm, Reply, TimeToLive};
use std::alloc::{AllocError, Global};
use std::hash::{BuildHasher, BuildHasherDefault, FoldHasher};
use std::test::Fail;

fn registered(alloc: Global, last: u8) -> Result<Reply, AllocError> {
    let confirm = RegistrationConfirm {
        seq: seq(1),
        call_signal: SOURCE,
        aliases: no_alias(alloc).ok_or(AllocError)?,
        gatekeeper: Name::new(&[103, 107]).unwrap(),
        endpoint: endpoint(last),
        granted: TimeToLive::new(60).unwrap(),
    };
    Ok(Reply::Rcf(Boxed::new(alloc, confirm)?))
}

fn postpone(kept: &mut Kept, key: &KeptKey, retry: u64) -> Result<(), Fail> {
    match kept.find(key) {
        Some(
            KeptEntry {
                state: KeptState::Pending { left, .. },
                ..
            },
        ) if *left >= 2 => {}
        _ => return Err(Fail::from("no request waits once more")),
    }
    kept.postpone(key, retry);
    Ok(())
}

fn answer(alloc: Global, kept: &mut Kept, key: &KeptKey, until: u64) -> Result<(), Fail> {
    if kept.find(key).is_none() {
        return Err(Fail::from("nothing is kept"));
    }
    kept.finish(key, kept_reply(alloc, &confirm(7))?, until);
    Ok(())
}

/// The confirm of a registration, made once more if memory for it was refused.
fn registered_at_last(alloc: Global, last: u8) -> Result<KeptReply, AllocError> {
    let reply = match registered(alloc, last) {
        Ok(reply) => reply,
        Err(_) => registered(alloc, last)?,
    };
    kept_reply(alloc, &reply)
}

/// Keeps the confirm of a registration as the reply to the datagram of one octet.
fn keep_registered(
    alloc: Global,
    kept: &mut Kept,
    octet: u8,
    last: u8,
    until: u64,
) -> Result<(), Fail> {
    let reply = registered_at_last(alloc, last)?;
    let key = datagram(alloc, &[octet])?;
    keep(kept, key, u64::from(octet), reply, until)
}

/// Compares an entry with one of this confirm, and with its copy.
fn compare_confirm(entry: &KeptEntry, number: u16) -> Result<(), Fail> {
    let copy = entry.copy()?;
    all_hold(&[
        (
            is_confirmed(entry, number),
            "the confirm with this number is kept",
        ),
        (copy == *entry, "it equals its copy"),
    ])
}

/// Finds this confirm as the reply that is kept, which equals its copy.
fn find_confirm(kept: &Kept, born: u64, number: u16) -> Result<(), Fail> {
    match kept.by_born(born) {
        Some((_datagram, entry)) => compare_confirm(entry, number),
        None => Err(Fail::from("it is kept")),
    }
}

fn left_of(kept: &Kept, born: u64) -> u64 {
    match kept.by_born(born) {
        Some(
            (
                _datagram,
                KeptEntry {
                    state: KeptState::Pending { left, .. },
                    ..
                },
            ),
        ) => *left,
        _ => 0,
    }
}

/// The moment at which the one reply is over.
const OVER: u64 = 10_000;

/// Finds the one place taken until that moment.
fn find_place_taken(kept: &Kept) -> Result<(), Fail> {
    all_hold(&[
        (kept.is_full(), "the one place is taken"),
        (kept.is_busy(OVER - 1), "nothing is over a moment before"),
        (!kept.is_busy(OVER), "the reply is over at its moment"),
        (
            kept.over(OVER - 1).is_none(),
            "no entry is over a moment before",
        ),
        (
            kept.over(OVER) == Some(0),
            "the entry that is over is that of the reply",
        ),
    ])
}

/// Offers a second datagram a millisecond behind the first, for which there is no room.
fn offer_early(kept: &mut Kept) -> Result<(), Fail> {
    let reserved = kept.reserve(1);
    let dropped = kept.drop_one_expired(OVER - 1);
    all_hold(&[
        (reserved == Err(ReserveFault::Busy), "there is no room"),
        (dropped.is_none(), "nothing is dropped a moment before"),
    ])
}

/// Offers it again when the first reply is over, which gives way to it.
fn offer_again(kept: &mut Kept) -> Result<(), Fail> {
    kept.reserve(OVER)?;
    let dropped = kept.drop_one_expired(OVER);
    all_hold(&[
        (dropped == Some(0), "the reply that is over is dropped"),
        (kept.len() == 0, "nothing is kept"),
    ])
}

// One reply may be kept, for 10,000 milliseconds.
/// Offers a second datagram behind the first, until there is room for it.
fn offer_twice(alloc: Global, kept: &mut Kept) -> Result<(), Fail> {
    keep_confirm(alloc, kept, &[1], 1, 0, OVER)?;
    find_place_taken(kept)?;
    offer_early(kept)?;
    offer_again(kept)
}

#[test]
fn a_place_becomes_free_when_its_time_is_over(rt: HostRuntime) -> Result<(), Fail> {
    offer_twice(rt.alloc(), &mut Kept::new(rt.alloc(), 1))
}

/// Drops the entry of a birth. Whether the datagram has an entry then.
fn is_found_without(kept: &mut Kept, datagram: &KeptKey, born: u64) -> bool {
    kept.drop_born(born);
    kept.find(datagram).is_some()
}

/// Finds the reply to this datagram until it is dropped, and not if another is.
fn find_until_dropped(kept: &mut Kept, datagram: &KeptKey) -> Result<(), Fail> {
    let is_found = kept.find(datagram).is_some();
    let has_stayed = is_found_without(kept, datagram, 4);
    let is_there_still = is_found_without(kept, datagram, 3);
    all_hold(&[
        (is_found, "the reply is found by its datagram"),
        (has_stayed, "it stays if another birth is dropped"),
        (!is_there_still, "it goes with its birth"),
    ])
}

/// Keeps a reply, which is found until it is dropped.
fn keep_and_drop(alloc: Global, kept: &mut Kept) -> Result<(), Fail> {
    keep_confirm(alloc, kept, &[2], 2, 3, 20_000)?;
    find_confirm(kept, 3, 2)?;
    let key = datagram(alloc, &[2])?;
    find_until_dropped(kept, &key)
}

#[test]
fn a_reply_is_found_until_it_is_dropped(rt: HostRuntime) -> Result<(), Fail> {
    keep_and_drop(rt.alloc(), &mut Kept::new(rt.alloc(), 1))
}

#[test]
fn faults_have_their_numbers() -> Result<(), Fail> {
    all_hold(&[
        (ReserveFault::Busy.number() == 1, "no place is fault 1"),
        (ReserveFault::Memory.number() == 2, "no memory is fault 2"),
    ])
}

/// Keeps a reply in place of another, which needs no further place. The birth of the other is free
/// again.
fn take_the_place(alloc: Global, kept: &mut Kept) -> Result<(), Fail> {
    keep_confirm(alloc, kept, &[2], 2, 3, 10)?;
    keep_confirm(alloc, kept, &[2], 2, 4, 20)?;
    all_hold(&[
        (kept.len() == 1, "one reply is kept"),
        (
            kept.by_born(3).is_none(),
            "the birth of the first one is free",
        ),
    ])?;
    find_confirm(kept, 4, 2)
}

#[test]
fn a_reply_in_place_of_another(rt: HostRuntime) -> Result<(), Fail> {
    take_the_place(rt.alloc(), &mut Kept::new(rt.alloc(), 1))
}

/// Finds a request that waits, and is served again from this moment on, at most `left` times.
fn find_waiting(kept: &Kept, row: &str, moment: u64, left: u64) -> Result<(), Fail> {
    let before = kept.retry(moment.saturating_sub(1));
    let then = kept.retry(moment);
    let over = kept.over(u64::MAX);
    all_hold_of(
        row,
        &[
            (before.is_none(), "it isn't served a moment before"),
            (then == Some(3), "it is served again at its moment"),
            (over.is_none(), "what waits is never over"),
            (left_of(kept, 3) == left, "it is served as often as is left"),
        ],
    )
}

/// Lets a request wait twice.
fn wait_twice(alloc: Global, kept: &mut Kept, waiting: &KeptKey) -> Result<(), Fail> {
    pend(alloc, kept, waiting.copy()?, 3, 1500, 3)?;
    find_waiting(kept, "first wait", 1500, 3)?;
    postpone(kept, waiting, 3000)?;
    find_waiting(kept, "second wait", 3000, 2)
}

/// Answers it then: its entry keeps its birth.
fn answer_at_last(alloc: Global, kept: &mut Kept, waiting: &KeptKey) -> Result<(), Fail> {
    answer(alloc, kept, waiting, 13_000)?;
    all_hold(&[
        (kept.retry(u64::MAX).is_none(), "it waits no more"),
        (kept.over(13_000) == Some(3), "its entry keeps its birth"),
    ])?;
    find_confirm(kept, 3, 7)
}

/// Lets a request wait, and answers it.
fn wait_and_answer(alloc: Global, kept: &mut Kept) -> Result<(), Fail> {
    let waiting = datagram(alloc, &[1])?;
    wait_twice(alloc, kept, &waiting)?;
    answer_at_last(alloc, kept, &waiting)
}

#[test]
fn a_request_waits_and_is_answered(rt: HostRuntime) -> Result<(), Fail> {
    wait_and_answer(rt.alloc(), &mut Kept::new(rt.alloc(), 8))
}

/// Keeps a reply, whose birth is no other datagram's.
fn keep_a_birth(alloc: Global, kept: &mut Kept) -> Result<(), Fail> {
    keep_confirm(alloc, kept, &[1], 1, 3, 10)?;
    let other = datagram(alloc, &[2])?;
    all_hold(&[
        (
            !kept.is_free(&other, 3),
            "the birth isn't free for another datagram",
        ),
        (kept.is_free(&other, 4), "the next birth is free for it"),
    ])
}

#[test]
fn a_birth_belongs_to_one_datagram(rt: HostRuntime) -> Result<(), Fail> {
    keep_a_birth(rt.alloc(), &mut Kept::new(rt.alloc(), 8))
}

/// Finds the identifiers 0001 and 0002 told by what is kept, and 0003 not.
fn find_identifiers(kept: &Kept) -> Result<(), Fail> {
    let ids = kept.identifiers()?;
    all_hold(&[
        (
            kept.is_named(&endpoint(b'1')),
            "0001 is told by a reply that is over",
        ),
        (kept.is_named(&endpoint(b'2')), "0002 is told"),
        (!kept.is_named(&endpoint(b'3')), "0003 isn't told"),
        (
            ids.as_slice() == [endpoint(b'1'), endpoint(b'2')].as_slice(),
            "0001 and 0002 are listed",
        ),
    ])
}

/// Keeps confirms, of which those of registrations tell identifiers: one that is over, too.
fn tell_identifiers(alloc: Global, kept: &mut Kept) -> Result<(), Fail> {
    keep_registered(alloc, kept, 1, b'1', 0)?;
    keep_confirm(alloc, kept, &[2], 2, 2, 10_000)?;
    keep_registered(alloc, kept, 3, b'2', 10_000)?;
    find_identifiers(kept)
}

#[test]
fn identifiers_that_confirms_tell(rt: HostRuntime) -> Result<(), Fail> {
    tell_identifiers(rt.alloc(), &mut Kept::new(rt.alloc(), 8))
}

/// Whether these are entries of these births, in this order, of which each is found.
fn are_found(kept: &Kept, rows: &[(KeptKey, KeptEntry)], births: &[u64]) -> bool {
    for ((datagram, entry), born) in rows.iter().zip(births) {
        if entry.born != *born || kept.find(datagram).is_none() {
            return false;
        }
    }
    rows.len() == births.len()
}

/// Keeps replies in any order of their births, one in place of an earlier one with another birth.
fn keep_in_any_order(alloc: Global, kept: &mut Kept) -> Result<(), Fail> {
    for (octet, born) in [(248, 7), (252, 3), (55, 200), (254, 1), (246, 9), (248, 8)] {
        keep_confirm(alloc, kept, &[octet], u16::from(octet), born, 10)?;
    }
    Ok(())
}

/// Keeps replies, and lists them.
fn keep_and_list(alloc: Global, kept: &mut Kept) -> Result<(), Fail> {
    keep_in_any_order(alloc, kept)?;
    let list = KeptList::from_vec(kept.list()?.into_vec());
    ensure(
        are_found(kept, list.as_slice(), &[1, 3, 8, 9, 200]),
        "each entry comes once and is found by its datagram, and the births rise",
    )
}

#[test]
fn a_list_is_by_rising_birth(rt: HostRuntime) -> Result<(), Fail> {
    keep_and_list(rt.alloc(), &mut Kept::new(rt.alloc(), 65_536))
}

/// How many replies are kept where memory is refused.
const MANY: u8 = 12;

/// Makes room at last: if a request for memory is refused, nothing has changed, and the same call is
/// done with memory.
fn reserve_at_last(kept: &mut Kept, len: usize) -> Result<(), Fail> {
    if let Err(fault) = kept.reserve(0) {
        all_hold(&[
            (fault == ReserveFault::Memory, "memory alone is wanting"),
            (kept.len() == len, "room that is refused changes nothing"),
        ])?;
        kept.reserve(0)?;
    }
    Ok(())
}

/// Keeps a reply at last.
fn keep_at_last(alloc: Global, kept: &mut Kept, octet: u8) -> Result<(), Fail> {
    reserve_at_last(kept, usize::from(octet))?;
    keep_registered(alloc, kept, octet, octet, 10)
}

/// Keeps replies, each at last.
fn keep_many(alloc: Global, kept: &mut Kept) -> Result<(), Fail> {
    for octet in 0..MANY {
        keep_at_last(alloc, kept, octet)?;
    }
    Ok(())
}

/// Keeps replies, and lists them and their identifiers, each at last.
fn fill_at_last(alloc: Global, kept: &mut Kept) -> Result<(), Fail> {
    keep_many(alloc, kept)?;
    let many = usize::from(MANY);
    let identifiers = count_of_identifiers(kept)?;
    let listed = count_of_list(kept)?;
    all_hold(&[
        (kept.len() == many, "each reply is kept"),
        (identifiers == many, "each identifier is told"),
        (listed == many, "each reply is listed"),
    ])
}

#[test]
fn a_refusal_of_memory_changes_nothing(rt: HostRuntime) -> Result<(), Fail> {
    fill_at_last(rt.alloc(), &mut Kept::new(rt.alloc(), 100))
}

fn count_of_identifiers(kept: &Kept) -> Result<usize, Fail> {
    let ids = match kept.identifiers() {
        Ok(ids) => ids,
        Err(_) => kept.identifiers()?,
    };
    Ok(ids.len())
}

fn count_of_list(kept: &Kept) -> Result<usize, Fail> {
    let list = match kept.list() {
        Ok(list) => list,
        Err(_) => kept.list()?,
    };
    Ok(list.as_slice().len())
}

/// What a table hashes the datagram of one octet to.
fn hash_of(alloc: Global, octet: u8) -> Result<u64, Fail> {
    let key = datagram(alloc, &[octet])?;
    Ok(BuildHasherDefault::<FoldHasher>::new().hash_one(&key))
}

#[test]
fn datagrams_of_one_source_are_hashed_apart(rt: HostRuntime) -> Result<(), Fail> {
    let first = hash_of(rt.alloc(), 1)?;
    let second = hash_of(rt.alloc(), 2)?;
    let first_again = hash_of(rt.alloc(), 1)?;
    all_hold(&[
        (first != second, "two datagrams are hashed apart"),
        (first == first_again, "one datagram is hashed alike"),
    ])
}

/// Enters a reply to the datagram of one octet without a search, if nothing is kept for it.
fn add(alloc: Global, kept: &mut Kept, octet: u8, until: u64) -> Result<(), Fail> {
    kept.make_room()?;
    let key = datagram(alloc, &[octet])?;
    let born = u64::from(octet);
    if kept.is_full() || kept.find(&key).is_some() || !kept.is_free(&key, born) {
        return Err(Fail::from("it can't be kept"));
    }
    let reply = kept_reply(alloc, &confirm(u16::from(octet)))?;
    let state = KeptState::Done { reply, until };
    kept.add(key, KeptEntry { born, state });
    Ok(())
}

/// Adds two entries. There is room for a third one whether one is over or not.
fn add_two(alloc: Global, kept: &mut Kept) -> Result<(), Fail> {
    add(alloc, kept, 1, 10)?;
    add(alloc, kept, 2, 20)?;
    let has_room = kept.make_room() == Ok(());
    find_confirm(kept, 1, 1)?;
    find_confirm(kept, 2, 2)?;
    all_hold(&[
        (has_room, "there is room for a third one"),
        (kept.is_busy(9), "no place is free before one is over"),
        (
            kept.over(10) == Some(1),
            "the first one is over at its moment",
        ),
    ])
}

#[test]
fn entries_are_added_without_a_search(rt: HostRuntime) -> Result<(), Fail> {
    add_two(rt.alloc(), &mut Kept::new(rt.alloc(), 2))
}
