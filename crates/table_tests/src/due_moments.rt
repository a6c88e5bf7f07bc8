//! Moments by which things are due, against a plain list of them.

use deadlines::Deadlines;
use facts::{all_hold, ensure};
use std::test::Fail;

const PLACES: usize = 40;

/// The next of a row of numbers that look random.
fn next(seed: u64) -> u64 {
    seed.wrapping_mul(6_364_136_223_846_793_005)
        .wrapping_add(1_442_695_040_888_963_407)
}

/// A number below the bound, from the upper bits.
fn below(seed: u64, bound: u64) -> u64 {
    if bound == 0 { 0 } else { (seed >> 33) % bound }
}

fn write(plain: &mut [Option<u64>], place: usize, moment: Option<u64>) {
    if let Some(entry) = plain.get_mut(place) {
        *entry = moment;
    }
}

fn read(plain: &[Option<u64>], place: usize) -> Option<u64> {
    plain.get(place).copied().flatten()
}

/// Whether each place has the moment that it has in the plain list.
fn are_same(deadlines: &Deadlines, plain: &[Option<u64>]) -> bool {
    for (place, moment) in plain.iter().enumerate() {
        if deadlines.get(place) != *moment {
            return false;
        }
    }
    true
}

/// Whether the first that is due is one with the least moment.
fn is_first(deadlines: &Deadlines, plain: &[Option<u64>]) -> bool {
    let mut least = None;
    for moment in plain {
        if let Some(moment) = moment {
            least = match least {
                Some(before) if before <= *moment => Some(before),
                _ => Some(*moment),
            };
        }
    }
    match deadlines.earliest() {
        Some((moment, place)) => least == Some(moment) && read(plain, place) == Some(moment),
        None => least.is_none(),
    }
}

/// Makes one change to both: mostly a new moment, and else one that goes away or moves.
fn change(deadlines: &mut Deadlines, plain: &mut [Option<u64>], seed: u64) {
    let place = below(seed, PLACES as u64) as usize;
    let other = below(next(seed), PLACES as u64) as usize;
    match below(next(next(seed)), 8) {
        0 | 1 => {
            deadlines.clear(place);
            write(plain, place, None);
        }
        2 => {
            if other < deadlines.room() {
                deadlines.rename(place, other);
                let moment = read(plain, place);
                write(plain, place, None);
                write(plain, other, moment);
            }
        }
        _ => {
            if place < deadlines.room() {
                // few moments, so that many are equal
                let moment = below(next(next(next(seed))), 30);
                deadlines.set(place, moment);
                write(plain, place, Some(moment));
            }
        }
    }
}

/// Compares both behind the change of this seed.
fn compare(deadlines: &Deadlines, plain: &[Option<u64>], seed: u64) -> Result<(), Fail> {
    if !are_same(deadlines, plain) {
        return Err(Fail::new(format_args!("{seed}: each place has its moment")));
    }
    if !is_first(deadlines, plain) {
        return Err(Fail::new(format_args!("{seed}: the first is due first")));
    }
    Ok(())
}

/// Changes both 4,000 times, and compares them each time. Returns how many moments there were at
/// most.
fn change_often(deadlines: &mut Deadlines, plain: &mut [Option<u64>]) -> Result<usize, Fail> {
    let mut seed = 1;
    let mut held = 0;
    for _ in 0..4000 {
        change(deadlines, plain, seed);
        compare(deadlines, plain, seed)?;
        seed = next(seed);
        held = deadlines.len().max(held);
    }
    Ok(held)
}

/// Compares a copy with the plain list.
fn compare_copy(deadlines: &Deadlines, plain: &[Option<u64>]) -> Result<(), Fail> {
    let copy = deadlines.copy()?;
    all_hold(&[
        (
            copy.room() == PLACES,
            "the copy has room for the same places",
        ),
        (are_same(&copy, plain), "the copy has the same moments"),
        (is_first(&copy, plain), "the copy has the same first moment"),
    ])
}

/// Changes moments as those of a plain list, until many places have one.
fn agree(deadlines: &mut Deadlines) -> Result<(), Fail> {
    let is_empty = deadlines.earliest().is_none();
    deadlines.reserve(PLACES)?;
    let mut plain = [None; PLACES];
    let held = change_often(deadlines, &mut plain)?;
    all_hold(&[
        (is_empty, "nothing is due at first"),
        (held > PLACES / 2, "many places have a moment"),
    ])?;
    compare_copy(deadlines, &plain)
}

#[test]
fn agrees_with_a_plain_list(rt: HostRuntime) -> Result<(), Fail> {
    agree(&mut Deadlines::new(rt.alloc()))
}

/// Gives each of 1,000 places a moment, if there is room for it.
fn set_each(deadlines: &mut Deadlines) {
    let mut seed = 7;
    for place in 0..1000 {
        if place < deadlines.room() {
            deadlines.set(place, below(seed, 500));
        }
        seed = next(seed);
    }
}

/// Clears 1,000 places, each when it is due first.
fn clear_each(deadlines: &mut Deadlines) -> Result<(), Fail> {
    let mut last = 0;
    for _ in 0..1000 {
        let Some((moment, place)) = deadlines.earliest() else {
            return Err(Fail::from("each place has a moment"));
        };
        ensure(last <= moment, "what is due first comes first")?;
        last = moment;
        deadlines.clear(place);
    }
    Ok(())
}

/// Sets and clears 1,000 places.
fn set_and_clear(deadlines: &mut Deadlines) -> Result<(), Fail> {
    deadlines.reserve(1000)?;
    let has_room = deadlines.room() == 1000;
    set_each(deadlines);
    clear_each(deadlines)?;
    all_hold(&[
        (has_room, "there is room for the places"),
        (deadlines.len() == 0, "no place has a moment"),
        (deadlines.earliest().is_none(), "nothing is due"),
    ])
}

#[test]
fn takes_what_is_due_in_order(rt: HostRuntime) -> Result<(), Fail> {
    set_and_clear(&mut Deadlines::new(rt.alloc()))
}
