//! A heap of rows, with a list of where the row of each place stands.

ghost use Rattle.std.specs.Prelude.{◌≡◌, ◌≢◌, ◌≤◌, ◌<◌, ◌+◌, ◌*◌, ℕ, length, slice_get};
ghost use Rattle.std.specs.Prelude.{Some, MatchOption, vec_capacity};
ghost use Rattle.std.specs.Option.{IsSomeAnd};
ghost use Rattle.std.specs.List.{swap};
ghost use Rattle.std.specs.FinMap as map;
ghost use Rattle.deadlines.specs.inside.Heap.{moments_of, moment_in, IsParent, IsHeap};
ghost use Rattle.deadlines.specs.inside.Heap.{IsHeapAround, IsHeapAbove, IsIndexed, IsAbsent};

use crate::due::Due;

/// Where the row of this place stands, or None if it has none.
pub fn row_of(rows: &[Due], at: &[usize], place: usize) -> Option<usize>
    requires { IsIndexed rows.now at.now }
    ensures { MatchOption result (IsAbsent rows.now place)
        (λ i. IsSomeAnd (slice_get rows.now i) (λ r. r.place ≡ place)) }
{
    if place >= at.len() {
        return None;
    }
    let i = at[place];
    if i >= rows.len() || rows[i].place != place {
        return None;
    }
    Some(i)
}

/// Exchanges two rows.
fn exchange(rows: &mut [Due], at: &mut [usize], i: usize, j: usize)
    requires indexed { IsIndexed rows.old at.old }
    requires first { i < length rows.old }
    requires second { j < length rows.old }
    ensures rows { rows.new ≡ swap rows.old i j }
    ensures indexed { IsIndexed rows.new at.new }
{
    rows.swap(i, j);
    let first = rows[i].place;
    let second = rows[j].place;
    at[first] = i;
    at[second] = j;
}

/// Moves this row up until the row above it is due no later. Returns where it stands then.
fn sift_up(rows: &mut [Due], at: &mut [usize], from: usize) -> usize
    requires indexed { IsIndexed rows.old at.old }
    requires within { from < length rows.old }
    requires heap { IsHeapAround rows.old from }
    ensures indexed { IsIndexed rows.new at.new }
    ensures within { result < length rows.new }
    ensures heap { IsHeapAbove rows.new result }
    ensures moments { moments_of rows.new ≡ moments_of rows.old }
{
    let mut i = from;
    while i > 0 {
        let above = (i - 1) / 2;
        if rows[above].moment <= rows[i].moment {
            break;
        }
        exchange(rows, at, i, above);
        i = above;
    }
    i
}

/// Of the rows directly below the row at i, where the one stands that is due first. None if there
/// are none.
fn least_below(rows: &[Due], i: usize) -> Option<usize>
    requires { i < length rows.now }
    ensures { MatchOption result (length rows.now ≤ 2 * i + 1)
        (λ k. (k < length rows.now) × IsParent i k
        × ((j : ℕ) → IsParent i j → j < length rows.now
        → moment_in rows.now k ≤ moment_in rows.now j)) }
{
    let len = rows.len();
    if i >= len / 2 {
        return None;
    }
    let left = 2 * i + 1;
    let right = left + 1;
    if right < len && rows[right].moment < rows[left].moment {
        Some(right)
    } else {
        Some(left)
    }
}

/// Moves this row down until the rows below it are due no earlier. The rows that it passes move up;
/// it is written where it stands in the end.
fn sift_down(rows: &mut [Due], at: &mut [usize], from: usize)
    requires indexed { IsIndexed rows.old at.old }
    requires within { from < length rows.old }
    requires heap { IsHeapAbove rows.old from }
    ensures indexed { IsIndexed rows.new at.new }
    ensures heap { IsHeap rows.new }
    ensures moments { moments_of rows.new ≡ moments_of rows.old }
{
    let moved = rows[from];
    let mut i = from;
    while let Some(below) = least_below(rows, i) {
        let next = rows[below];
        if moved.moment <= next.moment {
            break;
        }
        rows[i] = next;
        at[next.place] = i;
        i = below;
    }
    rows[i] = moved;
    at[moved.place] = i;
}

/// Moves the row at i up or down to where it belongs.
pub fn settle(rows: &mut [Due], at: &mut [usize], i: usize)
    requires indexed { IsIndexed rows.old at.old }
    requires within { i < length rows.old }
    requires heap { IsHeapAround rows.old i }
    ensures indexed { IsIndexed rows.new at.new }
    ensures heap { IsHeap rows.new }
    ensures moments { moments_of rows.new ≡ moments_of rows.old }
{
    let reached = sift_up(rows, at, i);
    sift_down(rows, at, reached);
}

/// Adds a row for a place that has none.
pub fn add(rows: &mut Vec<Due>, at: &mut [usize], due: Due)
    requires indexed { IsIndexed rows.old.items at.old }
    requires heap { IsHeap rows.old.items }
    requires absent { IsAbsent rows.old.items due.place }
    requires within { due.place < length at.old }
    requires ready { length at.old ≤ vec_capacity rows.old }
    ensures indexed { IsIndexed rows.new.items at.new }
    ensures heap { IsHeap rows.new.items }
    ensures moments { moments_of rows.new.items
        ≡ map.insert (moments_of rows.old.items) due.place due.moment }
    ensures capacity { vec_capacity rows.new ≡ vec_capacity rows.old }
{
    let i = rows.len();
    rows.push_reserved(due);
    at[due.place] = i;
    settle(rows, at, i);
}

/// Takes the row at i out.
pub fn take_out(rows: &mut Vec<Due>, at: &mut [usize], i: usize)
    requires indexed { IsIndexed rows.old.items at.old }
    requires heap { IsHeap rows.old.items }
    requires within { i < length rows.old.items }
    ensures indexed { IsIndexed rows.new.items at.new }
    ensures heap { IsHeap rows.new.items }
    ensures moments { (r : Due) → slice_get rows.old.items i ≡ Some r
        → moments_of rows.new.items ≡ map.remove (moments_of rows.old.items) r.place }
    ensures capacity { vec_capacity rows.new ≡ vec_capacity rows.old }
{
    let last = rows.len() - 1;
    exchange(rows, at, i, last);
    rows.pop();
    if i < last {
        settle(rows, at, i);
    }
}

/// Gives the row at i to another place, which has none.
pub fn relabel(rows: &mut [Due], at: &mut [usize], i: usize, to: usize)
    requires indexed { IsIndexed rows.old at.old }
    requires heap { IsHeap rows.old }
    requires within { i < length rows.old }
    requires absent { IsAbsent rows.old to }
    requires room { to < length at.old }
    ensures indexed { IsIndexed rows.new at.new }
    ensures heap { IsHeap rows.new }
    ensures moments { (r : Due) → slice_get rows.old i ≡ Some r → moments_of rows.new
        ≡ map.insert (map.remove (moments_of rows.old) r.place) to r.moment }
{
    rows[i].place = to;
    at[to] = i;
}
