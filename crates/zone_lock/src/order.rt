//! What a step under the lock needs, made before the lock is taken.

ghost use Rattle.std.specs.Prelude.{◌≡◌, ◌≤◌, [], IfOk, vec_capacity};

use crate::seat::{Hall, Seat};
use ras_core::{Change, Prepared};
use ras_module::Reply;
use std::alloc::{AllocError, Global};
use std::mem;
use std::sync::ledger::Ledger;

/// An event for a step, with a copy of it for the entry, and a buffer that has room for what any
/// step sends.
#[derive(Drop)]
pub(crate) struct Order {
    pub(crate) prepared: Prepared,
    pub(crate) kept: Change,
    pub(crate) buffer: Vec<u8>,
}

impl Order {
    /// What a step of this event by a seat needs. The buffer is the one that the seat has, if it is
    /// large enough.
    pub(crate) fn new<D: Hall, T: Ledger, U: Ledger, V: Ledger>(
        alloc: Global,
        prepared: Prepared,
        seat: &mut Seat<D, T, U, V>,
    ) -> Result<Self, AllocError>
        ensures seat { seat.new ≡ seat.old }
        ensures prepared { IfOk result (λ order. order.prepared ≡ prepared) }
        ensures kept { IfOk result (λ order. order.kept ≡ Change.Event prepared) }
        ensures empty { IfOk result (λ order. order.buffer.items ≡ []) }
        ensures room { IfOk result (λ order. Reply.MOST ≤ vec_capacity order.buffer) }
    {
        match kept_with_buffer(alloc, &prepared, &mut seat.buffer) {
            Ok((kept, buffer)) => Ok(Order {
                prepared,
                kept,
                buffer,
            }),
            Err(fault) => {
                drop(prepared);
                Err(fault)
            }
        }
    }
}

/// An order of a step that is told of, with one more copy of its event, for the receipt.
#[derive(Drop)]
pub(crate) struct ToldOrder {
    pub(crate) order: Order,
    pub(crate) told: Change,
}

impl ToldOrder {
    /// What a step of this event by a seat needs, as `Order::new` makes it, and its receipt.
    pub(crate) fn new<D: Hall, T: Ledger, U: Ledger, V: Ledger>(
        alloc: Global,
        prepared: Prepared,
        seat: &mut Seat<D, T, U, V>,
    ) -> Result<Self, AllocError>
        ensures seat { seat.new ≡ seat.old }
        ensures prepared { IfOk result (λ both. both.order.prepared ≡ prepared) }
        ensures kept { IfOk result (λ both. both.order.kept ≡ Change.Event prepared) }
        ensures told { IfOk result (λ both. both.told ≡ Change.Event prepared) }
        ensures empty { IfOk result (λ both. both.order.buffer.items ≡ []) }
        ensures room { IfOk result (λ both. Reply.MOST ≤ vec_capacity both.order.buffer) }
    {
        match change_of(&prepared) {
            Ok(told) => match Order::new(alloc, prepared, seat) {
                Ok(order) => Ok(ToldOrder { order, told }),
                Err(fault) => Err(fault),
            },
            Err(fault) => {
                drop(prepared);
                Err(fault)
            }
        }
    }
}

/// A copy of the event, and a buffer, as `buffer_of` has it.
fn kept_with_buffer(
    alloc: Global,
    prepared: &Prepared,
    place: &mut Vec<u8>,
) -> Result<(Change, Vec<u8>), AllocError>
    ensures kept { IfOk result (λ both. both.0 ≡ Change.Event prepared.now) }
    ensures empty { IfOk result (λ both. both.1.items ≡ []) }
    ensures room { IfOk result (λ both. Reply.MOST ≤ vec_capacity both.1) }
{
    let kept = change_of(prepared)?;
    let buffer = buffer_of(alloc, place)?;
    Ok((kept, buffer))
}

/// The event, copied, as a change of the zone.
fn change_of(prepared: &Prepared) -> Result<Change, AllocError>
    ensures { IfOk result (λ change. change ≡ Change.Event prepared.now) }
{
    Ok(Change::Event(prepared.event()?))
}

/// An empty buffer with room for what any step sends: the one that stands there, if it is large
/// enough. None is left there.
fn buffer_of(alloc: Global, place: &mut Vec<u8>) -> Result<Vec<u8>, AllocError>
    ensures empty { IfOk result (λ buffer. buffer.items ≡ []) }
    ensures room { IfOk result (λ buffer. Reply.MOST ≤ vec_capacity buffer) }
{
    let mut buffer = mem::replace(place, Vec::new(alloc));
    buffer.clear();
    buffer.reserve(Reply::MOST)?;
    Ok(buffer)
}
