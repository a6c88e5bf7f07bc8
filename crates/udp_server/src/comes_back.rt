//! What the thread that carries out the orders promises.

ghost use Rattle.std.specs.Prelude.{◌≡◌, ℕ, List, []};
ghost use Rattle.udp_server.specs.Orders.{numbers_back};

use crate::expiry_worker::ExpiryRecord;
use pools::Pool;
use std::marker::{Brand, PhantomData};
use std::sync::ledger::Ledger;
use std::thread::Promise;
use zone_lock::Hall;

/// The pools that a server's orders name, by their numbers, in order. Who runs a server picks them.
pub(crate) trait OrderNumbers {
    ghost numbers: { List ℕ };
}

impl OrderNumbers for Brand {
    ghost numbers = { [] };
}

/// Of each order a pool comes back, in their order, beside the number of its pool.
#[derive(Drop)]
pub(crate) struct EachComesBack<O: OrderNumbers> {
    pub(crate) orders: PhantomData<O>,
}

impl<P: Pool, D: Hall, T: Ledger, U: Ledger, V: Ledger, O: OrderNumbers> Promise<
    ExpiryRecord<P, D, T, U, V>,
> for EachComesBack<O> {
    ghost kept_by = { λ _ left. numbers_back left.boxes.items ≡ O.numbers };
}
