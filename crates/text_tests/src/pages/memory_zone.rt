//! A zone in memory.

use pools::Figures;
use ras_module::{Address, Alias, CallKey, EndpointId, H323Id};
use std::alloc::{AllocError, Global};
use std::test::Fail;
use value_texts::name_of;
use zone_view::{
    CallRow, Counts, EndpointRow, RunningZone, ServerFigures, ShownAliases, ZoneFigures,
};

/// A zone with these endpoints and calls.
#[derive(Drop)]
pub(crate) struct MemoryZone {
    pub(crate) endpoints: Vec<EndpointId>,
    pub(crate) calls: Vec<CallRow>,
}

/// The identifier that is written so.
pub(crate) fn identifier(text: &str) -> Result<EndpointId, Fail> {
    Ok(EndpointId::new(name_of(text.as_bytes()).ok_or("no name")?))
}

/// An address of the network 10.0.0.0/24.
pub(crate) fn address(last: u8, port: u16) -> Address {
    Address {
        ip: [10, 0, 0, last],
        port,
    }
}

/// A row of the endpoint with this identifier. It has one alias, an h323-ID of one quote.
fn endpoint_row(identifier: EndpointId) -> EndpointRow {
    let quote = H323Id::new(&[34]).unwrap();
    EndpointRow {
        identifier,
        call_signal: address(7, 1_720),
        ras: address(7, 1_719),
        aliases: ShownAliases::first_of(&[Alias::H323Id(quote)]),
        alias_count: 1,
        legs: 2,
        deadline: 60_000,
        heard: 1_500,
    }
}

/// A row of a call whose key ends with this octet.
pub(crate) fn call_row(last: u8, first: EndpointId, second: Option<EndpointId>) -> CallRow {
    let mut octets = [0; 16];
    octets[15] = last;
    CallRow {
        key: CallKey { octets },
        pool: 1,
        units: 640,
        first,
        second,
    }
}

/// The endpoints 0005, 0001, 0003, 0001, 0004, 0002.
fn endpoints(alloc: Global) -> Result<Vec<EndpointId>, Fail> {
    let mut endpoints = Vec::new(alloc);
    for text in ["0005", "0001", "0003", "0001", "0004", "0002"] {
        endpoints.push(identifier(text)?).map_err(AllocError::from)?;
    }
    Ok(endpoints)
}

/// The calls 3, 1, 2, 1 of the endpoint 0001.
fn calls(alloc: Global) -> Result<Vec<CallRow>, Fail> {
    let caller = identifier("0001")?;
    let mut calls = Vec::new(alloc);
    for last in [3, 1, 2, 1] {
        calls
            .push(call_row(last, caller, None))
            .map_err(AllocError::from)?;
    }
    Ok(calls)
}

/// A zone with these endpoints and calls.
pub(crate) fn small_zone(alloc: Global) -> Result<MemoryZone, Fail> {
    let endpoints = endpoints(alloc)?;
    let calls = calls(alloc)?;
    Ok(MemoryZone { endpoints, calls })
}

/// It tells one row at a time.
impl RunningZone for MemoryZone {
    ghost has_figures = { λ _ _ _. Unit {0} };

    ghost has_endpoint = { λ _ _. Unit {0} };

    ghost has_call = { λ _ _. Unit {0} };

    fn figures(&self, pools: &mut Vec<Figures>) -> ZoneFigures {
        pools.push_reserved(Figures {
            limit: 2_000,
            lent: 640,
            refusals: 3,
            waits: 4,
        });
        ZoneFigures {
            clock: 93_784_567,
            steps: 17,
            endpoints: self.endpoints.len(),
            calls: self.calls.len(),
            kept: 5,
            in_use: 640,
            limit: 1_000,
        }
    }

    fn server(&self) -> ServerFigures {
        ServerFigures {
            received: 21,
            sent: 20,
            dropped: 1,
            refused: 2,
            receive_faults: 3,
            send_faults: 4,
        }
    }

    fn counts(&self) -> Counts {
        Counts::none()
    }

    fn endpoints_below(&self, place: usize, rows: &mut Vec<EndpointRow>) -> usize {
        let end = place.min(self.endpoints.len());
        if end == 0 || rows.capacity() == 0 {
            return 0;
        }
        rows.push_reserved(endpoint_row(self.endpoints[end - 1]));
        end - 1
    }

    fn calls_below(&self, place: usize, rows: &mut Vec<CallRow>) -> usize {
        let end = place.min(self.calls.len());
        if end == 0 || rows.capacity() == 0 {
            return 0;
        }
        let row = &self.calls[end - 1];
        rows.push_reserved(CallRow {
            key: row.key,
            pool: row.pool,
            units: row.units,
            first: row.first,
            second: row.second,
        });
        end - 1
    }

    fn has_ended(&self) -> bool {
        false
    }
}
