//! What the tests of audits and of writing share.

use ras_core::{Event, Moment};
use ras_module::{Octets, Source};
use std::alloc::Global;
use std::test::Fail;

/// A datagram with these octets comes from this address.
pub fn datagram(alloc: Global, source: Source, bytes: &[u8], at: u64) -> Result<Event, Fail> {
    let moment = Moment::new(at).ok_or("a moment")?;
    Ok(Event::Datagram(source, Octets::from_vec(bytes.to_vec(alloc)?), moment))
}
