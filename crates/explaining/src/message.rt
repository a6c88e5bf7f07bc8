//! What octets are, in words.

ghost use Rattle.std.specs.Prelude.{◌≡◌, OnOk, get_or};
ghost use Rattle.std.specs.String.{string_bytes};
ghost use Rattle.explaining.specs.Messages.{with_fault, with_length, with_message, with_name};
ghost use Rattle.explaining.specs.Messages.{with_place, with_placed_fault};

use crate::names::{fault_words, has_place, message_name};
use crate::parts::push_number;
use crate::place::place_of;
use crate::request::push_request;
use ras_grammar::ReadFault;
use ras_module::Request;
use ras_reading::read;
use std::alloc::{AllocError, Global};

/// Writes that octets are too many to be read.
fn push_length(out: &mut String, octets: usize) -> Result<(), AllocError>
    ensures { OnOk result (string_bytes out.new ≡ with_length (string_bytes out.old) octets) }
{
    push_number(out, "too long: ", octets as u64)?;
    out.push_str(" octets")
}

/// The first octet; 0 if there is none.
fn first_of(octets: &[u8]) -> u8
    ensures { result ≡ get_or octets.now 0 0 }
{
    if octets.is_empty() {
        return 0;
    }
    octets[0]
}

/// Writes that a message isn't served.
fn push_name(out: &mut String, octets: &[u8]) -> Result<(), AllocError>
    ensures { OnOk result (string_bytes out.new ≡ with_name (string_bytes out.old) octets.now) }
{
    out.push_str("not served: ")?;
    out.push_str(message_name(first_of(octets)))
}

/// Writes up to which octet a fault shows.
fn push_place(out: &mut String, place: usize) -> Result<(), AllocError>
    ensures { OnOk result (string_bytes out.new ≡ with_place (string_bytes out.old) place) }
{
    push_number(out, "unreadable: octet ", place as u64)?;
    out.push_str(": ")
}

/// Writes what is wrong with octets, and up to which of them that shows.
#[tactic(auto, unfolding(crate::specs::Messages::with_placed_fault))]
fn push_placed_fault(
    alloc: Global,
    out: &mut String,
    octets: &[u8],
    fault: ReadFault,
) -> Result<(), AllocError>
    ensures { OnOk result (string_bytes out.new
        ≡ with_placed_fault (string_bytes out.old) octets.now fault) }
{
    let place = place_of(alloc, octets, fault)?;
    push_place(out, place)?;
    out.push_str(fault_words(fault))
}

/// Writes what is wrong with octets, and up to which of them that shows, if it can be said.
fn push_fault(
    alloc: Global,
    out: &mut String,
    octets: &[u8],
    fault: ReadFault,
) -> Result<(), AllocError>
    ensures { OnOk result (string_bytes out.new
        ≡ with_fault (string_bytes out.old) octets.now fault) }
{
    if has_place(fault) {
        return push_placed_fault(alloc, out, octets, fault);
    }
    out.push_str("unreadable: ")?;
    out.push_str(fault_words(fault))
}

/// Writes in words what octets are: a request with its fields, the name of a message that isn't
/// served, or why they aren't read. `out` isn't as it was if memory is refused.
///
/// promise words-follow-the-reading: The words follow from the octets' reading (`with_message`).
pub fn push_message(alloc: Global, out: &mut String, octets: &[u8]) -> Result<(), AllocError>
    ensures { OnOk result (string_bytes out.new ≡ with_message (string_bytes out.old) octets.now) }
{
    if octets.len() > Request::MOST {
        return push_length(out, octets.len());
    }
    match read(alloc, octets) {
        Ok(Some(request)) => push_request(out, &request),
        Ok(None) => push_name(out, octets),
        Err(ReadFault::Memory) => Err(AllocError),
        Err(fault) => push_fault(alloc, out, octets, fault),
    }
}
