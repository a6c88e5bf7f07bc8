//! All messages of RAS (H.225.0, RasMessage).

ghost use Rattle.std.specs.Prelude.{◌≡◌, ◌⊎◌, IfErr};
ghost use Rattle.ras_grammar.specs.Faults.{IsUnlessMemory};
ghost use Rattle.ras_reading.specs.Parsing.{ParsesUnlessMemory};
ghost use Rattle.ras_reading.specs.Messages.{ras_message, root_message, message_reading, Reads};
ghost use Rattle.ras_reading.specs.Messages.{NotServed, IsFaulty};
ghost use Rattle.ras_module.specs.declared.request.Request.{Request};
ghost use Rattle.ras_grammar.specs.declared.fault.ReadFault.TheVariants.{Memory};

use crate::request::{
    admission_request, bandwidth_request, disengage_request, gatekeeper_request,
    info_request_response, registration_request, unregistration_request,
};
use ras_grammar::{Decoder, ReadFault};
use ras_module::Request;
use std::alloc::Global;

fn root_message(alloc: Global, decoder: &mut Decoder<'_>) -> Result<Option<Request>, ReadFault>
    ensures { ParsesUnlessMemory root_message.reading decoder.old result decoder.new }
{
    let index = decoder.choice_index(24)?;
    let request = match index {
        0 => Some(Request::Grq(gatekeeper_request(alloc, decoder)?)),
        3 => Some(Request::Rrq(registration_request(alloc, decoder)?)),
        6 => Some(Request::Urq(unregistration_request(alloc, decoder)?)),
        9 => Some(Request::Arq(admission_request(alloc, decoder)?)),
        12 => Some(Request::Brq(bandwidth_request(alloc, decoder)?)),
        15 => Some(Request::Drq(disengage_request(alloc, decoder)?)),
        22 => Some(Request::Irr(info_request_response(alloc, decoder)?)),
        _ => None,
    };
    Ok(request)
}

#[tactic(auto, unfolding(crate::specs::Messages::ras_message))]
fn ras_message(alloc: Global, decoder: &mut Decoder<'_>) -> Result<Option<Request>, ReadFault>
    ensures { ParsesUnlessMemory ras_message.reading decoder.old result decoder.new }
{
    if decoder.boolean()? {
        return Ok(None);
    }
    root_message(alloc, decoder)
}

/// The message that octets begin with.
#[tactic(auto, unfolding(crate::specs::Messages::message_reading))]
fn message(alloc: Global, octets: &[u8]) -> Result<Option<Request>, ReadFault>
    ensures { IsUnlessMemory (message_reading octets.now) result }
{
    let mut decoder = Decoder::new(octets);
    ras_message(alloc, &mut decoder)
}

/// The request that octets begin with, or None if they are a message that is not served. What
/// follows is not read.
///
/// promise messages-are-read-exactly: Octets are a request if and only if they begin with an
/// encoding of one that is served; not served if and only if their first bits say so; else the
/// fault is the grammar's. Want of memory is left aside (`Reads`, `NotServed`, `message_reading`).
pub fn read(alloc: Global, octets: &[u8]) -> Result<Option<Request>, ReadFault>
    ensures gives { IsUnlessMemory (message_reading octets.now) result }

    ensures request { (request : Request) → result ≡ Ok (Some request) → Reads octets.now request }
    ensures each_request { (request : Request) → Reads octets.now request → IsUnlessMemory (Ok
        (Some request)) result }

    ensures not_served { result ≡ Ok None → NotServed octets.now }
    ensures each_other { NotServed octets.now → IsUnlessMemory (Ok None) result }

    ensures fault { IfErr result (λ fault. (fault ≡ Memory) ⊎ IsFaulty octets.now) }
{
    message(alloc, octets)
}
