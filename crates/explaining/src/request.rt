//! Requests in words: the names of H.225.0, each with its value. Bandwidth is in units of
//! 100 bit/s.

ghost use Rattle.std.specs.Prelude.{◌≡◌, OnOk};
ghost use Rattle.std.specs.String.{string_bytes};
ghost use Rattle.explaining.specs.Requests.{with_admission, with_asked, with_bandwidth};
ghost use Rattle.explaining.specs.Requests.{with_disengage};
ghost use Rattle.explaining.specs.Requests.{with_discovery, with_info_response};
ghost use Rattle.explaining.specs.Requests.{with_parties, with_registrant, with_registration};
ghost use Rattle.explaining.specs.Requests.{with_request, with_terms, with_unregistration};

use crate::parts::{
    push_aliases, push_endpoint, push_flag, push_key, push_number, push_optional_address,
    push_optional_endpoint, push_optional_gatekeeper, push_time_to_live,
};
use ras_module::{
    AdmissionRequest, BandwidthRequest, DisengageRequest, GatekeeperRequest, InfoRequestResponse,
    RegistrationRequest, Request, UnregistrationRequest,
};
use std::alloc::AllocError;

fn push_discovery(out: &mut String, request: &GatekeeperRequest) -> Result<(), AllocError>
    ensures { OnOk result (string_bytes out.new
        ≡ with_discovery (string_bytes out.old) request.now) }
{
    push_number(
        out,
        "GatekeeperRequest: requestSeqNum ",
        u64::from(request.seq.get()),
    )?;
    push_optional_gatekeeper(out, &request.gatekeeper)
}

/// Writes until when a registration is asked for, and whose it is.
fn push_terms(out: &mut String, request: &RegistrationRequest) -> Result<(), AllocError>
    ensures { OnOk result (string_bytes out.new
        ≡ with_terms (string_bytes out.old) request.now) }
{
    push_time_to_live(out, request.time_to_live)?;
    push_flag(out, ", keepAlive", request.keep_alive)?;
    push_optional_endpoint(out, &request.endpoint)
}

/// Writes the number of a registration request, and the addresses of who registers.
fn push_registrant(out: &mut String, request: &RegistrationRequest) -> Result<(), AllocError>
    ensures { OnOk result (string_bytes out.new
        ≡ with_registrant (string_bytes out.old) request.now) }
{
    push_number(
        out,
        "RegistrationRequest: requestSeqNum ",
        u64::from(request.seq.get()),
    )?;
    push_optional_address(out, ", callSignalAddress ", request.call_signal)?;
    push_optional_address(out, ", rasAddress ", request.ras)
}

fn push_registration(out: &mut String, request: &RegistrationRequest) -> Result<(), AllocError>
    ensures { OnOk result (string_bytes out.new
        ≡ with_registration (string_bytes out.old) request.now) }
{
    push_registrant(out, request)?;
    push_aliases(out, ", terminalAlias", request.aliases.as_slice())?;
    push_optional_gatekeeper(out, &request.gatekeeper)?;
    push_terms(out, request)
}

fn push_unregistration(out: &mut String, request: &UnregistrationRequest) -> Result<(), AllocError>
    ensures { OnOk result (string_bytes out.new
        ≡ with_unregistration (string_bytes out.old) request.now) }
{
    push_number(
        out,
        "UnregistrationRequest: requestSeqNum ",
        u64::from(request.seq.get()),
    )?;
    push_optional_address(out, ", callSignalAddress ", request.call_signal)?;
    push_optional_endpoint(out, &request.endpoint)
}

/// Writes who asks for a call, and who is called.
#[tactic(auto, unfolding(crate::specs::Requests::with_parties))]
fn push_parties(out: &mut String, request: &AdmissionRequest) -> Result<(), AllocError>
    ensures { OnOk result (string_bytes out.new
        ≡ with_parties (string_bytes out.old) request.now) }
{
    push_endpoint(out, &request.endpoint)?;
    push_aliases(out, ", destinationInfo", request.dest.as_slice())?;
    push_optional_address(out, ", destCallSignalAddress ", request.dest_address)
}

/// Writes what is asked for which call.
#[tactic(auto, unfolding(crate::specs::Requests::with_asked))]
fn push_asked(out: &mut String, request: &AdmissionRequest) -> Result<(), AllocError>
    ensures { OnOk result (string_bytes out.new
        ≡ with_asked (string_bytes out.old) request.now) }
{
    push_number(out, ", bandWidth ", u64::from(request.asked))?;
    push_key(out, request.call)?;
    push_flag(out, ", answerCall", request.answer)
}

fn push_admission(out: &mut String, request: &AdmissionRequest) -> Result<(), AllocError>
    ensures { OnOk result (string_bytes out.new
        ≡ with_admission (string_bytes out.old) request.now) }
{
    push_number(
        out,
        "AdmissionRequest: requestSeqNum ",
        u64::from(request.seq.get()),
    )?;
    push_parties(out, request)?;
    push_asked(out, request)
}

fn push_bandwidth(out: &mut String, request: &BandwidthRequest) -> Result<(), AllocError>
    ensures { OnOk result (string_bytes out.new
        ≡ with_bandwidth (string_bytes out.old) request.now) }
{
    push_number(
        out,
        "BandwidthRequest: requestSeqNum ",
        u64::from(request.seq.get()),
    )?;
    push_endpoint(out, &request.endpoint)?;
    push_number(out, ", bandWidth ", u64::from(request.asked))?;
    push_key(out, request.call)
}

fn push_disengage(out: &mut String, request: &DisengageRequest) -> Result<(), AllocError>
    ensures { OnOk result (string_bytes out.new
        ≡ with_disengage (string_bytes out.old) request.now) }
{
    push_number(
        out,
        "DisengageRequest: requestSeqNum ",
        u64::from(request.seq.get()),
    )?;
    push_endpoint(out, &request.endpoint)?;
    push_key(out, request.call)
}

fn push_info_response(out: &mut String, request: &InfoRequestResponse) -> Result<(), AllocError>
    ensures { OnOk result (string_bytes out.new
        ≡ with_info_response (string_bytes out.old) request.now) }
{
    push_number(
        out,
        "InfoRequestResponse: requestSeqNum ",
        u64::from(request.seq.get()),
    )?;
    push_endpoint(out, &request.endpoint)
}

/// Writes a request.
pub(crate) fn push_request(out: &mut String, request: &Request) -> Result<(), AllocError>
    ensures { OnOk result (string_bytes out.new
        ≡ with_request (string_bytes out.old) request.now) }
{
    match request {
        Request::Grq(request) => push_discovery(out, request.get()),
        Request::Rrq(request) => push_registration(out, request.get()),
        Request::Urq(request) => push_unregistration(out, request.get()),
        Request::Arq(request) => push_admission(out, request.get()),
        Request::Brq(request) => push_bandwidth(out, request.get()),
        Request::Drq(request) => push_disengage(out, request.get()),
        Request::Irr(request) => push_info_response(out, request.get()),
    }
}
