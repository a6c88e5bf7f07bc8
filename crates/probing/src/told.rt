//! What an answer says, in words.

ghost use Rattle.std.specs.Prelude.{◌≡◌, IfOk, OnOk};
ghost use Rattle.std.specs.String.{string_bytes};
ghost use Rattle.probing.specs.Replies.{reply_reading};
ghost use Rattle.probing.specs.Told.{is_found, reason_words, with_address, with_confirm, with_name};
ghost use Rattle.probing.specs.Told.{with_milliseconds, with_number, with_reject, with_told};

use crate::reply::{Confirm, DiscoveryReply, Reject, RejectReason, read_reply};
use crate::request::SEQ;
use escapes::json_string;
use itoa::Buffer;
use ras_grammar::ReadFault;
use ras_module::{Address, Boxed, Name};
use std::alloc::{AllocError, Global};

/// What is told of an answer that is no answer to the request.
const NO_CONFIRM: &str = "not a confirm\n";

fn push_number(out: &mut String, before: &str, number: u64) -> Result<(), AllocError>
    ensures { OnOk result (string_bytes out.new
        ≡ with_number (string_bytes out.old) before.now number) }
{
    let mut buffer = Buffer::new();
    out.push_str(before)?;
    out.push_str(buffer.format(number))
}

/// Writes a text, and an address behind it, as in `10.0.0.1:1719`.
fn push_address(out: &mut String, before: &str, address: Address) -> Result<(), AllocError>
    ensures { OnOk result (string_bytes out.new
        ≡ with_address (string_bytes out.old) before.now address) }
{
    push_number(out, before, u64::from(address.ip[0]))?;
    push_number(out, ".", u64::from(address.ip[1]))?;
    push_number(out, ".", u64::from(address.ip[2]))?;
    push_number(out, ".", u64::from(address.ip[3]))?;
    push_number(out, ":", u64::from(address.port))
}

/// Writes milliseconds with a tenth.
fn push_milliseconds(out: &mut String, microseconds: u64) -> Result<(), AllocError>
    ensures { OnOk result (string_bytes out.new
        ≡ with_milliseconds (string_bytes out.old) microseconds) }
{
    push_number(out, " answers after ", microseconds / 1_000)?;
    push_number(out, ".", microseconds % 1_000 / 100)?;
    out.push_str(" ms\n")
}

/// Writes the name that a gatekeeper tells, as in a string of JSON, or that it tells none.
fn push_name(out: &mut String, name: &Option<Boxed<Name>>) -> Result<(), AllocError>
    ensures { OnOk result (string_bytes out.new ≡ with_name (string_bytes out.old) name.now) }
{
    match name {
        Some(name) => json_string(out, name.get().as_slice()),
        None => out.push_str("a gatekeeper without a name"),
    }
}

fn push_confirm(out: &mut String, confirm: &Confirm, microseconds: u64) -> Result<(), AllocError>
    ensures { OnOk result (string_bytes out.new
        ≡ with_confirm (string_bytes out.old) confirm.now microseconds) }
{
    if confirm.seq.get() != SEQ {
        return out.push_str(NO_CONFIRM);
    }
    push_name(out, &confirm.gatekeeper)?;
    push_address(out, " at ", confirm.ras)?;
    push_milliseconds(out, microseconds)
}

/// The name of a reason (H.225.0).
fn reason_words(reason: RejectReason) -> &'static str
    ensures { result.now ≡ reason_words reason }
{
    match reason {
        RejectReason::ResourceUnavailable => "resourceUnavailable",
        RejectReason::TerminalExcluded => "terminalExcluded",
        RejectReason::InvalidRevision => "invalidRevision",
        RejectReason::UndefinedReason => "undefinedReason",
        RejectReason::SecurityDenial => "securityDenial",
        RejectReason::GenericDataReason => "genericDataReason",
        RejectReason::NeededFeatureNotSupported => "neededFeatureNotSupported",
        RejectReason::Later => "a reason of a later edition",
    }
}

fn push_reject(out: &mut String, reject: Reject) -> Result<(), AllocError>
    ensures { OnOk result (string_bytes out.new ≡ with_reject (string_bytes out.old) reject) }
{
    if reject.seq.get() != SEQ {
        return out.push_str(NO_CONFIRM);
    }
    out.push_str("rejected: ")?;
    out.push_str(reason_words(reject.reason))?;
    out.push_str("\n")
}

/// Writes a line that tells what octets say as an answer to a discovery that was sent these
/// microseconds ago, and says whether they confirm it.
///
/// promise answers-are-told-as-they-read: The line follows from the reading (`with_told`).
pub fn push_told(
    alloc: Global,
    out: &mut String,
    octets: &[u8],
    microseconds: u64,
) -> Result<bool, AllocError>
    ensures words { OnOk result (string_bytes out.new
        ≡ with_told (string_bytes out.old) (reply_reading octets.now) microseconds) }
    ensures found { IfOk result (λ found. found ≡ is_found (reply_reading octets.now)) }
{
    match read_reply(alloc, octets) {
        Ok(DiscoveryReply::Confirm(confirm)) => {
            push_confirm(out, &confirm, microseconds)?;
            Ok(confirm.seq.get() == SEQ)
        }
        Ok(DiscoveryReply::Reject(reject)) => {
            push_reject(out, reject)?;
            Ok(false)
        }
        Err(ReadFault::Memory) => Err(AllocError),
        Ok(DiscoveryReply::Other) | Err(_) => {
            out.push_str(NO_CONFIRM)?;
            Ok(false)
        }
    }
}
