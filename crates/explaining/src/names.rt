//! The names of messages, and of what is wrong with octets.

ghost use Rattle.std.specs.Prelude.{◌≡◌};
ghost use Rattle.explaining.specs.Names.{fault_words, has_place, later_name, message_name};
ghost use Rattle.explaining.specs.Names.{root_name};

use ras_grammar::ReadFault;

/// The message that this octet begins (H.225.0, RasMessage).
pub(crate) fn message_name(first: u8) -> &'static str
    ensures { result.now ≡ message_name first }
{
    if first < 128 {
        root_name(first / 4)
    } else {
        later_name(first - 128)
    }
}

/// The message before the extension marker with this index.
fn root_name(index: u8) -> &'static str
    ensures { result.now ≡ root_name index }
{
    match index {
        0 => "GatekeeperRequest",
        1 => "GatekeeperConfirm",
        2 => "GatekeeperReject",
        3 => "RegistrationRequest",
        4 => "RegistrationConfirm",
        5 => "RegistrationReject",
        6 => "UnregistrationRequest",
        7 => "UnregistrationConfirm",
        8 => "UnregistrationReject",
        9 => "AdmissionRequest",
        10 => "AdmissionConfirm",
        11 => "AdmissionReject",
        12 => "BandwidthRequest",
        13 => "BandwidthConfirm",
        14 => "BandwidthReject",
        15 => "DisengageRequest",
        16 => "DisengageConfirm",
        17 => "DisengageReject",
        18 => "LocationRequest",
        19 => "LocationConfirm",
        20 => "LocationReject",
        21 => "InfoRequest",
        22 => "InfoRequestResponse",
        23 => "NonStandardMessage",
        24 => "UnknownMessageResponse",
        _ => "a message without a name",
    }
}

/// The message behind the extension marker with this index.
fn later_name(index: u8) -> &'static str
    ensures { result.now ≡ later_name index }
{
    match index {
        0 => "RequestInProgress",
        1 => "ResourcesAvailableIndicate",
        2 => "ResourcesAvailableConfirm",
        3 => "InfoRequestAck",
        4 => "InfoRequestNak",
        5 => "ServiceControlIndication",
        6 => "ServiceControlResponse",
        7 => "AdmissionConfirmSequence",
        _ => "a message without a name",
    }
}

/// Whether it can be said up to which octet a fault shows. Octets that end too early have no such
/// place.
pub(crate) fn has_place(fault: ReadFault) -> bool
    ensures { result ≡ has_place fault }
{
    match fault {
        ReadFault::Truncated => false,
        ReadFault::BadLength
        | ReadFault::Fragmented
        | ReadFault::TooMany
        | ReadFault::BadChoice
        | ReadFault::BadCharacter
        | ReadFault::Memory => true,
    }
}

/// What is wrong.
pub(crate) fn fault_words(fault: ReadFault) -> &'static str
    ensures { result.now ≡ fault_words fault }
{
    match fault {
        ReadFault::Truncated => "the octets end too early",
        ReadFault::BadLength => "a length or a number is outside its range",
        ReadFault::Fragmented => "a length is in fragments",
        ReadFault::TooMany => "a small number is in its long form",
        ReadFault::BadChoice => "an alternative has no such index",
        ReadFault::BadCharacter => "a character can't be dialled",
        ReadFault::Memory => "out of memory",
    }
}
