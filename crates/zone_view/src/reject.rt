//! Rejects, each by its message and its reason.

ghost use Rattle.std.specs.Prelude.{◌≡◌, ◌<◌};
ghost use Rattle.zone_view.specs.Kinds.{reject_place};
ghost use Rattle.zone_view.specs.Labels.{reject_label, reject_message};

use crate::kinds::ReplyKind;

/// Why a request was rejected: the reasons of H.225.0 that the gatekeeper gives, by the message that
/// gives them.
#[derive(Clone, Copy, Debug, PartialEq, Eq)]
pub enum Reject {
    DiscoveryTerminalExcluded,
    RegistrationDiscoveryRequired,
    RegistrationInvalidCallSignalAddress,
    RegistrationInvalidRasAddress,
    RegistrationDuplicateAlias,
    RegistrationResourceUnavailable,
    RegistrationFullRegistrationRequired,
    UnregistrationNotCurrentlyRegistered,
    UnregistrationCallInProgress,
    AdmissionCalledPartyNotRegistered,
    AdmissionRequestDenied,
    AdmissionInvalidEndpointIdentifier,
    AdmissionResourceUnavailable,
    BandwidthNotBound,
    BandwidthInvalidConferenceId,
    BandwidthInsufficientResources,
    DisengageNotRegistered,
    DisengageRequestToDropOther,
}

impl Reject {
    pub const ALL: [Reject; 18] = [
        Reject::DiscoveryTerminalExcluded,
        Reject::RegistrationDiscoveryRequired,
        Reject::RegistrationInvalidCallSignalAddress,
        Reject::RegistrationInvalidRasAddress,
        Reject::RegistrationDuplicateAlias,
        Reject::RegistrationResourceUnavailable,
        Reject::RegistrationFullRegistrationRequired,
        Reject::UnregistrationNotCurrentlyRegistered,
        Reject::UnregistrationCallInProgress,
        Reject::AdmissionCalledPartyNotRegistered,
        Reject::AdmissionRequestDenied,
        Reject::AdmissionInvalidEndpointIdentifier,
        Reject::AdmissionResourceUnavailable,
        Reject::BandwidthNotBound,
        Reject::BandwidthInvalidConferenceId,
        Reject::BandwidthInsufficientResources,
        Reject::DisengageNotRegistered,
        Reject::DisengageRequestToDropOther,
    ];

    /// Its place among them.
    pub fn place(self) -> usize
        ensures place { result ≡ reject_place self }
        ensures within { result < 18 }
    {
        match self {
            Reject::DiscoveryTerminalExcluded => 0,
            Reject::RegistrationDiscoveryRequired => 1,
            Reject::RegistrationInvalidCallSignalAddress => 2,
            Reject::RegistrationInvalidRasAddress => 3,
            Reject::RegistrationDuplicateAlias => 4,
            Reject::RegistrationResourceUnavailable => 5,
            Reject::RegistrationFullRegistrationRequired => 6,
            Reject::UnregistrationNotCurrentlyRegistered => 7,
            Reject::UnregistrationCallInProgress => 8,
            Reject::AdmissionCalledPartyNotRegistered => 9,
            Reject::AdmissionRequestDenied => 10,
            Reject::AdmissionInvalidEndpointIdentifier => 11,
            Reject::AdmissionResourceUnavailable => 12,
            Reject::BandwidthNotBound => 13,
            Reject::BandwidthInvalidConferenceId => 14,
            Reject::BandwidthInsufficientResources => 15,
            Reject::DisengageNotRegistered => 16,
            Reject::DisengageRequestToDropOther => 17,
        }
    }

    /// The message that gives it.
    pub fn message(self) -> ReplyKind
        ensures { result ≡ reject_message self }
    {
        match self {
            Reject::DiscoveryTerminalExcluded => ReplyKind::Grj,
            Reject::RegistrationDiscoveryRequired
            | Reject::RegistrationInvalidCallSignalAddress
            | Reject::RegistrationInvalidRasAddress
            | Reject::RegistrationDuplicateAlias
            | Reject::RegistrationResourceUnavailable
            | Reject::RegistrationFullRegistrationRequired => ReplyKind::Rrj,
            Reject::UnregistrationNotCurrentlyRegistered | Reject::UnregistrationCallInProgress =>
                ReplyKind::Urj,
            Reject::AdmissionCalledPartyNotRegistered
            | Reject::AdmissionRequestDenied
            | Reject::AdmissionInvalidEndpointIdentifier
            | Reject::AdmissionResourceUnavailable => ReplyKind::Arj,
            Reject::BandwidthNotBound
            | Reject::BandwidthInvalidConferenceId
            | Reject::BandwidthInsufficientResources => ReplyKind::Brj,
            Reject::DisengageNotRegistered | Reject::DisengageRequestToDropOther => {
                ReplyKind::Drj
            }
        }
    }

    /// The reason's name in H.225.0.
    pub fn label(self) -> &'static str
        ensures { result.now ≡ reject_label self }
    {
        match self {
            Reject::DiscoveryTerminalExcluded => "terminalExcluded",
            Reject::RegistrationDiscoveryRequired => "discoveryRequired",
            Reject::RegistrationInvalidCallSignalAddress => "invalidCallSignalAddress",
            Reject::RegistrationInvalidRasAddress => "invalidRASAddress",
            Reject::RegistrationDuplicateAlias => "duplicateAlias",
            Reject::RegistrationResourceUnavailable => "resourceUnavailable",
            Reject::RegistrationFullRegistrationRequired => "fullRegistrationRequired",
            Reject::UnregistrationNotCurrentlyRegistered => "notCurrentlyRegistered",
            Reject::UnregistrationCallInProgress => "callInProgress",
            Reject::AdmissionCalledPartyNotRegistered => "calledPartyNotRegistered",
            Reject::AdmissionRequestDenied => "requestDenied",
            Reject::AdmissionInvalidEndpointIdentifier => "invalidEndpointIdentifier",
            Reject::AdmissionResourceUnavailable => "resourceUnavailable",
            Reject::BandwidthNotBound => "notBound",
            Reject::BandwidthInvalidConferenceId => "invalidConferenceID",
            Reject::BandwidthInsufficientResources => "insufficientResources",
            Reject::DisengageNotRegistered => "notRegistered",
            Reject::DisengageRequestToDropOther => "requestToDropOther",
        }
    }
}
