//! Why a request is rejected: the reasons of H.225.0 that this gatekeeper gives, under their names
//! there.

ghost use Rattle.std.specs.Prelude.{◌≡◌, IfOk};

use crate::alias_list::ReplyAliases;
use std::alloc::AllocError;

/// Why a gatekeeper request is rejected (H.225.0, GatekeeperRejectReason).
#[derive(Clone, Copy, Debug, PartialEq, Eq)]
pub enum GatekeeperRejectReason {
    TerminalExcluded,
}

/// Why a registration is rejected (H.225.0, RegistrationRejectReason).
#[derive(PartialEq, Eq)]
pub enum RegistrationRejectReason {
    DiscoveryRequired,
    InvalidCallSignalAddress,
    InvalidRasAddress,
    /// These aliases are held by other endpoints.
    DuplicateAlias(ReplyAliases),
    ResourceUnavailable,
    FullRegistrationRequired,
}

// By hand, so that it is one call where one is dropped.
impl Drop for RegistrationRejectReason {
    fn drop(self) {
        match self {
            RegistrationRejectReason::DiscoveryRequired
            | RegistrationRejectReason::InvalidCallSignalAddress
            | RegistrationRejectReason::InvalidRasAddress
            | RegistrationRejectReason::DuplicateAlias(_)
            | RegistrationRejectReason::ResourceUnavailable
            | RegistrationRejectReason::FullRegistrationRequired => {}
        }
    }
}

/// Why an unregistration is rejected (H.225.0, UnregRejectReason).
#[derive(Clone, Copy, Debug, PartialEq, Eq)]
pub enum UnregRejectReason {
    NotCurrentlyRegistered,
    CallInProgress,
}

/// Why an admission is rejected (H.225.0, AdmissionRejectReason).
#[derive(Clone, Copy, Debug, PartialEq, Eq)]
pub enum AdmissionRejectReason {
    CalledPartyNotRegistered,
    RequestDenied,
    InvalidEndpointIdentifier,
    ResourceUnavailable,
}

/// Why a change of bandwidth is rejected (H.225.0, BandRejectReason).
#[derive(Clone, Copy, Debug, PartialEq, Eq)]
pub enum BandRejectReason {
    NotBound,
    InvalidConferenceId,
    InsufficientResources,
}

/// Why a disengagement is rejected (H.225.0, DisengageRejectReason).
#[derive(Clone, Copy, Debug, PartialEq, Eq)]
pub enum DisengageRejectReason {
    NotRegistered,
    RequestToDropOther,
}

impl RegistrationRejectReason {
    /// An equal reason.
    pub fn copy(&self) -> Result<Self, AllocError>
        ensures { IfOk result (λ copy. copy ≡ self.now) }
    {
        match self {
            Self::DiscoveryRequired => Ok(Self::DiscoveryRequired),
            Self::InvalidCallSignalAddress => Ok(Self::InvalidCallSignalAddress),
            Self::InvalidRasAddress => Ok(Self::InvalidRasAddress),
            Self::DuplicateAlias(held) => Ok(Self::DuplicateAlias(held.copy()?)),
            Self::ResourceUnavailable => Ok(Self::ResourceUnavailable),
            Self::FullRegistrationRequired => Ok(Self::FullRegistrationRequired),
        }
    }
}
