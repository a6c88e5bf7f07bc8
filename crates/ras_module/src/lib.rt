//! The values of RAS messages (ITU-T H.225.0), without their encoding. They have what the
//! gatekeeper keeps of a request, and all that it says in a reply.
//!
//! proved: values are within their bounds (`BmpString::new`, `ReplyAliases::new`)
#![tactic(auto)]

mod address;
mod alias;
mod alias_list;
mod bmp_string;
mod boxed;
mod call_key;
mod dialled_digits;
mod endpoint_id;
mod number;
mod octets;
mod reason;
mod reply;
mod request;
mod texts;

pub use address::{Address, Source};
pub use alias::Alias;
pub use alias_list::{AliasList, ReplyAliases};
pub use bmp_string::{BmpString, H323Id, Name};
pub use boxed::Boxed;
pub use call_key::CallKey;
pub use dialled_digits::DialledDigits;
pub use endpoint_id::EndpointId;
pub use number::{Delay, RequestSeqNum, TimeToLive};
pub use octets::Octets;
pub use reason::{
    AdmissionRejectReason, BandRejectReason, DisengageRejectReason, GatekeeperRejectReason,
    RegistrationRejectReason, UnregRejectReason,
};
pub use reply::{GatekeeperConfirm, RegistrationConfirm, Reply};
pub use request::{
    AdmissionRequest, BandwidthRequest, DisengageRequest, GatekeeperRequest, InfoRequestResponse,
    RegistrationRequest, Request, UnregistrationRequest,
};
pub use texts::text_room;
