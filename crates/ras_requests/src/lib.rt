//! What each request comes to, decided by look-ups in the tables alone. It is a reply with a
//! change; or a registration that is kept alive; or a new endpoint, for which an identifier is
//! chosen; or units that are requested of a pool (ITU-T H.225.0, RAS).
//!
//! proved: a request's plan is the defined one (`plan_of`)
#![tactic(auto)]

mod arq;
mod brq;
mod drq;
mod grq;
mod plan;
mod replies;
mod requests;
mod rrq;
mod urq;

pub use plan::{GrantedTime, Newcomer, Plan, Settlement};
pub use replies::unit_reply;
pub use requests::{endpoint_of, plan_of, seq_of};
