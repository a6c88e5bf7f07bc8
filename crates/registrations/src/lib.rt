//! The endpoints that are registered, by identifier.
//!
//! proved: a finite map; an identifier that no registration has is told (`Registrations::unused`),
//! and an endpoint whose silence has ended (`silent`)
#![tactic(auto)]

mod fault;
mod fresh;
mod in_call;
mod list;
mod number;
mod registration;
mod silence;
mod table;
mod times;

pub use fault::AddFault;
pub use list::RegistrationList;
pub use registration::Registration;
pub use silence::{is_silent, is_to_be_asked};
pub use table::Registrations;
pub use times::Times;
