//! The settings of the gatekeeper's program, read from a TOML document: what is set for the zone
//! (`[zone]`), for the server (`[serve]`) and for the pools of bandwidth (`[[pool]]`).
//!
//! proved: a file is read if and only if its keys pass; else the first fault (`read_settings`); what
//! is written of settings (`write_settings`); which keys are passed over, each with the known key
//! that is nearest (`unknown_keys`)
//! tested: that a listing is read as the same settings, texts of faults
#![tactic(auto)]

mod fault;
mod listing;
mod pool;
mod serve;
mod serve_key;
mod setting_key;
mod settings;
mod unknown;
mod unknown_key;
mod value;
mod zone;

pub use fault::{SettingsFault, SyntaxError};
pub use listing::write_settings;
pub use serve_key::ServeKey;
pub use settings::{Settings, read_settings};
pub use unknown::unknown_keys;
pub use unknown_key::UnknownKey;
