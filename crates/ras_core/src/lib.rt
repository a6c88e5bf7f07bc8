//! The zone: the machine with choices of its own, always sound, its runs and its laws. Nothing
//! here waits, prints or reads a clock: moments are handed in.
//!
//! proved: outcome and zone are the RAS machine's (`Zone::step_into`, `replace`), and always sound
//! tested: replies octet for octet
#![tactic(auto)]

mod choices;
mod fault;
mod laws;
mod replacing;
mod settling;
mod snapshot;
mod zone;

pub use fault::{NewFault, StepFault};
pub use laws::{
    a_repeat_gets_its_kept_reply, a_turn_is_idle_only_if_nothing_is_due,
    bandwidth_is_within_the_limit_all_along,
};
pub use ras_machine::{Prepared, prepare};
pub use replacing::figures_of;
pub use snapshot::Snapshot;
pub use zone::Zone;
pub use zone_config::{Config, ConfigFault, ConfigParts, Moment, Network, Networks};
pub use zone_events::{Change, Datagram, DueItem, Event, IgnoredCause, Note, Outcome, PoolChange};
