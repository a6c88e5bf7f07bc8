//! The server of a zone behind a lock: a worker for each end that receives datagrams, one worker
//! for the turns of the timers and the pools that are replaced, and a sender. Each worker makes its
//! steps under the lock and hands replies to the sender over a ring of its own.
//!
//! proved: all steps are a run with the headline (`serve_zone_watched`, `the_headline`); each turn
//! of a loop serves just what came (`serve_next`)
//! tested: workers at once, orders
#![tactic(auto)]

mod board;
mod chapters;
mod comes_back;
mod datagrams;
mod expiry_worker;
mod gate;
mod history;
mod joint;
mod laws;
mod moments;
mod orders;
mod plan;
mod receiver;
mod report;
mod sender;
mod server;
mod tally;
mod threads;
mod unrecorded;
mod view;
mod watcher;
mod worker;

pub use datagrams::{Datagrams, DeviceFault, MOST_RECEIVED, Received};
pub use gate::{Gate, Open, Stage};
pub use history::RunningHistory;
pub use laws::the_headline;
pub use moments::Moments;
pub use orders::PoolOrder;
pub use plan::Plan;
pub use report::{Report, ServeFault};
pub use server::{serve, serve_watched, serve_zone, serve_zone_watched};
pub use watcher::{NoWatcher, Watcher};
pub use zone_lock::HandedOut;
