//! A server of the status pages of a running zone over HTTP, for a thread of its own. It answers
//! reads and nothing else.
//!
//! proved: that it is safe; what a connection sends is the answer to what its request asks for, of
//! the zone that is shown and under its name, also if it is told again (`serve_one`, `response`); a
//! page is sent with its status, header fields and body (`as_hyper`); a connection is accepted only
//! if fewer than 16 were told to be open, and is counted; what a look for one comes to is told
//! (`next_connection`); it ends without an error only if the zone has ended (`serve`)
//! tested: the built program; how long a page is told again; when a zone has ended
#![tactic(auto)]

mod answer;
mod bound;
mod entrance;
mod fields;
mod host;
mod pace;
mod pages;
mod server;
mod shown;
mod site;
mod view;
mod young;

pub use bound::{BindFault, BoundListener, bind_status};
pub use server::serve;
