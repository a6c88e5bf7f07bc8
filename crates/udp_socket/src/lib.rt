//! A UDP socket, and the ends over it. It is bound to the address of a zone, over IPv4; by its
//! ends a server receives and sends.
//!
//! proved: each failed call is counted once (`SocketEnd`)
//! tested: a discovery over a socket
#![tactic(auto)]

mod addresses;
mod bound_socket;
mod end;
mod stop;

pub use bound_socket::{BindFault, BoundSocket, bind_zone};
pub use end::SocketEnd;
pub use stop::Stop;
