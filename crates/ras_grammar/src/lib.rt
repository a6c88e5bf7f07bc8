//! What RAS messages share in aligned PER: what a grammar is, small types, and the decoder. It is
//! the encoding BASIC-PER, ALIGNED (ITU-T X.691) of the messages of ITU-T H.225.0.
//!
//! proved: a read gives what its grammar gives (`Decoder`)
//! tested: that this is H.225.0
#![tactic(auto)]

mod decoder;
mod fault;

pub use decoder::Decoder;
pub use fault::ReadFault;
