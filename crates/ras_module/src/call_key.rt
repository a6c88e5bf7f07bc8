//! Keys of calls.

/// What names a call in the zone: the callIdentifier of its messages if it is there and not all
/// zero, else their conferenceID (H.225.0). It has 16 octets.
#[derive(Clone, Copy, Debug, PartialEq, Eq, PartialOrd, Ord, Hash)]
pub struct CallKey {
    pub octets: [u8; 16],
}
