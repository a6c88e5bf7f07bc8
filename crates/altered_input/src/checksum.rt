//! A checksum over octets.

/// FNV-1a of 64 bits.
#[derive(Drop)]
pub struct Checksum {
    value: u64,
}

impl Checksum {
    const BASIS: u64 = 0xCBF2_9CE4_8422_2325;

    const PRIME: u64 = 0x0000_0100_0000_01B3;

    /// The checksum of no octets.
    pub fn new() -> Self {
        Self { value: Self::BASIS }
    }

    /// Takes further octets in.
    pub fn add(&mut self, octets: &[u8]) {
        for octet in octets {
            self.value = (self.value ^ u64::from(*octet)).wrapping_mul(Self::PRIME);
        }
    }

    pub fn value(&self) -> u64 {
        self.value
    }
}
