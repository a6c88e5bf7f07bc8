//! The ends by which datagrams come and go.

ghost use Rattle.std.specs.Prelude.{◌≡◌, ℕ, IfOk, OnErr, OnOk};
ghost use Rattle.udp_server.specs.Ends.{IsWithin, fault_count, octets_given};

use ras_module::Source;
use zone_events::Datagram;

/// How many octets of a datagram are received at most. A datagram of a request has at most 4,096;
/// one octet more shows that it is too long.
pub const MOST_RECEIVED: usize = 4_097;

/// What a receive gave.
#[derive(Clone, Copy)]
pub enum Received {
    /// A datagram from this address, of this many octets. They stand at the front of the buffer.
    Datagram(Source, usize),
    /// Nothing came for some time.
    Quiet,
    /// Nothing more is received.
    Stopped,
}

/// A receive or a send that failed.
#[derive(Clone, Copy, PartialEq, Eq, Debug, Drop)]
pub struct DeviceFault;

/// An end that receives and sends datagrams. It counts the calls that failed; the count stays at
/// `u64::MAX` once it is there.
///
/// `receives` and `sends` tell what a call gave, and what the end became by it. An end says there
/// what its value shows: one in memory may say which datagram comes next; a socket can't, since
/// what comes over the network is no part of its value. The server is proved for all ends, whatever
/// they say. So it takes a datagram for received, or a reply for sent, only if a call of the end
/// gave that. That the octets are those of the network is trusted.
pub trait Datagrams: Drop {
    ghost use Rattle.std.specs.Prelude.{ℕ, List};
    ghost use Rattle.zone_events.specs.declared.outcome.Datagram.{Datagram};
    ghost use Rattle.udp_server.specs.Ends.{ReceiveResult, SendResult};

    /// How many calls failed.
    ghost faults: { Self → ℕ };

    /// A receive of this end gave this result, with these octets if it gave a datagram; the end
    /// became the other one.
    ghost receives: { Self → ReceiveResult → List ℕ → Self → Type 0 } = { λ _ _ _ _. Unit {0} };

    /// A send of this datagram by this end gave this result; the end became the other one.
    ghost sends: { Self → Datagram → SendResult → Self → Type 0 } = { λ _ _ _ _. Unit {0} };

    /// Waits for a datagram for some time. Its octets stand at the front of the buffer then.
    ///
    /// promise ends-count-their-faults: An end counts each failed call once, and its datagrams lie
    /// in the buffer (`fault_count`, `IsWithin`).
    fn receive(&mut self, buffer: &mut [u8; MOST_RECEIVED]) -> Result<Received, DeviceFault>
        ensures within { IfOk result IsWithin }
        ensures given { receives self.old result (octets_given result buffer.new) self.new }
        ensures ok { OnOk result (faults self.new ≡ faults self.old) }
        ensures err { OnErr result (faults self.new ≡ fault_count (faults self.old)) };

    /// Sends a datagram.
    fn send(&mut self, datagram: &Datagram) -> Result<(), DeviceFault>
        ensures given { sends self.old datagram.now result self.new }
        ensures ok { OnOk result (faults self.new ≡ faults self.old) }
        ensures err { OnErr result (faults self.new ≡ fault_count (faults self.old)) };

    /// How many calls failed.
    fn failures(&self) -> u64
        ensures { result ≡ faults self.now };
}
