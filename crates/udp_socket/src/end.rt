//! Ends of a socket.

ghost use Rattle.std.specs.Prelude.{◌≡◌, ◌≤◌, ◌↔◌, if◌then◌else◌, IfOk, IsFalse, IsOk, IsOkAnd};
ghost use Rattle.std.specs.Prelude.{IsTrue, None, OnErr, OnOk, Some, false};
ghost use Rattle.udp_server.specs.Ends.{IsWithin, fault_count};
ghost use Rattle.udp_socket.specs.Ends.{IsReceiveCounted, is_quiet, is_stopped, one_fewer};
ghost use Rattle.udp_socket.specs.Ends.{received_by};

use crate::addresses::{ras_address, system_address};
use crate::stop::Stop;
use std::io::{self, ErrorKind};
use std::net::{SocketAddr, UdpSocket};
use udp_server::{Datagrams, DeviceFault, Received};
use zone_events::Datagram;

/// An end of a socket that others use, too.
#[derive(Drop)]
pub struct SocketEnd<'a, S> {
    socket: &'a UdpSocket,
    receives: Option<u64>,
    stop: &'a S,
    faults: u64,
}

impl<'a, S: Stop> SocketEnd<'a, S> {
    ghost use Rattle.udp_socket.specs.Limits.{receives_left};

    /// An end of which no call has failed. It stops after this many receives, if a number is given.
    pub(crate) fn new(socket: &'a UdpSocket, receives: Option<u64>, stop: &'a S) -> SocketEnd<'a, S>
        ensures left { receives_left result ≡ receives }
        ensures faults { result.faults ≡ 0 }
    {
        SocketEnd {
            socket,
            receives,
            stop,
            faults: 0,
        }
    }

    /// Whether nothing more is to be received. Else one more receive is counted.
    fn has_stopped(&mut self) -> bool
        ensures faults { self.new.faults ≡ self.old.faults }
        ensures left { self.new.receives
            ≡ (if result then self.old.receives else one_fewer self.old.receives) }
        ensures none_left { self.old.receives ≡ Some 0 → IsTrue result }
        ensures heeds { IsFalse result → S.told self.old.stop.now false }
        ensures same { self.new.stop.now ≡ self.old.stop.now }
    {
        if self.stop.is_over() {
            return true;
        }
        match self.receives {
            Some(0) => true,
            Some(left) => {
                self.receives = Some(left - 1);
                false
            }
            None => false,
        }
    }

    /// What a receive answers, by what the system's call gave.
    fn after_receive(
        &mut self,
        answer: io::Result<(usize, SocketAddr)>,
    ) -> Result<Received, DeviceFault>
        requires { IfOk answer (λ came. came.0 ≤ 4097) }
        ensures received { IfOk result (λ received. received_by answer ≡ Some received) }
        ensures failed { OnErr result (received_by answer ≡ None) }
        ensures within { IfOk result IsWithin }
        ensures goes_on { IsFalse (is_stopped result) }
        ensures left { self.new.receives ≡ self.old.receives }
        ensures ok { OnOk result (self.new.faults ≡ self.old.faults) }
        ensures err { OnErr result (self.new.faults ≡ fault_count self.old.faults) }
    {
        match answer {
            Ok((octets, from)) => match ras_address(from) {
                Some(source) => Ok(Received::Datagram(source, octets)),
                None => Ok(Received::Quiet),
            },
            Err(error) if is_quiet(error.kind()) => Ok(Received::Quiet),
            Err(_) => Err(self.fault()),
        }
    }

    /// What a send of `octets` octets answers, by what the system's call gave.
    fn after_send(&mut self, answer: io::Result<usize>, octets: usize) -> Result<(), DeviceFault>
        ensures sent { IsOk result ↔ IsOkAnd answer (λ sent. sent ≡ octets) }
        ensures left { self.new.receives ≡ self.old.receives }
        ensures ok { OnOk result (self.new.faults ≡ self.old.faults) }
        ensures err { OnErr result (self.new.faults ≡ fault_count self.old.faults) }
    {
        match answer {
            Ok(sent) if sent == octets => Ok(()),
            _ => Err(self.fault()),
        }
    }

    fn fault(&mut self) -> DeviceFault
        ensures counted { self.new.faults ≡ fault_count self.old.faults }
        ensures left { self.new.receives ≡ self.old.receives }
    {
        self.faults = self.faults.saturating_add(1);
        DeviceFault
    }
}

/// Whether a receive failed only because nothing came, or because the program was stopped and
/// goes on.
fn is_quiet(kind: ErrorKind) -> bool
    ensures { result ≡ is_quiet kind }
{
    matches!(
        kind,
        ErrorKind::WouldBlock | ErrorKind::TimedOut | ErrorKind::Interrupted
    )
}

impl<S: Stop> Datagrams for SocketEnd<'_, S> {
    ghost faults = { λ end. end.faults };

    ghost receives = { λ old given octets new.
        IsReceiveCounted given old.receives new.receives
        × (IsFalse (is_stopped given) → S.told old.stop.now false) };

    ghost sends = { λ old datagram given new. new.receives ≡ old.receives };

    fn receive(&mut self, buffer: &mut [u8; 4_097]) -> Result<Received, DeviceFault> {
        if self.has_stopped() {
            return Ok(Received::Stopped);
        }
        let answer = self.socket.recv_from(buffer);
        self.after_receive(answer)
    }

    fn send(&mut self, datagram: &Datagram) -> Result<(), DeviceFault> {
        let octets = datagram.bytes.as_slice();
        let answer = self.socket.send_to(octets, system_address(datagram.to));
        self.after_send(answer, octets.len())
    }

    fn failures(&self) -> u64 {
        self.faults
    }
}
