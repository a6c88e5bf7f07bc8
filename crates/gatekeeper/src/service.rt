//! What is set for the server, and what is asked of it.

ghost use Rattle.std.specs.Prelude.{◌≡◌, ◌≤◌, false, is_some};
ghost use Rattle.settings.specs.Ranges.{AreServeNumbers};
ghost use Rattle.udp_server.specs.Plans.{IsPlan};

use commands::Recording;
use settings::Settings;
use udp_server::Plan;
use udp_socket::Stop;

/// With how many entries or more a chapter of the history ends. The report has no chapter, so that
/// its entries are let go then.
const CHAPTER: usize = 4_096;

/// What is asked of the server besides what is set: each receiving thread stops after this many
/// receives, if a number is given, and once it is told to; and a record is written, if one is to
/// be.
#[derive(Drop)]
pub struct Task<'a, S: Stop> {
    pub receives: Option<u64>,
    pub record: Option<Recording<'a>>,
    pub stop: &'a S,
}

/// What is set for the server besides its zone: how many threads receive, how often each of them
/// receives, if that is limited, the buffer to ask for, in octets, whether there is a status page,
/// and the plan.
#[derive(Clone, Copy)]
pub struct Service {
    pub receivers: usize,
    pub receives: Option<u64>,
    pub buffer: u64,
    pub has_page: bool,
    pub plan: Plan,
}

impl Service {
    /// What these settings say of it. Its history is let go, so that no chapter and no receipt is
    /// kept; its entries are handed out before, if a record is written of them.
    ///
    /// promise server-has-its-numbers: The numbers for the server are those set.
    pub fn of(settings: &Settings, receives: Option<u64>, is_recorded: bool) -> Service
        requires { AreServeNumbers settings.now.receivers settings.now.ring settings.now.faults
            settings.now.tick settings.now.buffer }
        ensures receivers { result.receivers ≡ settings.now.receivers }
        ensures few { result.receivers ≤ 15 }
        ensures receives { result.receives ≡ receives }
        ensures buffer { result.buffer ≡ settings.now.buffer }
        ensures page { result.has_page ≡ is_some settings.now.status }
        ensures ring { result.plan.ring ≡ settings.now.ring }
        ensures faults { result.plan.faults ≡ settings.now.faults }
        ensures tick { result.plan.tick ≡ settings.now.tick }
        ensures history { (result.plan.chapter ≡ 4096) × (result.plan.latest ≡ 0)
            × (result.plan.receipts ≡ false) }
        ensures handed_out { result.plan.hands_out ≡ is_recorded }
        ensures plan { IsPlan result.plan }
    {
        Service {
            receivers: settings.receivers,
            receives,
            buffer: settings.buffer,
            has_page: settings.status.is_some(),
            plan: Plan {
                ring: settings.ring,
                faults: settings.faults,
                tick: settings.tick,
                chapter: CHAPTER,
                latest: 0,
                receipts: false,
                hands_out: is_recorded,
            },
        }
    }
}
