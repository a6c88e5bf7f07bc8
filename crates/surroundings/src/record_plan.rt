//! What is to be recorded of a zone.

ghost use Rattle.std.specs.Prelude.{◌≡◌, ◌↔◌, IfErr, IfOk, IfSome, IsSome, Ok, OnErr, Some};
ghost use Rattle.std.specs.Prelude.{is_some};
ghost use Rattle.recording.specs.Zones.{recorded_zone};
ghost use Rattle.surroundings.specs.Faults.{IsPlanFault};

use crate::notices::tell_unrecordable;
use crate::serving_fault::RunningFault;
use commands::Recording;
use log::Log;
use pools::PoolSpecs;
use ras_core::Config;
use recording::RecordedZone;

/// A record that is to be written of a zone.
#[derive(Drop)]
pub struct PlannedRecord<'a> {
    pub zone: RecordedZone,
    pub recording: Recording<'a>,
}

/// What is to be recorded of the zone that is set, if anything is. If lines can't describe the
/// zone, the log tells why.
pub fn planned_record<'a, R: Log>(
    rt: &R,
    config: &Config,
    specs: PoolSpecs,
    recording: Option<Recording<'a>>,
) -> Result<Option<PlannedRecord<'a>>, RunningFault>
    ensures zone { IfOk result (λ planned. IfSome planned
        (λ it. recorded_zone config.now specs ≡ Ok it.zone)) }
    ensures recording { IfOk result (λ planned. IfSome planned
        (λ it. recording.entry ≡ Some it.recording)) }
    ensures planned { IfOk result (λ planned. IsSome planned ↔ IsSome recording.entry) }
    ensures wanted { IfOk result (λ planned. is_some planned ≡ is_some recording.entry) }
    ensures asked { OnErr result (IsSome recording.entry) }
    ensures fault { IfErr result (IsPlanFault (recorded_zone config.now specs)) }
{
    let Some(recording) = recording else {
        return Ok(None);
    };
    match RecordedZone::new(config.copy()?, specs) {
        Ok(zone) => Ok(Some(PlannedRecord { zone, recording })),
        Err(fault) => {
            tell_unrecordable(rt, fault);
            Err(RunningFault::Record)
        }
    }
}
