//! Gatekeeper discovery.

ghost use Rattle.std.specs.Prelude.{◌≡◌, IfOk, OnErr, false};
ghost use Rattle.ras_requests.specs.Grq.{discovery, is_foreign};

use ras_module::{
    Boxed, GatekeeperConfirm, GatekeeperRejectReason, GatekeeperRequest, Name, Reply,
};
use std::alloc::{AllocError, Global};
use zone_tables::ZoneTables;

/// Whether another gatekeeper than this one is named.
pub(crate) fn is_foreign(tables: &ZoneTables, name: &Option<Name>) -> bool
    ensures { result ≡ is_foreign tables.now name.now }
{
    match name {
        None => false,
        Some(name) => *name != tables.config().parts().identifier,
    }
}

/// The reply to a GatekeeperRequest.
pub(crate) fn discover(
    alloc: Global,
    tables: &ZoneTables,
    q: &GatekeeperRequest,
) -> Result<Reply, AllocError>
    ensures reply { IfOk result (λ reply. reply ≡ discovery tables.now q.now) }
    ensures memory { OnErr result (is_foreign tables.now q.now.gatekeeper ≡ false) }
{
    if is_foreign(tables, &q.gatekeeper) {
        return Ok(Reply::Grj {
            seq: q.seq,
            reason: GatekeeperRejectReason::TerminalExcluded,
        });
    }
    let parts = tables.config().parts();
    let confirm = GatekeeperConfirm {
        seq: q.seq,
        gatekeeper: parts.identifier,
        ras: parts.address,
    };
    Ok(Reply::Gcf(Boxed::new(alloc, confirm)?))
}
