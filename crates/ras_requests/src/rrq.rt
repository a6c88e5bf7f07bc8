//! Registration of endpoints.

ghost use Rattle.std.specs.Prelude.{◌≡◌, ◌<◌, IfOk, MatchOption, OnErr, [], false, length};
ghost use Rattle.ras_module.specs.Aliases.{has_alias, without_doubles};
ghost use Rattle.registrations.specs.Registry.{at_address};
ghost use Rattle.registrations.specs.Agreement.{registered_elsewhere};
ghost use Rattle.ras_requests.specs.Rrq.{confirmation, deadline, granted, has_moved};
ghost use Rattle.ras_requests.specs.Rrq.{entering, full_registration};
ghost use Rattle.ras_requests.specs.Rrq.{keep_alive, named, registration};
ghost use Rattle.ras_requests.specs.Planned.{IsPlan};
ghost use Rattle.ras_requests.specs.Grq.{is_foreign};

use crate::grq::is_foreign;
use crate::plan::{GrantedTime, Newcomer, Plan, Settlement};
use ras_module::{
    Address, Alias, AliasList, Boxed, EndpointId, RegistrationConfirm, RegistrationRejectReason,
    RegistrationRequest, Reply, ReplyAliases, Request, TimeToLive,
};
use registrations::Registration;
use std::alloc::{AllocError, Global};
use zone_config::Moment;
use zone_tables::{Change, EndpointChange, Entry, ZoneTables};

/// The time to live that is granted.
fn granted(tables: &ZoneTables, asked: Option<TimeToLive>) -> TimeToLive
    ensures { result ≡ granted tables.now asked }
{
    let most = tables.config().time_to_live();
    match asked {
        None => most,
        Some(asked) => asked.min(most),
    }
}

/// When a registration of this moment ends, in milliseconds.
fn deadline(tables: &ZoneTables, now: Moment, q: &RegistrationRequest) -> u64
    ensures { result ≡ deadline tables.now now q.now }
{
    let granted = granted(tables, q.time_to_live);
    now.milliseconds() + 1000 * u64::from(granted.get())
}

/// The RegistrationConfirm of a registered endpoint.
fn confirmation(
    alloc: Global,
    tables: &ZoneTables,
    q: &RegistrationRequest,
    call_signal: Address,
    aliases: ReplyAliases,
    endpoint: &EndpointId,
) -> Result<Reply, AllocError>
    ensures { IfOk result (λ reply.
        reply ≡ confirmation tables.now q.now call_signal aliases endpoint.now) }
{
    let confirm = RegistrationConfirm {
        seq: q.seq,
        call_signal,
        aliases,
        gatekeeper: tables.config().parts().identifier,
        endpoint: *endpoint,
        granted: granted(tables, q.time_to_live),
    };
    Ok(Reply::Rcf(Boxed::new(alloc, confirm)?))
}

/// A registration is kept alive if it is known and the endpoint hasn't moved. This takes no memory.
fn keep_alive(tables: &ZoneTables, now: Moment, q: &RegistrationRequest) -> Plan
    ensures { IsPlan tables.now now (Request.Rrq q.now)
        (keep_alive tables.now now q.now (named tables.now q.now.endpoint)) result }
{
    let Some(id) = &q.endpoint else {
        return rejected(q, RegistrationRejectReason::FullRegistrationRequired);
    };
    let Some(r) = tables.registrations().get(id) else {
        return rejected(q, RegistrationRejectReason::FullRegistrationRequired);
    };
    if has_moved(r, q.ras) {
        return rejected(q, RegistrationRejectReason::FullRegistrationRequired);
    }
    Plan::Renewing(GrantedTime {
        seq: q.seq,
        granted: granted(tables, q.time_to_live),
        deadline: deadline(tables, now, q),
    })
}

/// The aliases, each once. None, if there are more distinct ones than a reply can tell. The search
/// ends with the first one too many, so that its time grows with the length of the list, and not
/// with its square.
fn distinct(alloc: Global, aliases: &AliasList) -> Result<Option<ReplyAliases>, AllocError>
    ensures { IfOk result (λ found. MatchOption found
        (ReplyAliases.MOST < length (without_doubles aliases.now)) (λ kept. kept ≡ without_doubles aliases.now)) }
{
    // room for no more than are kept: what is registered holds this list as long as it lives
    let room = aliases.len().min(ReplyAliases::MOST);
    let mut kept = AliasList::from_vec(Vec::with_capacity(alloc, room)?);
    for alias in aliases.as_slice() {
        if !has(&kept, alias) {
            if kept.len() == ReplyAliases::MOST {
                return Ok(None);
            }
            kept.push(*alias)?;
        }
    }
    ReplyAliases::new(kept)
}

/// Whether an alias is in the list.
fn has(list: &AliasList, alias: &Alias) -> bool
    ensures { result ≡ has_alias list.now alias.now }
{
    list.as_slice().iter().any(|one| one == alias)
}

/// A full registration.
fn register_fully(
    alloc: Global,
    tables: &ZoneTables,
    now: Moment,
    q: &RegistrationRequest,
) -> Result<Plan, AllocError>
    ensures plans { IfOk result (IsPlan tables.now now (Request.Rrq q.now)
        (full_registration tables.now now q.now q.now.call_signal q.now.ras
        (without_doubles q.now.aliases))) }
{
    let Some(call_signal) = q.call_signal else {
        return Ok(rejected(q, RegistrationRejectReason::InvalidCallSignalAddress));
    };
    let Some(ras) = q.ras else {
        return Ok(rejected(q, RegistrationRejectReason::InvalidRasAddress));
    };
    let Some(aliases) = distinct(alloc, &q.aliases)? else {
        return Ok(rejected(q, RegistrationRejectReason::ResourceUnavailable));
    };
    let held = tables.conflicts(&aliases, call_signal)?;
    if !held.as_slice().is_empty() {
        return Ok(rejected(q, RegistrationRejectReason::DuplicateAlias(held)));
    }
    let entry = Entry {
        call_signal,
        ras,
        aliases,
    };
    enter(alloc, tables, now, q, entry)
}

/// Registers anew the endpoint that has the address, or else registers a new endpoint.
fn enter(
    alloc: Global,
    tables: &ZoneTables,
    now: Moment,
    q: &RegistrationRequest,
    entry: Entry,
) -> Result<Plan, AllocError>
    requires { registered_elsewhere tables.now.live entry.call_signal entry.aliases ≡ [] }
    ensures plans { IfOk result (IsPlan tables.now now (Request.Rrq q.now)
        (entering tables.now now q.now entry
        (at_address tables.now.live entry.call_signal))) }
{
    let told = entry.aliases.copy()?;
    let deadline = deadline(tables, now, q);
    if let Some(r) = tables.registrations().by_address(entry.call_signal) {
        return Ok(Plan::Settled(Settlement {
            reply: confirmation(alloc, tables, q, entry.call_signal, told, &r.identifier)?,
            change: Change::Endpoint(EndpointChange::Rewriting(entry, deadline)),
        }));
    }
    if tables.registrations().len() == tables.config().endpoints() {
        return Ok(rejected(q, RegistrationRejectReason::ResourceUnavailable));
    }
    let newcomer = Newcomer {
        seq: q.seq,
        entry,
        told,
        gatekeeper: tables.config().parts().identifier,
        granted: granted(tables, q.time_to_live),
        deadline,
        heard: now,
    };
    Ok(Plan::Naming(Boxed::new(alloc, newcomer)?))
}

/// The plan of a RegistrationRequest.
pub(crate) fn register(
    alloc: Global,
    tables: &ZoneTables,
    now: Moment,
    q: &RegistrationRequest,
) -> Result<Plan, AllocError>
    ensures plans { IfOk result (IsPlan tables.now now (Request.Rrq q.now)
        (registration tables.now now q.now)) }
    ensures foreign { OnErr result (is_foreign tables.now q.now.gatekeeper ≡ false) }
    ensures full { OnErr result (q.now.keep_alive ≡ false) }
{
    if is_foreign(tables, &q.gatekeeper) {
        return Ok(rejected(q, RegistrationRejectReason::DiscoveryRequired));
    }
    if q.keep_alive {
        Ok(keep_alive(tables, now, q))
    } else {
        register_fully(alloc, tables, now, q)
    }
}

/// A request that is settled by a RegistrationReject.
fn rejected(q: &RegistrationRequest, reason: RegistrationRejectReason) -> Plan
    ensures { result ≡ Plan.Settled (record {
      reply = Reply.Rrj q.now.seq reason;
      change = Change.Nothing;
    }) }
{
    Plan::Settled(Settlement::reply(Reply::Rrj { seq: q.seq, reason }))
}

/// Whether an address was given that is not the endpoint's.
fn has_moved(r: &Registration, ras: Option<Address>) -> bool
    ensures { result ≡ has_moved r.now ras }
{
    match ras {
        None => false,
        Some(ras) => ras != r.ras,
    }
}
