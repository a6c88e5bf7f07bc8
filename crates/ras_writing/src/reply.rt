//! The replies of the gatekeeper (H.225.0).

ghost use Rattle.std.specs.Prelude.{◌≡◌, ◌≤◌, ◌<◌, ◌+◌, ◌*◌, [], ◌∷◌, ◌++◌, length, vec_len};
ghost use Rattle.std.specs.Prelude.{vec_capacity, OnOk, OnErr, IsOk};
ghost use Rattle.per_bits.specs.Bits.{octets_for};
ghost use Rattle.ras_module.specs.declared.reply.Reply.TheVariants as reply;
ghost use Rattle.ras_writing.specs.Encoding.{Writes};
ghost use Rattle.ras_writing.specs.Replies.{gatekeeper_reason, registration_reason, held_in};
ghost use Rattle.ras_writing.specs.Replies.{registration_confirm_front};
ghost use Rattle.ras_writing.specs.Replies.{registration_confirm_additions, registration_reject};
ghost use Rattle.ras_writing.specs.Replies.{terminal_alias, unreg_reason, admission_reason};
ghost use Rattle.ras_writing.specs.Replies.{band_reason, disengage_reason};
ghost use Rattle.ras_writing.specs.Replies.{gatekeeper_reject, unregistration_confirm};
ghost use Rattle.ras_writing.specs.Replies.{unregistration_reject, admission_confirm};
ghost use Rattle.ras_writing.specs.Replies.{admission_confirm_additions, admission_reject};
ghost use Rattle.ras_writing.specs.Replies.{bandwidth_confirm, bandwidth_reject, disengage_confirm};
ghost use Rattle.ras_writing.specs.Replies.{disengage_reject, info_request, request_in_progress};
ghost use Rattle.ras_writing.specs.Replies.{components, encoding_of};
ghost use Rattle.ras_writing.specs.Properties.{IsSeq, IsAddress, AreAliases, IsReason, IsReply};
ghost use Rattle.ras_writing.specs.Properties.{ReadsBack};
ghost use Rattle.ras_module.specs.Rooms.{room_of, aliases_room};

use crate::confirm::LentConfirm;
use crate::encoder::{
    alias_list, band_width, identifier, null_choice, null_extension, protocol_identifier,
    request_seq_num, root_message, transport_address, zero_octet,
};
use per_bits::BitWriter;
use ras_module::{
    Address, AdmissionRejectReason, Alias, BandRejectReason, Delay, DisengageRejectReason,
    GatekeeperConfirm, GatekeeperRejectReason, RegistrationRejectReason, Reply, ReplyAliases,
    RequestSeqNum, TimeToLive, UnregRejectReason,
};
use std::alloc::AllocError;
use std::mem;

fn gatekeeper_reason(reason: GatekeeperRejectReason) -> u32
    ensures value { result ≡ gatekeeper_reason reason }
    ensures within { result ≤ 3 }
{
    match reason {
        GatekeeperRejectReason::TerminalExcluded => 1,
    }
}

fn unreg_reason(reason: UnregRejectReason) -> u32
    ensures value { result ≡ unreg_reason reason }
    ensures within { result ≤ 2 }
{
    match reason {
        UnregRejectReason::NotCurrentlyRegistered => 0,
        UnregRejectReason::CallInProgress => 1,
    }
}

fn admission_reason(reason: AdmissionRejectReason) -> u32
    ensures value { result ≡ admission_reason reason }
    ensures within { result ≤ 7 }
{
    match reason {
        AdmissionRejectReason::CalledPartyNotRegistered => 0,
        AdmissionRejectReason::RequestDenied => 2,
        AdmissionRejectReason::InvalidEndpointIdentifier => 6,
        AdmissionRejectReason::ResourceUnavailable => 7,
    }
}

fn band_reason(reason: BandRejectReason) -> u32
    ensures value { result ≡ band_reason reason }
    ensures within { result ≤ 5 }
{
    match reason {
        BandRejectReason::NotBound => 0,
        BandRejectReason::InvalidConferenceId => 1,
        BandRejectReason::InsufficientResources => 3,
    }
}

fn disengage_reason(reason: DisengageRejectReason) -> u32
    ensures value { result ≡ disengage_reason reason }
    ensures within { result ≤ 1 }
{
    match reason {
        DisengageRejectReason::NotRegistered => 0,
        DisengageRejectReason::RequestToDropOther => 1,
    }
}

/// RegistrationRejectReason.
#[tactic(auto, using(crate::proofs::Behind::behind_append), unfolding(crate::specs::Replies::registration_reason))]
fn registration_reason(writer: &mut BitWriter, reason: &RegistrationRejectReason)
    requires { 65 + 8 * aliases_room (held_in reason.now) ≤ writer.old.room }
    ensures writes { Writes (65 + 8 * aliases_room (held_in reason.now))
        (registration_reason reason.now) writer.old writer.new }
    ensures bounds { IsReason reason.now }
{
    match reason {
        RegistrationRejectReason::DiscoveryRequired => null_choice(writer, 7, 0),
        RegistrationRejectReason::InvalidCallSignalAddress => null_choice(writer, 7, 2),
        RegistrationRejectReason::InvalidRasAddress => null_choice(writer, 7, 3),
        RegistrationRejectReason::DuplicateAlias(held) => {
            null_choice(writer, 7, 4);
            alias_list(writer, held.as_slice());
        }
        RegistrationRejectReason::ResourceUnavailable => null_extension(writer, 1),
        RegistrationRejectReason::FullRegistrationRequired => null_extension(writer, 4),
    }
}

/// GatekeeperConfirm: no additions, no nonStandardData, with its gatekeeperIdentifier.
#[tactic(auto, using(crate::proofs::Behind::behind_append), unfolding(crate::specs::Replies::gatekeeper_confirm))]
pub fn gatekeeper_confirm(writer: &mut BitWriter, confirm: &GatekeeperConfirm)
    requires { 8 * room_of (reply.Gcf confirm.now) ≤ writer.old.room }
    ensures writes { Writes (8 * room_of (reply.Gcf confirm.now))
        (components (reply.Gcf confirm.now)) writer.old writer.new }
    ensures bounds { IsReply (reply.Gcf confirm.now) }
{
    root_message(writer, 1);
    writer.bit(false);
    writer.bit(false);
    writer.bit(true);
    request_seq_num(writer, confirm.seq);
    protocol_identifier(writer);
    identifier(writer, confirm.gatekeeper.as_slice());
    transport_address(writer, &confirm.ras);
}

/// GatekeeperReject: no additions, no nonStandardData, no gatekeeperIdentifier.
#[tactic(auto, using(crate::proofs::Behind::behind_append), unfolding(crate::specs::Replies::gatekeeper_reject))]
pub fn gatekeeper_reject(writer: &mut BitWriter, seq: RequestSeqNum, reason: GatekeeperRejectReason)
    requires { 400 ≤ writer.old.room }
    ensures writes { Writes 400 (gatekeeper_reject seq reason) writer.old writer.new }
    ensures bounds { IsReply (reply.Grj seq reason) }
{
    root_message(writer, 2);
    writer.bit(false);
    writer.bit(false);
    writer.bit(false);
    request_seq_num(writer, seq);
    protocol_identifier(writer);
    null_choice(writer, 3, gatekeeper_reason(reason));
}

/// How many octets a number has if it is written in the fewest.
fn octets_for(n: u32) -> u32
    ensures value { result ≡ octets_for n }
    ensures within { result ≤ 4 }
{
    (u32::BITS - n.leading_zeros()).saturating_sub(1) / 8 + 1
}

/// The additions of a RegistrationConfirm: timeToLive, and willRespondToIRR false.
#[tactic(auto, unfolding(crate::specs::Replies::registration_confirm_additions))]
fn registration_confirm_additions(writer: &mut BitWriter, granted: TimeToLive)
    requires { 120 ≤ writer.old.room }
    ensures writes { Writes 120 (registration_confirm_additions granted) writer.old writer.new }
    ensures bounds { (1 ≤ granted) × (granted ≤ 4294967295) }
{
    let seconds = granted.get();
    writer.small(5);
    writer.bits(6, 17);
    writer.length(1 + octets_for(seconds - 1));
    writer.whole(1, 4_294_967_295, seconds);
    zero_octet(writer);
}

/// terminalAlias, if there are aliases.
#[tactic(auto, unfolding(crate::specs::Replies::terminal_alias))]
fn terminal_alias(writer: &mut BitWriter, aliases: &[Alias])
    requires few { length aliases.now ≤ ReplyAliases.MOST }
    requires room { 23 + 8 * aliases_room aliases.now ≤ writer.old.room }
    ensures writes { Writes (23 + 8 * aliases_room aliases.now) (terminal_alias aliases.now)
        writer.old writer.new }
    ensures bounds { AreAliases aliases.now }
{
    if !aliases.is_empty() {
        alias_list(writer, aliases);
    }
}

/// The front of a RegistrationConfirm, up to its callSignalAddress: with additions, no
/// nonStandardData, terminalAlias if there are aliases, with its gatekeeperIdentifier.
#[tactic(auto, using(crate::proofs::Behind::behind_append), unfolding(crate::specs::Replies::registration_confirm_front))]
fn registration_confirm_front(
    writer: &mut BitWriter,
    seq: RequestSeqNum,
    call_signal: &Address,
    has_aliases: bool,
)
    requires { 400 ≤ writer.old.room }
    ensures writes { Writes 400 (registration_confirm_front seq call_signal.now has_aliases)
        writer.old writer.new }
    ensures bounds { IsSeq seq × IsAddress call_signal.now }
{
    root_message(writer, 4);
    writer.bit(true);
    writer.bit(false);
    writer.bit(has_aliases);
    writer.bit(true);
    request_seq_num(writer, seq);
    protocol_identifier(writer);
    writer.length(1);
    transport_address(writer, call_signal);
}

/// RegistrationConfirm: its front, its aliases, the identifiers of the gatekeeper and of the
/// endpoint, its additions.
#[tactic(auto, using(crate::proofs::Behind::behind_append), unfolding(crate::specs::Replies::registration_confirm))]
pub fn registration_confirm(writer: &mut BitWriter, confirm: &LentConfirm<'_>)
    requires { 8 * room_of (reply.Rcf confirm.now) ≤ writer.old.room }
    ensures writes { Writes (8 * room_of (reply.Rcf confirm.now))
        (components (reply.Rcf confirm.now)) writer.old writer.new }
    ensures bounds { IsReply (reply.Rcf confirm.now) }
{
    let aliases = confirm.aliases.as_slice();
    registration_confirm_front(
        writer,
        confirm.seq,
        &confirm.call_signal,
        !aliases.is_empty(),
    );
    terminal_alias(writer, aliases);
    identifier(writer, confirm.gatekeeper.as_slice());
    identifier(writer, confirm.endpoint.as_slice());
    registration_confirm_additions(writer, confirm.granted);
}

/// RegistrationReject: no additions, no nonStandardData, no gatekeeperIdentifier.
#[tactic(auto, using(crate::proofs::Behind::behind_append), unfolding(crate::specs::Replies::registration_reject))]
pub fn registration_reject(
    writer: &mut BitWriter,
    seq: RequestSeqNum,
    reason: &RegistrationRejectReason,
)
    requires { 8 * room_of (reply.Rrj seq reason.now) ≤ writer.old.room }
    ensures writes { Writes (8 * room_of (reply.Rrj seq reason.now))
        (registration_reject seq reason.now) writer.old writer.new }
    ensures bounds { IsReply (reply.Rrj seq reason.now) }
{
    root_message(writer, 5);
    writer.bit(false);
    writer.bit(false);
    writer.bit(false);
    request_seq_num(writer, seq);
    protocol_identifier(writer);
    registration_reason(writer, reason);
}

/// UnregistrationConfirm: no additions, no nonStandardData.
#[tactic(auto, unfolding(crate::specs::Replies::unregistration_confirm))]
pub fn unregistration_confirm(writer: &mut BitWriter, seq: RequestSeqNum)
    requires { 400 ≤ writer.old.room }
    ensures writes { Writes 400 (unregistration_confirm seq) writer.old writer.new }
    ensures bounds { IsReply (reply.Ucf seq) }
{
    root_message(writer, 7);
    writer.bit(false);
    writer.bit(false);
    request_seq_num(writer, seq);
}

/// UnregistrationReject: no additions, no nonStandardData.
#[tactic(auto, unfolding(crate::specs::Replies::unregistration_reject))]
pub fn unregistration_reject(writer: &mut BitWriter, seq: RequestSeqNum, reason: UnregRejectReason)
    requires { 400 ≤ writer.old.room }
    ensures writes { Writes 400 (unregistration_reject seq reason) writer.old writer.new }
    ensures bounds { IsReply (reply.Urj seq reason) }
{
    root_message(writer, 8);
    writer.bit(false);
    writer.bit(false);
    request_seq_num(writer, seq);
    null_choice(writer, 2, unreg_reason(reason));
}

/// AdmissionConfirm: with additions, no irrFrequency, no nonStandardData; callModel is direct.
#[tactic(auto, using(crate::proofs::Behind::behind_append), unfolding(crate::specs::Replies::admission_confirm))]
pub fn admission_confirm(writer: &mut BitWriter, seq: RequestSeqNum, units: u32, dest: &Address)
    requires { 500 ≤ writer.old.room }
    ensures writes { Writes 500 (admission_confirm seq units dest.now) writer.old writer.new }
    ensures bounds { IsReply (reply.Acf seq units dest.now) }
{
    root_message(writer, 10);
    writer.bit(true);
    writer.bit(false);
    writer.bit(false);
    request_seq_num(writer, seq);
    band_width(writer, units);
    null_choice(writer, 1, 0);
    transport_address(writer, dest);
    admission_confirm_additions(writer);
}

/// willRespondToIRR false, uuiesRequested none.
#[tactic(auto, unfolding(crate::specs::Replies::admission_confirm_additions))]
fn admission_confirm_additions(writer: &mut BitWriter)
    requires { 120 ≤ writer.old.room }
    ensures { Writes 120 admission_confirm_additions writer.old writer.new }
{
    writer.small(10);
    writer.bits(11, 3);
    zero_octet(writer);
    writer.length(2);
    writer.octets(&[0, 0]);
}

/// AdmissionReject: no additions, no nonStandardData.
#[tactic(auto, unfolding(crate::specs::Replies::admission_reject))]
pub fn admission_reject(writer: &mut BitWriter, seq: RequestSeqNum, reason: AdmissionRejectReason)
    requires { 400 ≤ writer.old.room }
    ensures writes { Writes 400 (admission_reject seq reason) writer.old writer.new }
    ensures bounds { IsReply (reply.Arj seq reason) }
{
    root_message(writer, 11);
    writer.bit(false);
    writer.bit(false);
    request_seq_num(writer, seq);
    null_choice(writer, 7, admission_reason(reason));
}

/// BandwidthConfirm: no additions, no nonStandardData.
#[tactic(auto, unfolding(crate::specs::Replies::bandwidth_confirm))]
pub fn bandwidth_confirm(writer: &mut BitWriter, seq: RequestSeqNum, units: u32)
    requires { 400 ≤ writer.old.room }
    ensures writes { Writes 400 (bandwidth_confirm seq units) writer.old writer.new }
    ensures bounds { IsReply (reply.Bcf seq units) }
{
    root_message(writer, 13);
    writer.bit(false);
    writer.bit(false);
    request_seq_num(writer, seq);
    band_width(writer, units);
}

/// BandwidthReject, with the bandwidth that is allowed: no additions, no nonStandardData.
#[tactic(auto, unfolding(crate::specs::Replies::bandwidth_reject))]
pub fn bandwidth_reject(
    writer: &mut BitWriter,
    seq: RequestSeqNum,
    reason: BandRejectReason,
    allowed: u32,
)
    requires { 400 ≤ writer.old.room }
    ensures writes { Writes 400 (bandwidth_reject seq reason allowed) writer.old writer.new }
    ensures bounds { IsReply (reply.Brj seq reason allowed) }
{
    root_message(writer, 14);
    writer.bit(false);
    writer.bit(false);
    request_seq_num(writer, seq);
    null_choice(writer, 5, band_reason(reason));
    band_width(writer, allowed);
}

/// DisengageConfirm: no additions, no nonStandardData.
#[tactic(auto, unfolding(crate::specs::Replies::disengage_confirm))]
pub fn disengage_confirm(writer: &mut BitWriter, seq: RequestSeqNum)
    requires { 400 ≤ writer.old.room }
    ensures writes { Writes 400 (disengage_confirm seq) writer.old writer.new }
    ensures bounds { IsReply (reply.Dcf seq) }
{
    root_message(writer, 16);
    writer.bit(false);
    writer.bit(false);
    request_seq_num(writer, seq);
}

/// DisengageReject: no additions, no nonStandardData.
#[tactic(auto, unfolding(crate::specs::Replies::disengage_reject))]
pub fn disengage_reject(writer: &mut BitWriter, seq: RequestSeqNum, reason: DisengageRejectReason)
    requires { 400 ≤ writer.old.room }
    ensures writes { Writes 400 (disengage_reject seq reason) writer.old writer.new }
    ensures bounds { IsReply (reply.Drj seq reason) }
{
    root_message(writer, 17);
    writer.bit(false);
    writer.bit(false);
    request_seq_num(writer, seq);
    null_choice(writer, 1, disengage_reason(reason));
}

/// InfoRequest about all calls: with additions, no nonStandardData, no replyAddress; its
/// callIdentifier is zeros.
#[tactic(auto, unfolding(crate::specs::Replies::info_request))]
pub fn info_request(writer: &mut BitWriter, seq: RequestSeqNum)
    requires { 500 ≤ writer.old.room }
    ensures writes { Writes 500 (info_request seq) writer.old writer.new }
    ensures bounds { IsReply (reply.Irq seq) }
{
    root_message(writer, 21);
    writer.bit(true);
    writer.bit(false);
    writer.bit(false);
    request_seq_num(writer, seq);
    writer.whole(0, 65535, 0);
    writer.small(0);
    writer.bit(true);
    writer.length(17);
    writer.bit(false);
    writer.octets(&[0; 16]);
}

/// RequestInProgress, in an open type of five octets: no additions, none of its four OPTIONAL
/// components.
#[tactic(auto, unfolding(crate::specs::Replies::request_in_progress))]
pub fn request_in_progress(writer: &mut BitWriter, seq: RequestSeqNum, delay: Delay)
    requires { 400 ≤ writer.old.room }
    ensures writes { Writes 400 (request_in_progress seq delay) writer.old writer.new }
    ensures bounds { IsReply (reply.Rip seq delay) }
{
    writer.bit(true);
    writer.small(0);
    writer.length(5);
    writer.bit(false);
    writer.bit(false);
    writer.bit(false);
    writer.bit(false);
    writer.bit(false);
    request_seq_num(writer, seq);
    writer.whole(1, 65535, u32::from(delay.get()));
}

/// The components of a reply.
#[tactic(auto)]
fn write_components(writer: &mut BitWriter, reply: &Reply)
    requires { 8 * room_of reply.now ≤ writer.old.room }
    ensures writes { Writes (8 * room_of reply.now) (components reply.now) writer.old writer.new }
    ensures bounds { IsReply reply.now }
{
    match reply {
        Reply::Gcf(confirm) => gatekeeper_confirm(writer, confirm.get()),
        Reply::Grj { seq, reason } => gatekeeper_reject(writer, *seq, *reason),
        Reply::Rcf(confirm) => registration_confirm(writer, &LentConfirm::of(confirm.get())),
        Reply::Rrj { seq, reason } => registration_reject(writer, *seq, reason),
        Reply::Ucf { seq } => unregistration_confirm(writer, *seq),
        Reply::Urj { seq, reason } => unregistration_reject(writer, *seq, *reason),
        Reply::Acf { seq, units, dest } => admission_confirm(writer, *seq, *units, dest),
        Reply::Arj { seq, reason } => admission_reject(writer, *seq, *reason),
        Reply::Bcf { seq, units } => bandwidth_confirm(writer, *seq, *units),
        Reply::Brj {
            seq,
            reason,
            allowed,
        } => bandwidth_reject(writer, *seq, *reason, *allowed),
        Reply::Dcf { seq } => disengage_confirm(writer, *seq),
        Reply::Drj { seq, reason } => disengage_reject(writer, *seq, *reason),
        Reply::Irq { seq } => info_request(writer, *seq),
        Reply::Rip { seq, delay } => request_in_progress(writer, *seq, *delay),
    }
}

/// Writes a reply after what is there. There has to be room for `reply.room()` more octets. The
/// reply is read again from what is written.
///
/// promise replies-have-one-encoding: A reply is appended as its one encoding, within its room
/// (`encoding_of`).
#[tactic(auto, using(crate::proofs::Rooms::room_enough, crate::proofs::Rooms::few_octets, crate::proofs::RepliesRead::reads_back))]
pub fn write_reserved(reply: &Reply, octets: &mut Vec<u8>)
    requires { vec_len octets.old + room_of reply.now ≤ vec_capacity octets.old }
    ensures written { octets.new.items ≡ octets.old.items ++ encoding_of reply.now }
    ensures room { length (encoding_of reply.now) ≤ room_of reply.now }
    ensures most { length (encoding_of reply.now) ≤ Reply.MOST }
    ensures reads_back { ReadsBack reply.now }
{
    let empty = Vec::new(*octets.allocator());
    let mut writer = BitWriter::new(mem::replace(octets, empty));
    write_components(&mut writer, reply);
    *octets = writer.finish();
}

/// Writes a RegistrationConfirm whose values are lent, as `write_reserved` writes it.
#[tactic(auto, using(crate::proofs::Rooms::room_enough, crate::proofs::Rooms::few_octets, crate::proofs::RepliesRead::reads_back))]
pub fn write_confirm(confirm: &LentConfirm<'_>, octets: &mut Vec<u8>)
    requires { vec_len octets.old + room_of (reply.Rcf confirm.now) ≤ vec_capacity octets.old }
    ensures written { octets.new.items
        ≡ octets.old.items ++ encoding_of (reply.Rcf confirm.now) }
    ensures room { length (encoding_of (reply.Rcf confirm.now)) ≤ room_of (reply.Rcf confirm.now) }
    ensures most { length (encoding_of (reply.Rcf confirm.now)) ≤ Reply.MOST }
    ensures reads_back { ReadsBack (reply.Rcf confirm.now) }
{
    let none = Vec::new(*octets.allocator());
    let mut writer = BitWriter::new(mem::replace(octets, none));
    registration_confirm(&mut writer, confirm);
    *octets = writer.finish();
}

/// Writes a reply after what is there, in no more than `reply.room()` octets. The reply is read
/// again from these. It fails only for want of memory, and not if there is room for `reply.room()`
/// more octets.
///
/// promise refused-writing-changes-nothing: If memory is refused, the octets stay; it isn't if
/// there is room for `Reply::room` octets.
pub fn write_into(reply: &Reply, octets: &mut Vec<u8>) -> Result<(), AllocError>
    ensures ok { OnOk result (octets.new.items ≡ octets.old.items ++ encoding_of reply.now) }
    ensures err { OnErr result (octets.new.items ≡ octets.old.items) }
    ensures err_capacity { OnErr result (vec_capacity octets.new ≡ vec_capacity octets.old) }
    ensures succeeds { vec_len octets.old + room_of reply.now ≤ vec_capacity octets.old
        → IsOk result }
    ensures room { OnOk result (length (encoding_of reply.now) ≤ room_of reply.now) }
    ensures most { OnOk result (length (encoding_of reply.now) ≤ Reply.MOST) }
    ensures reads_back { OnOk result (ReadsBack reply.now) }
{
    octets.reserve(reply.room())?;
    write_reserved(reply, octets);
    Ok(())
}
