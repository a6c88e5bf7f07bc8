//! What is counted of one step.

ghost use Rattle.std.specs.Prelude.{◌≡◌, option_map};
ghost use Rattle.zone_view.specs.declared.count.Count.TheVariants as count;
ghost use Rattle.zone_view.specs.StepCounts.{admission_reject, answer_of, bandwidth_reject};
ghost use Rattle.zone_view.specs.StepCounts.{counts_of, deed_of, each_of, deed_of_item, disengage_reject};
ghost use Rattle.zone_view.specs.StepCounts.{ignored_by, is_read, kind_by, kind_in};
ghost use Rattle.zone_view.specs.StepCounts.{kind_of_root, octets_sent, request_at, request_by};
ghost use Rattle.zone_view.specs.StepCounts.{registration_reject, reject_in, reject_of};
ghost use Rattle.zone_view.specs.StepCounts.{unregistration_reject};

use crate::count::Count;
use crate::kinds::{Answer, ReplyKind, RequestKind, TurnDeed};
use crate::reject::Reject;
use pools::Lend;
use zone_events::{Datagram, DueItem, IgnoredCause, Note, Outcome};

/// What is counted of one step.
#[derive(Clone, Copy, Debug, PartialEq, Eq)]
pub struct StepCounts {
    /// The request that was read.
    pub request: Option<RequestKind>,
    /// The message that is sent.
    pub reply: Option<ReplyKind>,
    /// Why it rejects the request, if it does.
    pub reject: Option<Reject>,
    /// Why the datagram was ignored, if it was.
    pub ignored: Option<IgnoredCause>,
    /// What the turn did, if the step was one.
    pub turn: Option<TurnDeed>,
    /// What the pool that was asked answered.
    pub answer: Option<Answer>,
    /// Whether a kept reply was sent again.
    pub is_repeat: bool,
}

impl StepCounts {
    /// What is counted of a step with this outcome, which was made of a datagram with this first
    /// octet, if it was one of a datagram. The kinds of request and reply, and the reason of a
    /// reject, are read off the octets (H.225.0, RasMessage; X.691).
    ///
    /// promise step-is-counted-by-its-outcome: What is counted of a step is read off its outcome as
    /// defined (`counts_of`).
    pub fn of(first: Option<u8>, outcome: &Outcome) -> Self
        ensures { result ≡ counts_of first outcome.now }
    {
        let octets = sent(&outcome.output);
        let reply = kind_in(octets);
        StepCounts {
            request: request_by(first, outcome.note),
            reply,
            reject: reject_in(reply, octets),
            ignored: ignored_by(outcome.note),
            turn: deed_of(outcome.note),
            answer: answer_of(outcome.answer),
            is_repeat: matches!(outcome.note, Note::Kept),
        }
    }

    /// Each thing that is counted once.
    pub fn each(&self) -> [Option<Count>; 7]
        ensures { result ≡ each_of self.now }
    {
        [
            counted_request(self.request),
            counted_reply(self.reply),
            counted_reject(self.reject),
            counted_ignored(self.ignored),
            counted_turn(self.turn),
            counted_answer(self.answer),
            self.is_repeat.then_some(Count::Repeat),
        ]
    }
}

/// The request, if one was read.
fn counted_request(request: Option<RequestKind>) -> Option<Count>
    ensures { result ≡ option_map count.Request request }
{
    match request {
        Some(request) => Some(Count::Request(request)),
        None => None,
    }
}

/// The message, if one is sent.
fn counted_reply(reply: Option<ReplyKind>) -> Option<Count>
    ensures { result ≡ option_map count.Reply reply }
{
    match reply {
        Some(reply) => Some(Count::Reply(reply)),
        None => None,
    }
}

/// The reason, if it rejects.
fn counted_reject(reject: Option<Reject>) -> Option<Count>
    ensures { result ≡ option_map count.Reject reject }
{
    match reject {
        Some(reject) => Some(Count::Reject(reject)),
        None => None,
    }
}

/// The cause, if the datagram was ignored.
fn counted_ignored(ignored: Option<IgnoredCause>) -> Option<Count>
    ensures { result ≡ option_map count.Ignored ignored }
{
    match ignored {
        Some(ignored) => Some(Count::Ignored(ignored)),
        None => None,
    }
}

/// What the turn did, if the step was one.
fn counted_turn(turn: Option<TurnDeed>) -> Option<Count>
    ensures { result ≡ option_map count.Turn turn }
{
    match turn {
        Some(turn) => Some(Count::Turn(turn)),
        None => None,
    }
}

/// The answer of the pool, if one was asked.
fn counted_answer(answer: Option<Answer>) -> Option<Count>
    ensures { result ≡ option_map count.Answer answer }
{
    match answer {
        Some(answer) => Some(Count::Answer(answer)),
        None => None,
    }
}

/// The kind of the request with this first octet, if the step's datagram was read as one.
fn request_by(first: Option<u8>, note: Note) -> Option<RequestKind>
    ensures { result ≡ request_by first note }
{
    let first = first?;
    if is_read(note) {
        request_at(first / 4)
    } else {
        None
    }
}

/// Whether the datagram of the step was read as a request.
fn is_read(note: Note) -> bool
    ensures { result ≡ is_read note }
{
    match note {
        Note::Served | Note::Kept => true,
        Note::Ignored(IgnoredCause::Busy | IgnoredCause::UnknownEndpoint) => true,
        Note::Ignored(_) | Note::Done(_) | Note::Idle | Note::Replaced(_) => false,
    }
}

/// The kind of the request at this index before the extension marker.
#[tactic(auto, unfolding(crate::specs::StepCounts::request_at))]
fn request_at(index: u8) -> Option<RequestKind>
    ensures { result ≡ request_at index }
{
    match index {
        0 => Some(RequestKind::Grq),
        3 => Some(RequestKind::Rrq),
        6 => Some(RequestKind::Urq),
        9 => Some(RequestKind::Arq),
        12 => Some(RequestKind::Brq),
        15 => Some(RequestKind::Drq),
        22 => Some(RequestKind::Irr),
        _ => None,
    }
}

/// The octets that are sent.
fn sent(output: &Option<Datagram>) -> &[u8]
    ensures { result.now ≡ octets_sent output.now }
{
    match output {
        Some(datagram) => datagram.bytes.as_slice(),
        None => &[],
    }
}

/// The kind of the message that these octets are.
fn kind_in(octets: &[u8]) -> Option<ReplyKind>
    ensures { result ≡ kind_in octets.now }
{
    match octets {
        [first, ..] => kind_by(*first),
        [] => None,
    }
}

/// The kind of the message with this first octet.
#[tactic(auto, unfolding(crate::specs::StepCounts::kind_by))]
fn kind_by(octet: u8) -> Option<ReplyKind>
    ensures { result ≡ kind_by octet }
{
    if octet == 128 {
        return Some(ReplyKind::Rip);
    }
    kind_of_root(octet / 4)
}

/// The kind of the message at this index before the extension marker.
#[tactic(auto, unfolding(crate::specs::StepCounts::kind_of_root))]
fn kind_of_root(index: u8) -> Option<ReplyKind>
    ensures { result ≡ kind_of_root index }
{
    match index {
        1 => Some(ReplyKind::Gcf),
        2 => Some(ReplyKind::Grj),
        4 => Some(ReplyKind::Rcf),
        5 => Some(ReplyKind::Rrj),
        7 => Some(ReplyKind::Ucf),
        8 => Some(ReplyKind::Urj),
        10 => Some(ReplyKind::Acf),
        11 => Some(ReplyKind::Arj),
        13 => Some(ReplyKind::Bcf),
        14 => Some(ReplyKind::Brj),
        16 => Some(ReplyKind::Dcf),
        17 => Some(ReplyKind::Drj),
        21 => Some(ReplyKind::Irq),
        _ => None,
    }
}

/// Why these octets of a message of this kind reject a request.
fn reject_in(kind: Option<ReplyKind>, octets: &[u8]) -> Option<Reject>
    ensures { result ≡ reject_in kind octets.now }
{
    match kind? {
        ReplyKind::Grj => Some(Reject::DiscoveryTerminalExcluded),
        ReplyKind::Rrj => registration_reject(*octets.get(11)?),
        ReplyKind::Urj => unregistration_reject(*octets.get(3)?),
        ReplyKind::Arj => admission_reject(*octets.get(3)?),
        ReplyKind::Brj => bandwidth_reject(*octets.get(3)?),
        ReplyKind::Drj => disengage_reject(*octets.get(3)?),
        _ => None,
    }
}

fn registration_reject(octet: u8) -> Option<Reject>
    ensures { result ≡ registration_reject octet }
{
    match octet {
        129 => return Some(Reject::RegistrationResourceUnavailable),
        132 => return Some(Reject::RegistrationFullRegistrationRequired),
        _ => {}
    }
    match octet / 16 {
        0 => Some(Reject::RegistrationDiscoveryRequired),
        2 => Some(Reject::RegistrationInvalidCallSignalAddress),
        3 => Some(Reject::RegistrationInvalidRasAddress),
        4 => Some(Reject::RegistrationDuplicateAlias),
        _ => None,
    }
}

fn unregistration_reject(octet: u8) -> Option<Reject>
    ensures { result ≡ unregistration_reject octet }
{
    match octet / 32 {
        0 => Some(Reject::UnregistrationNotCurrentlyRegistered),
        1 => Some(Reject::UnregistrationCallInProgress),
        _ => None,
    }
}

fn admission_reject(octet: u8) -> Option<Reject>
    ensures { result ≡ admission_reject octet }
{
    match octet / 16 {
        0 => Some(Reject::AdmissionCalledPartyNotRegistered),
        2 => Some(Reject::AdmissionRequestDenied),
        6 => Some(Reject::AdmissionInvalidEndpointIdentifier),
        7 => Some(Reject::AdmissionResourceUnavailable),
        _ => None,
    }
}

fn bandwidth_reject(octet: u8) -> Option<Reject>
    ensures { result ≡ bandwidth_reject octet }
{
    match octet / 16 {
        0 => Some(Reject::BandwidthNotBound),
        1 => Some(Reject::BandwidthInvalidConferenceId),
        3 => Some(Reject::BandwidthInsufficientResources),
        _ => None,
    }
}

fn disengage_reject(octet: u8) -> Option<Reject>
    ensures { result ≡ disengage_reject octet }
{
    match octet / 64 {
        0 => Some(Reject::DisengageNotRegistered),
        1 => Some(Reject::DisengageRequestToDropOther),
        _ => None,
    }
}

/// For which cause a datagram was ignored.
fn ignored_by(note: Note) -> Option<IgnoredCause>
    ensures { result ≡ ignored_by note }
{
    match note {
        Note::Ignored(cause) => Some(cause),
        _ => None,
    }
}

/// What a turn did.
fn deed_of(note: Note) -> Option<TurnDeed>
    ensures { result ≡ deed_of note }
{
    match note {
        Note::Done(item) => Some(deed_of_item(item)),
        Note::Idle => Some(TurnDeed::Idle),
        _ => None,
    }
}

fn deed_of_item(item: DueItem) -> TurnDeed
    ensures { result ≡ deed_of_item item }
{
    match item {
        DueItem::RegistrationOver(_) => TurnDeed::RegistrationOver,
        DueItem::Interrogate(_) => TurnDeed::Interrogation,
        DueItem::Silent(_) => TurnDeed::Silence,
        DueItem::Retry(_) => TurnDeed::Retry,
        DueItem::KeptOver(_) => TurnDeed::KeptOver,
        DueItem::PoolTurn => TurnDeed::PoolTurn,
    }
}

/// What a pool answered.
fn answer_of(answer: Option<Lend>) -> Option<Answer>
    ensures { result ≡ answer_of answer }
{
    match answer? {
        Lend::Lent(_) => Some(Answer::Lent),
        Lend::Refused => Some(Answer::Refused),
        Lend::Wait => Some(Answer::Wait),
    }
}
