//! What a datagram calls for.

ghost use Rattle.std.specs.Prelude.{◌≡◌, ◌≤◌, ℕ, IfOk, IfSome, IsOk, IsSome, None, Some, length};
ghost use Rattle.std.specs.FinMap as fin;
ghost use Rattle.ras_writing.specs.Properties.{ReadsBack};
ghost use Rattle.ras_writing.specs.Replies.{encoding_of};
ghost use Rattle.kept_replies.specs.Kept.{NonePasses, Passes, is_over, reply_in};
ghost use Rattle.ras_requests.specs.Plans.{Plan};
ghost use Rattle.ras_requests.specs.Requests.{HasReply, plan_of};
ghost use Rattle.ras_machine.specs.Keeping.{is_repeat};
ghost use Rattle.ras_machine.specs.Machine.{Repeating, anew, first, message_course, request_course};
ghost use Rattle.ras_machine.specs.Machine.{response_course, serving};
ghost use Rattle.ras_machine.specs.Courses.{CallsFor, IsPlacedIn};

use crate::course::{Course, Task};
use crate::job::{Job, Occasion};
use crate::machine::Machine;
use crate::prepared::Message;
use kept_replies::{KeptEntry, KeptKey, KeptReply, KeptState};
use ras_codec::write_reserved;
use ras_module::{Boxed, InfoRequestResponse, Octets, Reply, Request, Source};
use ras_requests::plan_of;
use std::alloc::AllocError;
use zone_config::Moment;
use zone_events::{Datagram, IgnoredCause};

impl Machine {
    /// What a datagram calls for. If its reply finds no other place, this entry is dropped.
    pub fn datagram_course(
        &self,
        now: Moment,
        key: KeptKey,
        message: Message,
        dropped: Option<u64>,
    ) -> Result<Course, AllocError>
        requires over { IfSome dropped (Passes (is_over now) self.now.kept) }
        ensures { IfOk result (CallsFor self.now now
            (message_course self.now now key dropped (Some message))) }
    {
        match message {
            Message::Unreadable => Ok(Course::Ignoring(IgnoredCause::Unreadable)),
            Message::NotServed => Ok(Course::Ignoring(IgnoredCause::NotServed)),
            Message::Request(request) => self.request_course(now, key, request, dropped),
        }
    }

    /// What a request calls for as it comes.
    fn request_course(
        &self,
        now: Moment,
        key: KeptKey,
        request: Request,
        dropped: Option<u64>,
    ) -> Result<Course, AllocError>
        requires over { IfSome dropped (Passes (is_over now) self.now.kept) }
        ensures { IfOk result (CallsFor self.now now
            (request_course self.now now key dropped request)) }
    {
        let request = match request {
            Request::Irr(response) => return Ok(self.response_course(response)),
            request => request,
        };
        if let Some(entry) = self.kept.find(&key) {
            if self.is_repeat(now, entry) {
                return self.repeating(key.source, &entry.state);
            }
            return self.serving(now, anew(key), request);
        }
        if !self.kept.is_full() {
            return self.serving(now, first(key, None), request);
        }
        if dropped.is_none() {
            return Ok(Course::Ignoring(IgnoredCause::Busy));
        }
        self.serving(now, first(key, dropped), request)
    }

    /// An InfoRequestResponse is a sign of life, if its endpoint is registered.
    fn response_course(&self, response: Boxed<InfoRequestResponse>) -> Course
        ensures { (now : ℕ) → CallsFor self.now now
            (response_course self.now (Some response.endpoint)) result }
    {
        let registrations = self.tables.registrations();
        if registrations.get(&response.get().endpoint).is_none() {
            return Course::Ignoring(IgnoredCause::UnknownEndpoint);
        }
        Course::Hearing(response)
    }

    /// Whether an entry answers its datagram as it comes again.
    fn is_repeat(&self, now: Moment, entry: &KeptEntry) -> bool
        ensures { result ≡ is_repeat self.now now entry.now }
    {
        if entry.is_over(now.milliseconds()) {
            return false;
        }
        match entry.identifier() {
            None => true,
            Some(told) => self.tables.registrations().get(&told.id()).is_some(),
        }
    }

    /// The reply that is kept is to be sent again.
    fn repeating(&self, to: Source, state: &KeptState) -> Result<Course, AllocError>
        ensures { IfOk result (λ course. (now : ℕ) → CallsFor self.now now
            (Repeating (record { to = to; bytes = encoding_of (reply_in state.now) })) course) }
    {
        let datagram = match state {
            KeptState::Done { reply, .. } => self.kept_datagram(to, reply)?,
            KeptState::Pending { reply, .. } => self.datagram(to, &reply.reply())?,
        };
        Ok(Course::Repeating(datagram))
    }

    /// The datagram in which a kept reply is sent again.
    fn kept_datagram(&self, to: Source, reply: &KeptReply) -> Result<Datagram, AllocError>
        ensures encoded { IfOk result (λ datagram.
            datagram ≡ record { to = to; bytes = encoding_of reply.now }) }
        ensures few { IfOk result (λ datagram. length datagram.bytes ≤ Reply.MOST) }
    {
        let bytes = Vec::from_slice(self.alloc, reply.as_slice())?;
        Ok(Datagram {
            to,
            bytes: Octets::from_vec(bytes),
        })
    }

    /// The datagram in which this reply is sent.
    pub(crate) fn datagram(&self, to: Source, reply: &Reply) -> Result<Datagram, AllocError>
        ensures encoded { IfOk result (λ datagram.
            datagram ≡ record { to = to; bytes = encoding_of reply.now }) }
        ensures few { IfOk result (λ datagram. length datagram.bytes ≤ Reply.MOST) }
        ensures reads_back { IsOk result → ReadsBack reply.now }
    {
        let mut bytes = Vec::with_capacity(self.alloc, reply.room())?;
        write_reserved(reply, &mut bytes);
        Ok(Datagram {
            to,
            bytes: Octets::from_vec(bytes),
        })
    }

    /// A request is to be served by its plan.
    pub(crate) fn serving(
        &self,
        now: Moment,
        job: Job,
        request: Request,
    ) -> Result<Course, AllocError>
        requires served { HasReply request }
        requires placed { IsPlacedIn self.now job }
        ensures { IfOk result (λ course. (plan : Plan)
            → plan_of self.now.tables now request ≡ Some plan
            → CallsFor self.now now (serving job now request plan) course) }
    {
        let plan = plan_of(self.alloc, &self.tables, now, &request)?;
        Ok(Course::Serving(Task { job, request, plan }))
    }

    /// The kept entry that is dropped if the reply to a datagram finds no place else: any that is
    /// over. None, if there is a place or nothing is over.
    pub fn entry_to_drop(&self, now: Moment, key: &KeptKey) -> Option<u64>
        ensures over { IfSome result (Passes (is_over now) self.now.kept) }
        ensures full { IsSome result → fin.len self.now.kept ≡ self.now.tables.config.kept }
        ensures new { IsSome result → fin.get self.now.kept key.now ≡ None }
        ensures none { result ≡ None → fin.get self.now.kept key.now ≡ None
            → fin.len self.now.kept ≡ self.now.tables.config.kept
            → NonePasses (is_over now) self.now.kept }
    {
        if !self.kept.is_full() || self.kept.find(key).is_some() {
            return None;
        }
        self.kept.over(now.milliseconds())
    }
}

/// A request is served as it comes.
fn first(key: KeptKey, dropped: Option<u64>) -> Job
    ensures { result ≡ first key dropped }
{
    Job {
        key,
        occasion: Occasion::First { dropped },
    }
}

/// A request is served as it comes, in place of what is kept for its datagram.
fn anew(key: KeptKey) -> Job
    ensures { result ≡ anew key }
{
    Job {
        key,
        occasion: Occasion::Anew,
    }
}
