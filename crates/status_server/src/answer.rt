//! The answer to a request, once it is its turn.

ghost use Rattle.std.specs.Prelude.{◌≡◌, IfOk, IsSomeAnd};
ghost use Rattle.std.specs.String.{string_bytes};
ghost use Rattle.hyper.specs.Response.{body_of, head_of};
ghost use Rattle.status_page.specs.Statuses.{code_of};
ghost use Rattle.status_server.specs.Fields.{IsBody, fields_of};
ghost use Rattle.status_server.specs.Requests.{IsAnswered};
ghost use Rattle.tokio.specs.Timers.{sleep_source};

use crate::fields::{set_fields, status_code};
use crate::view::View;
use bytes::Bytes;
use futures::task::{Context, Poll};
use futures::{Future, ready};
use http_body_util::Full;
use status_page::{Asked, Response};
use std::alloc::{AllocError, Global};
use std::rc::Rc;
use tokio::time::Sleep;

/// What is asked for, and who answers it.
#[derive(Drop)]
pub(crate) struct Question<V> {
    pub(crate) alloc: Global,
    pub(crate) view: Rc<V>,
    pub(crate) asked: Asked,
}

/// A response as hyper has it.
fn as_hyper(alloc: Global, response: Response) -> Result<hyper::Response<Full<Bytes>>, AllocError>
    ensures status { IfOk result (λ r. (head_of r).status ≡ code_of response.status) }
    ensures fields { IfOk result (λ r.
        (head_of r).headers ≡ fields_of response.status response.content) }
    ensures body { IfOk result (λ r. IsBody (string_bytes response.text) (body_of r).buf) }
{
    let Response {
        status,
        content,
        text,
    } = response;
    let body = Bytes::from_string(text)?;
    let mut response = hyper::Response::new(alloc, Full::new(body));
    if set_fields(response.headers_mut(), status, content).is_err() {
        return Err(AllocError);
    }
    *response.status_mut() = status_code(status);
    Ok(response)
}

impl<V: View> Question<V> {
    /// The answer, as hyper has it.
    fn answer(self) -> Result<hyper::Response<Full<Bytes>>, AllocError>
        ensures { IfOk result (λ sent.
            IsAnswered (V.answers self.view.value self.asked)
            (head_of sent).status (head_of sent).headers (body_of sent).buf) }
    {
        let Question { alloc, view, asked } = self;
        let response = view.response(asked)?;
        as_hyper(alloc, response)
    }
}

/// The answer to a request: it waits for its turn, and others are answered meanwhile.
#[derive(Drop)]
pub(crate) struct Answer<V> {
    /// None if it is answered, or if there was no memory for it.
    pub(crate) question: Option<Question<V>>,
    /// What it waits for; None if it needn't wait.
    pub(crate) pause: Option<Sleep>,
}

impl<V: View> Future for Answer<V> {
    type Output = Result<hyper::Response<Full<Bytes>>, AllocError>;

    ghost needs = { λ answer s. IsSomeAnd answer.pause (λ pause. s ≡ sleep_source pause) };

    ghost gives = { λ answer r. IfOk r (λ sent. IsSomeAnd answer.question (λ question.
        IsAnswered (V.answers question.view.value question.asked)
        (head_of sent).status (head_of sent).headers (body_of sent).buf)) };

    fn poll(&mut self, cx: &mut Context<'_>) -> Poll<Self::Output> {
        if let Some(pause) = &mut self.pause {
            let _ = ready!(pause.poll(cx));
            if let Some(question) = &self.question {
                if let Some(moment) = question.view.turn(&question.asked) {
                    // another list was made while this one waited
                    pause.reset(moment);
                    return cx.yield_now();
                }
            }
        }
        match self.question.take() {
            Some(question) => Poll::Ready(question.answer()),
            None => Poll::Ready(Err(AllocError)),
        }
    }
}
