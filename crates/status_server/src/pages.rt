//! The pages as a service of hyper.

ghost use Rattle.std.specs.Prelude.{◌≡◌, IfOk, IfSome};
ghost use Rattle.std.specs.Option.{option_map};
ghost use Rattle.hyper.specs.Request.{head_of};
ghost use Rattle.hyper.specs.Uri.{uri_path, uri_query};
ghost use Rattle.status_page.specs.Asking.{asked_of};
ghost use Rattle.status_server.specs.Requests.{method_of, request_asked};
ghost use Rattle.tokio.specs.Timers.{sleep_deadline};

use crate::answer::{Answer, Question};
use crate::view::View;
use bytes::Bytes;
use http_body_util::Full;
use hyper::Request;
use hyper::body::Incoming;
use hyper::service::Service;
use status_page::{Asked, Method, asked_by};
use std::alloc::{AllocError, Global};
use std::rc::Rc;
use tokio::time::{Handle, Sleep};

/// The pages of a view, for one connection.
#[derive(Drop)]
pub(crate) struct Pages<V> {
    pub(crate) alloc: Global,
    pub(crate) timers: Handle,
    pub(crate) view: Rc<V>,
    /// Each connection holds one of these, so that they can be counted.
    pub(crate) connection: Rc<()>,
}

/// How a request with this method asks.
fn method_of(name: &str) -> Method
    ensures { result ≡ method_of name.now }
{
    match name {
        "GET" | "HEAD" => Method::Look,
        _ => Method::Other,
    }
}

impl<V: View> Pages<V> {
    /// What a request asks for.
    fn question(&self, method: Method, path: &str, query: &str) -> Result<Question<V>, AllocError>
        ensures view { IfOk result (λ question. question.view.value ≡ self.now.view.value) }
        ensures asked { IfOk result (λ question.
            question.asked ≡ asked_of method path.now query.now) }
    {
        Ok(Question {
            alloc: self.alloc,
            view: self.view.clone()?,
            asked: asked_by(self.alloc, method, path, query)?,
        })
    }

    /// The pause until it is the turn of what is asked for; None if it may be answered now.
    fn pause(&self, asked: &Asked) -> Result<Option<Sleep>, AllocError>
        ensures { IfOk result (λ pause.
            V.turns self.now.view.value asked.now (option_map sleep_deadline pause)) }
    {
        match self.view.turn(asked) {
            Some(moment) => Ok(Some(self.timers.sleep_until(moment)?)),
            None => Ok(None),
        }
    }

    /// The answer to a request, which waits for its turn.
    fn waiting(&self, method: Method, path: &str, query: &str) -> Result<Answer<V>, AllocError>
        ensures view { IfOk result (λ answer. IfSome answer.question (λ question.
            question.view.value ≡ self.now.view.value)) }
        ensures asked { IfOk result (λ answer. IfSome answer.question (λ question.
            question.asked ≡ asked_of method path.now query.now)) }
        ensures pause { IfOk result (λ answer. IfSome answer.question (λ question.
            V.turns self.now.view.value question.asked (option_map sleep_deadline answer.pause))) }
    {
        let question = self.question(method, path, query)?;
        Ok(Answer {
            pause: self.pause(&question.asked)?,
            question: Some(question),
        })
    }

    /// The answer to a request; one without a question if there is no memory for it.
    fn answer_to<I: Drop>(&self, request: &Request<Incoming<I>>) -> Answer<V>
        ensures { IfSome result.question (λ question.
            (question.view.value ≡ self.now.view.value)
            × (question.asked ≡ request_asked (head_of request.now).method
            (uri_path (head_of request.now).uri) (uri_query (head_of request.now).uri))) }
    {
        let method = method_of(request.method().as_str());
        let uri = request.uri();
        match self.waiting(method, uri.path(), uri.query().unwrap_or("")) {
            Ok(answer) => answer,
            Err(AllocError) => Answer {
                question: None,
                pause: None,
            },
        }
    }
}

impl<V: View, I: Drop> Service<Request<Incoming<I>>> for Pages<V> {
    type Response = hyper::Response<Full<Bytes>>;

    type Error = AllocError;

    type Future = Answer<V>;

    ghost calls = { λ pages request answer. IfSome answer.question (λ question.
        (question.view.value ≡ pages.view.value)
        × (question.asked ≡ request_asked (head_of request).method
        (uri_path (head_of request).uri) (uri_query (head_of request).uri))) };

    fn call(&self, request: Request<Incoming<I>>) -> Self::Future {
        self.answer_to(&request)
    }
}
