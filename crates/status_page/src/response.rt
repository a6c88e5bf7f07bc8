//! Responses.

ghost use Rattle.std.specs.Prelude.{◌≡◌, ◌++◌, ◌∷◌, [], IfOk};
ghost use Rattle.std.specs.String.{string_bytes};
ghost use Rattle.status_page.specs.Statuses.{code_of, media_type_of};

use std::alloc::{AllocError, Global};

/// What a text is.
#[derive(Clone, Copy, Debug, PartialEq, Eq)]
pub enum Content {
    Html,
    Metrics,
    Json,
    Plain,
}

impl Content {
    /// Its media type, with the character set.
    pub fn media_type(self) -> &'static str
        ensures { result.now ≡ media_type_of self }
    {
        match self {
            Content::Html => "text/html; charset=utf-8",
            Content::Metrics => "text/plain; version=0.0.4; charset=utf-8",
            Content::Json => "application/json",
            Content::Plain => "text/plain; charset=utf-8",
        }
    }
}

/// How a request went.
#[derive(Clone, Copy, Debug, PartialEq, Eq)]
pub enum Status {
    Found,
    BadRequest,
    NotFound,
    NotAllowed,
    Unavailable,
}

impl Status {
    /// Its code in HTTP (RFC 9110, section 15).
    pub fn code(self) -> u16
        ensures { result ≡ code_of self }
    {
        match self {
            Status::Found => 200,
            Status::BadRequest => 400,
            Status::NotFound => 404,
            Status::NotAllowed => 405,
            Status::Unavailable => 503,
        }
    }
}

/// A response.
#[derive(Drop)]
pub struct Response {
    pub status: Status,
    pub content: Content,
    pub text: String,
}

/// A response of one line of plain text.
pub fn line(alloc: Global, status: Status, words: &str) -> Result<Response, AllocError>
    ensures status { IfOk result (λ response. response.status ≡ status) }
    ensures content { IfOk result (λ response. response.content ≡ Content.Plain) }
    ensures text { IfOk result (λ response. string_bytes response.text ≡ words.now ++ 10 ∷ []) }
{
    let mut text = String::from_str(alloc, words)?;
    text.push('\n')?;
    Ok(Response {
        status,
        content: Content::Plain,
        text,
    })
}

/// A response with a text that was asked for.
pub(crate) fn found(content: Content, text: String) -> Response
    ensures { result ≡ record { status = Status.Found; content = content; text = text } }
{
    Response {
        status: Status::Found,
        content,
        text,
    }
}
