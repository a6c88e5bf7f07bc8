//! The status and the fields of a response.

ghost use Rattle.std.specs.Prelude.{◌≡◌, [], OnOk};
ghost use Rattle.hyper.specs.FieldValue.{plain_value};
ghost use Rattle.hyper.specs.HeaderMap.{insert};
ghost use Rattle.status_page.specs.Statuses.{code_of, media_type_of};
ghost use Rattle.status_server.specs.Fields.{fields_of};

use hyper::header::{
    ALLOW, CACHE_CONTROL, CONTENT_SECURITY_POLICY, CONTENT_TYPE, HeaderMapError, HeaderName,
    HeaderValue, X_CONTENT_TYPE_OPTIONS,
};
use hyper::{HeaderMap, StatusCode};
use status_page::{Content, Status};

/// The field `content-type` of a text.
fn content_type(content: Content) -> HeaderValue
    ensures { result ≡ plain_value (media_type_of content) }
{
    match content {
        Content::Html => HeaderValue::from_static("text/html; charset=utf-8"),
        Content::Metrics => HeaderValue::from_static("text/plain; version=0.0.4; charset=utf-8"),
        Content::Json => HeaderValue::from_static("application/json"),
        Content::Plain => HeaderValue::from_static("text/plain; charset=utf-8"),
    }
}

/// Sets the fields of a response: it isn't kept, its type isn't guessed, and it runs nothing.
pub(crate) fn set_fields(
    fields: &mut HeaderMap,
    status: Status,
    content: Content,
) -> Result<(), HeaderMapError>
    requires { fields.old ≡ [] }
    ensures { OnOk result (fields.new ≡ fields_of status content) }
{
    set(fields, CONTENT_TYPE, content_type(content))?;
    set(fields, CACHE_CONTROL, HeaderValue::from_static("no-store"))?;
    set(
        fields,
        X_CONTENT_TYPE_OPTIONS,
        HeaderValue::from_static("nosniff"),
    )?;
    set(
        fields,
        CONTENT_SECURITY_POLICY,
        HeaderValue::from_static(
            "default-src 'none'; style-src 'unsafe-inline'; frame-ancestors 'none'",
        ),
    )?;
    if status == Status::NotAllowed {
        set(fields, ALLOW, HeaderValue::from_static("GET, HEAD"))?;
    }
    Ok(())
}

/// Sets a field to this one value.
fn set(fields: &mut HeaderMap, name: HeaderName, value: HeaderValue) -> Result<(), HeaderMapError>
    ensures { OnOk result (fields.new ≡ insert fields.old name value) }
{
    fields.insert(name, value)?;
    Ok(())
}

/// The status as hyper has it.
pub(crate) fn status_code(status: Status) -> StatusCode
    ensures { result ≡ code_of status }
{
    match status {
        Status::Found => StatusCode::OK,
        Status::BadRequest => StatusCode::BAD_REQUEST,
        Status::NotFound => StatusCode::NOT_FOUND,
        Status::NotAllowed => StatusCode::METHOD_NOT_ALLOWED,
        Status::Unavailable => StatusCode::SERVICE_UNAVAILABLE,
    }
}
