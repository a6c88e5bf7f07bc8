//! Queries of pages with rows, as in `after=0007&most=50`.

ghost use Rattle.std.specs.Prelude.{◌≡◌, IfOk, option_copied};
ghost use Rattle.status_page.specs.Queries.{identifier_of, key_of, query_of, with_call};
ghost use Rattle.status_page.specs.Queries.{with_endpoint, with_most, with_part};

use hex::FromHex;
use percent_encoding::percent_decode;
use ras_module::{Boxed, CallKey, EndpointId};
use std::alloc::{AllocError, Global};
use value_texts::{is_word, name_of, number_of, parted};

/// The most rows of a page.
pub const MOST_ROWS: u64 = 200;

/// The rows of a page if the query doesn't say.
const ROWS: u64 = 100;

/// The pages that a query may be about.
#[derive(Clone, Copy, Debug, PartialEq, Eq)]
pub enum Table {
    /// The page for people, with endpoints and calls.
    Home,
    Endpoints,
    Calls,
}

/// What a query asks for.
#[derive(PartialEq, Eq, Drop)]
pub struct Query {
    /// Endpoints behind this one; from the first one on if there's none.
    pub endpoint: Option<Boxed<EndpointId>>,
    /// Calls behind this one; from the first one on if there's none.
    pub call: Option<CallKey>,
    /// The most rows: 1 to 200.
    pub most: u64,
}

impl Query {
    /// The endpoint behind which those stand that are asked for, if there is one.
    pub fn endpoint(&self) -> Option<&EndpointId>
        ensures { option_copied result ≡ self.now.endpoint }
    {
        match &self.endpoint {
            Some(identifier) => Some(identifier.get()),
            None => None,
        }
    }
}

/// What a query of this page asks for. None if a part of it isn't one of the page's parameters, or
/// has no such value.
pub(crate) fn query_of(
    alloc: Global,
    table: Table,
    text: &[u8],
) -> Result<Option<Query>, AllocError>
    ensures { IfOk result (λ query. query ≡ query_of table text.now) }
{
    let mut query = Query {
        endpoint: None,
        call: None,
        most: ROWS,
    };
    let mut rest = text;
    while !rest.is_empty() {
        let (part, behind) = parted(rest, b'&');
        match with_part(alloc, table, query, part)? {
            Some(changed) => query = changed,
            None => return Ok(None),
        }
        rest = behind;
    }
    Ok(Some(query))
}

/// A query with one more part, as `most=50`; an empty part says nothing. None if it isn't one of
/// the page's parameters, or has no such value.
fn with_part(
    alloc: Global,
    table: Table,
    query: Query,
    part: &[u8],
) -> Result<Option<Query>, AllocError>
    ensures { IfOk result (λ changed. changed ≡ with_part table query part.now) }
{
    if part.is_empty() {
        return Ok(Some(query));
    }
    let (name, value) = parted(part, b'=');
    match table {
        Table::Home if is_word(name, "endpoints") => with_endpoint(alloc, query, value),
        Table::Home if is_word(name, "calls") => Ok(with_call(query, value)),
        Table::Endpoints if is_word(name, "after") => with_endpoint(alloc, query, value),
        Table::Endpoints if is_word(name, "most") => Ok(with_most(query, value)),
        Table::Calls if is_word(name, "after") => Ok(with_call(query, value)),
        Table::Calls if is_word(name, "most") => Ok(with_most(query, value)),
        _ => Ok(None),
    }
}

/// A query of endpoints behind the one that a value names. None if it names none.
fn with_endpoint(alloc: Global, query: Query, value: &[u8]) -> Result<Option<Query>, AllocError>
    ensures { IfOk result (λ changed. changed ≡ with_endpoint query value.now) }
{
    match identifier_of(alloc, value)? {
        Some(identifier) => Ok(Some(Query {
            endpoint: Some(Boxed::new(alloc, identifier)?),
            call: query.call,
            most: query.most,
        })),
        None => Ok(None),
    }
}

/// A query of calls behind the one that a value names. None if it names none.
fn with_call(query: Query, value: &[u8]) -> Option<Query>
    ensures { result ≡ with_call query value.now }
{
    match key_of(value) {
        Some(key) => Some(Query {
            endpoint: query.endpoint,
            call: Some(key),
            most: query.most,
        }),
        None => None,
    }
}

/// A query of at most as many rows as a value says. None if it says no number from 1 to 200.
fn with_most(query: Query, value: &[u8]) -> Option<Query>
    ensures { result ≡ with_most query value.now }
{
    match number_of(1, MOST_ROWS, value) {
        Some(most) => Some(Query {
            endpoint: query.endpoint,
            call: query.call,
            most,
        }),
        None => None,
    }
}

/// The identifier that a value writes, in UTF-8 and percent-encoded.
fn identifier_of(alloc: Global, value: &[u8]) -> Result<Option<EndpointId>, AllocError>
    ensures { IfOk result (λ identifier. identifier ≡ identifier_of value.now) }
{
    let mut octets = Vec::new(alloc);
    percent_decode(value).append_to(&mut octets)?;
    match name_of(octets.as_slice()) {
        Some(characters) => Ok(Some(EndpointId::new(characters))),
        None => Ok(None),
    }
}

/// The key of a call that a value writes, in 32 digits of base 16.
fn key_of(value: &[u8]) -> Option<CallKey>
    ensures { result ≡ key_of value.now }
{
    match <[u8; 16] as FromHex>::from_hex(value) {
        Ok(octets) => Some(CallKey { octets }),
        Err(_) => None,
    }
}
