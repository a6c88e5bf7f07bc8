//! What requests ask for.

use facts::{all_hold, ensure};
use ras_module::{Boxed, EndpointId};
use status_page::{Asked, Method, Query, Response, Status, asked_by, line};
use std::alloc::{AllocError, Global};
use std::test::Fail;
use value_texts::name_of;

/// Whether a look at this path, with this query, asks for this.
fn asks_for(alloc: Global, path: &str, query: &str, expected: &Asked) -> Result<bool, AllocError> {
    let asked = asked_by(alloc, Method::Look, path, query)?;
    Ok(asked == *expected)
}

/// Whether a look at this path, without a query, asks for this.
fn asks_plainly_for(alloc: Global, path: &str, expected: Asked) -> Result<bool, AllocError> {
    asks_for(alloc, path, "", &expected)
}

/// A query without parameters.
fn plain() -> Query {
    Query {
        endpoint: None,
        call: None,
        most: 100,
    }
}

#[test]
fn without_parameters_there_are_100_rows(rt: HostRuntime) -> Result<(), Fail> {
    let alloc = rt.alloc();
    let home = asks_plainly_for(alloc, "/", Asked::Home(plain()))?;
    let endpoints = asks_plainly_for(alloc, "/endpoints.json", Asked::Endpoints(plain()))?;
    let calls = asks_plainly_for(alloc, "/calls.json", Asked::Calls(plain()))?;
    all_hold(&[
        (home, "the page for people has 100 rows"),
        (endpoints, "the page of endpoints has 100 rows"),
        (calls, "the page of calls has 100 rows"),
    ])
}

#[test]
fn an_empty_path_has_no_page(rt: HostRuntime) -> Result<(), Fail> {
    let is_none = asks_plainly_for(rt.alloc(), "", Asked::NoPage)?;
    ensure(is_none, "an empty path has no page")
}

/// Seven endpoints behind one with a space in its name.
fn seven_behind(alloc: Global) -> Result<Asked, Fail> {
    let name = name_of("a b\u{E9}".as_bytes()).ok_or("no name")?;
    let endpoint = Boxed::new(alloc, EndpointId::new(name))?;
    Ok(Asked::Endpoints(Query {
        endpoint: Some(endpoint),
        call: None,
        most: 7,
    }))
}

/// Whether a query of the page of endpoints asks for them.
fn asks_for_seven(alloc: Global, query: &str) -> Result<bool, Fail> {
    let expected = seven_behind(alloc)?;
    Ok(asks_for(alloc, "/endpoints.json", query, &expected)?)
}

#[test]
fn endpoints_behind_one(rt: HostRuntime) -> Result<(), Fail> {
    for query in [
        "after=a%20b%C3%A9&most=7",
        "most=7&&most=8&after=x&after=a%20b%c3%a9&most=7",
    ] {
        let is_asked = asks_for_seven(rt.alloc(), query)?;
        assert!(rt; is_asked, "{query}");
    }
    Ok(())
}

/// A response says in a line of plain text that there is no such page.
fn compare_line(response: &Response) -> Result<(), Fail> {
    all_hold(&[
        (
            response.text.as_str() == "no such page\n",
            "the words are a line",
        ),
        (
            response.status == Status::NotFound,
            "the status is the given one",
        ),
        (
            response.content.media_type() == "text/plain; charset=utf-8",
            "it is plain text",
        ),
    ])
}

/// The statuses have the codes of HTTP.
fn compare_codes() -> Result<(), Fail> {
    all_hold(&[
        (
            Status::Found.code() == 200,
            "what is found has the code 200",
        ),
        (
            Status::BadRequest.code() == 400,
            "a bad request has the code 400",
        ),
        (
            Status::NotFound.code() == 404,
            "what isn't found has the code 404",
        ),
        (
            Status::NotAllowed.code() == 405,
            "what isn't allowed has the code 405",
        ),
        (
            Status::Unavailable.code() == 503,
            "what is unavailable has the code 503",
        ),
    ])
}

#[test]
fn lines_and_codes(rt: HostRuntime) -> Result<(), Fail> {
    compare_codes()?;
    let response = line(rt.alloc(), Status::NotFound, "no such page")?;
    compare_line(&response)
}
