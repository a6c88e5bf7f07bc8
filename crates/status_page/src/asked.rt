//! What a request asks for.

ghost use Rattle.std.specs.Prelude.{◌≡◌, IfOk};
ghost use Rattle.status_page.specs.Asking.{asked_of, rows_asked};

use crate::query::{Query, Table, query_of};
use std::alloc::{AllocError, Global};

/// How a request asks.
#[derive(Clone, Copy, Debug, PartialEq, Eq)]
pub enum Method {
    /// GET or HEAD.
    Look,
    Other,
}

/// What is asked for.
#[derive(PartialEq, Eq, Drop)]
pub enum Asked {
    /// The page for people.
    Home(Query),
    Metrics,
    Zone,
    Endpoints(Query),
    Calls(Query),
    /// Whether the server answers.
    Health,
    /// The page is there, and its query isn't one.
    WrongQuery,
    NoPage,
    /// The method is none of those that are allowed.
    NotAllowed,
}

/// What a request asks for, by its method, its path, and the query behind the path; an empty one if
/// there is none. Pages without parameters take no notice of the query.
///
/// promise requests-ask-for-one-page: Method, path and parameters give the page as defined.
pub fn asked_by(alloc: Global, method: Method, path: &str, query: &str) -> Result<Asked, AllocError>
    ensures { IfOk result (λ asked. asked ≡ asked_of method path.now query.now) }
{
    if method == Method::Other {
        return Ok(Asked::NotAllowed);
    }
    match path {
        "/" => rows_asked(alloc, Table::Home, query),
        "/metrics" => Ok(Asked::Metrics),
        "/zone.json" => Ok(Asked::Zone),
        "/endpoints.json" => rows_asked(alloc, Table::Endpoints, query),
        "/calls.json" => rows_asked(alloc, Table::Calls, query),
        "/healthz" => Ok(Asked::Health),
        _ => Ok(Asked::NoPage),
    }
}

/// What a query of a page with rows asks for.
fn rows_asked(alloc: Global, table: Table, text: &str) -> Result<Asked, AllocError>
    ensures { IfOk result (λ asked. asked ≡ rows_asked table text.now) }
{
    let Some(query) = query_of(alloc, table, text.as_bytes())? else {
        return Ok(Asked::WrongQuery);
    };
    Ok(match table {
        Table::Home => Asked::Home(query),
        Table::Endpoints => Asked::Endpoints(query),
        Table::Calls => Asked::Calls(query),
    })
}
