//! The page for people.

ghost use Rattle.std.specs.Prelude.{◌≡◌, ◌++◌, IfOk, OnOk};
ghost use Rattle.std.specs.String.{string_bytes};
ghost use Rattle.status_page.specs.Home.{bandwidth_html, calls_section, endpoints_section};
ghost use Rattle.status_page.specs.Home.{first_calls, first_endpoints, foot_html, header_html};
ghost use Rattle.status_page.specs.Home.{home_text, next_calls, next_endpoints, pool_html};
ghost use Rattle.status_page.specs.Home.{pool_title, tiles_html, title_html};
ghost use Rattle.status_page.specs.JsonRows.{last_of};
ghost use Rattle.status_page.specs.Texts.{numbered};
ghost use Rattle.status_page.specs.declared.response.Content.TheVariants.{Html};
ghost use Rattle.status_page.specs.declared.response.Status.TheVariants.{Found};

use crate::home_counts::push_counts;
use crate::home_rows::{push_calls, push_endpoints};
use crate::html_parts::{push_bar, push_html, push_link, push_span, push_tile};
use crate::lists::{CallList, EndpointList};
use crate::overview::{About, Overview};
use crate::query::Query;
use crate::response::{Content, Response, found};
use crate::style::STYLE;
use crate::text_parts::{push_address, push_number};
use pools::Figures;
use std::alloc::{AllocError, Global};
use zone_view::{CallRow, EndpointRow, ZoneFigures};

/// The page for people: a zone with some of its endpoints and calls, which the query asked for.
pub fn home(
    alloc: Global,
    about: &About,
    overview: &Overview,
    query: &Query,
    endpoints: &EndpointList,
    calls: &CallList,
) -> Result<Response, AllocError>
    ensures found { IfOk result (λ response. response.status ≡ Found) }
    ensures content { IfOk result (λ response. response.content ≡ Html) }
    ensures text { IfOk result (λ response. string_bytes response.text
        ≡ home_text about.now overview.now query.now endpoints.now calls.now) }
{
    let mut text = String::new(alloc);
    push_title(&mut text, about)?;
    push_header(&mut text, about, overview.figures.clock)?;
    push_tiles(&mut text, &overview.figures)?;
    push_bandwidth(&mut text, &overview.figures, overview.pools.as_slice())?;
    push_endpoint_section(&mut text, query, endpoints, &overview.figures)?;
    push_call_section(&mut text, query, calls, &overview.figures)?;
    push_counts(&mut text, &overview.counts, &overview.server)?;
    push_foot(&mut text)?;
    Ok(found(Content::Html, text))
}

/// Writes the foot of the page.
#[tactic(auto, unfolding(crate::specs::Home::foot_html))]
fn push_foot(out: &mut String) -> Result<(), AllocError>
    ensures { OnOk result (string_bytes out.new ≡ string_bytes out.old ++ foot_html) }
{
    out.push_str(
        "</main><footer><p>This page is renewed every 10 seconds. The same for programs:</p>",
    )?;
    out.push_str("<p><a href=/metrics>metrics for Prometheus</a><a href=/zone.json>zone</a>")?;
    out.push_str(
        "<a href=/endpoints.json>endpoints</a><a href=/calls.json>calls</a></p></footer>\n",
    )?;
    out.push_str("</body></html>\n")?;
    Ok(())
}

/// Writes what a browser reads before the page: its title, and how it looks.
#[tactic(auto, unfolding(crate::specs::Home::title_html))]
fn push_title(out: &mut String, about: &About) -> Result<(), AllocError>
    ensures { OnOk result (string_bytes out.new ≡ string_bytes out.old ++ title_html about.now) }
{
    out.push_str("<!doctype html>\n<html lang=en><head><meta charset=utf-8>")?;
    out.push_str("<meta name=viewport content=\"width=device-width,initial-scale=1\">")?;
    push_html(
        out,
        "<meta http-equiv=refresh content=10><link rel=icon href=data:,><title>",
        about.name.as_slice(),
    )?;
    out.push_str(" - gatekeeper</title><style>")?;
    out.push_str(STYLE)?;
    out.push_str("</style></head>\n")?;
    Ok(())
}

/// Writes the head of the page. The clock is that of the zone, in milliseconds.
#[tactic(auto, unfolding(crate::specs::Home::header_html))]
fn push_header(out: &mut String, about: &About, clock: u64) -> Result<(), AllocError>
    ensures { OnOk result (string_bytes out.new
        ≡ string_bytes out.old ++ header_html about.now clock) }
{
    push_html(
        out,
        "<body><header><h1><small>H.323 gatekeeper</small>",
        about.name.as_slice(),
    )?;
    push_address(out, "</h1><p><code>", about.address)?;
    out.push_str("</code> &middot; serving for ")?;
    push_span(out, clock)?;
    out.push_str("</p><nav><a href=#bandwidth>Bandwidth</a><a href=#endpoints>Endpoints</a>")?;
    out.push_str("<a href=#calls>Calls</a><a href=#traffic>Traffic</a></nav></header>\n<main>\n")?;
    Ok(())
}

/// Writes the figures of a zone that have no limit.
#[tactic(auto, unfolding(crate::specs::Home::tiles_html))]
fn push_tiles(out: &mut String, figures: &ZoneFigures) -> Result<(), AllocError>
    ensures { OnOk result (string_bytes out.new ≡ string_bytes out.old ++ tiles_html figures.now) }
{
    out.push_str("<section class=tiles>\n")?;
    push_tile(out, figures.endpoints as u64, "endpoints")?;
    push_tile(out, figures.calls as u64, "calls")?;
    push_tile(out, figures.kept as u64, "kept replies")?;
    push_tile(out, figures.steps, "steps")?;
    out.push_str("</section>\n")?;
    Ok(())
}

/// Writes the bandwidth of a zone and of its pools.
#[tactic(auto, unfolding(crate::specs::Home::bandwidth_html))]
fn push_bandwidth(
    out: &mut String,
    figures: &ZoneFigures,
    pools: &[Figures],
) -> Result<(), AllocError>
    ensures { OnOk result (string_bytes out.new
        ≡ string_bytes out.old ++ bandwidth_html figures.now pools.now) }
{
    out.push_str("<section id=bandwidth><h2>Bandwidth</h2><div class=bars>\n")?;
    push_bar(out, "Whole zone", figures.in_use, figures.limit)?;
    push_pools(out, pools)?;
    out.push_str("</div></section>\n")?;
    Ok(())
}

/// Writes the bandwidth of pools, each with its place, from 0.
fn push_pools(out: &mut String, pools: &[Figures]) -> Result<(), AllocError>
    ensures { OnOk result (string_bytes out.new
        ≡ string_bytes out.old ++ numbered pool_html 0 pools.now) }
{
    for (place, pool) in pools.iter().enumerate() {
        push_pool(out, place, pool)?;
    }
    Ok(())
}

/// Writes the bandwidth of a pool.
#[tactic(auto, unfolding(crate::specs::Home::pool_html))]
fn push_pool(out: &mut String, place: usize, pool: &Figures) -> Result<(), AllocError>
    ensures { OnOk result (string_bytes out.new
        ≡ string_bytes out.old ++ pool_html place pool.now) }
{
    let title = pool_title(*out.allocator(), place, pool)?;
    push_bar(out, title.as_str(), pool.lent, pool.limit)
}

/// The title of a pool's bar, in HTML.
#[tactic(auto, unfolding(crate::specs::Home::pool_title))]
fn pool_title(alloc: Global, place: usize, pool: &Figures) -> Result<String, AllocError>
    ensures { IfOk result (λ title. string_bytes title ≡ pool_title place pool.now) }
{
    let mut title = String::new(alloc);
    push_number(&mut title, "Pool ", place as u64)?;
    push_number(&mut title, " <small>", pool.refusals)?;
    push_number(&mut title, " refused, ", pool.waits)?;
    title.push_str(" delayed</small>")?;
    Ok(title)
}

/// Writes some endpoints, with links to others.
#[tactic(auto, unfolding(crate::specs::Home::endpoints_section))]
fn push_endpoint_section(
    out: &mut String,
    query: &Query,
    endpoints: &EndpointList,
    figures: &ZoneFigures,
) -> Result<(), AllocError>
    ensures { OnOk result (string_bytes out.new
        ≡ string_bytes out.old ++ endpoints_section query.now endpoints.now figures.now) }
{
    let rows = endpoints.rows.as_slice();
    push_number(
        out,
        "<section id=endpoints><h2>Endpoints <small>",
        figures.endpoints as u64,
    )?;
    out.push_str(" registered</small></h2>\n")?;
    push_endpoints(out, rows, figures.clock)?;
    out.push_str("<p class=more>")?;
    push_first_endpoints(out, query)?;
    push_next_endpoints(out, query, endpoints.is_more, rows)?;
    out.push_str("</p></section>\n")?;
    Ok(())
}

/// Writes a link to the first endpoints, unless these are asked for.
#[tactic(auto, unfolding(crate::specs::Home::first_endpoints))]
fn push_first_endpoints(out: &mut String, query: &Query) -> Result<(), AllocError>
    ensures { OnOk result (string_bytes out.new
        ≡ string_bytes out.old ++ first_endpoints query.now) }
{
    if query.endpoint.is_none() {
        return Ok(());
    }
    push_link(out, "First endpoints", None, query.call)
}

/// Writes a link to the endpoints behind the last one of these rows, if there are more.
#[tactic(auto, unfolding(crate::specs::Home::next_endpoints))]
fn push_next_endpoints(
    out: &mut String,
    query: &Query,
    is_more: bool,
    rows: &[Box<EndpointRow>],
) -> Result<(), AllocError>
    ensures { OnOk result (string_bytes out.new
        ≡ string_bytes out.old ++ next_endpoints query.now is_more (last_of rows.now)) }
{
    match rows.last() {
        Some(row) if is_more => {
            push_link(out, "Next endpoints", Some(&row.identifier), query.call)
        }
        _ => Ok(()),
    }
}

/// Writes some calls, with links to others.
#[tactic(auto, unfolding(crate::specs::Home::calls_section))]
fn push_call_section(
    out: &mut String,
    query: &Query,
    calls: &CallList,
    figures: &ZoneFigures,
) -> Result<(), AllocError>
    ensures { OnOk result (string_bytes out.new
        ≡ string_bytes out.old ++ calls_section query.now calls.now figures.now) }
{
    let rows = calls.rows.as_slice();
    push_number(
        out,
        "<section id=calls><h2>Calls <small>",
        figures.calls as u64,
    )?;
    out.push_str(" open</small></h2>\n")?;
    push_calls(out, rows)?;
    out.push_str("<p class=more>")?;
    push_first_calls(out, query)?;
    push_next_calls(out, query, calls.is_more, rows)?;
    out.push_str("</p></section>\n")?;
    Ok(())
}

/// Writes a link to the first calls, unless these are asked for.
#[tactic(auto, unfolding(crate::specs::Home::first_calls))]
fn push_first_calls(out: &mut String, query: &Query) -> Result<(), AllocError>
    ensures { OnOk result (string_bytes out.new ≡ string_bytes out.old ++ first_calls query.now) }
{
    if query.call.is_none() {
        return Ok(());
    }
    push_link(out, "First calls", query.endpoint(), None)
}

/// Writes a link to the calls behind the last one of these rows, if there are more.
#[tactic(auto, unfolding(crate::specs::Home::next_calls))]
fn push_next_calls(
    out: &mut String,
    query: &Query,
    is_more: bool,
    rows: &[Box<CallRow>],
) -> Result<(), AllocError>
    ensures { OnOk result (string_bytes out.new
        ≡ string_bytes out.old ++ next_calls query.now is_more (last_of rows.now)) }
{
    match rows.last() {
        Some(row) if is_more => push_link(out, "Next calls", query.endpoint(), Some(row.key)),
        _ => Ok(()),
    }
}
