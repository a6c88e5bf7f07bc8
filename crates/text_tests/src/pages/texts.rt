//! The texts of the pages.

use crate::pages::memory_zone::{MemoryZone, address, call_row, identifier, small_zone};
use facts::{all_hold, ensure, ensure_of};
use status_page::{
    About, CallList, Content, EndpointList, Overview, Query, Response, Status, calls_after,
    calls_json, endpoints_after, home, metrics, zone_json,
};
use std::alloc::{AllocError, Global};
use std::test::Fail;
use value_texts::name_of;
use zone_view::CallRow;

/// A zone whose name means to harm.
fn about() -> Result<About, Fail> {
    Ok(About {
        name: name_of(b"<gk> \"\\").ok_or("no name")?,
        address: address(1, 1_719),
    })
}

/// Appends a row to those of a list.
fn push_row(alloc: Global, rows: &mut Vec<Box<CallRow>>, row: CallRow) -> Result<(), AllocError> {
    let row = Box::new(alloc, row).map_err(AllocError::from)?;
    rows.push(row).map_err(AllocError::from)
}

fn call_list(alloc: Global, is_more: bool) -> Result<CallList, Fail> {
    let first = call_row(1, identifier("0001")?, Some(identifier("<2>")?));
    let second = call_row(2, identifier("0001")?, None);
    let mut rows = Vec::new(alloc);
    push_row(alloc, &mut rows, first)?;
    push_row(alloc, &mut rows, second)?;
    Ok(CallList { rows, is_more })
}

/// The calls of the list, in JSON.
const CALL_ROWS: &str = "{\"calls\":[\
    {\"key\":\"00000000000000000000000000000001\",\"pool\":1,\"units\":640,\
    \"first\":\"0001\",\"second\":\"\\u003c2>\"},\
    {\"key\":\"00000000000000000000000000000002\",\"pool\":1,\"units\":640,\
    \"first\":\"0001\",\"second\":null}]";

/// Whether the list is these calls in JSON, and then this.
fn ends_in_json(alloc: Global, is_more: bool, end: &str) -> Result<bool, Fail> {
    let list = call_list(alloc, is_more)?;
    let response = calls_json(alloc, &list)?;
    Ok(response.text.as_str().strip_prefix(CALL_ROWS) == Some(end))
}

#[test]
fn calls_in_json(rt: HostRuntime) -> Result<(), Fail> {
    let next = ",\"next\":\"00000000000000000000000000000002\"}\n";
    let all = ends_in_json(rt.alloc(), false, ",\"next\":null}\n")?;
    let first = ends_in_json(rt.alloc(), true, next)?;
    all_hold(&[
        (all, "a list of all calls names no next one"),
        (first, "a list of the first calls names its last one"),
    ])
}

fn zone_page(alloc: Global) -> Result<Response, Fail> {
    let zone = small_zone(alloc)?;
    let overview = Overview::of(alloc, &zone)?;
    Ok(zone_json(alloc, &about()?, &overview)?)
}

/// A response is the figures and counts of the zone.
fn compare_zone_page(response: &Response) -> Result<(), Fail> {
    let start = "{\"name\":\"\\u003cgk> \\\"\\\\\",\"address\":\"10.0.0.1:1719\",\
        \"clock\":93784567,\"steps\":17,\"endpoints\":6,\"calls\":4,\"kept\":5,\"in_use\":640,\
        \"limit\":1000,\"pools\":[{\"limit\":2000,\"lent\":640,\"refusals\":3,\"waits\":4}],\
        \"counts\":{\"requests\":{\"GRQ\":0,\"RRQ\":0,";
    let end = "\"repeats\":0},\"server\":{\"received\":21,\"sent\":20,\"dropped\":1,\
        \"refused\":2,\"receive_faults\":3,\"send_faults\":4}}\n";
    let text = response.text.as_str();
    all_hold(&[
        (text.starts_with(start), "the zone and its pools come first"),
        (text.ends_with(end), "the server comes last"),
        (response.status == Status::Found, "the page is found"),
    ])
}

#[test]
fn a_zone_in_json(rt: HostRuntime) -> Result<(), Fail> {
    let response = zone_page(rt.alloc())?;
    compare_zone_page(&response)
}

fn metrics_page(alloc: Global) -> Result<Response, Fail> {
    let zone = small_zone(alloc)?;
    let overview = Overview::of(alloc, &zone)?;
    Ok(metrics(alloc, &about()?, &overview)?)
}

/// The types of the metrics, behind their names.
const TYPES: [&str; 25] = [
    "zone_info gauge",
    "clock_seconds gauge",
    "steps_total counter",
    "endpoints gauge",
    "calls gauge",
    "kept_replies gauge",
    "bandwidth_in_use gauge",
    "bandwidth_limit gauge",
    "pool_limit gauge",
    "pool_lent gauge",
    "pool_refusals_total counter",
    "pool_waits_total counter",
    "requests_total counter",
    "replies_total counter",
    "rejects_total counter",
    "ignored_total counter",
    "turns_total counter",
    "pool_answers_total counter",
    "repeats_total counter",
    "received_total counter",
    "sent_total counter",
    "dropped_total counter",
    "refused_total counter",
    "receive_faults_total counter",
    "send_faults_total counter",
];

/// Samples of them.
const SAMPLES: [&str; 9] = [
    "gambyrei_zone_info{name=\"<gk> \\\"\\\\\",address=\"10.0.0.1:1719\"} 1\n",
    "gambyrei_clock_seconds 93784\n",
    "gambyrei_pool_lent{pool=\"0\"} 640\n",
    "gambyrei_requests_total{kind=\"RRQ\"} 0\n",
    "gambyrei_rejects_total{message=\"RRJ\",reason=\"duplicateAlias\"} 0\n",
    "gambyrei_ignored_total{cause=\"unreadable\"} 0\n",
    "gambyrei_turns_total{deed=\"idle\"} 0\n",
    "gambyrei_pool_answers_total{answer=\"lent\"} 0\n",
    "gambyrei_send_faults_total 4\n",
];

/// Whether the type of a metric is told.
fn has_type(alloc: Global, text: &str, metric: &str) -> Result<bool, Fail> {
    let told = format!(in alloc; "# TYPE gambyrei_{metric}\n")?;
    Ok(text.contains(told.as_str()))
}

/// How many metrics have a line of help.
fn helps(text: &str) -> usize {
    text.split('\n')
        .filter(|part| part.starts_with("# HELP gambyrei_"))
        .count()
}

/// The type of each metric is told.
fn compare_types(alloc: Global, text: &str) -> Result<(), Fail> {
    for metric in &TYPES {
        let is_told = has_type(alloc, text, metric)?;
        ensure_of(metric, is_told, "its type is told")?;
    }
    Ok(())
}

/// These parts are shown in a text.
fn compare_parts(text: &str, parts: &[&str]) -> Result<(), Fail> {
    for part in parts {
        ensure_of(part, text.contains(*part), "it is shown")?;
    }
    Ok(())
}

/// Each metric has its type and a line of help, and samples are there.
fn compare_metrics(alloc: Global, text: &str) -> Result<(), Fail> {
    compare_types(alloc, text)?;
    compare_parts(text, &SAMPLES)?;
    ensure(helps(text) == TYPES.len(), "each metric has a line of help")
}

#[test]
fn metrics_have_help_and_type(rt: HostRuntime) -> Result<(), Fail> {
    let response = metrics_page(rt.alloc())?;
    compare_metrics(rt.alloc(), response.text.as_str())
}

/// What the page for people shows.
#[derive(Drop)]
struct ShownZone {
    overview: Overview,
    endpoints: EndpointList,
    calls: CallList,
}

/// The figures of a zone, two of its endpoints, and two of its calls.
fn shown(alloc: Global, zone: &MemoryZone) -> Result<ShownZone, AllocError> {
    let overview = Overview::of(alloc, zone)?;
    let endpoints = endpoints_after(alloc, zone, None, 2)?;
    let calls = calls_after(alloc, zone, None, 2)?;
    Ok(ShownZone {
        overview,
        endpoints,
        calls,
    })
}

/// What is shown of the small zone.
fn shown_small_zone(alloc: Global) -> Result<ShownZone, Fail> {
    let zone = small_zone(alloc)?;
    Ok(shown(alloc, &zone)?)
}

/// The page of two rows that shows this.
fn page_of(alloc: Global, about: &About, shown: &ShownZone) -> Result<Response, AllocError> {
    let query = Query {
        endpoint: None,
        call: None,
        most: 2,
    };
    home(
        alloc,
        about,
        &shown.overview,
        &query,
        &shown.endpoints,
        &shown.calls,
    )
}

fn home_page(alloc: Global) -> Result<Response, Fail> {
    let about = about()?;
    let shown = shown_small_zone(alloc)?;
    Ok(page_of(alloc, &about, &shown)?)
}

/// Parts of the page for people.
const PARTS: [&str; 7] = [
    "&lt;gk&gt; &quot;\\",
    "serving for 1 d 2 h 3 min",
    "style=\"width:64.0%\"",
    "640 of 1000 units</span><span>64.0 of 100.0 kbit/s",
    "<td class=n>640<td class=n>64.0",
    "href=\"/?endpoints=0002\"",
    "&amp;calls=00000000000000000000000000000002\"",
];

/// A page of HTML has these parts, and the name of the zone only escaped.
fn compare_home_page(response: &Response) -> Result<(), Fail> {
    let text = response.text.as_str();
    compare_parts(text, &PARTS)?;
    all_hold(&[
        (response.content == Content::Html, "the page is of HTML"),
        (!text.contains("<gk>"), "the zone's name makes no element"),
        (text.ends_with("</body></html>\n"), "the page is whole"),
    ])
}

#[test]
fn the_page_for_people(rt: HostRuntime) -> Result<(), Fail> {
    let response = home_page(rt.alloc())?;
    compare_home_page(&response)
}
