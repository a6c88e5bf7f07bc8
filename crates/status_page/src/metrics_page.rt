//! Metrics in Prometheus' text format.

ghost use Rattle.std.specs.Prelude.{◌≡◌, ◌++◌, IfOk, OnOk};
ghost use Rattle.std.specs.String.{string_bytes};
ghost use Rattle.status_page.specs.Metrics.{about_metric, count_metrics, family, figure_metrics};
ghost use Rattle.status_page.specs.Metrics.{kind_text, labelled, metric, metrics_of, pool_help};
ghost use Rattle.status_page.specs.Metrics.{pool_kind, pool_metric, pool_metrics, pool_name};
ghost use Rattle.status_page.specs.Metrics.{pool_number, pool_sample, reject_metric};
ghost use Rattle.status_page.specs.Metrics.{reject_sample, reject_samples, sample, samples};
ghost use Rattle.status_page.specs.Metrics.{server_metrics};
ghost use Rattle.status_page.specs.declared.response.Content.TheVariants.{Metrics};
ghost use Rattle.status_page.specs.declared.response.Status.TheVariants.{Found};

use crate::counted::{answers, ignored, label_of, replies, requests, turns};
use crate::overview::{About, Overview};
use crate::response::{Content, Response, found};
use crate::text_parts::{push_address, push_number};
use escapes::label;
use pools::Figures;
use std::alloc::{AllocError, Global};
use zone_view::{Count, Counts, Reject, ServerFigures, ZoneFigures};

/// The metrics of a zone in Prometheus' text format, version 0.0.4.
///
/// promise pages-say-what-was-told: The text is that of the figures and counts, as defined, line by
/// line (`metrics_of`); likewise the JSON of a zone, of endpoints and of calls, and the page for
/// people (`home_text`).
pub fn metrics(alloc: Global, about: &About, overview: &Overview) -> Result<Response, AllocError>
    ensures found { IfOk result (λ response. response.status ≡ Found) }
    ensures content { IfOk result (λ response. response.content ≡ Metrics) }
    ensures text { IfOk result (λ response.
        string_bytes response.text ≡ metrics_of about.now overview.now) }
{
    let mut text = String::new(alloc);
    push_about(&mut text, about)?;
    push_figures(&mut text, &overview.figures)?;
    push_pools(&mut text, overview.pools.as_slice())?;
    push_counts(&mut text, &overview.counts)?;
    push_server(&mut text, &overview.server)?;
    Ok(found(Content::Metrics, text))
}

/// The kinds of metrics.
#[derive(Clone, Copy)]
enum Kind {
    Counter,
    Gauge,
}

impl Kind {
    fn text(self) -> &'static str
        ensures { result.now ≡ kind_text self }
    {
        match self {
            Kind::Counter => "counter",
            Kind::Gauge => "gauge",
        }
    }
}

/// Writes what a metric means, and of what kind it is.
#[tactic(auto, unfolding(crate::specs::Metrics::family))]
fn push_family(out: &mut String, name: &str, kind: Kind, help: &str) -> Result<(), AllocError>
    ensures { OnOk result (string_bytes out.new
        ≡ string_bytes out.old ++ family name.now kind help.now) }
{
    out.push_str("# HELP ")?;
    out.push_str(name)?;
    out.push_str(" ")?;
    out.push_str(help)?;
    out.push_str("\n# TYPE ")?;
    out.push_str(name)?;
    out.push_str(" ")?;
    out.push_str(kind.text())?;
    out.push_str("\n")?;
    Ok(())
}

/// Writes a metric without labels.
#[tactic(auto, unfolding(crate::specs::Metrics::metric))]
fn push_metric(
    out: &mut String,
    name: &str,
    kind: Kind,
    help: &str,
    number: u64,
) -> Result<(), AllocError>
    ensures { OnOk result (string_bytes out.new
        ≡ string_bytes out.old ++ metric name.now kind help.now number) }
{
    push_family(out, name, kind, help)?;
    out.push_str(name)?;
    push_number(out, " ", number)?;
    out.push_str("\n")
}

/// Writes a metric without labels that goes up and down.
fn push_gauge(out: &mut String, name: &str, help: &str, number: u64) -> Result<(), AllocError>
    ensures { OnOk result (string_bytes out.new
        ≡ string_bytes out.old ++ metric name.now Kind.Gauge help.now number) }
{
    push_metric(out, name, Kind::Gauge, help, number)
}

/// Writes a metric without labels that only goes up.
fn push_counter(out: &mut String, name: &str, help: &str, number: u64) -> Result<(), AllocError>
    ensures { OnOk result (string_bytes out.new
        ≡ string_bytes out.old ++ metric name.now Kind.Counter help.now number) }
{
    push_metric(out, name, Kind::Counter, help, number)
}

/// Writes a sample of a counter with one label.
#[tactic(auto, unfolding(crate::specs::Metrics::sample))]
fn push_sample(
    out: &mut String,
    name: &str,
    key: &str,
    value: &str,
    number: u64,
) -> Result<(), AllocError>
    ensures { OnOk result (string_bytes out.new
        ≡ string_bytes out.old ++ sample name.now key.now value.now number) }
{
    out.push_str(name)?;
    out.push_str("{")?;
    out.push_str(key)?;
    out.push_str("=\"")?;
    out.push_str(value)?;
    push_number(out, "\"} ", number)?;
    out.push_str("\n")?;
    Ok(())
}

/// Writes the samples of a counter, one for each of these kinds.
fn push_samples(
    out: &mut String,
    name: &str,
    key: &str,
    counts: &Counts,
    kinds: &[Count],
) -> Result<(), AllocError>
    ensures { OnOk result (string_bytes out.new
        ≡ string_bytes out.old ++ samples name.now key.now counts.now kinds.now) }
{
    for kind in kinds {
        push_sample(out, name, key, label_of(*kind), counts.get(*kind))?;
    }
    Ok(())
}

/// Writes a counter that has a sample for each value of one label.
#[tactic(auto, unfolding(crate::specs::Metrics::labelled))]
fn push_labelled(
    out: &mut String,
    name: &str,
    help: &str,
    key: &str,
    counts: &Counts,
    kinds: &[Count],
) -> Result<(), AllocError>
    ensures { OnOk result (string_bytes out.new
        ≡ string_bytes out.old ++ labelled name.now help.now key.now counts.now kinds.now) }
{
    push_family(out, name, Kind::Counter, help)?;
    push_samples(out, name, key, counts, kinds)
}

/// Writes the name and the address of a zone, as labels.
#[tactic(auto, unfolding(crate::specs::Metrics::about_metric))]
fn push_about(out: &mut String, about: &About) -> Result<(), AllocError>
    ensures { OnOk result (string_bytes out.new
        ≡ string_bytes out.old ++ about_metric about.now) }
{
    let help = "The zone: its gatekeeper identifier and its RAS address.";
    push_family(out, "gambyrei_zone_info", Kind::Gauge, help)?;
    out.push_str("gambyrei_zone_info{name=\"")?;
    label(out, about.name.as_slice())?;
    push_address(out, "\",address=\"", about.address)?;
    out.push_str("\"} 1\n")?;
    Ok(())
}

/// Writes the figures of a zone.
#[tactic(auto, unfolding(crate::specs::Metrics::figure_metrics))]
fn push_figures(out: &mut String, figures: &ZoneFigures) -> Result<(), AllocError>
    ensures { OnOk result (string_bytes out.new
        ≡ string_bytes out.old ++ figure_metrics figures.now) }
{
    let help = "Whole seconds since the zone began to be served.";
    push_gauge(out, "gambyrei_clock_seconds", help, figures.clock / 1_000)?;
    push_counter(
        out,
        "gambyrei_steps_total",
        "Steps of the zone.",
        figures.steps,
    )?;
    let endpoints = figures.endpoints as u64;
    push_gauge(
        out,
        "gambyrei_endpoints",
        "Registered endpoints.",
        endpoints,
    )?;
    push_gauge(out, "gambyrei_calls", "Open calls.", figures.calls as u64)?;
    let help = "Replies that are kept for repeated requests, or being made.";
    push_gauge(out, "gambyrei_kept_replies", help, figures.kept as u64)?;
    let help = "Bandwidth of the open calls, in units of 100 bit/s.";
    push_gauge(out, "gambyrei_bandwidth_in_use", help, figures.in_use)?;
    let help = "The most bandwidth that may be in use, in units of 100 bit/s.";
    push_gauge(out, "gambyrei_bandwidth_limit", help, figures.limit)?;
    Ok(())
}

/// The figures of a pool that are metrics.
#[derive(Clone, Copy)]
enum PoolMetric {
    Limit,
    Lent,
    Refusals,
    Waits,
}

impl PoolMetric {
    fn name(self) -> &'static str
        ensures { result.now ≡ pool_name self }
    {
        match self {
            PoolMetric::Limit => "gambyrei_pool_limit",
            PoolMetric::Lent => "gambyrei_pool_lent",
            PoolMetric::Refusals => "gambyrei_pool_refusals_total",
            PoolMetric::Waits => "gambyrei_pool_waits_total",
        }
    }

    fn kind(self) -> Kind
        ensures { result ≡ pool_kind self }
    {
        match self {
            PoolMetric::Limit | PoolMetric::Lent => Kind::Gauge,
            PoolMetric::Refusals | PoolMetric::Waits => Kind::Counter,
        }
    }

    fn help(self) -> &'static str
        ensures { result.now ≡ pool_help self }
    {
        match self {
            PoolMetric::Limit => "The most bandwidth that a pool lends, in units of 100 bit/s.",
            PoolMetric::Lent => "Bandwidth that a pool has lent, in units of 100 bit/s.",
            PoolMetric::Refusals => "Requests that a pool refused.",
            PoolMetric::Waits => "Requests that a pool answered by wait.",
        }
    }

    fn number(self, pool: &Figures) -> u64
        ensures { result ≡ pool_number self pool.now }
    {
        match self {
            PoolMetric::Limit => pool.limit,
            PoolMetric::Lent => pool.lent,
            PoolMetric::Refusals => pool.refusals,
            PoolMetric::Waits => pool.waits,
        }
    }
}

/// Writes the figures of pools. A pool's label is its place, from 0.
#[tactic(auto, unfolding(crate::specs::Metrics::pool_metrics))]
fn push_pools(out: &mut String, pools: &[Figures]) -> Result<(), AllocError>
    ensures { OnOk result (string_bytes out.new
        ≡ string_bytes out.old ++ pool_metrics pools.now) }
{
    push_pool_metric(out, PoolMetric::Limit, pools)?;
    push_pool_metric(out, PoolMetric::Lent, pools)?;
    push_pool_metric(out, PoolMetric::Refusals, pools)?;
    push_pool_metric(out, PoolMetric::Waits, pools)
}

/// Writes one figure of each pool.
#[tactic(auto, unfolding(crate::specs::Metrics::pool_metric))]
fn push_pool_metric(
    out: &mut String,
    metric: PoolMetric,
    pools: &[Figures],
) -> Result<(), AllocError>
    ensures { OnOk result (string_bytes out.new
        ≡ string_bytes out.old ++ pool_metric metric pools.now) }
{
    push_family(out, metric.name(), metric.kind(), metric.help())?;
    for (place, pool) in pools.iter().enumerate() {
        push_pool_sample(out, metric, place, pool)?;
    }
    Ok(())
}

/// Writes a figure of a pool.
#[tactic(auto, unfolding(crate::specs::Metrics::pool_sample))]
fn push_pool_sample(
    out: &mut String,
    metric: PoolMetric,
    place: usize,
    pool: &Figures,
) -> Result<(), AllocError>
    ensures { OnOk result (string_bytes out.new
        ≡ string_bytes out.old ++ pool_sample metric place pool.now) }
{
    out.push_str(metric.name())?;
    push_number(out, "{pool=\"", place as u64)?;
    push_number(out, "\"} ", metric.number(pool))?;
    out.push_str("\n")
}

/// Writes what was counted of the steps of a zone.
#[tactic(auto, unfolding(crate::specs::Metrics::count_metrics))]
fn push_counts(out: &mut String, counts: &Counts) -> Result<(), AllocError>
    ensures { OnOk result (string_bytes out.new
        ≡ string_bytes out.old ++ count_metrics counts.now) }
{
    let help = "Requests that were read.";
    push_labelled(
        out,
        "gambyrei_requests_total",
        help,
        "kind",
        counts,
        &requests(),
    )?;
    let help = "Messages that were to be sent.";
    push_labelled(
        out,
        "gambyrei_replies_total",
        help,
        "kind",
        counts,
        &replies(),
    )?;
    push_rejects(out, counts)?;
    let help = "Datagrams that were ignored.";
    push_labelled(
        out,
        "gambyrei_ignored_total",
        help,
        "cause",
        counts,
        &ignored(),
    )?;
    let help = "Turns of the timers, by what they did.";
    push_labelled(out, "gambyrei_turns_total", help, "deed", counts, &turns())?;
    let help = "Answers of pools to requests for bandwidth.";
    push_labelled(
        out,
        "gambyrei_pool_answers_total",
        help,
        "answer",
        counts,
        &answers(),
    )?;
    let help = "Datagrams that came before, so that their kept replies were sent again.";
    push_counter(
        out,
        "gambyrei_repeats_total",
        help,
        counts.get(Count::Repeat),
    )?;
    Ok(())
}

/// Writes the rejects.
#[tactic(auto, unfolding(crate::specs::Metrics::reject_metric))]
fn push_rejects(out: &mut String, counts: &Counts) -> Result<(), AllocError>
    ensures { OnOk result (string_bytes out.new
        ≡ string_bytes out.old ++ reject_metric counts.now) }
{
    let help = "Replies that rejected a request, by message and reason.";
    push_family(out, "gambyrei_rejects_total", Kind::Counter, help)?;
    push_reject_samples(out, counts, &Reject::ALL)
}

/// Writes a sample for each of these rejects.
#[tactic(auto, unfolding(crate::specs::Metrics::reject_samples))]
fn push_reject_samples(
    out: &mut String,
    counts: &Counts,
    rejects: &[Reject],
) -> Result<(), AllocError>
    ensures { OnOk result (string_bytes out.new
        ≡ string_bytes out.old ++ reject_samples counts.now rejects.now) }
{
    for reject in rejects {
        push_reject(out, *reject, counts.get(Count::Reject(*reject)))?;
    }
    Ok(())
}

/// Writes a sample of the rejects.
#[tactic(auto, unfolding(crate::specs::Metrics::reject_sample))]
fn push_reject(out: &mut String, reject: Reject, number: u64) -> Result<(), AllocError>
    ensures { OnOk result (string_bytes out.new
        ≡ string_bytes out.old ++ reject_sample reject number) }
{
    out.push_str("gambyrei_rejects_total{message=\"")?;
    out.push_str(reject.message().label())?;
    out.push_str("\",reason=\"")?;
    out.push_str(reject.label())?;
    push_number(out, "\"} ", number)?;
    out.push_str("\n")?;
    Ok(())
}

/// Writes what the server counted.
#[tactic(auto, unfolding(crate::specs::Metrics::server_metrics))]
fn push_server(out: &mut String, server: &ServerFigures) -> Result<(), AllocError>
    ensures { OnOk result (string_bytes out.new
        ≡ string_bytes out.old ++ server_metrics server.now) }
{
    let help = "Datagrams that were received.";
    push_counter(out, "gambyrei_received_total", help, server.received)?;
    push_counter(
        out,
        "gambyrei_sent_total",
        "Datagrams that were sent.",
        server.sent,
    )?;
    let help = "Replies that found no place on their way to the sender.";
    push_counter(out, "gambyrei_dropped_total", help, server.dropped)?;
    let help = "Steps that were not made for want of memory.";
    push_counter(out, "gambyrei_refused_total", help, server.refused)?;
    let help = "Receives that failed.";
    push_counter(
        out,
        "gambyrei_receive_faults_total",
        help,
        server.receive_faults,
    )?;
    push_counter(
        out,
        "gambyrei_send_faults_total",
        "Sends that failed.",
        server.send_faults,
    )?;
    Ok(())
}
