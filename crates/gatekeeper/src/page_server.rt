//! The status page beside the server of a zone.

ghost use Rattle.std.specs.Prelude.{◌≡◌, ◌↔◌, IfSome, IsSome, is_some};

use log::{Log, warn};
use status_page::About;
use status_server::BoundListener;
use std::alloc::AllocGlobal;
use std::net::Net;
use std::random::RandomSource;
use std::rt::Clock;
use std::sync::Wait;
use udp_server::{RunningHistory, Watcher};
use zone_view::RunningZone;

/// Serves the status page of a zone for as long as the zone is served.
#[derive(Drop)]
pub struct PageServer<'a, R> {
    pub rt: &'a R,
    pub listener: &'a BoundListener,
    pub about: &'a About,
}

/// Who serves the page, if there is a listener for it.
pub fn watcher_of<'a, R>(
    rt: &'a R,
    listener: Option<&'a BoundListener>,
    about: &'a About,
) -> Option<PageServer<'a, R>>
    ensures page { IsSome result ↔ IsSome listener.entry }
    ensures wanted { is_some result ≡ is_some listener.entry }
    ensures about { IfSome result (λ page. page.about.now ≡ about.now) }
{
    match listener {
        Some(listener) => Some(PageServer {
            rt,
            listener,
            about,
        }),
        None => None,
    }
}

impl<R: Wait + Clock + Net + RandomSource + AllocGlobal + Log> Watcher for PageServer<'_, R> {
    fn watch<Z: RunningZone + RunningHistory>(self, zone: &Z) {
        let PageServer {
            rt,
            listener,
            about,
        } = self;
        if status_server::serve(rt, listener, *about, zone).is_err() {
            warn!(rt; target: "serve", "the status page is served no longer");
        }
    }
}
