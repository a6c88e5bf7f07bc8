//! A zone as it is shown.

ghost use Rattle.std.specs.Prelude.{◌≡◌, ◌+◌, ◌*◌, ◌↔◌, IfOk, IfSome, IsSome, IsSomeAnd, IsTrue};
ghost use Rattle.std.specs.Prelude.{Some};
ghost use Rattle.std.specs.String.{string_bytes};
ghost use Rattle.std.specs.Time.{FitsClock, instant_nanos};
ghost use Rattle.status_server.specs.Shown.{IsAnswerOf, IsCallPageOf, IsEndpointPageOf};
ghost use Rattle.status_server.specs.Shown.{IsHomeOf, IsMetricsOf, IsOverviewOf, IsToWait};
ghost use Rattle.status_server.specs.Shown.{IsZonePageOf, has_rows};

use crate::site::Site;
use crate::view::View;
use crate::young::is_fresh;
use status_page::{
    About, Asked, Overview, Query, Response, Status, calls_after, calls_json, endpoints_after,
    endpoints_json, home, line, metrics, zone_json,
};
use std::alloc::{AllocError, Global};
use std::cell::RefCell;
use std::marker::PhantomData;
use std::rc::Rc;
use std::time::{Clock, Duration, Instant};
use zone_view::RunningZone;

/// For how many milliseconds figures are told again.
const FIGURES_AGE: u64 = 100;

/// The least number of milliseconds between two lists of rows.
const ROWS_AGE: u64 = 200;

/// A zone as it is shown. What it told is told again for a short time, so that many requests don't
/// keep those from their work who make its steps.
#[derive(Drop)]
pub(crate) struct Shown<'a, R, Z: RunningZone, S: Site<Z>> {
    rt: &'a R,
    alloc: Global,
    about: About,
    zone: &'a Z,
    overview: RefCell<Option<Told<Z, S>>>,
    rows: RefCell<Option<Listed<Z, S>>>,
    ghost is_site: { ∥ S.site ≡ Some (about, zone.now) ∥₁ },
}

/// Figures that the site's zone told, and when.
#[derive(Drop)]
struct Told<Z: RunningZone, S: Site<Z>> {
    moment: Instant,
    overview: Rc<Overview>,
    site: PhantomData<(Z, S)>,
    ghost is_told: { ∥ IsSomeAnd S.site (λ site.
        IsOverviewOf Z.RunningZone site.1 overview.value) ∥₁ },
}

/// Rows that the site's zone told: when, what was asked, and what was answered.
#[derive(Drop)]
struct Listed<Z: RunningZone, S: Site<Z>> {
    moment: Instant,
    asked: Asked,
    response: Response,
    site: PhantomData<(Z, S)>,
    ghost is_answer: { ∥ IsSomeAnd S.site (λ site.
        IsAnswerOf Z.RunningZone site.1 site.0 asked response) ∥₁ },
}

fn copied(response: &Response) -> Result<Response, AllocError>
    ensures status { IfOk result (λ copy. copy.status ≡ response.now.status) }
    ensures content { IfOk result (λ copy. copy.content ≡ response.now.content) }
    ensures text { IfOk result (λ copy. string_bytes copy.text ≡ string_bytes response.now.text) }
{
    Ok(Response {
        status: response.status,
        content: response.content,
        text: response.text.clone()?,
    })
}

impl<'a, R: Clock, Z: RunningZone, S: Site<Z>> Shown<'a, R, Z, S> {
    pub(crate) fn new(rt: &'a R, alloc: Global, about: About, zone: &'a Z) -> Self
        requires { S.site ≡ Some (about, zone.now) }
        ensures about { result.about ≡ about }
        ensures zone { result.zone.now ≡ zone.now }
    {
        Shown {
            rt,
            alloc,
            about,
            zone,
            overview: RefCell::new(None),
            rows: RefCell::new(None),
        }
    }

    /// The figures: those that were told last if they aren't old.
    fn overview(&self) -> Result<Rc<Overview>, AllocError>
        ensures { IfOk result (λ overview.
            ∥ IsOverviewOf Z.RunningZone self.now.zone.now overview.value ∥₁) }
    {
        if let Some(overview) = self.last_overview()? {
            return Ok(overview);
        }
        let overview = Rc::new(self.alloc, Overview::of(self.alloc, self.zone)?)?;
        self.keep_overview(overview.clone()?)?;
        Ok(overview)
    }

    /// The figures that were told last; None if they are old, or if there are none.
    fn last_overview(&self) -> Result<Option<Rc<Overview>>, AllocError>
        ensures { IfOk result (λ last. IfSome last (λ overview.
            ∥ IsOverviewOf Z.RunningZone self.now.zone.now overview.value ∥₁)) }
    {
        let last = self.overview.try_borrow().map_err(|_| AllocError)?;
        match &*last {
            Some(told) if is_fresh(self.rt, told.moment, FIGURES_AGE) => {
                Ok(Some(told.overview.clone()?))
            }
            _ => Ok(None),
        }
    }

    /// Keeps figures that were told now, so that they can be told again.
    fn keep_overview(&self, overview: Rc<Overview>) -> Result<(), AllocError>
        requires { ∥ IsOverviewOf Z.RunningZone self.now.zone.now overview.value ∥₁ }
    {
        if let Ok(moment) = Instant::now(self.rt) {
            let mut last = self.overview.try_borrow_mut().map_err(|_| AllocError)?;
            let told = Told {
                moment,
                overview,
                site: PhantomData,
            };
            *last = Some(told);
        }
        Ok(())
    }

    /// The response with rows: the last one if the same was asked just before.
    fn rows(&self, asked: Asked) -> Result<Response, AllocError>
        ensures { IfOk result (λ response.
            ∥ IsAnswerOf Z.RunningZone self.now.zone.now self.now.about asked response ∥₁) }
    {
        if let Some(response) = self.last_rows(&asked)? {
            return Ok(response);
        }
        let response = self.answer(&asked)?;
        let copy = copied(&response)?;
        self.keep_rows(asked, copy)?;
        Ok(response)
    }

    /// The last response with rows; None if it is old, if it answers another question, or if there
    /// is none.
    fn last_rows(&self, asked: &Asked) -> Result<Option<Response>, AllocError>
        ensures { IfOk result (λ last. IfSome last (λ response.
            ∥ IsAnswerOf Z.RunningZone self.now.zone.now self.now.about asked.now response ∥₁)) }
    {
        let last = self.rows.try_borrow().map_err(|_| AllocError)?;
        match &*last {
            Some(listed) if listed.asked == *asked && self.is_fresh(listed) => {
                Ok(Some(copied(&listed.response)?))
            }
            _ => Ok(None),
        }
    }

    /// Keeps a response with rows that was made now, so that it can be given again.
    fn keep_rows(&self, asked: Asked, response: Response) -> Result<(), AllocError>
        requires { ∥ IsAnswerOf Z.RunningZone self.now.zone.now self.now.about asked response ∥₁ }
    {
        if let Ok(moment) = Instant::now(self.rt) {
            let mut last = self.rows.try_borrow_mut().map_err(|_| AllocError)?;
            let listed = Listed {
                moment,
                asked,
                response,
                site: PhantomData,
            };
            *last = Some(listed);
        }
        Ok(())
    }

    /// Whether rows were told so short ago that no others are told.
    fn is_fresh(&self, listed: &Listed<Z, S>) -> bool {
        is_fresh(self.rt, listed.moment, ROWS_AGE)
    }

    /// The answer to what is asked for, as the zone is now.
    fn answer(&self, asked: &Asked) -> Result<Response, AllocError>
        ensures { IfOk result (
            IsAnswerOf Z.RunningZone self.now.zone.now self.now.about asked.now) }
    {
        let alloc = self.alloc;
        match asked {
            Asked::Home(query) => self.home(query),
            Asked::Endpoints(query) => self.endpoints(query),
            Asked::Calls(query) => self.calls(query),
            Asked::Metrics => self.metrics(),
            Asked::Zone => self.zone_page(),
            Asked::Health if self.zone.has_ended() => line(alloc, Status::Unavailable, "ended"),
            Asked::Health => line(alloc, Status::Found, "ok"),
            Asked::WrongQuery => line(alloc, Status::BadRequest, "no such query"),
            Asked::NoPage => line(alloc, Status::NotFound, "no such page"),
            Asked::NotAllowed => line(alloc, Status::NotAllowed, "GET and HEAD alone"),
        }
    }

    /// The page for people.
    fn home(&self, query: &Query) -> Result<Response, AllocError>
        ensures { IfOk result (
            IsHomeOf Z.RunningZone self.now.zone.now self.now.about query.now) }
    {
        let alloc = self.alloc;
        let most = query.most as usize;
        let overview = self.overview()?;
        let endpoints = endpoints_after(alloc, self.zone, query.endpoint().copied(), most)?;
        let calls = calls_after(alloc, self.zone, query.call, most)?;
        home(alloc, &self.about, &overview, query, &endpoints, &calls)
    }

    /// The list of endpoints in JSON.
    fn endpoints(&self, query: &Query) -> Result<Response, AllocError>
        ensures { IfOk result (IsEndpointPageOf Z.RunningZone self.now.zone.now query.now) }
    {
        let most = query.most as usize;
        let list = endpoints_after(self.alloc, self.zone, query.endpoint().copied(), most)?;
        endpoints_json(self.alloc, &list)
    }

    /// The list of calls in JSON.
    fn calls(&self, query: &Query) -> Result<Response, AllocError>
        ensures { IfOk result (IsCallPageOf Z.RunningZone self.now.zone.now query.now) }
    {
        let list = calls_after(self.alloc, self.zone, query.call, query.most as usize)?;
        calls_json(self.alloc, &list)
    }

    /// The metrics.
    fn metrics(&self) -> Result<Response, AllocError>
        ensures { IfOk result (IsMetricsOf Z.RunningZone self.now.zone.now self.now.about) }
    {
        let overview = self.overview()?;
        metrics(self.alloc, &self.about, &overview)
    }

    /// The zone in JSON.
    fn zone_page(&self) -> Result<Response, AllocError>
        ensures { IfOk result (IsZonePageOf Z.RunningZone self.now.zone.now self.now.about) }
    {
        let overview = self.overview()?;
        zone_json(self.alloc, &self.about, &overview)
    }
}

/// Whether what is asked for has rows.
fn has_rows(asked: &Asked) -> bool
    ensures { result ≡ has_rows asked.now }
{
    matches!(
        asked,
        Asked::Home(_) | Asked::Endpoints(_) | Asked::Calls(_)
    )
}

/// Whether what is asked for waits behind what was listed last: it has rows, it isn't the same, and
/// those rows are fresh.
fn is_to_wait(last: &Asked, asked: &Asked, is_fresh: bool) -> bool
    ensures { IsTrue result ↔ IsToWait last.now asked.now is_fresh }
{
    has_rows(asked) && *last != *asked && is_fresh
}

impl<Z: RunningZone, S: Site<Z>> Listed<Z, S> {
    /// The moment from which on what is asked for may be answered, if these rows were listed last;
    /// None if it may be now, or if no clock reaches that moment.
    fn turn(&self, asked: &Asked, is_fresh: bool) -> Option<Instant>
        ensures waits { IsSome result ↔ (IsToWait self.now.asked asked.now is_fresh
            × FitsClock (instant_nanos self.now.moment + ROWS_AGE * 1000000)) }
        ensures moment { IfSome result (λ moment.
            instant_nanos moment ≡ instant_nanos self.now.moment + ROWS_AGE * 1000000) }
    {
        if !is_to_wait(&self.asked, asked, is_fresh) {
            return None;
        }
        self.moment.checked_add(Duration::from_millis(ROWS_AGE))
    }
}

impl<R: Clock, Z: RunningZone, S: Site<Z>> View for Shown<'_, R, Z, S> {
    ghost answers = { λ view asked response.
        ∥ IsAnswerOf Z.RunningZone view.zone.now view.about asked response ∥₁ };

    /// What has no rows needn't wait.
    ghost turns = { λ _ asked turn. IsSome turn → IsTrue (has_rows asked) };

    /// The zone is no longer served, or it still is.
    ghost is_ended = { λ view. Z.RunningZone.is_ended view.zone.now };

    /// Other rows than the last ones wait until those are old enough.
    fn turn(&self, asked: &Asked) -> Option<Instant> {
        let last = self.rows.try_borrow().ok()?;
        match &*last {
            Some(listed) => listed.turn(asked, self.is_fresh(listed)),
            None => None,
        }
    }

    fn response(&self, asked: Asked) -> Result<Response, AllocError> {
        if has_rows(&asked) {
            self.rows(asked)
        } else {
            self.answer(&asked)
        }
    }

    fn has_ended(&self) -> bool {
        self.zone.has_ended()
    }
}
