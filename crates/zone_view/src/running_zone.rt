//! A zone that is being served, as who looks at it sees it.

ghost use Rattle.std.specs.Prelude.{◌≡◌, ◌≤◌, All, [], vec_capacity};

use crate::counts::Counts;
use crate::figures::{ServerFigures, ZoneFigures};
use crate::rows::{CallRow, EndpointRow};
use pools::Figures;

/// A zone that is being served. Each call may wait for those who make its steps, for as long as
/// they make one.
///
/// Rows are told by falling places, some of them at a time. An endpoint or a call that stays while
/// all places are told is told; one that comes or goes meanwhile may be missing, or be told twice.
pub trait RunningZone: Drop {
    ghost use Rattle.std.specs.Prelude.{Bool, ℕ, List};
    ghost use Rattle.pools.specs.declared.interface.Figures.{Figures};
    ghost use Rattle.zone_view.specs.declared.figures.ZoneFigures.{ZoneFigures};
    ghost use Rattle.zone_view.specs.declared.figures.ServerFigures.{ServerFigures};
    ghost use Rattle.zone_view.specs.declared.rows.CallRow.{CallRow};
    ghost use Rattle.zone_view.specs.declared.rows.EndpointRow.{EndpointRow};

    /// These are its figures, and those of its pools, at some moment.
    ghost has_figures: { Self → ZoneFigures → List Figures → Type 0 };

    /// At some moment its server has counted this.
    ghost has_server: { Self → ServerFigures → Type 0 } = { λ _ _. Unit {0} };

    /// At some moment this has been counted of its steps.
    ghost has_counts: { Self → List ℕ → Type 0 } = { λ _ _. Unit {0} };

    /// At some moment it has an endpoint with this row.
    ghost has_endpoint: { Self → EndpointRow → Type 0 };

    /// At some moment it has a call with this row.
    ghost has_call: { Self → CallRow → Type 0 };

    /// At some moment these are rows of its endpoints below the first place, and the next ones
    /// stand below the second one.
    ghost has_endpoints_below: { Self → ℕ → List EndpointRow → ℕ → Type 0 } = { λ _ _ _ _.
        Unit {0} };

    /// At some moment these are rows of its calls below the first place, and the next ones stand
    /// below the second one.
    ghost has_calls_below: { Self → ℕ → List CallRow → ℕ → Type 0 } = { λ _ _ _ _. Unit {0} };

    /// At some moment it is no longer served, or it still is.
    ghost is_ended: { Self → Bool → Type 0 } = { λ _ _. Unit {0} };

    /// Its figures now, and those of its pools, in order, at the same moment: they are put into
    /// `pools`, which has none yet, and room for 16, of which a zone has no more.
    ///
    /// promise shown-figures-are-of-one-moment: The figures of a zone and of its pools are those of
    /// one moment, with bandwidth in use within the limit.
    fn figures(&self, pools: &mut Vec<Figures>) -> ZoneFigures
        requires empty { pools.old.items ≡ [] }
        requires room { 16 ≤ vec_capacity pools.old }
        ensures figures { has_figures self.now result pools.new.items }
        ensures within { result.in_use ≤ result.limit };

    /// What the server counted so far.
    fn server(&self) -> ServerFigures
        ensures told { has_server self.now result };

    /// What was counted of its steps so far.
    fn counts(&self) -> Counts
        ensures told { has_counts self.now result };

    /// Puts rows of endpoints at places below this one into `rows`, which has none yet: as many as
    /// there is room for. Returns the place below which the next ones stand; 0 if there are none.
    ///
    /// promise shown-rows-are-of-the-zone: Rows that are told together are of endpoints that the
    /// zone has at some moment, below the given place, and its next ones stand below the place that
    /// is returned; likewise of calls, by `calls_below`.
    fn endpoints_below(&self, place: usize, rows: &mut Vec<EndpointRow>) -> usize
        requires empty { rows.old.items ≡ [] }
        ensures rows { All (has_endpoint self.now) rows.new.items }
        ensures told { has_endpoints_below self.now place rows.new.items result }
        ensures room { vec_capacity rows.new ≡ vec_capacity rows.old };

    /// Puts rows of calls at places below this one into `rows`, which has none yet: as many as
    /// there is room for. Returns the place below which the next ones stand; 0 if there are none.
    fn calls_below(&self, place: usize, rows: &mut Vec<CallRow>) -> usize
        requires empty { rows.old.items ≡ [] }
        ensures rows { All (has_call self.now) rows.new.items }
        ensures told { has_calls_below self.now place rows.new.items result }
        ensures room { vec_capacity rows.new ≡ vec_capacity rows.old };

    /// Whether it is no longer served: nothing more happens in it.
    fn has_ended(&self) -> bool
        ensures told { is_ended self.now result };
}
