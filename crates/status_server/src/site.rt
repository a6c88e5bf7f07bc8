//! Which zone is shown.

use std::marker::Brand;

/// Which zone is shown, with how it is called and where it is served. Contracts alone see it: what
/// is kept in a cell for later is of this zone, since the type of what is kept says so.
pub(crate) trait Site<Z> {
    ghost use Rattle.std.specs.Prelude.{Option};
    ghost use Rattle.status_page.specs.declared.overview.About.{About};

    ghost site: { Option (About × Z) };
}

impl<Z> Site<Z> for Brand {
    ghost use Rattle.std.specs.Prelude.{None};

    ghost site = { None };
}
