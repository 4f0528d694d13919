// When the periods of a site hold.
ghost use Rattle.std.specs.Prelude.{◌≡◌};
ghost use Rattle.site_model.specs.PlainSite.{site_view};
ghost use Rattle.run_meaning.specs.Reachability.{period_holds};
ghost use Rattle.depend_graph.specs.Outlooks.{holds_in};

use site_base::Moment;
use site_model::Site;
use time_range::{Zone, inside};

/// Whether a period of the site holds at a moment. One that isn't set always does.
pub(crate) fn holds(site: &Site, period: Option<u32>, moment: Moment, zone: &Zone) -> bool
    ensures { result ≡ period_holds (holds_in (site_view site.now) zone.now) period moment }
{
    match period {
        None => true,
        Some(place) => match site.periods.as_slice().get(place as usize) {
            None => false,
            Some(spec) => inside(spec, moment, zone),
        },
    }
}
