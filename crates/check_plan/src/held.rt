// Whether a checkable that is due gets an order.
ghost use Rattle.std.specs.Prelude.{◌≡◌, ◌<◌, ◌&&◌, ◌||◌, not, IfOk, length};
ghost use Rattle.site_model.specs.PlainSite.{check_view, site_view};
ghost use Rattle.run_meaning.specs.Reachability.{period_holds};
ghost use Rattle.run_meaning.specs.Schedule.{is_off, view_of_index};
ghost use Rattle.checkable_core.specs.Contents.{check_at};
ghost use Rattle.depend_graph.specs.Graph.{IsGraphOf};
ghost use Rattle.depend_graph.specs.Outlooks.{holds_in};
ghost use Rattle.site_posts.specs.Books.{AreBooks, histories_of};
ghost use Rattle.check_plan.specs.Walks.{outlook_now};

use checkable_core::Checkable;
use depend_graph::Purpose;
use site_base::{Moment, OutOfMemory};
use site_model::{CheckSpec, Site, View};
use site_posts::Setting;
use time_range::{Zone, inside};

/// Whether a checkable that is due gets an order: it is forced, or nothing holds its check back.
///
/// # Errors
///
/// `OutOfMemory` if there is none to look through its ancestors.
pub(crate) fn gets_order(
    setting: &Setting<'_>,
    books: &[Checkable],
    checkable: u32,
    forced: bool,
) -> Result<bool, OutOfMemory>
    requires graph { IsGraphOf (site_view setting.now.site.now) setting.now.graph.now }
    requires books { AreBooks (site_view setting.now.site.now) setting.now.moment books.now }
    requires checkable { checkable < length (site_view setting.now.site.now).checkables }
    ensures { IfOk result (λ gets. gets ≡ (forced || not (
        is_off (outlook_now (site_view setting.now.site.now) setting.now.zone.now setting.now.moment (histories_of books.now)) checkable (check_at (site_view setting.now.site.now) checkable)
        (view_of_index checkable (outlook_now (site_view setting.now.site.now) setting.now.zone.now setting.now.moment (histories_of books.now)).seen)))) }
{
    if forced {
        return Ok(true);
    }
    let held = is_held(setting, books, checkable)?;
    Ok(!held)
}

/// Whether a checkable isn't to be checked unless that is forced: its active checks are off, its period doesn't hold, or a
/// dependency holds its checks back.
///
/// # Errors
///
/// `OutOfMemory` if there is none to look through its ancestors.
fn is_held(setting: &Setting<'_>, books: &[Checkable], checkable: u32) -> Result<bool, OutOfMemory>
    requires graph { IsGraphOf (site_view setting.now.site.now) setting.now.graph.now }
    requires books { AreBooks (site_view setting.now.site.now) setting.now.moment books.now }
    requires checkable { checkable < length (site_view setting.now.site.now).checkables }
    ensures { IfOk result (λ held. held ≡
        is_off (outlook_now (site_view setting.now.site.now) setting.now.zone.now setting.now.moment (histories_of books.now)) checkable (check_at (site_view setting.now.site.now) checkable)
        (view_of_index checkable (outlook_now (site_view setting.now.site.now) setting.now.zone.now setting.now.moment (histories_of books.now)).seen)) }
{
    let spec = &setting.site.checkables.as_slice()[checkable as usize];
    let view = books[checkable as usize].view();
    if !is_on(setting, spec, &view) {
        return Ok(true);
    }
    if setting.site.depends.is_empty() {
        return Ok(false);
    }
    let sights = setting.sights(books, checkable)?;
    let reach = setting.graph.reach(
        setting.site,
        checkable,
        sights.as_slice(),
        Purpose::Checks,
        setting.moment,
        setting.zone,
    )?;
    Ok(reach.is_held())
}

/// Whether the active checks of a checkable that shows this are on, and its period holds.
fn is_on(setting: &Setting<'_>, spec: &CheckSpec, view: &View) -> bool
    ensures { result ≡ (view.now.checks_on && period_holds (holds_in (site_view setting.now.site.now) setting.now.zone.now) (check_view spec.now).period setting.now.moment) }
{
    view.checks_on && holds(setting.site, spec.period, setting.moment, setting.zone)
}

/// Whether a period of the site holds at a moment. One that isn't set always does.
fn holds(site: &Site, period: Option<u32>, moment: Moment, zone: &Zone) -> bool
    ensures { result ≡ period_holds (holds_in (site_view site.now) zone.now) period moment }
{
    match period {
        None => true,
        Some(place) => match site.periods.as_slice().get(place as usize) {
            None => false,
            Some(spec) => inside(spec, moment, zone),
        },
    }
}
