// How watches go on by entries.
ghost use Rattle.std.specs.Prelude.{◌≡◌, ◌<◌, List, All, length};
ghost use Rattle.site_model.specs.PlainSite.{check_view, site_view};
ghost use Rattle.site_model.specs.declared.entry.Entry.{Entry as Made};
ghost use Rattle.run_meaning.specs.Schedule.{watch_from};
ghost use Rattle.run_meaning.specs.Turns.{Histories};
ghost use Rattle.site_posts.specs.Segments.{segments_of};
ghost use Rattle.check_slots.specs.Watches.{watch_as};
ghost use Rattle.check_plan.specs.Shown.{AreShown, AreAllShown};
ghost use Rattle.check_plan.specs.Followed.{followed};

use check_slots::{Watch, Watches};
use site_model::{CheckSpec, Entry, Site};
use site_posts::Segment;

/// Goes on by the entries of a round, which checkables of the site got.
pub(crate) fn follow(watches: &mut Watches, site: &Site, segments: &[Segment])
    requires whole { length watches.old ≡ length (site_view site.now).checkables }
    requires within { All (λ x. x.checkable < length (site_view site.now).checkables) segments.now }
    ensures followed { (before round : Histories) → length round ≡ length (site_view site.now).checkables → segments.now ≡ segments_of round → AreAllShown (site_view site.now) before round →
        watches.new ≡ followed (site_view site.now) before round watches.old }
    ensures whole { length watches.new ≡ length watches.old }
{
    for segment in segments {
        let spec = &site.checkables.as_slice()[segment.checkable as usize];
        let watch = watches.at(segment.checkable);
        watches.set(
            segment.checkable,
            after_all(watch, spec, segment.entries.as_slice()),
        );
    }
}

/// The watch of a checkable after these entries of it, one after another.
fn after_all(watch: Watch, spec: &CheckSpec, entries: &[Entry]) -> Watch
    ensures { (history : List Made) → AreShown (check_view spec.now) history entries.now →
        watch_as result ≡ watch_from (check_view spec.now) history entries.now (watch_as watch) }
{
    let mut watch = watch;
    for entry in entries {
        watch = watch.after(spec, entry);
    }
    watch
}
