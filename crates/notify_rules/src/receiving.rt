// The users who receive a notification.
ghost use Rattle.std.specs.Prelude.{◌≡◌, ◌++◌, ◌∷◌, [], ℕ, All, IfOk, OnOk, filter, map, reverse, slice_get, if◌then◌else◌};
ghost use Rattle.site_model.specs.PlainSite.{site_view};
ghost use Rattle.run_meaning.specs.Decisions.{Case, has_received, receives};
ghost use Rattle.notify_rules.specs.Case.{IsCase};
ghost use Rattle.depend_graph.specs.Outlooks.{holds_in};
ghost use Rattle.notify_rules.specs.Sent.{user_of};

use crate::asked::Asked;
use crate::filters::{is_for_recovery, takes_kind, takes_state, tells_state};
use crate::listeners::Listener;
use crate::periods::holds;
use site_base::{OutOfMemory, Row};
use site_model::{NoteKind, Site};
use std::alloc::Global;
use time_range::Zone;

/// The users who receive a notification, in its order.
pub(crate) fn receivers(
    alloc: Global,
    asked: &Asked,
    site: &Site,
    zone: &Zone,
    listeners: &[Listener],
    kind: NoteKind,
) -> Result<Row<u32>, OutOfMemory>
    ensures { (x : Case) (n : ℕ) → IsCase asked.now x → All (λ l. l.told ≡ has_received x.check n l.user (reverse x.history)) listeners.now →
        IfOk result (λ us. us ≡ filter (λ u. receives (holds_in (site_view site.now) zone.now) x n kind u (slice_get site.now.users u)) (map user_of listeners.now)) }
{
    let mut told = Row::new(alloc);
    for listener in listeners {
        let takes = receives(asked, site, zone, *listener, kind);
        add_where(&mut told, takes, listener.user)?;
    }
    Ok(told)
}

/// Adds a user who receives it.
fn add_where(told: &mut Row<u32>, takes: bool, user: u32) -> Result<(), OutOfMemory>
    ensures { OnOk result (told.new ≡ told.old ++ (if takes then user ∷ [] else [])) }
{
    if takes {
        told.push(user)?;
    }
    Ok(())
}

/// Whether a user receives a notification. A recovery goes only to those who were told of the problem.
fn receives(asked: &Asked, site: &Site, zone: &Zone, listener: Listener, kind: NoteKind) -> bool
    ensures { (x : Case) (n : ℕ) → IsCase asked.now x → listener.told ≡ has_received x.check n listener.user (reverse x.history) →
        result ≡ receives (holds_in (site_view site.now) zone.now) x n kind listener.user (slice_get site.now.users listener.user) }
{
    let Some(user) = site.users.as_slice().get(listener.user as usize) else {
        return false;
    };
    user.enabled
        && holds(site, user.period, asked.moment, zone)
        && takes_kind(&user.kinds, kind)
        && (!tells_state(kind) || takes_state(&user.states, asked.after.state))
        && (!is_for_recovery(kind) || listener.told)
}
