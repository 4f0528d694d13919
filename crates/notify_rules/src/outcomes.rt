// What comes of a notification.
ghost use Rattle.std.specs.Prelude.{◌≡◌, IfOk, map, reverse};
ghost use Rattle.site_model.specs.PlainSite.{site_view};
ghost use Rattle.run_meaning.specs.Decisions.{Case, outcome_of, sent_to};
ghost use Rattle.notify_rules.specs.Case.{IsCase};
ghost use Rattle.depend_graph.specs.Outlooks.{holds_in};
ghost use Rattle.notify_rules.specs.Sent.{NeverFall, Remembers, user_of};

use crate::asked::Asked;
use crate::held::{common_cause, own_cause};
use crate::receiving::receivers;
use crate::sent_note::SentNote;
use site_base::{OutOfMemory, Row};
use site_model::{NoteKind, NotifySpec, Outcome, Site};
use std::alloc::Global;
use time_range::Zone;

/// What comes of a notification and a kind.
pub(crate) fn outcome_of(
    alloc: Global,
    site: &Site,
    zone: &Zone,
    asked: &Asked,
    sent: &SentNote,
    note: &NotifySpec,
    kind: NoteKind,
) -> Result<Outcome, OutOfMemory>
    ensures { (x : Case) → IsCase asked.now x → NeverFall (reverse x.history) → Remembers x.check (reverse x.history) sent.now → map user_of sent.now.listeners ≡ note.now.users →
        IfOk result (λ o. o ≡ outcome_of (site_view site.now) (holds_in (site_view site.now) zone.now) x sent.now.notification note.now kind) }
{
    if let Some(cause) = common_cause(asked, kind) {
        return Ok(cause);
    }
    if let Some(cause) = own_cause(asked, site, zone, note, sent.problem, kind) {
        return Ok(cause);
    }
    let told = receivers(alloc, asked, site, zone, sent.listeners.as_slice(), kind)?;
    Ok(sent_to(told))
}

/// What comes of a notification that nothing holds back.
fn sent_to(users: Row<u32>) -> Outcome
    ensures { result ≡ sent_to users }
{
    if users.is_empty() {
        Outcome::NoUsers
    } else {
        Outcome::Sent { users }
    }
}
