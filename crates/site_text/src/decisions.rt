// The texts of decisions.
ghost use Rattle.std.specs.Prelude.{◌≡◌, ◌<◌, ◌++◌, false, length, map, All, OnOk};
ghost use Rattle.site_model.specs.PlainSite.{site_view};
ghost use Rattle.site_text.specs.Entries.{decision_text, list_text, note_text, outcome_text, parts_text, users_text, IsDecisionOf, IsOutcomeOf};

use crate::line::Line;
use crate::site_names::{push_checkable, push_depend, push_notification, push_user};
use site_base::OutOfMemory;
use site_model::{Decision, NoteKind, Outcome, Site};

/// Adds what was decided, or a dash where nothing was.
#[tactic(auto, using(crate::proofs::Parts::joined))]
pub fn push_decisions(
    out: &mut Line,
    decisions: &[Decision],
    site: &Site,
) -> Result<(), OutOfMemory>
    requires { All (IsDecisionOf (site_view site.now)) decisions.now }
    ensures { OnOk result (out.new ≡ out.old ++ list_text (map (decision_text (site_view site.now)) decisions.now)) }
{
    if decisions.is_empty() {
        out.push('-')
    } else {
        push_each_decision(out, decisions, site)
    }
}

fn push_each_decision(
    out: &mut Line,
    decisions: &[Decision],
    site: &Site,
) -> Result<(), OutOfMemory>
    requires { All (IsDecisionOf (site_view site.now)) decisions.now }
    ensures { OnOk result (out.new ≡ out.old ++ parts_text false (map (decision_text (site_view site.now)) decisions.now)) }
{
    for (i, decision) in decisions.iter().enumerate() {
        if i > 0 {
            out.push_str(", ")?;
        }
        push_decision(out, decision, site)?;
    }
    Ok(())
}

fn push_decision(out: &mut Line, decision: &Decision, site: &Site) -> Result<(), OutOfMemory>
    requires { IsDecisionOf (site_view site.now) decision.now }
    ensures { OnOk result (out.new ≡ out.old ++ decision_text (site_view site.now) decision.now) }
{
    push_notification(out, site, decision.notification)?;
    out.push(' ')?;
    out.push_str(kind_name(decision.kind))?;
    out.push(' ')?;
    push_outcome(out, &decision.outcome, site)
}

/// The name of a kind of notification.
pub fn kind_name(kind: NoteKind) -> &'static str
    ensures { result.now ≡ note_text kind }
{
    match kind {
        NoteKind::Problem => "Problem",
        NoteKind::Recovery => "Recovery",
        NoteKind::Acknowledgement => "Acknowledgement",
        NoteKind::Custom => "Custom",
        NoteKind::DowntimeStart => "DowntimeStart",
        NoteKind::DowntimeEnd => "DowntimeEnd",
        NoteKind::DowntimeRemoved => "DowntimeRemoved",
        NoteKind::FlappingStart => "FlappingStart",
        NoteKind::FlappingEnd => "FlappingEnd",
    }
}

fn push_outcome(out: &mut Line, outcome: &Outcome, site: &Site) -> Result<(), OutOfMemory>
    requires { IsOutcomeOf (site_view site.now) outcome.now }
    ensures { OnOk result (out.new ≡ out.old ++ outcome_text (site_view site.now) outcome.now) }
{
    match outcome {
        Outcome::Sent { users } => {
            out.push_str("Sent")?;
            push_users(out, users.as_slice(), site)
        }
        Outcome::Disabled => out.push_str("Disabled"),
        Outcome::Dependency { depend } => {
            out.push_str("Dependency ")?;
            push_depend(out, site, *depend)
        }
        Outcome::Host { checkable } => {
            out.push_str("Host ")?;
            push_checkable(out, site, *checkable)
        }
        Outcome::Downtime { number } => {
            out.push_str("Downtime ")?;
            out.push_decimal(*number)
        }
        Outcome::Flapping => out.push_str("Flapping"),
        Outcome::Acknowledged => out.push_str("Acknowledged"),
        Outcome::Period => out.push_str("Period"),
        Outcome::Kind => out.push_str("Type"),
        Outcome::State => out.push_str("State"),
        Outcome::TooEarly => out.push_str("TooEarly"),
        Outcome::TooLate => out.push_str("TooLate"),
        Outcome::Repeat => out.push_str("Repeat"),
        Outcome::NoUsers => out.push_str("NoUsers"),
    }
}

/// Adds a blank and the name of each receiver.
fn push_users(out: &mut Line, users: &[u32], site: &Site) -> Result<(), OutOfMemory>
    requires { All (λ u. u < length site.now.users) users.now }
    ensures { OnOk result (out.new ≡ out.old ++ users_text (site_view site.now) users.now) }
{
    for user in users {
        out.push(' ')?;
        push_user(out, site, *user)?;
    }
    Ok(())
}
