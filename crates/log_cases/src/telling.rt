// Entries, field by field, in other words than those of a log.
use site_base::{OutOfMemory, Text, push_quoted};
use site_model::{Decision, Entry, Event, NoteKind, Outcome, Sight, State};

/// Adds the place of the checkable, and the entry.
pub(crate) fn push_entry(out: &mut Text, checkable: u32, entry: &Entry) -> Result<(), OutOfMemory> {
    out.push_decimal(u64::from(checkable))?;
    push_number(out, ", number ", entry.number)?;
    push_number(out, ", caller ", u64::from(entry.caller))?;
    push_number(out, ", moment ", entry.moment.secs())?;
    out.push_str(": ")?;
    push_event(out, &entry.event)?;
    push_state(out, entry)?;
    push_sights(out, entry)?;
    push_decisions(out, entry)
}

/// Adds whether the event was taken, and the state after it.
fn push_state(out: &mut Text, entry: &Entry) -> Result<(), OutOfMemory> {
    out.push_str(if entry.taken {
        " taken; "
    } else {
        " not taken; "
    })?;
    out.push_str(state_name(entry.state))?;
    push_flag(out, ", hard ", entry.hard)?;
    push_number(out, ", attempt ", u64::from(entry.attempt))
}

fn push_sights(out: &mut Text, entry: &Entry) -> Result<(), OutOfMemory> {
    for sight in entry.sights.as_slice() {
        push_sight(out, sight)?;
    }
    Ok(())
}

fn push_sight(out: &mut Text, sight: &Sight) -> Result<(), OutOfMemory> {
    push_number(out, "; saw ", sight.count)?;
    push_number(out, " of ", u64::from(sight.checkable))
}

fn push_decisions(out: &mut Text, entry: &Entry) -> Result<(), OutOfMemory> {
    for decision in entry.decisions.as_slice() {
        push_decision(out, decision)?;
    }
    Ok(())
}

fn push_decision(out: &mut Text, decision: &Decision) -> Result<(), OutOfMemory> {
    push_number(out, "; on ", u64::from(decision.notification))?;
    out.push(' ')?;
    out.push_str(kind_name(decision.kind))?;
    push_outcome(out, &decision.outcome)
}

fn push_number(out: &mut Text, name: &str, number: u64) -> Result<(), OutOfMemory> {
    out.push_str(name)?;
    out.push_decimal(number)
}

fn push_flag(out: &mut Text, name: &str, flag: bool) -> Result<(), OutOfMemory> {
    out.push_str(name)?;
    out.push_str(if flag { "yes" } else { "no" })
}

/// Adds a quoted text behind a blank.
fn push_word(out: &mut Text, text: &str) -> Result<(), OutOfMemory> {
    out.push(' ')?;
    push_quoted(out, text)
}

fn push_event(out: &mut Text, event: &Event) -> Result<(), OutOfMemory> {
    match event {
        Event::Result {
            status,
            passive,
            output,
            perf,
        } => {
            push_number(out, "a result, status ", u64::from(*status))?;
            push_flag(out, ", passive ", *passive)?;
            push_word(out, output.as_str())?;
            push_word(out, perf.as_str())
        }
        Event::Tick => out.push_str("the clock"),
        Event::Ack { sticky, notify } => {
            push_flag(out, "an acknowledgement, sticky ", *sticky)?;
            push_flag(out, ", told ", *notify)
        }
        Event::Unack => out.push_str("its end"),
        Event::Undown { number } => push_number(out, "the end of downtime ", *number),
        Event::Checks { on } => push_flag(out, "active checks: ", *on),
        Event::Notes { on } => push_flag(out, "notifications: ", *on),
        _ => push_timed(out, event),
    }
}

/// Adds an event that speaks of moments.
fn push_timed(out: &mut Text, event: &Event) -> Result<(), OutOfMemory> {
    match event {
        Event::Down {
            start,
            end,
            fixed,
            duration,
        } => {
            push_number(out, "a downtime, start ", start.secs())?;
            push_number(out, ", end ", end.secs())?;
            push_flag(out, ", fixed ", *fixed)?;
            push_number(out, ", duration ", *duration)
        }
        Event::Check { moment, forced } => {
            push_number(out, "the next check, moment ", moment.secs())?;
            push_flag(out, ", forced ", *forced)
        }
        _ => out.push_str("another event"),
    }
}

fn push_outcome(out: &mut Text, outcome: &Outcome) -> Result<(), OutOfMemory> {
    match outcome {
        Outcome::Sent { users } => {
            out.push_str(": goes to")?;
            push_users(out, users.as_slice())
        }
        Outcome::Dependency { depend } => push_number(out, ": dependency ", u64::from(*depend)),
        Outcome::Host { checkable } => push_number(out, ": host ", u64::from(*checkable)),
        Outcome::Downtime { number } => push_number(out, ": in downtime ", *number),
        other => out.push_str(reason(other)),
    }
}

fn push_users(out: &mut Text, users: &[u32]) -> Result<(), OutOfMemory> {
    for user in users {
        push_number(out, " user ", u64::from(*user))?;
    }
    Ok(())
}

/// Why nobody was told, if that is all that there is to say.
fn reason(outcome: &Outcome) -> &'static str {
    match outcome {
        Outcome::Disabled => ": off",
        Outcome::Flapping => ": it flaps",
        Outcome::Acknowledged => ": it is acknowledged",
        Outcome::Period => ": outside its period",
        Outcome::Kind => ": not this kind",
        Outcome::State => ": not this state",
        Outcome::TooEarly => ": too young",
        Outcome::TooLate => ": too old",
        Outcome::Repeat => ": told before",
        Outcome::NoUsers => ": nobody takes it",
        _ => ": another outcome",
    }
}

fn state_name(state: State) -> &'static str {
    match state {
        State::Okay => "well",
        State::Warning => "warning",
        State::Critical => "critical",
        State::Unknown => "unknown",
        State::Up => "up",
        State::Down => "down",
    }
}

fn kind_name(kind: NoteKind) -> &'static str {
    match kind {
        NoteKind::Problem => "a problem",
        NoteKind::Recovery => "a recovery",
        NoteKind::Acknowledgement => "an acknowledgement",
        NoteKind::Custom => "a custom one",
        NoteKind::DowntimeStart => "a downtime's start",
        NoteKind::DowntimeEnd => "a downtime's end",
        NoteKind::DowntimeRemoved => "a downtime's removal",
        NoteKind::FlappingStart => "the start of flapping",
        NoteKind::FlappingEnd => "the end of flapping",
    }
}
