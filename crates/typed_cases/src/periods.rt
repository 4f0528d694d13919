// Time periods.
use crate::words::{push_bar, push_flag, push_number};
use site_base::{Day, DaySpan, OutOfMemory, PeriodSpec, Ranges, Text};

/// Adds periods.
pub(crate) fn push_periods(out: &mut Text, periods: &[PeriodSpec]) -> Result<(), OutOfMemory> {
    for period in periods {
        push_bar(out)?;
        push_period(out, period)?;
    }
    Ok(())
}

fn push_period(out: &mut Text, period: &PeriodSpec) -> Result<(), OutOfMemory> {
    push_spans(out, "own", &period.own)?;
    for spans in period.includes.as_slice() {
        push_spans(out, " include", spans)?;
    }
    for spans in period.excludes.as_slice() {
        push_spans(out, " exclude", spans)?;
    }
    push_flag(out, " prefer_includes", period.prefer_includes)
}

/// Adds a word and the spans of a period behind it.
fn push_spans(out: &mut Text, word: &str, spans: &Ranges) -> Result<(), OutOfMemory> {
    out.push_str(word)?;
    for span in spans.as_slice() {
        push_span(out, span)?;
    }
    Ok(())
}

/// Adds a span: its day, and the seconds from which and before which it lasts.
fn push_span(out: &mut Text, span: &DaySpan) -> Result<(), OutOfMemory> {
    match span.day {
        Day::Weekday(day) => push_number(out, " weekday ", u64::from(day))?,
        Day::Date(day) => {
            let word = if day < 0 { " day -" } else { " day " };
            push_number(out, word, u64::from(day.unsigned_abs()))?;
        }
    }
    push_number(out, " ", u64::from(span.from))?;
    push_number(out, "-", u64::from(span.to))
}
