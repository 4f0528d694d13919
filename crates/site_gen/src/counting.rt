// How a run is counted.
ghost use Rattle.std.specs.Prelude.{◌≡◌, ◌+◌, length, IfOk, OnOk};
ghost use Rattle.site_gen.specs.Counts.{is_sent as sent_by};
ghost use Rattle.site_gen.specs.Counting.{entries_in, with_decisions, with_entries, with_orders};

use crate::counts::Counts;
use site_base::OutOfMemory;
use site_model::{Decision, Entry, Outcome};
use site_posts::Segment;
use turn_engine::TurnOut;

impl Counts {
    /// Counts what a turn gives.
    pub(crate) fn add_turn(&mut self, turn: &TurnOut) -> Result<(), OutOfMemory>
        ensures { OnOk result (self.new ≡ with_orders (with_entries self.old (entries_in turn.now.segments)) (length turn.now.orders.items)) }
    {
        self.add_segments(turn.segments.as_slice())?;
        self.orders = sum(self.orders, turn.orders.len())?;
        Ok(())
    }

    fn add_segments(&mut self, segments: &[Segment]) -> Result<(), OutOfMemory>
        ensures { OnOk result (self.new ≡ with_entries self.old (entries_in segments.now)) }
    {
        for segment in segments {
            self.add_entries(segment.entries.as_slice())?;
        }
        Ok(())
    }

    fn add_entries(&mut self, entries: &[Entry]) -> Result<(), OutOfMemory>
        ensures { OnOk result (self.new ≡ with_entries self.old entries.now) }
    {
        for entry in entries {
            self.entries = sum(self.entries, 1)?;
            self.add_decisions(entry.decisions.as_slice())?;
        }
        Ok(())
    }

    fn add_decisions(&mut self, decisions: &[Decision]) -> Result<(), OutOfMemory>
        ensures { OnOk result (self.new ≡ with_decisions self.old decisions.now) }
    {
        for decision in decisions {
            if is_sent(decision) {
                self.sent = sum(self.sent, 1)?;
            } else {
                self.suppressed = sum(self.suppressed, 1)?;
            }
        }
        Ok(())
    }
}

fn is_sent(decision: &Decision) -> bool
    ensures { result ≡ sent_by decision.now }
{
    matches!(decision.outcome, Outcome::Sent { .. })
}

/// A count with so many more.
fn sum(count: u64, more: usize) -> Result<u64, OutOfMemory>
    ensures { IfOk result (λ n. n ≡ count + more) }
{
    // Entries and decisions are kept while they are counted, and a turn orders few checks, so a count is below what memory
    // holds, and this gives up nowhere.
    count.checked_add(more as u64).ok_or(OutOfMemory)
}
