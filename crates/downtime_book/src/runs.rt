// Sorted runs: the longest first, each about twice as long as the next.
ghost use Rattle.std.specs.Prelude.{◌≡◌, ◌==◌, ◌<◌, ◌≤◌, ◌∷◌, not, filter, map, length};
ghost use Rattle.std.specs.Prelude.{OnOk, OnErr, IsPermutation};
ghost use Rattle.downtime_book.specs.Contents.{together};
ghost use Rattle.downtime_book.specs.Firsts.{first_of, starts};
ghost use Rattle.downtime_book.specs.Naming.{number_of};
ghost use Rattle.downtime_book.specs.Downtime.{after_result, is_live, until};

use crate::downtime::Downtime;
use crate::sorted_run::SortedRun;
use site_base::{Moment, OutOfMemory};

/// How many downtimes the last run holds before another is begun.
const MOST_LAST: usize = 32;

/// Puts a downtime into the last run, or begins another if that holds enough. Nothing has triggered it yet.
pub fn put(runs: &mut Vec<SortedRun>, downtime: Downtime) -> Result<(), OutOfMemory>
    requires { until downtime ≡ downtime.«end» }
    ensures ok { OnOk result (IsPermutation (downtime ∷ together runs.old.items)
        (together runs.new.items)) }
    ensures err { OnErr result (together runs.new.items ≡ together runs.old.items) }
{
    if let Some(last) = runs.len().checked_sub(1)
        && runs[last].len() < MOST_LAST
    {
        return runs[last].put(downtime);
    }
    let mut run = SortedRun::new(*runs.allocator());
    run.put(downtime)?;
    runs.push(run)?;
    join_older(runs);
    Ok(())
}

/// Joins runs, from the last but one on, as long as the one before isn't twice as long.
fn join_older(runs: &mut Vec<SortedRun>)
    ensures { IsPermutation (together runs.old.items) (together runs.new.items) }
{
    let mut newer = runs.len().saturating_sub(2);
    while 0 < newer && runs[newer - 1].len() / 2 < runs[newer].len() {
        join(runs, newer);
        newer -= 1;
    }
    drop_empty(runs);
}

/// Joins the run at this place with the one before it, and leaves it empty. If there is no
/// memory for that, both stay.
fn join(runs: &mut Vec<SortedRun>, newer: usize)
    requires some { 0 < newer }
    requires place { newer < length runs.old.items }
    ensures length { length runs.new.items ≡ length runs.old.items }
    ensures same { IsPermutation (together runs.old.items) (together runs.new.items) }
{
    let run = runs[newer].take();
    let left = runs[newer - 1].join(run);
    runs[newer] = left;
}

/// Takes away runs without a downtime.
pub fn drop_empty(runs: &mut Vec<SortedRun>)
    ensures { together runs.new.items ≡ together runs.old.items }
{
    runs.retain(|run| !run.is_empty());
    if runs.is_empty() {
        runs.shrink_to_fit();
    }
}

/// How many downtimes there are, if they are at most so many.
pub fn count(runs: &[SortedRun], most: usize) -> usize
    requires { length (together runs.now) ≤ most }
    ensures { result ≡ length (together runs.now) }
{
    let mut total = 0;
    for run in runs {
        total += run.len();
    }
    prove!(total <= most);
    total
}

/// Takes away what has this number, and what is past at this moment.
pub fn cancel(runs: &mut [SortedRun], number: u64, moment: Moment)
    ensures length { length runs.new ≡ length runs.old }
    ensures kept { together runs.new
        ≡ filter (is_live moment) (filter (λ d. not (d.number == number)) (together runs.old)) }
{
    for run in runs.iter_mut() {
        run.cancel(number, moment);
    }
}

/// Lets each downtime meet the result, and takes away what is past then.
pub fn meet_result(runs: &mut [SortedRun], moment: Moment, problem: bool)
    ensures length { length runs.new ≡ length runs.old }
    ensures met { IsPermutation
        (filter (is_live moment) (map (after_result moment problem) (together runs.old)))
        (together runs.new) }
{
    for run in runs.iter_mut() {
        run.meet_result(moment, problem);
    }
}

/// The number of the first downtime that is in effect at this moment, once a result came at it: by
/// start, then by number.
pub fn first_in_effect(runs: &[SortedRun], moment: Moment, problem: bool) -> Option<u64>
    ensures { result ≡ number_of (first_of (starts moment problem) (filter (is_live moment) (together runs.now))) }
{
    runs.iter()
        .filter_map(|run| run.first_in_effect(moment, problem))
        .min()
        .map(|rank| rank.number)
}
