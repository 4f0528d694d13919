// What is told on standard error of checks that are held up.
use crate::lasting::{Lasting, News};

/// So many turns, a second or more each, a want of room lasts before it is told, and so many the end of a run takes.
const LONG: u64 = 10;

/// Tells if checks have waited ten seconds for descriptors, processes, threads or memory, and when that is over; and if some are still
/// outstanding ten seconds after the end of standard input.
#[derive(Drop)]
pub struct Telling {
    turns: u64,
    want: Lasting,
    ending: Lasting,
}

impl Telling {
    pub fn new() -> Telling {
        Telling {
            turns: 0,
            want: Lasting::new(LONG),
            ending: Lasting::new(LONG),
        }
    }

    /// Takes before a turn how many checks run, how many wait for room, and whether standard input has ended.
    pub fn take(&mut self, rt: &HostRuntime, running: usize, waiting: usize, has_ended: bool) {
        let now = self.turns;
        self.turns = now.saturating_add(1);
        let _ = match self.want.take(waiting > 0, now) {
            Some(News::Lasts) => eprintln!(rt;
                "icinga_site: checks have waited ten seconds for descriptors, processes, threads or memory: {waiting}"
            ),
            Some(News::IsOver) => eprintln!(rt; "icinga_site: no check waits for room any more"),
            None => Ok(()),
        };
        let is_ending = has_ended && (running > 0 || waiting > 0);
        if let Some(News::Lasts) = self.ending.take(is_ending, now) {
            let _ = eprintln!(rt;
                "icinga_site: standard input has ended, and checks are waited for: {running} run, and {waiting} wait for room"
            );
        }
    }
}
