// The real world.
ghost use Rattle.std.specs.Prelude.{◌≡◌, ◌≤◌, ◌++◌, ◌∷◌, [], None, OnOk, OnErr, IfOk, IfSome, IfNone, IsTrue, IsErrOf, IsPermutation, ◌⊎◌, vec_len};
ghost use Rattle.site_edge.specs.Told.{Rose};
ghost use Rattle.live_world.specs.Turns.{IsSecondLater, numbers, reported, ordered, StartsPart};

use crate::input::InputLines;
use crate::reports::split_off_reports;
use crate::running::Running;
use crate::telling::Telling;
use crate::waiting::start_waiting;
use site_base::{Moment, OutOfMemory, Row};
use site_edge::{Order, Report, Turn, World, WorldError};
use std::mem;
use std::thread::Threads;
use std::time::{Duration, Instant, SystemTime, UNIX_EPOCH};

/// So many seconds after a turn the next one comes, at least.
const TURN: u64 = 1;

/// The clock, the lines of standard input and check programs. Nothing is told of the turns that they give.
///
/// A turn comes once a second has passed since the last one, and the first once a second has passed since it was asked for. Its
/// moment is in whole seconds: the clock's, or that of the last turn with what a steady clock has measured since, if that is greater.
/// So a clock that is set forward and back again doesn't hold up the turns. A clock before 1970 counts as 1970. Once the input has ended,
/// turns have the moment of the last one, so that nothing more falls due.
///
/// The lines of a turn are those of standard input that ended since the last turn, and the last one too if the input has ended
/// after it; its reports are of the orders whose programs ended since. No turn is left once the input has ended and no order is
/// without its report.
///
/// Of a line and of a program's output at most 65,536 bytes are kept, and no part of a character. A program that can't be run, or that a
/// signal ends, is reported with status 3. If there is no room for one more thread or program, it is tried again once a second until there
/// is, and turns go on. If that lasts, standard error says so, and if the end of standard input is long past and programs still run. A program has
/// no time limit.
///
/// `next` is `Failed` if the clock or standard input can't be read or waited for, and if the clock shows a moment past the greatest one.
/// `start` is never `Failed`.
#[derive(Drop)]
pub struct LiveWorld<T: Threads + Drop> {
    rt: HostRuntime,
    threads: T,
    input: InputLines,
    running: Vec<Running>,
    last: Option<Instant>,
    /// The moment of the last turn.
    moment: Moment,
    faults: u64,
    telling: Telling,
}

impl<T: Threads + Drop> LiveWorld<T> {
    /// The world of this process, which starts threads by `threads`.
    pub fn new(rt: HostRuntime, threads: T) -> Result<LiveWorld<T>, OutOfMemory>
        ensures { IfOk result (λ w. ⟦<LiveWorld<T> as World>⟧.faults w ≡ 0) }
    {
        let alloc = rt.alloc();
        Ok(LiveWorld {
            rt,
            threads,
            input: InputLines::new(alloc)?,
            running: Vec::new(alloc),
            last: None,
            moment: Moment::of(0).unwrap(),
            faults: 0,
            telling: Telling::new(),
        })
    }

    /// Counts an error.
    fn counted<A>(&mut self, answer: Result<A, WorldError>) -> Result<A, WorldError>
        ensures same { result ≡ answer }
        ensures rises { OnErr answer (Rose self.old.faults self.new.faults) }
        ensures counts { self.old.faults ≤ self.new.faults }
        ensures quiet { OnOk answer (self.new.faults ≡ self.old.faults) }
    {
        if answer.is_err() {
            self.faults = self.faults.saturating_add(1);
        }
        answer
    }

    /// The next turn.
    #[tactic(auto, using(crate::proofs::Splits::split_again))]
    fn turn(&mut self) -> Result<Option<Turn>, WorldError>
        ensures second { IfOk result (λ t. IfSome t (λ _. IsSecondLater self.old.last self.new.last)) }
        ensures reports { IfOk result (λ t. IfSome t (λ turn. IsPermutation (numbers self.old.running.items) (reported turn.reports ++ numbers self.new.running.items))) }
        ensures over { IfOk result (λ t. IfNone t (IsTrue self.new.input.has_ended × (vec_len self.new.running ≡ 0))) }
        ensures faults { self.new.faults ≡ self.old.faults }
    {
        self.tell();
        let Some(now) = self.await_turn()? else {
            return Ok(None);
        };
        let moment = self.moment_at(now)?;
        self.start_waiting()?;
        let reports = self.take_reports()?;
        let lines = self.input.take();
        self.last = Some(now);
        self.moment = moment;
        Ok(Some(Turn {
            moment,
            reports,
            lines,
        }))
    }

    /// Tells on standard error if checks are held up.
    fn tell(&mut self)
        ensures running { self.new.running ≡ self.old.running }
        ensures last { self.new.last ≡ self.old.last }
        ensures faults { self.new.faults ≡ self.old.faults }
    {
        let waiting = self.running.iter().filter(|order| order.waits()).count();
        let running = self.running.len().saturating_sub(waiting);
        self.telling
            .take(&self.rt, running, waiting, self.input.has_ended());
    }

    /// Waits for the next turn, and gives the time at which it comes.
    #[tactic(auto, using(crate::proofs::Seconds::second_later))]
    fn await_turn(&mut self) -> Result<Option<Instant>, WorldError>
        ensures second { IfOk result (λ now. IsSecondLater self.old.last now) }
        ensures over { IfOk result (λ now. IfNone now (IsTrue self.new.input.has_ended × (vec_len self.new.running ≡ 0))) }
        ensures running { self.new.running ≡ self.old.running }
        ensures faults { self.new.faults ≡ self.old.faults }
    {
        let asked = Instant::now(&self.rt).map_err(|_| WorldError::Failed)?;
        let last = self.last.unwrap_or(asked);
        for _ in 0..u64::MAX {
            let now = Instant::now(&self.rt).map_err(|_| WorldError::Failed)?;
            let left = Duration::from_secs(TURN).saturating_sub(now.duration_since(last));
            self.input.wait(&self.rt, left)?;
            if self.input.is_over() && self.running.is_empty() {
                return Ok(None);
            }
            if left.is_zero() {
                return Ok(Some(now));
            }
        }
        Err(WorldError::Failed)
    }

    /// The moment of the turn that comes now.
    fn moment_at(&self, now: Instant) -> Result<Moment, WorldError> {
        let Some(last) = self.last else {
            return self.clock();
        };
        if self.input.has_ended() {
            return Ok(self.moment);
        }
        let passed = now.duration_since(last).as_secs();
        Ok(greater_of(self.clock()?, self.moment.later(passed)))
    }

    /// What the clock shows.
    fn clock(&self) -> Result<Moment, WorldError> {
        let now = SystemTime::now(&self.rt).map_err(|_| WorldError::Failed)?;
        let secs = match now.duration_since(UNIX_EPOCH) {
            Ok(passed) => passed.as_secs(),
            Err(_) => 0,
        };
        Moment::of(secs).ok_or(WorldError::Failed)
    }

    /// Tries again to start the orders that wait for a thread.
    fn start_waiting(&mut self) -> Result<(), OutOfMemory>
        ensures ok { OnOk result (numbers self.new.running.items ≡ numbers self.old.running.items) }
        ensures last { self.new.last ≡ self.old.last }
        ensures faults { self.new.faults ≡ self.old.faults }
    {
        let running = mem::replace(&mut self.running, Vec::new(self.rt.alloc()));
        self.running = start_waiting(&self.rt, &self.threads, running)?;
        Ok(())
    }

    /// Takes the reports that are there.
    fn take_reports(&mut self) -> Result<Row<Report>, OutOfMemory>
        ensures reports { IfOk result (λ reports. IsPermutation (numbers self.old.running.items) (reported reports ++ numbers self.new.running.items)) }
        ensures last { self.new.last ≡ self.old.last }
        ensures faults { self.new.faults ≡ self.old.faults }
    {
        let alloc = self.rt.alloc();
        let running = mem::replace(&mut self.running, Vec::new(alloc));
        let (reports, left) = split_off_reports(alloc, &self.threads, running)?;
        self.running = left;
        Ok(reports)
    }

    /// Starts each of the orders once.
    #[tactic(auto, using(crate::proofs::Starting::starts_part))]
    fn start_each(&mut self, orders: &[Order]) -> Result<(), WorldError>
        ensures ok { OnOk result (numbers self.new.running.items ≡ numbers self.old.running.items ++ ordered orders.now) }
        ensures err { OnErr result (StartsPart orders.now (numbers self.old.running.items) (numbers self.new.running.items)) }
        ensures faults { self.new.faults ≡ self.old.faults }
    {
        for order in orders {
            self.start_one(order)?;
        }
        Ok(())
    }

    fn start_one(&mut self, order: &Order) -> Result<(), WorldError>
        ensures ok { OnOk result (numbers self.new.running.items ≡ numbers self.old.running.items ++ order.now.number ∷ []) }
        ensures err { OnErr result (numbers self.new.running.items ≡ numbers self.old.running.items) }
        ensures faults { self.new.faults ≡ self.old.faults }
    {
        self.running.reserve(1)?;
        self.running
            .push(Running::start(&self.rt, &self.threads, order)?)?;
        Ok(())
    }
}

/// The greater of two moments.
fn greater_of(one: Moment, other: Moment) -> Moment
    ensures one { one ≤ result }
    ensures other { other ≤ result }
    ensures either { (result ≡ one) ⊎ (result ≡ other) }
{
    if one < other { other } else { one }
}

impl<T: Threads + Drop> World for LiveWorld<T> {
    ghost turns = { λ _. None };

    ghost started = { λ _. None };

    ghost calls = { λ _. None };

    ghost faults = { λ w. w.faults };

    ghost calm = { λ _. ⊥ };

    fn next(&mut self) -> Result<Option<Turn>, WorldError> {
        let answer = self.turn();
        self.counted(answer)
    }

    fn start(&mut self, orders: &[Order]) -> Result<(), WorldError> {
        let answer = self.start_each(orders);
        self.counted(answer)
    }
}
