// Orders that have no report yet.
ghost use Rattle.std.specs.Prelude.{◌≡◌, IfOk, IsTrue};
ghost use Rattle.std.proofs.Props.{props};
ghost use Rattle.live_world.specs.Progress.{order_of, HasThread};

use crate::program::report_of;
use site_base::OutOfMemory;
use site_edge::{Order, Report};
use std::sync::Arc;
use std::sync::atomic::{AtomicBool, Ordering};
use std::thread::{Builder, Promise, PromisedHandle, Threads};

/// The stack of a thread that waits for a program.
const STACK: usize = 256 * 1024;

/// What came of an order's program.
type Answer = Result<Report, OutOfMemory>;

/// That a report is of the order of this number.
#[derive(Clone, Copy)]
pub struct ReportOf(u64);

impl Promise<Answer> for ReportOf {
    ghost use Rattle.std.specs.Prelude.{◌≡◌, IfOk};

    ghost kept_by = { λ p answer. IfOk answer (λ report. report.order ≡ p.0) };
}

/// What the thread of an order tells while it is at work.
#[derive(Drop)]
pub struct Signs {
    /// There is no room for its program.
    waits: AtomicBool,
    has_report: AtomicBool,
}

/// How far an order is.
#[derive(Drop)]
pub enum Progress {
    /// There is no room for a thread.
    Waiting(Order),
    /// A thread runs its program.
    Thread(Arc<Signs>, PromisedHandle<Answer, ReportOf>),
}

impl Progress {
    /// Has a thread run an order's program. If none can be started, the order waits, and nothing is run.
    fn of<T: Threads>(rt: &HostRuntime, threads: &T, order: &Order) -> Result<Progress, OutOfMemory>
        ensures { IfOk result (λ progress. order_of progress ≡ order.now.number) }
    {
        let theirs = order.clone()?;
        let handle = rt.clone()?;
        let signs = Arc::new(
            rt.alloc(),
            Signs {
                waits: AtomicBool::new(false),
                has_report: AtomicBool::new(false),
            },
        )?;
        let told = Arc::try_clone(&signs)?;
        let run = move || {
            let answer = report_of(&handle, &theirs, &told.waits);
            told.has_report.store(true, Ordering::SeqCst);
            answer
        };
        let started = Builder::new()
            .stack_size(STACK)
            .spawn_with(threads, ReportOf(order.number), run);
        Ok(match started {
            Ok(thread) => Progress::Thread(signs, thread),
            Err(_) => Progress::Waiting(order.clone()?),
        })
    }
}

/// An order that was given and whose report wasn't handed on.
#[derive(Drop)]
pub struct Running {
    number: u64,
    progress: Progress,
    ghost own: { order_of progress ≡ number } by { Prim.hlevel props },
}

impl Running {
    /// Starts an order, or has it wait if there is no room for a thread.
    pub fn start<T: Threads>(
        rt: &HostRuntime,
        threads: &T,
        order: &Order,
    ) -> Result<Running, OutOfMemory>
        ensures { IfOk result (λ r. r.number ≡ order.now.number) }
    {
        Ok(Running {
            number: order.number,
            progress: Progress::of(rt, threads, order)?,
        })
    }

    /// Tries again to start an order that waits for a thread.
    pub fn again<T: Threads>(self, rt: &HostRuntime, threads: &T) -> Result<Running, OutOfMemory>
        ensures { IfOk result (λ r. r.number ≡ self.number) }
    {
        let Running { number, progress } = self;
        let progress = match progress {
            Progress::Waiting(order) => Progress::of(rt, threads, &order)?,
            Progress::Thread(signs, thread) => Progress::Thread(signs, thread),
        };
        Ok(Running { number, progress })
    }

    /// Whether there is no room for its thread or its program.
    pub fn waits(&self) -> bool {
        match &self.progress {
            Progress::Waiting(_) => true,
            Progress::Thread(signs, _) => signs.waits.load(Ordering::SeqCst),
        }
    }

    /// Whether there is no room for its thread.
    pub fn waits_for_thread(&self) -> bool {
        matches!(&self.progress, Progress::Waiting(_))
    }

    /// Whether its report can be taken without waiting for its program.
    pub fn has_report(&self) -> bool
        ensures { IsTrue result → HasThread self.now.progress }
    {
        match &self.progress {
            Progress::Waiting(_) => false,
            Progress::Thread(signs, _) => signs.has_report.load(Ordering::SeqCst),
        }
    }

    /// Its report, which its thread gives.
    pub fn report<T: Threads>(self, threads: &T) -> Result<Report, OutOfMemory>
        requires { HasThread self.progress }
        ensures { IfOk result (λ report. report.order ≡ self.number) }
    {
        let Running {
            number: _,
            progress,
        } = self;
        match progress {
            Progress::Waiting(_) => unreachable!(),
            Progress::Thread(_, thread) => thread.join(threads),
        }
    }
}
