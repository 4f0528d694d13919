// Many workers at one board.
ghost use Rattle.std.specs.Prelude.{◌≡◌, ℕ, All, length, slice_get, IfOk, Some};
ghost use Rattle.std.specs.List.{AllZip};
ghost use Rattle.commit_board.specs.Boards.{AreAnswers};
ghost use Rattle.commit_board.specs.Work.{Serves, all_in};

use crate::batches::{batches_of, joined};
use crate::board::{Answers, Board};
use crate::claim::{Claim, Found};
use crate::course::Course;
use crate::evaluate::Evaluate;
use site_base::OutOfMemory;
use std::alloc::Global;
use std::marker::Brand;
use std::sync::{Mutex, Wait};
use std::thread;
use std::thread::{Builder, Threads};

/// The stack of a thread that works, in bytes.
const STACK: usize = 8 << 20;

/// The answers of tasks, each at its place, made by so many workers at most, of which the caller is one. A worker claims so many tasks at a
/// time at most: where tasks are small, more of them at a time keep the workers from waiting for the board. Where no thread can be started
/// the caller makes all answers. They are the same for any number of workers, and in whatever order they come.
///
/// # Errors
///
/// `OutOfMemory` if there is none for the board, or for an answer.
pub fn answer_all<T: Send + Drop, A: Send + Drop, E: Evaluate<T, A>, R: Threads + Wait + Sync>(
    rt: &R,
    alloc: Global,
    evaluate: &E,
    tasks: Vec<T>,
    workers: u32,
    batch: usize,
) -> Result<Vec<A>, OutOfMemory>
    requires { All (E.fits evaluate.now) tasks.items }
    ensures { IfOk result (λ answers. AllZip (E.gives evaluate.now) tasks.items answers.items) }
{
    let batches = batches_of(alloc, tasks, batch)?;
    let answers = answer_batches(rt, alloc, evaluate, batches, workers)?;
    joined(alloc, answers)
}

/// The answers of tasks that stand in batches, in batches.
fn answer_batches<T: Send + Drop, A: Send + Drop, E: Evaluate<T, A>, R: Threads + Wait + Sync>(
    rt: &R,
    alloc: Global,
    evaluate: &E,
    batches: Vec<Vec<T>>,
    workers: u32,
) -> Result<Vec<Vec<A>>, OutOfMemory>
    requires { All (E.fits evaluate.now) (all_in batches.items) }
    ensures { IfOk result (λ answers. AllZip (E.gives evaluate.now) (all_in batches.items) (all_in answers.items)) }
{
    answer_course::<T, A, E, Brand, R>(rt, alloc, evaluate, batches, workers)
}

/// The answers of batches that are the first wave of a course.
fn answer_course<
    T: Send + Drop,
    A: Send + Drop,
    E: Evaluate<T, A>,
    L: Course<Vec<T>, Vec<A>> + Send + Sync,
    R: Threads + Wait + Sync,
>(
    rt: &R,
    alloc: Global,
    evaluate: &E,
    batches: Vec<Vec<T>>,
    workers: u32,
) -> Result<Vec<Vec<A>>, OutOfMemory>
    requires size { length batches.items ≡ L.size 1 }
    requires asked { (k : ℕ) (ts : _) → slice_get batches.items k ≡ Some ts → L.asks 1 k ts }
    requires serves { Serves L.asks L.gives (E.fits evaluate.now) (E.gives evaluate.now) }
    ensures { IfOk result (λ answers. (w : ℕ) × AreAnswers (L.size w) (L.gives w) answers.items) }
{
    let most = (workers as usize).min(batches.len());
    let mut board: Board<Vec<T>, Vec<A>, L> = Board::new(alloc);
    board.start(alloc, 1, batches)?;
    let mut board = work_at(rt, alloc, evaluate, board, most);
    match board.answers(alloc)? {
        Some(Answers { wave: _, list }) => Ok(list),
        None => Err(OutOfMemory),
    }
}

/// Has so many workers do the tasks of a board, of which the caller is one.
fn work_at<
    T: Send + Drop,
    A: Send + Drop,
    E: Evaluate<T, A>,
    L: Course<Vec<T>, Vec<A>> + Send + Sync,
    R: Threads + Wait + Sync,
>(
    rt: &R,
    alloc: Global,
    evaluate: &E,
    board: Board<Vec<T>, Vec<A>, L>,
    workers: usize,
) -> Board<Vec<T>, Vec<A>, L>
    requires { Serves L.asks L.gives (E.fits evaluate.now) (E.gives evaluate.now) }
{
    let board = Mutex::new(board);
    work_together(rt, alloc, evaluate, &board, workers);
    board.into_inner()
}

/// Has so many workers do the tasks of a board that they share, each in a thread of its own but for the caller.
fn work_together<
    'x,
    T: Send + Drop,
    A: Send + Drop,
    E: Evaluate<T, A>,
    L: Course<Vec<T>, Vec<A>> + Send + Sync,
    R: Threads + Wait + Sync,
>(
    rt: &'x R,
    alloc: Global,
    evaluate: &'x E,
    board: &'x Mutex<Board<Vec<T>, Vec<A>, L>>,
    workers: usize,
)
    requires { Serves L.asks L.gives (E.fits evaluate.now) (E.gives evaluate.now) }
{
    thread::scope(
        thread::scope_env(),
        rt,
        move |scope| -> ()
            requires { Serves L.asks L.gives (E.fits evaluate.now) (E.gives evaluate.now) }
        {
            for _ in 1..workers {
                let thread = Builder::new().stack_size(STACK).spawn_scoped(
                    scope,
                    move || -> ()
                        requires { Serves L.asks L.gives (E.fits evaluate.now) (E.gives evaluate.now) }
                    { work(rt, alloc, evaluate, board) },
                );
                if thread.is_err() {
                    break;
                }
            }
            work(rt, alloc, evaluate, board)
        },
    );
}

/// Does the batches of a board that are open, until there is none, or no memory for one, which is open again then.
fn work<T: Drop, A: Drop, E: Evaluate<T, A>, L: Course<Vec<T>, Vec<A>>, R: Wait>(
    rt: &R,
    alloc: Global,
    evaluate: &E,
    board: &Mutex<Board<Vec<T>, Vec<A>, L>>,
)
    requires { Serves L.asks L.gives (E.fits evaluate.now) (E.gives evaluate.now) }
{
    for _ in rt.forever() {
        let claim = board.lock(rt).claim();
        let Some(Claim { task, ticket }) = claim else {
            return;
        };
        let answers = answers_of(alloc, evaluate, task.as_slice());
        match answers {
            Ok(answers) => {
                board.lock(rt).put(ticket, Found::Answer(answers));
            }
            Err(OutOfMemory) => {
                board.lock(rt).put(ticket, Found::Task(task));
                return;
            }
        }
    }
}

/// The answers of tasks, one after another.
fn answers_of<T: Drop, A: Drop, E: Evaluate<T, A>>(
    alloc: Global,
    evaluate: &E,
    tasks: &[T],
) -> Result<Vec<A>, OutOfMemory>
    requires { All (E.fits evaluate.now) tasks.now }
    ensures { IfOk result (λ answers. AllZip (E.gives evaluate.now) tasks.now answers.items) }
{
    let mut answers = Vec::with_capacity(alloc, tasks.len())?;
    for task in tasks {
        let answer = evaluate.answer(alloc, task)?;
        answers.push(answer)?;
    }
    Ok(answers)
}
