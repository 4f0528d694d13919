// What past downtimes cost.
ghost use Rattle.std.specs.Prelude.{◌≤◌};

use downtime_book::{Book, NoDowntime};
use site_base::{Moment, OutOfMemory};
use std::process::Abort;
use std::test::Fail;

fn at(rt: &impl Abort, secs: u64) -> Moment {
    Moment::of(secs).expect(rt, "a moment")
}

/// The same moment, proved not to fall.
fn next(rt: &impl Abort, book: &Book, secs: u64) -> Moment
    ensures { book.now.latest ≤ result }
{
    let moment = at(rt, secs);
    assert!(rt; book.latest() <= moment);
    moment
}

/// Adds a hundred thousand downtimes, all of which end before a moment at which they are asked for.
fn add_past(rt: &impl Abort, book: &mut Book) -> Result<(), OutOfMemory> {
    for number in 0..100_000 {
        let start = at(rt, number);
        book.add(number, start, at(rt, number + 5), number % 2 == 0, 3)?;
    }
    Ok(())
}

/// Asks a million times for downtimes that are past. A walk over them would outlast the time that a test has.
fn ask_often(rt: &impl Abort, book: &mut Book) {
    for turn in 0..1_000_000 {
        let moment = next(rt, book, 150_000 + turn % 7);
        assert!(rt; book.in_effect_after(moment, true) == None);
        assert!(rt; book.cancel(turn % 100_000, moment) == Err(NoDowntime));
    }
}

/// Takes a result at this moment, which leaves so many downtimes.
fn take_result(rt: &impl Abort, book: &mut Book, secs: u64, problem: bool, left: usize) {
    let moment = next(rt, book, secs);
    book.on_result(moment, problem);
    assert!(rt; book.len() == left);
}

#[test]
fn past_downtimes_cost_nothing(rt: HostRuntime) -> Result<(), Fail> {
    let mut book = Book::new(rt.alloc());
    add_past(&rt, &mut book)?;
    assert!(rt; book.len() == 100_000);
    book.add(100_000, at(&rt, 200_000), at(&rt, 300_000), true, 0)?;
    ask_often(&rt, &mut book);
    assert!(rt; book.len() == 100_001);
    take_result(&rt, &mut book, 150_000, false, 1);
    book.add(100_001, at(&rt, 140_000), at(&rt, 150_000), true, 0)?;
    assert!(rt; book.len() == 1);
    assert!(rt; book.in_effect(next(&rt, &book, 200_000)) == Some(100_000));
    take_result(&rt, &mut book, 300_000, true, 0);
    assert!(rt; book.is_empty());
    Ok(())
}
