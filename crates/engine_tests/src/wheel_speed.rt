// The sizes that the wheel is made for.
ghost use Rattle.std.specs.Prelude.{◌≡◌, ◌<◌, IfOk};
ghost use Rattle.wheel_links.specs.Members.{capacity_of};

use site_base::Moment;
use std::alloc::Global;
use std::marker::Brand;
use std::process::Abort;
use std::sync::ledger::{Blank, Ledger};
use std::test::Fail;
use wheel_links::{Present, Steps, Wheel};

const MEMBERS: u32 = 100_000;

/// The moment so many seconds after the first.
fn at(secs: u64) -> Moment {
    Moment::of(0).unwrap().later(secs)
}

/// The member at a place in permuted order.
fn permuted(place: u64) -> u32
    requires { place < 1_000_000 }
    ensures { result < MEMBERS }
{
    (place * 7919 % u64::from(MEMBERS)) as u32
}

/// A wheel with all members, spread over so many seconds and placed in permuted order.
fn spread<L: Ledger>(alloc: Global, seconds: u64, steps: &mut Steps<L>) -> Result<Wheel, Fail>
    requires { 0 < seconds }
    ensures { IfOk result (λ w. capacity_of w ≡ MEMBERS) }
{
    let mut wheel = Wheel::new(alloc, MEMBERS, 4096)?;
    place_all(&mut wheel, seconds, steps)?;
    Ok(wheel)
}

fn place_all<L: Ledger>(
    wheel: &mut Wheel,
    seconds: u64,
    steps: &mut Steps<L>,
) -> Result<(), Present>
    requires seconds { 0 < seconds }
    requires members { capacity_of wheel.old ≡ MEMBERS }
    ensures { capacity_of wheel.new ≡ MEMBERS }
{
    for place in 0..u64::from(MEMBERS) {
        place_one(wheel, permuted(place), seconds, steps)?;
    }
    Ok(())
}

fn place_one<L: Ledger>(
    wheel: &mut Wheel,
    id: u32,
    seconds: u64,
    steps: &mut Steps<L>,
) -> Result<(), Present>
    requires id { id < MEMBERS }
    requires seconds { 0 < seconds }
    requires members { capacity_of wheel.old ≡ MEMBERS }
    ensures { capacity_of wheel.new ≡ MEMBERS }
{
    wheel.place(id, at(u64::from(id) % seconds), steps)
}

/// Does an hour of checks from a second on, with each member due every five minutes, and gives how many they are.
fn check_hour<L: Ledger, R: Abort>(
    rt: &R,
    wheel: &mut Wheel,
    seconds: u64,
    start: u64,
    steps: &mut Steps<L>,
) -> Result<u32, Fail>
    requires { capacity_of wheel.old ≡ MEMBERS }
{
    let mut checks = 0u32;
    for now in start..start.saturating_add(3600) {
        checks = checks.saturating_add(check_second(rt, wheel, seconds, now, steps)?);
    }
    Ok(checks)
}

/// Does all checks that are due at a second, and gives how many they are.
fn check_second<L: Ledger, R: Abort>(
    rt: &R,
    wheel: &mut Wheel,
    seconds: u64,
    now: u64,
    steps: &mut Steps<L>,
) -> Result<u32, Fail>
    requires { capacity_of wheel.old ≡ MEMBERS }
    ensures { capacity_of wheel.new ≡ MEMBERS }
{
    let mut checks = 0u32;
    for _ in 0..=MEMBERS {
        let Some(id) = wheel.due(at(now)) else {
            break;
        };
        check_one(rt, wheel, id, seconds, now, steps)?;
        checks = checks.saturating_add(1);
    }
    Ok(checks)
}

fn check_one<L: Ledger, R: Abort>(
    rt: &R,
    wheel: &mut Wheel,
    id: u32,
    seconds: u64,
    now: u64,
    steps: &mut Steps<L>,
) -> Result<(), Fail>
    requires { capacity_of wheel.old ≡ MEMBERS }
    ensures { capacity_of wheel.new ≡ MEMBERS }
{
    assert!(rt; id < MEMBERS);
    let old = wheel.move_to(id, at(now).later(300), steps)?;
    assert!(rt; old.secs() == now || old.secs() < seconds);
    Ok(())
}

/// How many checks there are in an hour from a second on, with the members first spread over so many seconds.
fn an_hour<L: Ledger, R: Abort>(
    rt: &R,
    alloc: Global,
    seconds: u64,
    start: u64,
    blank: Blank,
) -> Result<u32, Fail>
    requires name { blank.name ≡ L.name }
    requires parts { blank.parts ≡ L.parts }
    requires any { 0 < blank.parts }
    requires seconds { 0 < seconds }
{
    let mut steps = Steps::<L>::new(blank);
    let mut wheel = spread(alloc, seconds, &mut steps)?;
    check_hour(rt, &mut wheel, seconds, start, &mut steps)
}

#[test]
fn an_hour_of_checks(rt: HostRuntime) -> Result<(), Fail> {
    let checks = an_hour::<Brand, HostRuntime>(&rt, rt.alloc(), 300, 0, Blank::new(1))?;
    assert!(rt; checks == 1_200_000);
    Ok(())
}

/// All members are due at once, long after the moment that they were placed at.
#[test]
fn an_hour_of_checks_at_once(rt: HostRuntime) -> Result<(), Fail> {
    let start = 1_704_067_200;
    let checks = an_hour::<Brand, HostRuntime>(&rt, rt.alloc(), 1, start, Blank::new(1))?;
    assert!(rt; checks == 1_200_000);
    Ok(())
}

fn move_all<L: Ledger, R: Abort>(
    rt: &R,
    wheel: &mut Wheel,
    steps: &mut Steps<L>,
) -> Result<(), Fail>
    requires { capacity_of wheel.old ≡ MEMBERS }
{
    for turn in 0..1_000_000u64 {
        move_one(rt, wheel, permuted(turn), turn, steps)?;
    }
    Ok(())
}

fn move_one<L: Ledger, R: Abort>(
    rt: &R,
    wheel: &mut Wheel,
    id: u32,
    turn: u64,
    steps: &mut Steps<L>,
) -> Result<(), Fail>
    requires id { id < MEMBERS }
    requires turn { turn < 1_000_000 }
    requires members { capacity_of wheel.old ≡ MEMBERS }
    ensures { capacity_of wheel.new ≡ MEMBERS }
{
    let old = wheel.move_to(id, at(turn * 104_729 % 86_400), steps)?;
    assert!(rt; old.secs() < 86_400);
    Ok(())
}

fn moves<L: Ledger, R: Abort>(rt: &R, alloc: Global, blank: Blank) -> Result<(), Fail>
    requires name { blank.name ≡ L.name }
    requires parts { blank.parts ≡ L.parts }
    requires any { 0 < blank.parts }
{
    let mut steps = Steps::<L>::new(blank);
    let mut wheel = spread(alloc, 300, &mut steps)?;
    move_all(rt, &mut wheel, &mut steps)?;
    assert!(rt; wheel.len() == MEMBERS);
    Ok(())
}

#[test]
fn a_million_moves(rt: HostRuntime) -> Result<(), Fail> {
    moves::<Brand, HostRuntime>(&rt, rt.alloc(), Blank::new(1))
}
