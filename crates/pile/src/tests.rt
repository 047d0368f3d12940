use crate::direct::Direct;
use crate::floor::{Floor, floor_of};
use crate::lag::Lag;
use crate::observations::Observations;
use calendar::holidays::HolidayList;
use calendar::target::Target;
use fixings::source::Projection;
use quantity::date::Date;
use quantity::fault::Fault;
use quantity::position::{Offset, Position};
use quantity::refusal::Refusal;
use schedule::schedule::Schedule;
use std::process::Abort;
use std::test::Fail;

// What refuses a schedule of TARGET, if anything does.
fn target(start: u32, end: u32) -> Result<Result<(), u8>, Fail> {
    let mut schedule = Schedule::new();
    let built = schedule.build(&Target, Date::new(start)?, Date::new(end)?);
    Ok(built.map_err(Refusal::number))
}

// The week of Easter 2024: 8,854 is Good Friday and 8,857 Easter Monday.
#[test]
fn target_schedules(rt: HostRuntime) -> Result<(), Fail> {
    assert_eq!(rt; target(8_853, 8_859)?, Ok(()));
    assert_eq!(rt; target(8_859, 8_859)?, Err(7));
    assert_eq!(rt; target(8_859, 8_853)?, Err(7));
    assert_eq!(rt; target(8_853, 9_254)?, Err(7));
    assert_eq!(rt; target(8_854, 8_859)?, Err(8));
    assert_eq!(rt; target(8_853, 8_857)?, Err(8));
    assert_eq!(rt; target(40, 45)?, Err(9));
    Ok(())
}

// A holiday on each weekday from `first` to `last`, and the refusal of a schedule from the day before them to the day after.
fn closed(rt: &(impl Abort + AllocGlobal), first: u32, last: u32) -> Result<Result<(), u8>, Fail> {
    let mut list = HolidayList::new(rt.alloc())?;
    assert!(rt; first > 0 && last < 1_000);
    for number in first..last + 1 {
        list.add(number)?;
    }
    let mut schedule = Schedule::new();
    let built = schedule.build(&list, Date::new(first - 1)?, Date::new(last + 1)?);
    Ok(built.map_err(Refusal::number))
}

// Day 230 is a Friday, 215 a Thursday and 214 a Wednesday.
#[test]
fn a_gap_of_15_days_and_no_more(rt: HostRuntime) -> Result<(), Fail> {
    assert_eq!(rt; closed(&rt, 216, 229)?, Ok(()));
    assert_eq!(rt; closed(&rt, 215, 229)?, Err(9));
    Ok(())
}

// Days 215 and 615 are good, 400 days apart.
#[test]
fn a_period_of_400_days(rt: HostRuntime) -> Result<(), Fail> {
    let list = HolidayList::new(rt.alloc())?;
    let mut schedule = Schedule::new();
    let start = Date::new(215)?;
    let built = schedule.build(&list, start, Date::new(615)?);
    assert_eq!(rt; built.map_err(Refusal::number), Ok(()));
    let kept = schedule.length();
    let refused = schedule.build(&list, start, Date::new(616)?);
    assert_eq!(rt; refused.map_err(Refusal::number), Err(7));
    assert_eq!(rt; schedule.length(), kept);
    Ok(())
}

// Observed date and weight at a position.
fn observed(pile: &impl Observations, i: i32) -> Result<(u32, u32), Fail> {
    let rate = pile.rate(Position::new(i))?;
    let weight = pile.weight(Position::new(i))?;
    Ok((rate.observed.number(), weight.days().number()))
}

#[test]
fn a_lag_over_a_direct_pile(rt: HostRuntime) -> Result<(), Fail> {
    let mut schedule = Schedule::new();
    schedule.build(&Target, Date::new(8_853)?, Date::new(8_859)?)?;
    let source = Projection::new(Date::new(8_700)?, floor_of(39_100)?);
    let direct = Direct::new(&schedule, source);
    assert_eq!(rt; observed(&direct, 0)?, (8_853, 5));
    assert_eq!(rt; observed(&direct, 1)?, (8_858, 1));
    let lag = Lag::new(Direct::new(&schedule, source), Offset::new(2)?);
    assert_eq!(rt; observed(&lag, 0)?, (8_851, 5));
    assert_eq!(rt; observed(&lag, 1)?, (8_852, 1));
    Ok(())
}

// The number of a fault, its position and the layers above.
fn told(fault: Fault) -> (u8, i32, u8) {
    (fault.number(), fault.position.value(), fault.above)
}

// Lag 20 at -50 asks below at -70, which no pile has; over it stands a floor.
#[test]
fn faults(rt: HostRuntime) -> Result<(), Fail> {
    let mut schedule = Schedule::new();
    schedule.build(&Target, Date::new(8_853)?, Date::new(8_859)?)?;
    let rate = floor_of(39_100)?;
    let late = Projection::new(Date::new(8_858)?, rate);
    let lag = Lag::new(Direct::new(&schedule, late), Offset::new(20)?);
    let pile = Floor::new(lag, rate);
    let outside = pile.rate(Position::new(-50)).map_err(told);
    assert_eq!(rt; outside, Err((11, -70, 2)));
    let missing = pile.rate(Position::new(0)).map_err(told);
    assert_eq!(rt; missing, Err((12, -20, 2)));
    Ok(())
}
