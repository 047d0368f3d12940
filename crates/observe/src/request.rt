// What is asked for, and how it is judged.
use anyhow::Context;
use calendar::holidays::HolidayList;
use calendar::target::Target;
use pile::floor::floor_of;
use quantity::benchmark::BenchmarkCode;
use quantity::date::Date;
use quantity::position::Offset;
use quantity::rate::Rate;
use quantity::refusal::Refusal;
use schedule::schedule::Schedule;
use std::env;
use std::num::TryFromIntError;

// The words of the command as numbers.
#[derive(Clone, Copy, Debug, PartialEq, Eq)]
pub(crate) struct Request {
    benchmark: BenchmarkCode,
    start: i64,
    end: i64,
    lag: i64,
    shift: i64,
    lockout: i64,
    floor: i64,
}

#[derive(Clone, Copy, Debug, PartialEq, Eq)]
pub(crate) struct Layers {
    pub lag: Offset,
    pub shift: Offset,
    pub lockout: Offset,
    pub floor: Rate,
}

const USAGE: &str = "usage: observe SOFR|SONIA|ESTR START END LAG SHIFT LOCKOUT FLOOR";

fn number_in(word: Option<String>) -> anyhow::Result<i64> {
    Ok(word.context(USAGE)?.as_str().parse()?)
}

pub(crate) fn request_in(rt: &HostRuntime) -> anyhow::Result<Request> {
    let mut words = env::args(rt)?.skip(1);
    Ok(Request {
        benchmark: words.next().context(USAGE)?.as_str().parse()?,
        start: number_in(words.next())?,
        end: number_in(words.next())?,
        lag: number_in(words.next())?,
        shift: number_in(words.next())?,
        lockout: number_in(words.next())?,
        floor: number_in(words.next())?,
    })
}

// What is made of a number, or the refusal of one that its maker does not take.
fn judged<N, Q, F>(number: i64, outside: Refusal, make: F) -> Result<Q, Refusal>
where
    N: TryFrom<i64, Error = TryFromIntError>,
    F: FnOnce(N) -> Result<Q, Refusal>,
    requires { F.IsAlwaysCallable make }
{
    make(N::try_from(number).map_err(|_| outside)?)
}

// Builds the schedule, by TARGET for €STR and over weekdays for the others, and judges the layers after it.
pub(crate) fn arranged(
    request: Request,
    published: BenchmarkCode,
    weekdays: &HolidayList,
    schedule: &mut Schedule,
) -> Result<Layers, Refusal> {
    if published != request.benchmark {
        return Err(Refusal::OutOfRange);
    }
    let start = judged(request.start, Refusal::OutOfRange, Date::new)?;
    let end = judged(request.end, Refusal::OutOfRange, Date::new)?;
    // One call in either arm: a `dyn` calendar would be made for it alone.
    match request.benchmark {
        BenchmarkCode::Estr => schedule.build(&Target, start, end)?,
        BenchmarkCode::Sofr | BenchmarkCode::Sonia => schedule.build(weekdays, start, end)?,
    }
    Ok(Layers {
        lag: judged(request.lag, Refusal::OutOfLimits, Offset::new)?,
        shift: judged(request.shift, Refusal::OutOfLimits, Offset::new)?,
        lockout: judged(request.lockout, Refusal::OutOfLimits, Offset::new)?,
        floor: judged(request.floor, Refusal::OutOfLimits, floor_of)?,
    })
}
