ghost use Rattle.std.specs.Prelude.{◌≡◌, ◌+◌, ◌-◌, ◌<◌, ◌≤◌, true, MatchOption, MatchResult, OnOk};
ghost use Rattle.schedule.specs.Meaning.{Same, Scheduled};
ghost use Rattle.quantity.specs.Refusals.{told};
ghost use Rattle.schedule.specs.Refusals.{Refused};
ghost use Rattle.schedule.specs.Rank.{rank, Before, NoneBefore};
ghost use Rattle.schedule.specs.Filled.{Filled, Stuck};

use crate::schedule::Schedule;
use calendar::calendar::Calendar;
use quantity::date::Date;
use quantity::days::DayCount;
use quantity::refusal::Refusal;

// The last good day among the 15 before `day`. A loop, since the check finds no proof for a chain with `find_map`.
fn before<C: Calendar>(calendar: &C, day: Date) -> Option<Date>
    ensures { MatchOption result (NoneBefore (C.good calendar.now) day.number) (λ e. Before (C.good calendar.now) e.number day.number) }
{
    for back in 1..=15u32 {
        let earlier = day.minus(DayCount::new(back))?;
        if calendar.is_good(earlier) {
            return Some(earlier);
        }
    }
    None
}

// How many good days there are from `start` to the day before `end`.
fn count<C: Calendar>(calendar: &C, start: Date, end: Date) -> u32
    requires { start.number ≤ end.number }
    ensures few { start.number + result ≤ end.number }
    ensures ranked { rank (C.good calendar.now) start.number + result ≡ rank (C.good calendar.now) end.number }
{
    (start.number()..end.number())
        .filter(|number| Date::new(*number).is_ok_and(|day| calendar.is_good(day)))
        .count() as u32
}

// The days of positions -64 to n, found backwards from the end, by index since each comes from the one after it;
// none where a day has no good day among the 15 before it.
fn fill<C: Calendar>(calendar: &C, end: Date, n: u32) -> Option<[Date; 465]>
    requires few { n ≤ 400 }
    requires good_end { C.good calendar.now end.number ≡ true }
    ensures { MatchOption result (Stuck (C.good calendar.now) end.number n) (λ days. Filled (C.good calendar.now) end n days) }
{
    let mut days = [end; 465];
    for k in (0..n as usize + 64).rev() {
        days[k] = before(calendar, days[k + 1])?;
    }
    Some(days)
}

impl Schedule {
    // Writes the schedule of these dates over this one, or leaves it as it is.
    pub fn build<C: Calendar>(
        &mut self,
        calendar: &C,
        start: Date,
        end: Date,
    ) -> Result<(), Refusal>
        ensures built { MatchResult result (λ _. Scheduled (C.good calendar.now) start end self.new) (λ e. Refused (C.good calendar.now) start.number end.number (told e) × (self.new ≡ self.old)) }
        ensures only { OnOk result ((s : Schedule) → Scheduled (C.good calendar.now) start end s → Same s self.new) }
    {
        if end <= start || end.number() > start.number() + 400 {
            return Err(Refusal::Period);
        }
        if !calendar.is_good(start) || !calendar.is_good(end) {
            return Err(Refusal::NotGood);
        }
        let n = count(calendar, start, end);
        let days = fill(calendar, end, n).ok_or(Refusal::Apart)?;
        *self = Schedule { days, n };
        Ok(())
    }
}
