ghost use Rattle.std.specs.Prelude.{◌≡◌, ℕ, ◌+◌, ◌-◌, ◌<◌, min, if◌then◌else◌, Some, None};
ghost use Rattle.schedule.specs.Positions.{within};
ghost use Rattle.schedule.specs.Days.{at};
ghost use Rattle.schedule.specs.Meaning.{day_at, gap_at};

use crate::position::is_within;
use crate::schedule::Schedule;
use quantity::date::Date;
use quantity::days::DayCount;
use quantity::position::Position;

impl Schedule {
    // The schedule that a place begins with: 66 consecutive days from 2000-01-01, of which one accrues.
    pub fn new() -> Schedule
        ensures length { result.n ≡ 1 }
        ensures days { (k : ℕ) → k < 465 → at result.days k ≡ min k 65 }
    {
        // a loop, since `array::from_fn` takes over twice as long
        let mut days = [Date::first(); 465];
        for k in 0..465u32 {
            days[k as usize] = Date::new(k.min(65)).unwrap();
        }
        Schedule { days, n: 1 }
    }

    pub fn length(&self) -> u32
        ensures { result ≡ self.now.n }
    {
        self.n
    }

    // The day at a position from -64 to n.
    pub fn day(&self, i: Position) -> Option<Date>
        ensures { result ≡ (if within (self.now.n + 1) i.value then Some (day_at self.now i.value) else None) }
    {
        if !is_within(i, self.n + 1) {
            return None;
        }
        Some(self.days[(i.value() + 64) as usize])
    }

    // The days from a position, -64 to n - 1, to the next.
    pub fn gap(&self, i: Position) -> Option<DayCount>
        ensures { result ≡ (if within self.now.n i.value then Some (gap_at self.now i.value) else None) }
    {
        if !is_within(i, self.n) {
            return None;
        }
        let k = (i.value() + 64) as usize;
        self.days[k + 1].since(self.days[k])
    }
}
