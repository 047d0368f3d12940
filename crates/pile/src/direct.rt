ghost use Rattle.std.specs.Prelude.{◌≡◌};
ghost use Rattle.pile.specs.Direct.{direct, Weighs};
ghost use Rattle.pile.specs.Joined.{direct_lawful};

use crate::fault::{inside, outside};
use crate::observations::{Observations, ObservedRate};
use fixings::source::Source;
use quantity::date::Date;
use quantity::fault::{Cause, Fault};
use quantity::position::Position;
use quantity::weight::Weight;
use schedule::lent::AsSchedule;

// The days of a schedule, each with the source's rate on that day, and for its weight the days to the next.
#[derive(Drop)]
pub struct Direct<S, F> {
    schedule: S,
    source: F,
}

impl<S: AsSchedule, F> Direct<S, F> {
    // The pile of a schedule and a source. Its weights are the days from each position to the next.
    #[tactic(auto, using(crate::specs::Joined::weighs))]
    pub fn new(schedule: S, source: F) -> Direct<S, F>
        ensures schedule { result.schedule ≡ schedule }
        ensures source { result.source ≡ source }
        ensures weighs { Weighs (S.AsSchedule.schedule schedule) }
    {
        Direct { schedule, source }
    }
}

impl<S: AsSchedule, F: Source> Observations for Direct<S, F> {
    ghost meaning = { λ d. direct (S.AsSchedule.schedule d.schedule) (F.Source.rates d.source) };

    ghost lawful = { λ d. direct_lawful (S.AsSchedule.schedule d.schedule) (F.Source.rates d.source) };

    fn length(&self) -> u32 {
        self.schedule.as_schedule().length()
    }

    fn day(&self, i: Position) -> Result<Date, Fault> {
        self.schedule.as_schedule().day(i).ok_or(outside(i))
    }

    fn weight(&self, i: Position) -> Result<Weight, Fault> {
        let gap = self.schedule.as_schedule().gap(i).ok_or(outside(i))?;
        Ok(Weight::new(gap).unwrap())
    }

    fn rate(&self, i: Position) -> Result<ObservedRate, Fault> {
        inside(i, self.length())?;
        let observed = self.day(i)?;
        let rate = self.source.rate(observed).ok_or(Fault {
            cause: Cause::NoFixing(observed),
            position: i,
            above: 0,
        })?;
        Ok(ObservedRate { rate, observed })
    }
}
