// Lines begun, added and taken back.
ghost use Rattle.std.specs.Prelude.{◌≡◌, ◌-◌, [], ◌∷◌, ◌++◌, pos, IfOk, MatchResult};
ghost use Rattle.quantity.specs.Refusals.{answered, refused};
ghost use Rattle.rules.specs.Rate.{SmallAmount};
ghost use Rattle.coupon.specs.Coupons.{Blank, Took, borne, held};
ghost use Rattle.coupon.specs.Lines.{line_after, weight_of};
ghost use Rattle.coupon.specs.Verdicts.{admitted, beyond, due_day, front, lightest, refusal_of};

use crate::day::{Day, observe, position};
use crate::line::Line;
use crate::lines::Lines;
use crate::lines::reading::count_of;
use crate::terms::Terms;
use pile::observations::Observations;
use quantity::amount::CalculationAmount;
use quantity::benchmark::BenchmarkCode;
use quantity::date::Date;
use quantity::days::DayCount;
use quantity::margin::Margin;
use quantity::position::Position;
use quantity::refusal::Refusal;
use rules::bounds::ModerateBounds;
use rules::observation::Observation;
use rules::report::{amount, reported};
use rules::rule::{AccrualRule, Rule};
use std::alloc::{AllocError, Global};

// The days from one date to a later one; none back to an earlier.
fn days_between(from: Date, to: Date) -> DayCount
    ensures { result.days ≡ to.number - from.number }
{
    to.since(from).unwrap_or(DayCount::new(0))
}

impl Lines {
    // No lines, and the terms of a period of no days, with room for the lines of any period: nothing else takes memory.
    pub fn new(heap: Global) -> Result<Lines, AllocError>
        ensures { IfOk result (λ l. Blank l.terms × (held l ≡ [])) }
    {
        let lines = Vec::with_capacity(heap, 400)?;
        Ok(Lines {
            terms: Terms {
                n: 0,
                start: Date::first(),
                end: Date::first(),
                rule: Rule::Compounded,
                benchmark: BenchmarkCode::Sofr,
                note: 0,
                amount: CalculationAmount::new(1).unwrap(),
                margin: Margin::new(0).unwrap(),
            },
            lines,
        })
    }

    // Begins anew on these terms, with no lines.
    pub fn begin(&mut self, terms: Terms)
        ensures terms { self.new.terms ≡ terms }
        ensures none { held self.new ≡ [] }
    {
        self.lines.clear();
        self.terms = terms;
    }

    // The pile's day for the next line, or why there is none.
    fn due_day<P: Observations>(&self, pile: &P) -> Result<Day, Refusal>
        ensures { answered result ≡ due_day self.now.terms (borne self.now) (P.meaning pile.now) }
    {
        let k = self.count();
        if k >= self.terms.n {
            return Err(Refusal::AllAccrued);
        }
        if !self.is_of_period(pile) || pile.day(position(k)) != Ok(self.next_date()) {
            return Err(Refusal::OtherPeriod);
        }
        Ok(observe(pile, k)?)
    }

    // The line of one day more, or refusal 17 where the sum of weights would pass 400.
    fn next_line(&self, day: Day) -> Result<Line, Refusal>
        ensures judged { refused result ≡ refusal_of (lightest (weight_of (borne self.now)) day) }
        ensures value { IfOk result (λ l. l ≡ line_after self.now.terms (borne self.now) day) }
        ensures modest { IfOk result (λ l. SmallAmount l.cumulative) }
    {
        let total = self.total().plus(day.weight)?;
        let base = self.terms.benchmark.year_base();
        let seen = Observation {
            rate: day.rate,
            weight: day.weight,
        };
        let bounds = self
            .terms
            .rule
            .step(base, self.count(), self.moderate(), seen);
        let moderate = ModerateBounds::new(bounds).unwrap();
        let report = reported(base, total, moderate).unwrap();
        let days = days_between(self.terms.start, day.next);
        let cumulative = amount(
            base,
            self.terms.amount,
            report.rate,
            self.terms.margin,
            days,
        );
        Ok(Line {
            day,
            total: total.days(),
            bounds,
            reported: report.rate.places(),
            settled: report.settled,
            cumulative,
            daily: cumulative - self.cumulative(),
        })
    }

    // Adds the line of the pile's next day.
    pub fn accrue<P: Observations>(&mut self, pile: &P) -> Result<(), Refusal>
        ensures judged { refused result ≡ refusal_of (admitted self.old.terms (borne self.old) (P.meaning pile.now)) }
        ensures took { Took (admitted self.old.terms (borne self.old) (P.meaning pile.now)) self.old self.new }
    {
        let day = self.due_day(pile)?;
        let line = self.next_line(day)?;
        self.lines.push_reserved(line);
        Ok(())
    }

    // Leaves the first j lines, or refuses with 18 where there are fewer.
    pub fn wind_back(&mut self, j: Position) -> Result<(), Refusal>
        ensures judged { refused result ≡ beyond (borne self.old) j.value }
        ensures left { MatchResult result (λ _. (self.new.terms ≡ self.old.terms) × (borne self.new ≡ front j.value (borne self.old))) (λ _. self.new ≡ self.old) }
    {
        let count = count_of(j)?;
        if count > self.lines.len() {
            return Err(Refusal::BeyondLines);
        }
        self.lines.truncate(count);
        Ok(())
    }
}
