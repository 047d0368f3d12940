// What the lines say, and a pile held against them.
ghost use Rattle.std.specs.Prelude.{◌≡◌, ◌≤◌, length, pos, ◌<ℤ◌, MatchResult};
ghost use Rattle.quantity.specs.Refusals.{answered, plain, told};
ghost use Rattle.rules.specs.Rate.{SmallAmount};
ghost use Rattle.coupon.specs.Days.{same_period};
ghost use Rattle.coupon.specs.Lines.{bounds_at, cumulative_of, days_of, figures_of, last_of, lines_of, next_date, weight_of};
ghost use Rattle.coupon.specs.Coupons.{borne, held};
ghost use Rattle.coupon.specs.Sound.{AddUp, Sound};
ghost use Rattle.coupon.specs.Verdicts.{checked, first_difference, line_at, position_at};

use crate::day::{observe, position};
use crate::figures::Figures;
use crate::line::Line;
use crate::lines::Lines;
use crate::terms::Terms;
use pile::observations::Observations;
use quantity::date::Date;
use quantity::days::DayCount;
use quantity::position::Position;
use quantity::refusal::Refusal;
use quantity::total::TotalWeight;
use rules::bounds::{Bounds, ModerateBounds};

// A position as a number of lines, or refusal 18 below 0.
pub(crate) fn count_of(i: Position) -> Result<usize, Refusal>
    ensures { MatchResult result (λ n. i.value ≡ pos n) (λ e. (i.value <ℤ pos 0) × (told e ≡ plain 18)) }
{
    usize::try_from(i.value()).map_err(|_| Refusal::BeyondLines)
}

impl Lines {
    pub fn terms(&self) -> Terms
        ensures { result ≡ self.now.terms }
    {
        self.terms
    }

    // How many lines there are.
    pub fn count(&self) -> u32
        ensures value { result ≡ length (borne self.now) }
        ensures few { result ≤ 400 }
    {
        self.lines.len() as u32
    }

    #[tactic(auto, using(crate::proofs::Rows::last_is))]
    pub(crate) fn last(&self) -> Option<Line>
        ensures { result ≡ last_of (held self.now) }
    {
        self.lines.last().copied()
    }

    // The sum of the weights.
    pub(crate) fn total(&self) -> TotalWeight
        ensures { result.days ≡ weight_of (borne self.now) }
    {
        let days = self.last().map_or(DayCount::new(0), |line| line.total);
        TotalWeight::new(days).unwrap()
    }

    // The bounds of the factor, which are one where there is no line.
    pub fn bounds(&self) -> Bounds
        ensures { result ≡ bounds_at self.now.terms (borne self.now) }
    {
        self.last()
            .map_or(ModerateBounds::one().bounds(), |line| line.bounds)
    }

    // The same, as bounds that an observation can follow.
    #[tactic(auto, using(crate::proofs::Owned::bounds_in_reach))]
    pub(crate) fn moderate(&self) -> ModerateBounds
        ensures { result.bounds ≡ bounds_at self.now.terms (borne self.now) }
    {
        ModerateBounds::new(self.bounds()).unwrap()
    }

    // The cumulative amount, which is 0 where there is no line.
    pub(crate) fn cumulative(&self) -> i64
        ensures value { result ≡ cumulative_of self.now.terms (borne self.now) }
        ensures small { SmallAmount result }
    {
        self.last().map_or(0, |line| line.cumulative)
    }

    // The date that the next line is for.
    pub(crate) fn next_date(&self) -> Date
        ensures { result ≡ next_date self.now.terms.start (borne self.now) }
    {
        self.last().map_or(self.terms.start, |line| line.day.next)
    }

    // What the coupon comes to by its lines, or none where there is no line.
    pub fn figures(&self) -> Option<Figures>
        ensures { result ≡ figures_of self.now.terms (borne self.now) }
    {
        self.last().map(|line| Figures {
            note: self.terms.note,
            start: self.terms.start,
            end: self.terms.end,
            reported: line.reported,
            settled: line.settled,
            cumulative: line.cumulative,
        })
    }

    // The lines, the oldest first: those that the rules give for the days, with what is true of these.
    #[tactic(auto, using(crate::proofs::Sound::sound_of, crate::proofs::Sound::add_up))]
    pub fn as_slice(&self) -> &[Line]
        ensures value { result.now ≡ lines_of self.now.terms (borne self.now) }
        ensures sound { Sound self.now.terms result.now (borne self.now) }
        ensures adds { AddUp result.now }
    {
        &self.lines
    }

    // The line at a position, or refusal 18 where there is none.
    pub fn line(&self, i: Position) -> Result<Line, Refusal>
        ensures { answered result ≡ line_at (lines_of self.now.terms (borne self.now)) i.value }
    {
        let count = count_of(i)?;
        self.lines.get(count).copied().ok_or(Refusal::BeyondLines)
    }

    // Whether a pile has the days of the period: their number, the start and the end.
    pub(crate) fn is_of_period<P: Observations>(&self, pile: &P) -> bool
        ensures { result ≡ same_period self.now.terms (P.meaning pile.now) }
    {
        let n = pile.length();
        n == self.terms.n
            && pile.day(position(0)) == Ok(self.terms.start)
            && pile.day(position(n)) == Ok(self.terms.end)
    }

    // The first position where a pile differs from the lines or faults, or else the position after them; refusal 16 for a pile of another period.
    pub fn check<P: Observations>(&self, pile: &P) -> Result<Position, Refusal>
        ensures { answered result ≡ checked self.now.terms (borne self.now) (P.meaning pile.now) }
    {
        if !self.is_of_period(pile) {
            return Err(Refusal::OtherPeriod);
        }
        Ok(first_difference(pile, &self.lines))
    }
}

fn first_difference<P: Observations>(pile: &P, lines: &[Line]) -> Position
    requires { length lines.now ≤ 400 }
    ensures { result ≡ position_at (first_difference (P.meaning pile.now) 0 (days_of lines.now)) }
{
    for (i, line) in lines.iter().enumerate() {
        if Ok(line.day) != observe(pile, i as u32) {
            return position(i as u32);
        }
    }
    position(lines.len() as u32)
}
