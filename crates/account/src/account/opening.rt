// Opening an account.
ghost use Rattle.std.specs.Prelude.{◌≡◌, ◌≤◌, pos, Ok};
ghost use Rattle.account.specs.Histories.{Opened};
ghost use Rattle.account.specs.Openings.{Opening};

use crate::account::Account;
use crate::offer::Offer;
use crate::phase::{Kind, Phase, transition};
use coupon::terms::Terms;
use pile::observations::Observations;
use quantity::amount::CalculationAmount;
use quantity::date::Date;
use quantity::margin::Margin;
use quantity::position::Position;
use quantity::refusal::Refusal;

// The pile's day at a position of its period.
fn day_of<P: Observations>(pile: &P, i: u32) -> Date
    requires { i ≤ (P.meaning pile.now).n }
    ensures { (P.meaning pile.now).day (pos i) ≡ Ok result }
{
    pile.day(Position::new(i as i32)).unwrap()
}

impl Account {
    // Begins anew on these terms.
    pub(crate) fn begin(&mut self, terms: Terms)
        requires { 1 ≤ terms.n }
        ensures { Opened terms self.new }
    {
        self.lines.begin(terms);
        self.phase = Phase::Accruing;
    }

    // Opens an empty or paid account for the pile's period.
    pub fn open<P: Observations>(&mut self, pile: &P, offer: Offer) -> Result<(), Refusal>
        ensures { Opening (P.meaning pile.now) offer self.old self.new result }
    {
        let amount = CalculationAmount::new(offer.amount)?;
        let margin = Margin::new(offer.margin)?;
        transition(self.phase, Kind::Open)?;
        let n = pile.length();
        self.begin(Terms {
            n,
            start: day_of(pile, 0),
            end: day_of(pile, n),
            rule: offer.rule,
            benchmark: offer.benchmark,
            note: offer.note,
            amount,
            margin,
        });
        Ok(())
    }
}
