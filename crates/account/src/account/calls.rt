// The calls of an account.
ghost use Rattle.std.specs.Prelude.{◌≡◌, [], IfOk, MatchResult, Some, None, Ok, Err};
ghost use Rattle.coupon.specs.Coupons.{Blank, held};
ghost use Rattle.coupon.specs.Lines.{figures_of};
ghost use Rattle.quantity.specs.Refusals.{answered, told};
ghost use Rattle.account.specs.Phases.{settled_phase};
ghost use Rattle.account.specs.Tally.{accrue, check, wind_back, close, withdraw, pay, read, status, judge, same_figures};
ghost use Rattle.account.specs.Accounts.{tally_of, terms_of, standing_of};
ghost use Rattle.account.specs.Replies.{accrue_answer, check_answer, close_answer, line_answer, pay_answer, status_answer, wind_back_answer, withdraw_answer};
ghost use Rattle.account.specs.Histories.{Done};
ghost use Rattle.account.specs.declared.phase.Phase.TheVariants.{Empty};

use crate::account::Account;
use crate::due::{Due, Receipt, Returned};
use crate::phase::{Kind, Phase, transition};
use crate::request::Status;
use coupon::figures::Figures;
use coupon::line::Line;
use coupon::lines::Lines;
use pile::observations::Observations;
use quantity::position::Position;
use quantity::refusal::Refusal;
use std::alloc::{AllocError, Global};

impl Account {
    // An empty account, with room for the lines of any period: no other call takes memory.
    pub fn new(heap: Global) -> Result<Account, AllocError>
        ensures { IfOk result (λ a. (a.phase ≡ Empty) × (Blank a.lines.terms × (held a.lines ≡ []))) }
    {
        let lines = Lines::new(heap)?;
        Ok(Account {
            phase: Phase::Empty,
            lines,
        })
    }

    // Adds the line of the pile's next day.
    pub fn accrue<P: Observations>(&mut self, pile: &P) -> Result<(), Refusal>
        ensures { Done (accrue (P.meaning pile.now)) self.old self.new (accrue_answer result) }
    {
        let phase = transition(self.phase, Kind::Accrue)?;
        self.lines.accrue(pile)?;
        self.phase = phase;
        Ok(())
    }

    // Leaves the first j lines.
    pub fn wind_back(&mut self, j: Position) -> Result<(), Refusal>
        ensures { Done (wind_back j.value) self.old self.new (wind_back_answer result) }
    {
        let phase = transition(self.phase, Kind::WindBack)?;
        self.lines.wind_back(j)?;
        self.phase = phase;
        Ok(())
    }

    // The first position where the pile differs from the lines or faults, or else the number of lines.
    pub fn check<P: Observations>(&self, pile: &P) -> Result<Position, Refusal>
        ensures { Done (check (P.meaning pile.now)) self.now self.now (check_answer result) }
    {
        transition(self.phase, Kind::Check)?;
        self.lines.check(pile)
    }

    // Closes an account that has a line for each day. Withdraw and pay take its due as long as the account stays as it is.
    pub fn close(&mut self) -> Result<Due, Refusal>
        ensures done { Done close self.old self.new (close_answer result) }
        ensures accepted { IfOk result (λ d. (judge (terms_of self.new) (tally_of self.new) (withdraw d.figures) ≡ None) × (judge (terms_of self.new) (tally_of self.new) (pay d.figures) ≡ None)) }
    {
        let phase = transition(self.phase, Kind::Close)?;
        if self.lines.count() < self.lines.terms().n {
            return Err(Refusal::NotAllAccrued);
        }
        let figures = self.lines.figures().ok_or(Refusal::NotAllAccrued)?;
        self.phase = phase;
        Ok(Due { figures })
    }

    // The phase that a call with a due leads to, if the due's figures are the account's.
    fn settled_phase(&self, kind: Kind, figures: Figures) -> Result<Phase, Refusal>
        ensures { answered result ≡ settled_phase self.now.phase kind (same_figures figures (figures_of (terms_of self.now) (standing_of self.now))) }
    {
        let phase = transition(self.phase, kind)?;
        if Some(figures) != self.lines.figures() {
            return Err(Refusal::OtherFigures);
        }
        Ok(phase)
    }

    // The phase that a call with a due leads to, and the figures of the due, which is used up; or the due given back, with why.
    fn settle(&self, kind: Kind, due: Due) -> Result<(Phase, Figures), Returned>
        ensures { let phase = settled_phase self.now.phase kind (same_figures due.figures (figures_of (terms_of self.now) (standing_of self.now))) in
            MatchResult result (λ s. (Ok s.0 ≡ phase) × (s.1 ≡ due.figures)) (λ r. (Err (told r.refusal) ≡ phase) × (r.due ≡ due)) }
    {
        // the closure of a `map_err` would own the due, which the other arm uses up
        match self.settled_phase(kind, due.figures) {
            Ok(phase) => {
                let Due { figures } = due;
                Ok((phase, figures))
            }
            Err(refusal) => Err(Returned { refusal, due }),
        }
    }

    // Uses up the due of a closed account, which then accrues again.
    pub fn withdraw(&mut self, due: Due) -> Result<(), Returned>
        ensures { Done (withdraw due.figures) self.old self.new (withdraw_answer result) }
    {
        let (phase, _) = self.settle(Kind::Withdraw, due)?;
        self.phase = phase;
        Ok(())
    }

    // Takes the due of a closed account for a receipt.
    pub fn pay(&mut self, due: Due) -> Result<Receipt, Returned>
        ensures { Done (pay due.figures) self.old self.new (pay_answer result) }
    {
        let (phase, figures) = self.settle(Kind::Pay, due)?;
        self.phase = phase;
        Ok(Receipt { figures })
    }

    // The line at a position.
    pub fn line(&self, i: Position) -> Result<Line, Refusal>
        ensures { Done (read i.value) self.now self.now (line_answer result) }
    {
        transition(self.phase, Kind::Read)?;
        self.lines.line(i)
    }

    // The phase, the numbers of lines and of days, and the bounds.
    pub fn status(&self) -> Result<Status, Refusal>
        ensures { Done status self.now self.now (status_answer result) }
    {
        transition(self.phase, Kind::Read)?;
        Ok(Status {
            phase: self.phase,
            k: self.lines.count(),
            n: self.lines.terms().n,
            bounds: self.lines.bounds(),
        })
    }
}
