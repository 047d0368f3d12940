// An issuer's account held against a holder's, and a coupon accrued anew over a restated pile.
ghost use Rattle.std.specs.Prelude.{◌≡◌, [], ◌∷◌, pos};
ghost use Rattle.account.specs.Openings.{Anew};
ghost use Rattle.account.specs.Reconciliations.{Reconciling, Replayed, meanings};
ghost use Rattle.account.specs.Tally.{accrue, check, wind_back};

use crate::account::Account;
use crate::offer::Offer;
use crate::phase::{Kind, transition};
use pile::observations::Observations;
use quantity::position::Position;
use quantity::refusal::Refusal;

impl Account {
    // Accrues over the piles in their order, and says whether each accrual went through.
    fn replay<P: Observations>(&mut self, piles: &[&P]) -> bool
        ensures { Replayed (meanings P.meaning piles.now) self.old self.new result }
    {
        // a `fold` would hide from the proof what its closure does to the account
        let mut all = true;
        for pile in piles {
            all &= self.accrue(*pile).is_ok();
        }
        all
    }
}

// Opens the holder's account on the issuer's terms, accrues over the piles in their order, and answers whether every accrual went
// through and all lines are the same. They are, if these are the piles that gave the issuer's standing days. Refusal 14 for an
// issuer's account that is empty, or a holder's account in use, which stays as it was.
pub fn reconcile<P: Observations>(
    issuer: &Account,
    holder: &mut Account,
    piles: &[&P],
) -> Result<bool, Refusal>
    ensures { Reconciling (meanings P.meaning piles.now) issuer.now holder.old holder.new result }
{
    transition(issuer.phase, Kind::Read)?;
    transition(holder.phase, Kind::Open)?;
    holder.begin(issuer.lines.terms());
    let all = holder.replay(piles);
    Ok(all && issuer.lines.as_slice() == holder.lines.as_slice())
}

// A coupon opened and accrued over one pile, held against a restated one, wound back and accrued anew over that. The two piles may
// be of two types. Each call goes through or is turned down, and what is stated of every history holds of this one.
pub fn accrue_anew<P: Observations, Q: Observations>(
    account: &mut Account,
    offer: Offer,
    published: &P,
    restated: &Q,
) -> Result<(), Refusal>
    ensures { Anew (P.Observations.meaning published.now) offer (accrue (P.Observations.meaning published.now) ∷ check (Q.Observations.meaning restated.now) ∷ wind_back (pos 0) ∷ accrue (Q.Observations.meaning restated.now) ∷ []) account.old account.new result }
{
    account.open(published, offer)?;
    let _ = account.accrue(published);
    let _ = account.check(restated);
    let _ = account.wind_back(Position::new(0));
    let _ = account.accrue(restated);
    Ok(())
}
