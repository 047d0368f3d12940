// Every call but opening, by one entry.
ghost use Rattle.account.specs.Histories.{Done};
ghost use Rattle.account.specs.Requests.{answer_of, call_of};

use crate::account::Account;
use crate::request::{Reply, Request, TurnedDown};
use pile::observations::Observations;

impl Account {
    // Makes a call. Whatever calls the account has had since it was opened, each over a pile of any type, what is stated of
    // every history holds with this one as the last. The match is the one place that turns a request into its call: the calls
    // differ in the types of their arguments and answers.
    pub fn perform<P: Observations>(&mut self, request: Request<'_, P>) -> Result<Reply, TurnedDown>
        ensures { Done (call_of P.meaning request.entry) self.old self.new (answer_of result) }
    {
        Ok(match request {
            Request::Accrue(pile) => {
                self.accrue(pile)?;
                Reply::Accrued
            }
            Request::Check(pile) => Reply::Agrees(self.check(pile)?),
            Request::WindBack(j) => {
                self.wind_back(j)?;
                Reply::WoundBack
            }
            Request::Close => Reply::NowDue(self.close()?),
            Request::Withdraw(due) => {
                self.withdraw(due)?;
                Reply::Withdrawn
            }
            Request::Pay(due) => Reply::Receipted(self.pay(due)?),
            Request::Read(i) => Reply::Holds(self.line(i)?),
            Request::Status => Reply::Stands(self.status()?),
        })
    }
}
