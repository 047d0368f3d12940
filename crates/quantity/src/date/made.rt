// The making of a date: apart from its type, since the definition of refusals names dates.
ghost use Rattle.std.specs.Prelude.{◌≡◌, ◌<◌, MatchResult};
ghost use Rattle.quantity.specs.Refusals.{told, plain};

use crate::date::Date;
use crate::refusal::Refusal;

impl Date {
    // The date of a number, or refusal 2 past the last one.
    pub fn new(number: u32) -> Result<Date, Refusal>
        ensures { MatchResult result (λ d. d.number ≡ number) (λ e. (73048 < number) × (told e ≡ plain 2)) }
    {
        if number <= Self::LAST {
            Ok(Date { number })
        } else {
            Err(Refusal::OutOfRange)
        }
    }
}
