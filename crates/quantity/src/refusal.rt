// Why a call is turned down.
ghost use Rattle.std.specs.Prelude.{◌≡◌, ◌≤◌};
ghost use Rattle.quantity.specs.Refusals.{told};
ghost use Rattle.quantity.specs.declared.refusal.Refusal.TheVariants.{Faulted};

use crate::fault::Fault;
use std::error::Error;
use std::fmt;

#[derive(Clone, Copy, Debug, PartialEq, Eq)]
pub enum Refusal {
    // the field at an offset is cut short or not due there, or its count is false
    Malformed(usize),
    // a benchmark, a date or a source's rate outside its values, or a rate off the step
    OutOfRange,
    // more fixings or holidays than there is room for
    TooMany,
    // a file's date or a holiday that is not above the one before
    NotRising,
    // post of a date that is in the book
    Posted,
    // restate of a date that is not in the book
    NotPosted,
    // an end that is not after the start, or over 400 days after it
    Period,
    // a start or an end that is not a good day
    NotGood,
    // neighbours over 15 days apart, or under 64 good days before the start
    Apart,
    // an argument of the terms outside its limits
    OutOfLimits,
    // a position outside the pile, or no fixing
    Faulted(Fault),
    // a step's letter that is not listed
    UnknownStep,
    // a call that is not allowed in this phase
    WrongPhase,
    // accrue where every day has its line
    AllAccrued,
    // a pile of another period, or whose day is not the one that is due
    OtherPeriod,
    // a sum of weights over 400
    TooHeavy,
    // a position that is not one of the lines
    BeyondLines,
    // close where a day has no line
    NotAllAccrued,
    // a due whose figures differ
    OtherFigures,
}

impl Refusal {
    // The number under which it is reported; within the engine a refusal is the enum.
    pub fn number(self) -> u8
        ensures value { result ≡ (told self).number }
        ensures listed { (1 ≤ result) × (result ≤ 20) }
    {
        match self {
            Refusal::Malformed(_) => 1,
            Refusal::OutOfRange => 2,
            Refusal::TooMany => 3,
            Refusal::NotRising => 4,
            Refusal::Posted => 5,
            Refusal::NotPosted => 6,
            Refusal::Period => 7,
            Refusal::NotGood => 8,
            Refusal::Apart => 9,
            Refusal::OutOfLimits => 10,
            Refusal::Faulted(fault) => fault.number(),
            Refusal::UnknownStep => 13,
            Refusal::WrongPhase => 14,
            Refusal::AllAccrued => 15,
            Refusal::OtherPeriod => 16,
            Refusal::TooHeavy => 17,
            Refusal::BeyondLines => 18,
            Refusal::NotAllAccrued => 19,
            Refusal::OtherFigures => 20,
        }
    }

    fn reason(self) -> &'static str {
        match self {
            Refusal::Malformed(_) => "a field is cut short, is not due here or has a false count",
            Refusal::OutOfRange => {
                "a benchmark, date or rate is outside its values, or a rate is off the step"
            }
            Refusal::TooMany => "there are too many fixings or holidays",
            Refusal::NotRising => "a date is not above the one before",
            Refusal::Posted => "the book has a fixing of this date",
            Refusal::NotPosted => "the book has no fixing of this date",
            Refusal::Period => "the end is not after the start, or over 400 days after it",
            Refusal::NotGood => "the start or the end is not a good day",
            Refusal::Apart => {
                "neighbours are over 15 days apart, or under 64 good days lie before the start"
            }
            Refusal::OutOfLimits => {
                "a floor, amount, margin, rule, lag, shift, lockout or weight is outside its limits"
            }
            Refusal::Faulted(fault) => fault.reason(),
            Refusal::UnknownStep => "the step's letter is not listed",
            Refusal::WrongPhase => "the call is not allowed in this phase",
            Refusal::AllAccrued => "every day has its line",
            Refusal::OtherPeriod => "the pile is of another period, or its day is not the one due",
            Refusal::TooHeavy => "the sum of weights would pass 400",
            Refusal::BeyondLines => "the position is not one of the lines",
            Refusal::NotAllAccrued => "a day has no line",
            Refusal::OtherFigures => "the figures of the due differ",
        }
    }
}

// A fault is refused as it is.
impl From<Fault> for Refusal {
    ghost from_gives = { λ fault refusal. refusal ≡ Faulted fault };

    fn from(fault: Fault) -> Refusal {
        Self::Faulted(fault)
    }
}

// The number and the reason in words.
impl fmt::Display for Refusal {
    fn fmt<W: fmt::Write>(&self, f: &mut fmt::Formatter<W>) -> fmt::Result {
        write!(f, "{}, {}", self.number(), self.reason())
    }
}

impl Error for Refusal {}
