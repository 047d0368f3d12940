// The list calendar.
ghost use Rattle.std.specs.Prelude.{◌≡◌, ◌≤◌, true, [], ◌∷◌, ◌++◌, IfOk, vec_len, vec_capacity, MatchResult};
ghost use Rattle.quantity.specs.Orders.{rises};
ghost use Rattle.quantity.specs.Refusals.{refused};
ghost use Rattle.calendar.specs.Holidays.{day_numbers, is_list_day, judge_holiday};
ghost use borrow.Author.Rules.{rules};

use crate::calendar::Calendar;
use crate::civil::is_weekend;
use quantity::date::Date;
use quantity::dated::find;
use quantity::refusal::Refusal;
use std::alloc::{AllocError, Global};

pub const MOST_HOLIDAYS: usize = 2_000;

// Monday to Friday, less at most 2,000 holidays, for which the memory is taken where the list is made.
#[derive(Drop)]
pub struct HolidayList {
    holidays: Vec<Date>,
    ghost few: { vec_len holidays ≤ 2000 },
    ghost room: { 2000 ≤ vec_capacity holidays },
    ghost rising: { rises (day_numbers holidays.items) ≡ true },
}

impl HolidayList {
    // No holidays.
    pub fn new(heap: Global) -> Result<HolidayList, AllocError>
        ensures { IfOk result (λ c. c.holidays.items ≡ []) }
    {
        let holidays = Vec::with_capacity(heap, MOST_HOLIDAYS)?;
        Ok(HolidayList { holidays })
    }

    // Adds a holiday above the last.
    #[tactic(auto, using(crate::proofs::Rising::pushed), unfolding(crate::specs::Holidays::judge_holiday))]
    pub fn add(&mut self, number: u32) -> Result<(), Refusal>
        ensures judged { refused result ≡ judge_holiday (day_numbers self.old.holidays.items) number }
        ensures added { MatchResult result (λ _. day_numbers self.new.holidays.items ≡ day_numbers self.old.holidays.items ++ number ∷ []) (λ _. self.new ≡ self.old) }
    {
        let date = Date::new(number)?;
        if self.holidays.len() >= MOST_HOLIDAYS {
            return Err(Refusal::TooMany);
        }
        if self.holidays.last().is_some_and(|last| date <= *last) {
            return Err(Refusal::NotRising);
        }
        self.holidays.push_reserved(date);
        Ok(())
    }
}

impl Calendar for HolidayList {
    ghost good = { λ c d. is_list_day (day_numbers c.holidays.items) d };

    ghost within = { unfold is_list_day in λ c d h. Prim.search rules };

    // The search goes from the front: it is the one generic search over a slice of `Dated` records, for holidays and
    // kept fixings alike.
    #[tactic(auto, using(quantity::proofs::Has::has_first), unfolding(crate::specs::Holidays::is_list_day))]
    fn is_good(&self, date: Date) -> bool {
        !is_weekend(date) && find(&self.holidays, date).is_none()
    }
}
