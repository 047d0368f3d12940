// The kept book of one benchmark.
ghost use Rattle.std.specs.Prelude.{◌≡◌, ◌+◌, ◌≤◌, true, take, replicate, pos};
ghost use Rattle.quantity.specs.Orders.{rises};
ghost use Rattle.quantity.specs.Refusals.{refused};
ghost use Rattle.fixings.specs.Fixings.{all_on_step, dates_of, rates_of, Inserted, judge_known, judge_room, judge_step, Listed, Restated, Unless};
ghost use Rattle.fixings.specs.Sources.{rate_at};

use crate::fixing::Fixing;
use crate::search::rank;
use crate::source::Source;
use quantity::benchmark::BenchmarkCode;
use quantity::date::Date;
use quantity::dated::find;
use quantity::rate::Rate;
use quantity::refusal::Refusal;

pub const CAPACITY: usize = 600;

// At most 600 fixings of one benchmark, dates rising and rates on its step, at the front of a table.
// The table is of fixed size with a count beside it, since a book takes no memory from the heap. It is searched as any slice of `Dated` records is.
// Clauses write `take count records`: a definition over `Book` is out of reach here, since its ghost fields import what this file imports.
#[derive(Drop)]
pub struct Book {
    benchmark: BenchmarkCode,
    records: [Fixing; CAPACITY],
    count: usize,
    ghost few: { count ≤ 600 },
    ghost rising: { rises (dates_of (take count records)) ≡ true },
    ghost stepped: { all_on_step benchmark (take count records) ≡ true },
}

impl Book {
    // The book of a benchmark, without fixings.
    #[tactic(auto, unfolding(crate::specs::Fixings::all_on_step))]
    pub fn new(benchmark: BenchmarkCode) -> Book
        ensures benchmark { result.benchmark ≡ benchmark }
        ensures empty { result.count ≡ 0 }
        ensures unused { (dates_of result.records ≡ replicate 600 0) × (rates_of result.records ≡ replicate 600 (pos 0)) }
    {
        let unused = Fixing {
            date: Date::first(),
            rate: Rate::zero(),
        };
        Book {
            benchmark,
            records: [unused; CAPACITY],
            count: 0,
        }
    }

    // The benchmark whose rates these are.
    pub fn benchmark(&self) -> BenchmarkCode
        ensures { result ≡ self.now.benchmark }
    {
        self.benchmark
    }

    // The fixings, at the front of the table.
    fn kept(&self) -> &[Fixing]
        ensures { result.now ≡ take self.now.count self.now.records }
    {
        &self.records[..self.count]
    }

    // Alters the rate of the fixing of a date, and nothing else.
    #[tactic(auto, using(quantity::proofs::Has::has_first, crate::proofs::Steps::set_altered, crate::proofs::Steps::altered_rises, crate::proofs::Steps::altered_stepped), unfolding(crate::specs::Fixings::judge_known, crate::specs::Fixings::judge_step))]
    pub fn restate(&mut self, date: Date, rate: Rate) -> Result<(), Refusal>
        ensures judged { refused result ≡ judge_step self.old.benchmark rate.ticks (judge_known self.old.records self.old.count date.number) }
        ensures done { Unless result self.old self.new (Restated self.old.records self.old.count date.number rate self.new.records × (self.new.count ≡ self.old.count) × (self.new.benchmark ≡ self.old.benchmark)) }
    {
        if !self.benchmark.is_on_step(rate) {
            return Err(Refusal::OutOfRange);
        }
        let i = find(self.kept(), date).ok_or(Refusal::NotPosted)?;
        self.records[i].rate = rate;
        Ok(())
    }

    // Adds a fixing in its place.
    #[tactic(auto, using(quantity::proofs::Has::has_first), unfolding(crate::specs::Fixings::judge_room, crate::specs::Fixings::judge_step))]
    pub fn post(&mut self, date: Date, rate: Rate) -> Result<(), Refusal>
        ensures judged { refused result ≡ judge_step self.old.benchmark rate.ticks (judge_room self.old.records self.old.count date.number) }
        ensures done { Unless result self.old self.new (Inserted self.old.records self.old.count (record { date = date; rate = rate }) self.new.records × (self.new.count ≡ self.old.count + 1) × (self.new.benchmark ≡ self.old.benchmark)) }
    {
        if !self.benchmark.is_on_step(rate) {
            return Err(Refusal::OutOfRange);
        }
        let n = self.count;
        if n >= CAPACITY {
            return Err(Refusal::TooMany);
        }
        let kept = self.kept();
        if find(kept, date).is_some() {
            return Err(Refusal::Posted);
        }
        let i = rank(kept, date);
        self.records[n] = Fixing { date, rate };
        self.records[i..=n].rotate_right(1);
        self.count = n + 1;
        Ok(())
    }

    // Puts each fixing once at the front of an area, in an order that is not promised, and answers their number; the rest of the area is left.
    pub fn list(&self, area: &mut [Fixing; CAPACITY]) -> usize
        ensures count { result ≡ self.now.count }
        ensures listed { Listed (take self.now.count self.now.records) area.old area.new }
    {
        let kept = self.kept();
        area[..kept.len()].copy_from_slice(kept);
        kept.len()
    }
}

impl Source for Book {
    ghost rates = { λ t d. rate_at (take t.count t.records) d.number };

    fn rate(&self, date: Date) -> Option<Rate> {
        let kept = self.kept();
        let i = find(kept, date)?;
        Some(kept[i].rate)
    }
}
