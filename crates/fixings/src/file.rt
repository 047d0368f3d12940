// The fixing file.
ghost use Rattle.std.specs.Prelude.{◌≡◌, ◌≤◌, true, [], map, length, is_ok, IfOk, Ok, Err, vec_len, vec_capacity, MatchResult, OnOk};
ghost use Rattle.quantity.specs.Refusals.{answered, told};
ghost use Rattle.quantity.specs.declared.benchmark.BenchmarkCode.TheVariants.{Sofr};
ghost use Rattle.fixings.specs.Sources.{rate_at};
ghost use Rattle.fixings.specs.Fields.{split};
ghost use Rattle.fixings.specs.Files.{entries_of, entry_of, first_field, lawful_from, length_of, parse, tail_of};

use crate::field::take_field;
use crate::fixing::Fixing;
use crate::reader::{FieldKind, Fields, MOST_FIXINGS};
use crate::search::place;
use crate::source::Source;
use quantity::benchmark::BenchmarkCode;
use quantity::date::Date;
use quantity::rate::Rate;
use quantity::refusal::Refusal;
use std::alloc::{AllocError, Global};

// The benchmark of a file, from its first field.
#[tactic(auto, unfolding(crate::specs::Files::first_field))]
fn first_field(input: &[u8]) -> Result<BenchmarkCode, Refusal>
    ensures first { first_field (split input.now) ≡ answered result }
    ensures long { OnOk result (4 ≤ length input.now) }
{
    let field = take_field(input).ok_or(Refusal::Malformed(0))?;
    match (FieldKind::try_from(field.tag), field.contents) {
        (Ok(FieldKind::Benchmark), [code]) => BenchmarkCode::try_from(*code),
        _ => Err(Refusal::Malformed(0)),
    }
}

// Judges the fields, and answers the offset of the end of the file.
#[tactic(auto, using(crate::proofs::Tails::step))]
fn judge_fields(mut fields: Fields<'_>) -> Result<usize, Refusal>
    ensures { length_of (tail_of fields.entry) ≡ answered result }
{
    while fields.read_next()?.is_some() {}
    Ok(fields.offset())
}

// Puts the fixings of fields that were judged into their place.
fn fill(fixings: &mut Vec<Fixing>, mut fields: Fields<'_>)
    requires first { fields.count ≡ 0 }
    requires room { 4000 ≤ vec_capacity fixings.old }
    requires good { is_ok (tail_of fields) ≡ true }
    ensures items { map entry_of fixings.new.items ≡ entries_of (tail_of fields.entry) }
    ensures few { vec_len fixings.new ≤ 4000 }
    ensures capacity { vec_capacity fixings.new ≡ vec_capacity fixings.old }
    ensures lawful { lawful_from fields.entry.benchmark fields.entry.least (map entry_of fixings.new.items) ≡ true }
{
    fixings.clear();
    // A field that was judged is not refused.
    while let Some(fixing) = fields.read_next().unwrap_or(None) {
        fixings.push_reserved(fixing);
    }
}

// The fixings of a file of one benchmark, in memory reserved for 4,000.
#[derive(Drop)]
pub struct FixingFile {
    benchmark: BenchmarkCode,
    fixings: Vec<Fixing>,
    ghost few: { vec_len fixings ≤ 4000 },
    ghost room: { 4000 ≤ vec_capacity fixings },
    ghost lawful: { lawful_from benchmark 0 (map entry_of fixings.items) ≡ true },
}

impl FixingFile {
    // A place for a file, which begins as one of SOFR without fixings.
    #[tactic(auto, unfolding(crate::specs::Files::lawful_from))]
    pub fn new(heap: Global) -> Result<FixingFile, AllocError>
        ensures { IfOk result (λ f. (f.benchmark ≡ Sofr) × (f.fixings.items ≡ [])) }
    {
        let fixings = Vec::with_capacity(heap, MOST_FIXINGS)?;
        Ok(FixingFile {
            benchmark: BenchmarkCode::Sofr,
            fixings,
        })
    }

    // Reads the file at the front of the input, and answers its length; later bytes are left alone.
    #[tactic(auto, unfolding(crate::specs::Files::parse))]
    pub fn read(&mut self, input: &[u8]) -> Result<usize, Refusal>
        ensures { MatchResult result (λ n. parse input.now ≡ Ok (record { benchmark = self.new.benchmark; tail = record { entries = map entry_of self.new.fixings.items; stop = n } })) (λ e. (parse input.now ≡ Err (told e)) × (self.new ≡ self.old)) }
    {
        let benchmark = first_field(input)?;
        let length = judge_fields(Fields::after_first(benchmark, input))?;
        fill(&mut self.fixings, Fields::after_first(benchmark, input));
        self.benchmark = benchmark;
        Ok(length)
    }

    // The benchmark whose rates these are.
    pub fn benchmark(&self) -> BenchmarkCode
        ensures { result ≡ self.now.benchmark }
    {
        self.benchmark
    }
}

impl Source for FixingFile {
    ghost rates = { λ f d. rate_at f.fixings.items d.number };

    #[tactic(auto, using(crate::proofs::Rising::lawful_rises))]
    fn rate(&self, date: Date) -> Option<Rate> {
        let fixings = self.fixings.as_slice();
        let i = place(fixings, date)?;
        Some(fixings[i].rate)
    }
}
