// The fields after the first.
ghost use Rattle.std.specs.Prelude.{◌≡◌, ◌≢◌, ◌≤◌, cond, length, drop, Ok, Err, None, MatchResult, OnOk, ◌<◌};
ghost use Rattle.quantity.specs.Refusals.{at_field};
ghost use Rattle.fixings.specs.Files.{after, end_in, fixing_in, judge, judged, next_of, read, some};
ghost use Rattle.fixings.specs.Tags.{tag_of};

use crate::field::take_field;
use crate::fixing::Fixing;
use quantity::benchmark::BenchmarkCode;
use quantity::date::Date;
use quantity::refusal::Refusal;
use std::marker::Model;

pub const MOST_FIXINGS: usize = 4_000;

// What a field of a fixing file has: the benchmark, a fixing, or the number of fixings.
#[derive(Clone, Copy, Debug, PartialEq, Eq)]
pub(crate) enum FieldKind {
    Benchmark,
    Fixing,
    End,
}

// A tag that no field of a fixing file has.
#[derive(Clone, Copy, Debug, PartialEq, Eq)]
pub(crate) struct UnknownTag;

impl TryFrom<u8> for FieldKind {
    type Error = UnknownTag;

    ghost try_from_gives = { λ tag answer. MatchResult answer (λ kind. tag ≡ tag_of kind) (λ _. (tag ≢ 1) × (tag ≢ 2) × (tag ≢ 9)) };

    fn try_from(tag: u8) -> Result<FieldKind, UnknownTag> {
        match tag {
            1 => Ok(FieldKind::Benchmark),
            2 => Ok(FieldKind::Fixing),
            9 => Ok(FieldKind::End),
            _ => Err(UnknownTag),
        }
    }
}

// A reader of the fields after the first: where it stands in the file, the fixings that it has read, and the least day allowed.
// In this crate it alone counts offset and fixings by hand: a refusal names the offset, and the count is judged. It is no `Iterator`, since the
// offset is asked for after the last field, and what it has still to read is a value that contracts name.
#[derive(Drop)]
pub(crate) struct Fields<'a> {
    benchmark: BenchmarkCode,
    rest: &'a [u8],
    at: usize,
    count: usize,
    least: u32,
}

impl<'a> Model for Fields<'a> {
    ghost use Rattle.std.specs.Prelude.{◌+◌, ◌<◌, ◌≤◌, ◌^◌, length};
    ghost use Rattle.fixings.specs.Files.{Rest};

    ghost Value = { Rest };

    ghost view = { λ f. record { benchmark = f.benchmark; offset = f.at; count = f.count; least = f.least; bytes = f.rest.now } };

    ghost invariant = { λ f. (f.count ≤ 4000) × (f.at + length f.rest.now < 2 ^ 64) };
}

impl<'a> Fields<'a> {
    // A reader of a file whose first field takes 4 bytes, at the second field.
    pub(crate) fn after_first(benchmark: BenchmarkCode, input: &'a [u8]) -> Fields<'a>
        requires { 4 ≤ length input.now }
        ensures { result ≡ record { benchmark = benchmark; offset = 4; count = 0; least = 0; bytes = drop 4 input.now } }
    {
        Fields {
            benchmark,
            rest: &input[4..],
            at: 4,
            count: 0,
            least: 0,
        }
    }

    // The offset of the next field, or of the end of the file.
    pub(crate) fn offset(&self) -> usize
        ensures { result ≡ self.now.offset }
    {
        self.at
    }

    // A fixing of a file, by its day and its rate in ticks.
    #[tactic(auto, unfolding(crate::specs::Files::judge, crate::specs::Files::is_rate))]
    fn judge(&self, day: u32, ticks: i32) -> Result<Fixing, Refusal>
        ensures { judge self.now.benchmark self.now.count self.now.least (record { day = day; ticks = ticks }) ≡ judged result }
    {
        let date = Date::new(day)?;
        let rate = self.benchmark.published(ticks)?;
        if self.count >= MOST_FIXINGS {
            return Err(Refusal::TooMany);
        }
        if day < self.least {
            return Err(Refusal::NotRising);
        }
        Ok(Fixing { date, rate })
    }

    // A fixing of a file, by the contents of its field.
    #[tactic(auto, unfolding(crate::specs::Files::fixing_in, crate::specs::Files::judge))]
    fn fixing(&self, contents: &[u8]) -> Result<Fixing, Refusal>
        ensures size { OnOk result (length contents.now ≡ 8) }
        ensures room { OnOk result (self.now.count < 4000) }
        ensures judged { fixing_in self.now.benchmark self.now.offset self.now.count self.now.least contents.now ≡ some (judged result) }
    {
        let [a, b, c, d, e, f, g, h] = contents else {
            return Err(Refusal::Malformed(self.at));
        };
        let day = u32::from_be_bytes([*a, *b, *c, *d]);
        let ticks = i32::from_be_bytes([*e, *f, *g, *h]);
        self.judge(day, ticks)
    }

    // Whether the contents of a field are the number of fixings.
    #[tactic(auto, unfolding(crate::specs::Files::end_in))]
    fn is_count(&self, contents: &[u8]) -> bool
        ensures { end_in self.now.offset self.now.count contents.now ≡ cond result (Ok None) (Err (at_field self.now.offset)) }
    {
        matches!(contents, [hi, lo] if usize::from(u16::from_be_bytes([*hi, *lo])) == self.count)
    }

    // One more fixing, or none at the end of the file. A refusal leaves the reader where it stands. Inlined: with a call for
    // each field, reading a file takes over half as many instructions again.
    #[tactic(auto, unfolding(crate::specs::Files::verdict, crate::specs::Files::end_in))]
    #[inline(always)]
    pub(crate) fn read_next(&mut self) -> Result<Option<Fixing>, Refusal>
        ensures read { next_of self.old ≡ read result }
        ensures after { self.new ≡ after self.old (read result) }
        ensures few { (self.old.count ≤ 4000) × (self.new.count ≤ 4000) }
    {
        let malformed = Refusal::Malformed(self.at);
        let field = take_field(self.rest).ok_or(malformed)?;
        match FieldKind::try_from(field.tag) {
            Ok(FieldKind::Fixing) => {
                let fixing = self.fixing(field.contents)?;
                self.rest = field.rest;
                self.at += 11;
                self.count += 1;
                self.least = fixing.date.number() + 1;
                Ok(Some(fixing))
            }
            Ok(FieldKind::End) if self.is_count(field.contents) => {
                self.rest = field.rest;
                self.at += 5;
                Ok(None)
            }
            _ => Err(malformed),
        }
    }
}
