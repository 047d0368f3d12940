// The benchmarks, each with its year base and the step of its published rate.
ghost use Rattle.std.specs.Prelude.{◌≡◌, ℕ, refl, codes, ◌<◌, true, false, ◌⊎◌, pos, negsuc, ◌<ℤ◌, Some, None, MatchResult};
ghost use Rattle.quantity.specs.Benchmarks.{IsNamed, base_of, code_number, code_of, is_on_step, step_of};
ghost use Rattle.quantity.specs.Refusals.{told, plain};
ghost use Rattle.quantity.specs.declared.benchmark.BenchmarkCode.{BenchmarkCode as Named};
ghost use Rattle.quantity.specs.declared.year.YearBase.{YearBase as Year};
ghost use Rattle.quantity.specs.declared.year.YearBase.TheVariants.{Days360, Days365};

use crate::rate::Rate;
use crate::refusal::Refusal;
use crate::year::YearBase;
use std::error::Error;
use std::fmt;
use std::str::FromStr;

// A benchmark as files and terms name it: an enum, which terms can copy and compare, and no `dyn`.
#[derive(Clone, Copy, Debug, PartialEq, Eq)]
pub enum BenchmarkCode {
    Sofr,
    Sonia,
    Estr,
}

// A benchmark by its constants: the days of the year, and the ticks that each published rate is a multiple of. Each impl gives a
// constant twice, since a ghost member that holds data has no default.
pub trait Benchmark {
    ghost named: { Named };

    ghost BASE: { Year };

    const BASE: YearBase;

    ghost STEP: { ℕ };

    const STEP: u32;

    fn year_base() -> YearBase
        ensures { result ≡ base_of named }
    {
        Self::BASE
    }

    fn rate_step() -> u32
        ensures { result ≡ step_of named }
    {
        Self::STEP
    }

    ghost based: { BASE ≡ base_of named };

    ghost stepped: { STEP ≡ step_of named };
}

// The dollar rate of the New York Fed.
#[derive(Clone, Copy, Debug, PartialEq, Eq)]
pub struct Sofr;

// The sterling rate of the Bank of England.
#[derive(Clone, Copy, Debug, PartialEq, Eq)]
pub struct Sonia;

// The euro rate of the European Central Bank, €STR.
#[derive(Clone, Copy, Debug, PartialEq, Eq)]
pub struct Estr;

impl Benchmark for Sofr {
    ghost named = { Named.Sofr };

    ghost BASE = { Days360 };

    const BASE: YearBase = YearBase::Days360;

    ghost STEP = { 100 };

    const STEP: u32 = 100;

    ghost based = { refl };

    ghost stepped = { refl };
}

impl Benchmark for Sonia {
    ghost named = { Named.Sonia };

    ghost BASE = { Days365 };

    const BASE: YearBase = YearBase::Days365;

    ghost STEP = { 1 };

    const STEP: u32 = 1;

    ghost based = { refl };

    ghost stepped = { refl };
}

impl Benchmark for Estr {
    ghost named = { Named.Estr };

    ghost BASE = { Days360 };

    const BASE: YearBase = YearBase::Days360;

    ghost STEP = { 10 };

    const STEP: u32 = 10;

    ghost based = { refl };

    ghost stepped = { refl };
}

impl BenchmarkCode {
    // The number that stands for it in files, and nowhere else.
    pub fn number(self) -> u8
        ensures { result ≡ code_number self }
    {
        match self {
            BenchmarkCode::Sofr => 1,
            BenchmarkCode::Sonia => 2,
            BenchmarkCode::Estr => 3,
        }
    }

    pub fn year_base(self) -> YearBase
        ensures { result ≡ base_of self }
    {
        match self {
            BenchmarkCode::Sofr => Sofr::year_base(),
            BenchmarkCode::Sonia => Sonia::year_base(),
            BenchmarkCode::Estr => Estr::year_base(),
        }
    }

    pub fn rate_step(self) -> u32
        ensures step { result ≡ step_of self }
        ensures positive { 0 < result }
    {
        match self {
            BenchmarkCode::Sofr => Sofr::rate_step(),
            BenchmarkCode::Sonia => Sonia::rate_step(),
            BenchmarkCode::Estr => Estr::rate_step(),
        }
    }

    // Whether a rate is a multiple of the step.
    pub fn is_on_step(self, rate: Rate) -> bool
        ensures { result ≡ is_on_step self rate.ticks }
    {
        rate.ticks().unsigned_abs() % self.rate_step() == 0
    }

    // A rate as the benchmark publishes it, or refusal 2 outside the range or off the step.
    pub fn published(self, ticks: i32) -> Result<Rate, Refusal>
        ensures { MatchResult result (λ d. (d.ticks ≡ ticks) × (is_on_step self ticks ≡ true)) (λ e. ((ticks <ℤ negsuc 249999) ⊎ (pos 250000 <ℤ ticks) ⊎ (is_on_step self ticks ≡ false)) × (told e ≡ plain 2)) }
    {
        let rate = Rate::new(ticks)?;
        if !self.is_on_step(rate) {
            return Err(Refusal::OutOfRange);
        }
        Ok(rate)
    }
}

// The benchmark of a number, or refusal 2 where there is none.
impl TryFrom<u8> for BenchmarkCode {
    type Error = Refusal;

    ghost try_from_gives = { λ number answer. MatchResult answer (λ b. (code_of number ≡ Some b) × (code_number b ≡ number)) (λ e. (code_of number ≡ None) × (told e ≡ plain 2)) };

    fn try_from(number: u8) -> Result<BenchmarkCode, Refusal> {
        match number {
            1 => Ok(BenchmarkCode::Sofr),
            2 => Ok(BenchmarkCode::Sonia),
            3 => Ok(BenchmarkCode::Estr),
            _ => Err(Refusal::OutOfRange),
        }
    }
}

// A word that is no benchmark's.
#[derive(Clone, Copy, Debug, PartialEq, Eq)]
pub struct UnknownBenchmark;

impl fmt::Display for UnknownBenchmark {
    ghost output = { λ _. Some (codes "the benchmark is SOFR, SONIA or ESTR") };

    fn fmt<W: fmt::Write>(&self, f: &mut fmt::Formatter<W>) -> fmt::Result {
        f.write_str("the benchmark is SOFR, SONIA or ESTR")
    }
}

impl Error for UnknownBenchmark {}

// The benchmark of a word.
impl FromStr for BenchmarkCode {
    type Err = UnknownBenchmark;

    ghost from_str_gives = { IsNamed };

    fn from_str(word: &str) -> Result<BenchmarkCode, UnknownBenchmark> {
        match word {
            "SOFR" => Ok(BenchmarkCode::Sofr),
            "SONIA" => Ok(BenchmarkCode::Sonia),
            "ESTR" => Ok(BenchmarkCode::Estr),
            _ => Err(UnknownBenchmark),
        }
    }
}
