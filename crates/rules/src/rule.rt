// The rules by which a factor grows.
ghost use Rattle.std.specs.Prelude.{◌≡◌, ℕ, ◌≤◌, List, ℤ, refl, ◌≢◌, codes, Some, MatchResult};
ghost use Rattle.quantity.specs.declared.year.YearBase.{YearBase as Year};
ghost use Rattle.rules.specs.Accrual.{weight_of, factor_of, bounds_of, Encloses, Narrow, Moderate, Laws, raised, compounded_factor, compounded_bounds, simple_factor, simple_bounds};
ghost use Rattle.rules.specs.Chosen.{chosen_factor, chosen_bounds, rule_word};
ghost use Rattle.rules.specs.declared.rule.Rule.{Rule as Named};
ghost use Rattle.rules.specs.declared.bounds.Bounds.{Bounds as Pair};
ghost use Rattle.rules.specs.declared.observation.Observation.{Observation as Observed};
ghost use Rattle.rules.specs.Laws.{keeps_compounded, keeps_simple, keeps_chosen};
ghost use Rattle.rules.specs.Runs.{laws_of};

use crate::bounds::{Bounds, ModerateBounds};
use crate::observation::Observation;
use crate::rounding::{ceil_div, floor_div};
use quantity::year::YearBase;
use std::error::Error;
use std::fmt;
use std::str::FromStr;

// How a factor and its bounds go on from one observation to the next. A step is told how many observations came before,
// so that a rule may change on the way.
pub trait AccrualRule {
    // the numerator of the exact factor; its denominator is B to the power of the number of observations
    ghost grown: { Self → Year → ℕ → ℤ → Observed → ℤ };

    ghost widened: { Self → Year → ℕ → Pair → Observed → Pair };

    // The bounds after one more observation.
    fn step(&self, base: YearBase, count: u32, before: ModerateBounds, seen: Observation) -> Bounds
        ensures { result ≡ widened self.now base count before.bounds seen };

    // The three laws of a rule, for observations whose weights sum to at most 400, together and each by itself.
    ghost laws: { (rule : Self) (base : Year) → Laws base (grown rule base) (widened rule base) };

    ghost encloses: { (rule : Self) (base : Year) (os : List Observed) → weight_of os ≤ 400 → Encloses base os (factor_of (grown rule base) os) (bounds_of (widened rule base) os) } = { λ rule base. (laws rule base).encloses };

    ghost narrow: { (rule : Self) (base : Year) (os : List Observed) → weight_of os ≤ 400 → Narrow os (bounds_of (widened rule base) os) } = { λ rule base. (laws rule base).narrow };

    ghost moderate: { (rule : Self) (base : Year) (os : List Observed) → weight_of os ≤ 400 → Moderate base os (factor_of (grown rule base) os) } = { λ rule base. (laws rule base).moderate };
}

// The bounds after one more observation, which adds to each its gain over B times that bound of the basis: rounded down for the lower
// bound, up for the upper one.
fn raised(
    before: ModerateBounds,
    basis: ModerateBounds,
    base: YearBase,
    seen: Observation,
) -> Bounds
    ensures { result ≡ raised base before.bounds basis.bounds seen }
{
    let Bounds { lo, hi } = before.bounds();
    let basis = basis.bounds();
    let gain = seen.gain();
    Bounds {
        lo: lo + floor_div(basis.lo * gain, base),
        hi: hi + ceil_div(basis.hi * gain, base),
    }
}

// Each observation multiplies the factor.
#[derive(Clone, Copy, Debug, PartialEq, Eq)]
pub struct Compounded;

impl AccrualRule for Compounded {
    ghost grown = { λ _. compounded_factor };

    ghost widened = { λ _. compounded_bounds };

    ghost laws = { λ _ base. laws_of base (compounded_factor base) (compounded_bounds base) (keeps_compounded base (compounded_factor base) (λ k x o. refl)) };

    fn step(
        &self,
        base: YearBase,
        _count: u32,
        before: ModerateBounds,
        seen: Observation,
    ) -> Bounds {
        raised(before, before, base, seen)
    }
}

// Each observation adds to the factor.
#[derive(Clone, Copy, Debug, PartialEq, Eq)]
pub struct Simple;

impl AccrualRule for Simple {
    ghost grown = { λ _. simple_factor };

    ghost widened = { λ _. simple_bounds };

    ghost laws = { λ _ base. laws_of base (simple_factor base) (simple_bounds base) (keeps_simple base (simple_factor base) (λ k x o. refl)) };

    fn step(
        &self,
        base: YearBase,
        _count: u32,
        before: ModerateBounds,
        seen: Observation,
    ) -> Bounds {
        raised(before, ModerateBounds::one(), base, seen)
    }
}

// The rule that a coupon's terms name: an enum, which terms can copy and compare, and no `dyn`.
#[derive(Clone, Copy, Debug, PartialEq, Eq)]
pub enum Rule {
    Compounded,
    Simple,
}

// A word that names no rule. An error apart from that of a benchmark's word, since each says which words there are.
#[derive(Clone, Copy, Debug, PartialEq, Eq)]
pub struct UnknownRule;

impl fmt::Display for UnknownRule {
    ghost output = { λ _. Some (codes "the rule is compounded or simple") };

    fn fmt<W: fmt::Write>(&self, f: &mut fmt::Formatter<W>) -> fmt::Result {
        f.write_str("the rule is compounded or simple")
    }
}

impl Error for UnknownRule {}

// The rule of a word.
impl FromStr for Rule {
    type Err = UnknownRule;

    ghost from_str_gives = { λ text answer. MatchResult answer (λ rule. text ≡ rule_word rule) (λ _. (rule : Named) → text ≢ rule_word rule) };

    fn from_str(word: &str) -> Result<Rule, UnknownRule> {
        match word {
            "compounded" => Ok(Rule::Compounded),
            "simple" => Ok(Rule::Simple),
            _ => Err(UnknownRule),
        }
    }
}

impl AccrualRule for Rule {
    ghost grown = { chosen_factor };

    ghost widened = { chosen_bounds };

    ghost laws = { λ rule base. laws_of base (chosen_factor rule base) (chosen_bounds rule base) (keeps_chosen rule base (λ k x o. refl) (λ k x o. refl)) };

    fn step(
        &self,
        base: YearBase,
        count: u32,
        before: ModerateBounds,
        seen: Observation,
    ) -> Bounds {
        match self {
            Rule::Compounded => Compounded.step(base, count, before, seen),
            Rule::Simple => Simple.step(base, count, before, seen),
        }
    }
}
