ghost use Rattle.std.specs.Prelude.{◌≡◌, true, false, ◌&&◌, MatchOption};
ghost use Rattle.rules.specs.Accrual.{at_one};
ghost use Rattle.rules.specs.Reach.{is_in_reach};

// One, in units of 10^-12.
pub const UNIT: i64 = 1_000_000_000_000;

// A factor of two, and 3 units for each of 400 observations.
const REACH: i64 = 2_000_000_001_200;

// A lower and an upper bound of a factor, in units of 10^-12.
#[derive(Clone, Copy, Debug, PartialEq, Eq)]
pub struct Bounds {
    pub lo: i64,
    pub hi: i64,
}

// Bounds that an observation can follow: each from 0 to twice one and 1,200 units, which no coupon's bounds leave.
#[derive(Clone, Copy, Debug, PartialEq, Eq)]
pub struct ModerateBounds {
    bounds: Bounds,
    ghost low: { is_in_reach bounds.lo ≡ true },
    ghost high: { is_in_reach bounds.hi ≡ true },
}

fn is_in_reach(bound: i64) -> bool
    ensures { result ≡ is_in_reach bound }
{
    (0..=REACH).contains(&bound)
}

impl ModerateBounds {
    // The bounds of a factor of exactly one, with which every run begins.
    pub fn one() -> ModerateBounds
        ensures { result.bounds ≡ at_one }
    {
        ModerateBounds {
            bounds: Bounds { lo: UNIT, hi: UNIT },
        }
    }

    // The bounds as moderate ones, or none where one of them is out of reach.
    pub fn new(bounds: Bounds) -> Option<ModerateBounds>
        ensures { MatchOption result ((is_in_reach bounds.lo && is_in_reach bounds.hi) ≡ false) (λ m. m.bounds ≡ bounds) }
    {
        if is_in_reach(bounds.lo) && is_in_reach(bounds.hi) {
            Some(ModerateBounds { bounds })
        } else {
            None
        }
    }

    pub fn bounds(self) -> Bounds
        ensures value { result ≡ self.bounds }
        ensures low { is_in_reach result.lo ≡ true }
        ensures high { is_in_reach result.hi ≡ true }
    {
        self.bounds
    }
}
