ghost use Rattle.std.specs.Prelude.{◌≡◌, ℕ, ◌≤◌, Bool, true};

use quantity::date::Date;

// A calendar means a set of good days.
pub trait Calendar {
    // whether a day is good
    ghost good: { Self → ℕ → Bool };

    fn is_good(&self, date: Date) -> bool
        ensures { result ≡ good self.now date.number };

    // only days that are dates are good
    ghost within: { (c : Self) (d : ℕ) → good c d ≡ true → d ≤ 73048 };
}
