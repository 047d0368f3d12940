ghost use Rattle.std.specs.Prelude.{◌≡◌};

use coupon::figures::Figures;
use quantity::refusal::Refusal;

// What a closed coupon owes. Only `close` makes one, and it can't be let go: it is given to `withdraw` or `pay`.
pub struct Due {
    pub(crate) figures: Figures,
}

impl Due {
    pub fn figures(&self) -> Figures
        ensures { result ≡ self.now.figures }
    {
        self.figures
    }
}

// What was paid. Only `pay` makes one. It may be kept or copied, and a due must be used up: so they are two types.
#[derive(Clone, Copy, Debug, PartialEq, Eq)]
pub struct Receipt {
    pub(crate) figures: Figures,
}

impl Receipt {
    pub fn figures(self) -> Figures
        ensures { result ≡ self.figures }
    {
        self.figures
    }
}

// A due that was not taken, and why.
pub struct Returned {
    pub refusal: Refusal,
    pub due: Due,
}
