ghost use Rattle.std.specs.Prelude.{◌≡◌};

// A number of calendar days. Made and read by name: `From` would let a position or a day number pass for one, as a type shared with `Position` would.
#[derive(Clone, Copy, Debug, PartialEq, Eq, PartialOrd, Ord)]
pub struct DayCount {
    days: u32,
}

impl DayCount {
    pub fn new(days: u32) -> DayCount
        ensures { result.days ≡ days }
    {
        DayCount { days }
    }

    pub fn number(self) -> u32
        ensures { result ≡ self.days }
    {
        self.days
    }
}
