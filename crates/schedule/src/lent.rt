ghost use Rattle.std.specs.Prelude.{◌≡◌};
ghost use Rattle.schedule.specs.declared.schedule.Schedule.{Schedule as Days};

use crate::schedule::Schedule;

// What has a schedule, of its own or lent. The library's `AsRef` does not say what it lends.
pub trait AsSchedule {
    ghost schedule: { Self → Days };

    fn as_schedule(&self) -> &Schedule
        ensures { result.now ≡ schedule self.now };
}

impl AsSchedule for Schedule {
    ghost schedule = { λ s. s };

    fn as_schedule(&self) -> &Schedule {
        self
    }
}

impl AsSchedule for &Schedule {
    ghost schedule = { λ s. s.now };

    fn as_schedule(&self) -> &Schedule {
        *self
    }
}
