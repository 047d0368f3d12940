// Lines of the input.
ghost use Rattle.factor.specs.Observed.{Judged};

use quantity::benchmark::BenchmarkCode;
use quantity::days::DayCount;
use quantity::refusal::Refusal;
use quantity::weight::Weight;
use rules::observation::Observation;

// The two numbers of a line, which begins at the offset.
pub(crate) fn numbers_in(line: &str, offset: usize) -> Result<(i64, i64), Refusal> {
    let mut words = line.split_whitespace();
    let malformed = Refusal::Malformed(offset);
    let (Some(ticks), Some(days), None) = (words.next(), words.next(), words.next()) else {
        return Err(malformed);
    };
    let ticks = ticks.parse().map_err(|_| malformed)?;
    let days = days.parse().map_err(|_| malformed)?;
    Ok((ticks, days))
}

// An observation of one of the benchmark's published rates.
pub(crate) fn observation_of(
    benchmark: BenchmarkCode,
    ticks: i64,
    days: i64,
) -> Result<Observation, Refusal>
    ensures { Judged benchmark ticks days result }
{
    let ticks = i32::try_from(ticks).map_err(|_| Refusal::OutOfRange)?;
    let rate = benchmark.published(ticks)?;
    let days = u32::try_from(days).map_err(|_| Refusal::OutOfLimits)?;
    let weight = Weight::new(DayCount::new(days))?;
    Ok(Observation { rate, weight })
}
