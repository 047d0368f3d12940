#![tactic(auto)]

// Recomputes a factor from published fixings: `factor BENCHMARK RULE`, with a line of `rate weight` for each observation on standard input.
ghost use Rattle.std.specs.Prelude.{◌≡◌, IfErr};

mod input;
mod observe;

use crate::input::{numbers_in, observation_of};
use crate::observe::{Failure, observe};
use anyhow::bail;
use quantity::benchmark::BenchmarkCode;
use rules::observation::Observation;
use rules::report::Report;
use rules::rule::Rule;
use rules::run::Accrual;
use std::io::Read;
use std::{env, io};

// An input of more bytes is not judged.
const LIMIT: usize = 65_536;

// What the arguments name.
#[derive(Clone, Copy, Debug, PartialEq, Eq)]
struct Terms {
    benchmark: BenchmarkCode,
    rule: Rule,
}

fn arguments(rt: &HostRuntime) -> anyhow::Result<Terms> {
    let mut words = env::args(rt)?.skip(1);
    let (Some(benchmark), Some(rule), None) = (words.next(), words.next(), words.next()) else {
        bail!("usage: factor SOFR|SONIA|ESTR compounded|simple");
    };
    Ok(Terms {
        benchmark: benchmark.as_str().parse()?,
        rule: rule.as_str().parse()?,
    })
}

// What the rule gives with the observation of one more line, which begins at the offset; a line that fails leaves the observations as they were.
fn take_line(
    terms: Terms,
    seen: &mut Vec<Observation>,
    line: &str,
    offset: usize,
) -> Result<Accrual, Failure>
    ensures { IfErr result (λ _. seen.new.items ≡ seen.old.items) }
{
    let (ticks, days) = numbers_in(line, offset)?;
    let observation = observation_of(terms.benchmark, ticks, days)?;
    observe(terms.rule, terms.benchmark.year_base(), seen, observation)
}

// The count, the bounds, the reported rate and whether it is settled.
fn print_accrual(rt: &HostRuntime, accrual: Accrual) -> io::Result<()> {
    let Some(Report { rate, settled }) = accrual.report else {
        return Ok(());
    };
    let count = accrual.count;
    let lo = accrual.bounds.lo;
    let hi = accrual.bounds.hi;
    let rate = rate.places();
    let settled = if settled { 'y' } else { 'n' };
    println!(rt; "{count} {lo} {hi} {rate} {settled}")
}

fn run(rt: &HostRuntime) -> anyhow::Result<()> {
    let terms = arguments(rt)?;
    let text = io::read_to_string(rt.alloc(), rt.stdin().take(LIMIT as u64 + 1))?;
    if text.len() > LIMIT {
        bail!("the input is over 65,536 bytes");
    }
    let mut seen = Vec::new(rt.alloc());
    // Where the line begins, which the library's iterators over lines do not tell.
    let mut offset: usize = 0;
    for (number, line) in (1_usize..).zip(text.as_str().split_inclusive('\n')) {
        match take_line(terms, &mut seen, line, offset) {
            Ok(accrual) => print_accrual(rt, accrual)?,
            Err(Failure::Refused(refusal)) => println!(rt; "line {number} refused: {refusal}")?,
            Err(failure) => bail!(failure),
        }
        offset = offset.saturating_add(line.len());
    }
    Ok(())
}

fn main(rt: HostRuntime) -> anyhow::Result<()> {
    run(&rt)
}
