// Values worked out by tests/vectors.py, or by hand where a comment says how.
use quantity::amount::CalculationAmount;
use quantity::benchmark::BenchmarkCode;
use quantity::date::Date;
use quantity::dated::find;
use quantity::days::DayCount;
use quantity::margin::Margin;
use quantity::position::{Offset, Position};
use quantity::rate::Rate;
use quantity::refusal::Refusal;
use quantity::reported::ReportedRate;
use quantity::total::TotalWeight;
use quantity::weight::Weight;
use quantity::year::YearBase;
use rules::observation::Observation;
use rules::report::amount;
use rules::rule::Rule;
use rules::run::accrued;
use std::process::Abort;
use std::test::Fail;

fn weight(days: u32) -> Result<Weight, Refusal> {
    Weight::new(DayCount::new(days))
}

fn seen(ticks: i32, days: u32) -> Result<Observation, Refusal> {
    Ok(Observation {
        rate: Rate::new(ticks)?,
        weight: weight(days)?,
    })
}

// The bounds that a rule gives, and its settled rate.
#[derive(Clone, Copy, Debug, PartialEq, Eq)]
struct Given {
    lo: i64,
    hi: i64,
    rate: i64,
}

fn gives(
    rt: &impl Abort,
    benchmark: BenchmarkCode,
    rule: Rule,
    observations: &[Observation],
    given: Given,
) -> Result<(), Fail> {
    let accrual = accrued(&rule, benchmark.year_base(), observations)?;
    let report = accrual.report.ok_or("no rate")?;
    assert_eq!(rt; accrual.count as usize, observations.len());
    assert_eq!(rt; accrual.bounds.lo, given.lo);
    assert_eq!(rt; accrual.bounds.hi, given.hi);
    assert_eq!(rt; report.rate.places(), given.rate);
    assert!(rt; report.settled);
    Ok(())
}

// What each of the two rules gives over the same observations.
fn both_give(
    rt: &impl Abort,
    benchmark: BenchmarkCode,
    observations: &[Observation],
    compounded: Given,
    simple: Given,
) -> Result<(), Fail> {
    gives(rt, benchmark, Rule::Compounded, observations, compounded)?;
    gives(rt, benchmark, Rule::Simple, observations, simple)
}

#[test]
fn sofr(rt: HostRuntime) -> Result<(), Fail> {
    let days = [seen(53_100, 1)?, seen(53_200, 3)?, seen(53_000, 1)?];
    both_give(
        &rt,
        BenchmarkCode::Sofr,
        &days,
        Given {
            lo: 1_000_738_207_940,
            hi: 1_000_738_207_941,
            rate: 531_510,
        },
        Given {
            lo: 1_000_738_055_555,
            hi: 1_000_738_055_557,
            rate: 531_400,
        },
    )
}

#[test]
fn sonia(rt: HostRuntime) -> Result<(), Fail> {
    let days = [seen(51_896, 1)?, seen(51_899, 3)?, seen(-1, 15)?];
    both_give(
        &rt,
        BenchmarkCode::Sonia,
        &days,
        Given {
            lo: 1_000_568_767_473,
            hi: 1_000_568_767_476,
            rate: 109_263,
        },
        Given {
            lo: 1_000_568_706_848,
            hi: 1_000_568_706_851,
            rate: 109_252,
        },
    )
}

#[test]
fn estr(rt: HostRuntime) -> Result<(), Fail> {
    let days = [seen(39_100, 5)?, seen(39_050, 1)?];
    both_give(
        &rt,
        BenchmarkCode::Estr,
        &days,
        Given {
            lo: 1_000_651_586_683,
            hi: 1_000_651_586_685,
            rate: 390_952,
        },
        Given {
            lo: 1_000_651_527_777,
            hi: 1_000_651_527_779,
            rate: 390_917,
        },
    )
}

#[test]
fn negative_rates(rt: HostRuntime) -> Result<(), Fail> {
    let days = [seen(-5_900, 1)?, seen(-5_910, 3)?];
    both_give(
        &rt,
        BenchmarkCode::Estr,
        &days,
        Given {
            lo: 999_934_361_918,
            hi: 999_934_361_920,
            rate: -59_074,
        },
        Given {
            lo: 999_934_361_111,
            hi: 999_934_361_112,
            rate: -59_075,
        },
    )
}

#[test]
fn weights_of_400_at_the_greatest_rate(rt: HostRuntime) -> Result<(), Fail> {
    let days = [seen(250_000, 10)?; 40];
    both_give(
        &rt,
        BenchmarkCode::Sofr,
        &days,
        Given {
            lo: 1_318_925_927_080,
            hi: 1_318_925_927_124,
            rate: 2_870_333,
        },
        Given {
            lo: 1_277_777_777_760,
            hi: 1_277_777_777_800,
            rate: 2_500_000,
        },
    )
}

#[test]
fn weights_of_400_at_the_least_rate(rt: HostRuntime) -> Result<(), Fail> {
    let days = [seen(-250_000, 10)?; 40];
    both_give(
        &rt,
        BenchmarkCode::Sofr,
        &days,
        Given {
            lo: 756_731_504_053,
            hi: 756_731_504_091,
            rate: -2_189_416,
        },
        Given {
            lo: 722_222_222_200,
            hi: 722_222_222_240,
            rate: -2_500_000,
        },
    )
}

#[test]
fn greatest_weights(rt: HostRuntime) -> Result<(), Fail> {
    let high = [seen(250_000, 15)?; 26];
    let low = [seen(-250_000, 15)?; 26];
    let benchmark = BenchmarkCode::Sonia;
    gives(
        &rt,
        benchmark,
        Rule::Compounded,
        &high,
        Given {
            lo: 1_304_422_489_244,
            hi: 1_304_422_489_274,
            rate: 2_849_082,
        },
    )?;
    gives(
        &rt,
        benchmark,
        Rule::Simple,
        &low,
        Given {
            lo: 732_876_712_322,
            hi: 732_876_712_348,
            rate: -2_500_000,
        },
    )
}

// One tick over one day of 20: the exact rate is one half, the bounds give 0 and 1.
#[test]
fn not_settled(rt: HostRuntime) -> Result<(), Fail> {
    let days = [seen(1, 1)?, seen(0, 15)?, seen(0, 4)?];
    let accrual = accrued(&Rule::Compounded, YearBase::Days365, &days)?;
    let report = accrual.report.ok_or("no rate")?;
    assert_eq!(rt; report.rate.places(), 0);
    assert!(rt; !report.settled);
    Ok(())
}

#[test]
fn no_observations(rt: HostRuntime) -> Result<(), Fail> {
    let accrual = accrued(&Rule::Simple, YearBase::Days360, &[])?;
    assert_eq!(rt; accrual.count, 0);
    assert_eq!(rt; accrual.bounds.lo, 1_000_000_000_000);
    assert_eq!(rt; accrual.bounds.hi, 1_000_000_000_000);
    assert!(rt; accrual.report.is_none());
    Ok(())
}

#[test]
fn weights_over_400(rt: HostRuntime) -> Result<(), Fail> {
    let days = [seen(0, 10)?; 41];
    assert_eq!(rt;
        accrued(&Rule::Simple, YearBase::Days360, &days).map_err(Refusal::number),
        Err(17)
    );
    let most = TotalWeight::new(DayCount::new(400))?;
    assert_eq!(rt; most.plus(weight(1)?).map_err(Refusal::number), Err(17));
    assert_eq!(rt;
        TotalWeight::new(DayCount::new(401)).map_err(Refusal::number),
        Err(17)
    );
    Ok(())
}

fn pays(
    rt: &impl Abort,
    base: YearBase,
    principal: u32,
    rate: i64,
    margin: i32,
    days: u32,
    cents: i64,
) -> Result<(), Fail> {
    let principal = CalculationAmount::new(principal)?;
    let rate = ReportedRate::new(rate).ok_or("no rate")?;
    let margin = Margin::new(margin)?;
    assert_eq!(rt;
        amount(base, principal, rate, margin, DayCount::new(days)),
        cents
    );
    Ok(())
}

#[test]
fn amounts(rt: HostRuntime) -> Result<(), Fail> {
    pays(&rt, YearBase::Days360, 100_000_000, 390_952, 0, 6, 65_159)?;
    pays(
        &rt,
        YearBase::Days360,
        100_000_000,
        390_952,
        -25_000,
        6,
        60_992,
    )?;
    let base = YearBase::Days365;
    pays(
        &rt,
        base,
        1_000_000_000,
        3_660_000_000,
        1_000_000,
        400,
        401_205_479_452,
    )?;
    pays(
        &rt,
        base,
        1_000_000_000,
        -3_660_000_000,
        -1_000_000,
        400,
        -401_205_479_452,
    )
}

#[test]
fn halves_go_up(rt: HostRuntime) -> Result<(), Fail> {
    pays(&rt, YearBase::Days360, 1, 1_800_000, 0, 1000, 1)?;
    pays(&rt, YearBase::Days360, 1, -1_800_000, 0, 1000, 0)?;
    pays(&rt, YearBase::Days360, 1, -1_800_001, 0, 1000, -1)
}

#[test]
fn limits_of_quantities(rt: HostRuntime) {
    assert!(rt; Date::new(73_048).is_ok());
    assert_eq!(rt; Date::new(73_049).map_err(Refusal::number), Err(2));
    assert!(rt; Rate::new(-250_000).is_ok());
    assert_eq!(rt; Rate::new(-250_001).map_err(Refusal::number), Err(2));
    assert!(rt; Rate::new(250_000).is_ok());
    assert_eq!(rt; Rate::new(250_001).map_err(Refusal::number), Err(2));
    assert_eq!(rt; weight(0).map_err(Refusal::number), Err(10));
    assert!(rt; weight(1).is_ok());
    assert!(rt; weight(15).is_ok());
    assert_eq!(rt; weight(16).map_err(Refusal::number), Err(10));
    assert!(rt; Offset::new(20).is_ok());
    assert_eq!(rt; Offset::new(21).map_err(Refusal::number), Err(10));
}

#[test]
fn limits_of_terms(rt: HostRuntime) {
    assert_eq!(rt; CalculationAmount::new(0).map_err(Refusal::number), Err(10));
    assert!(rt; CalculationAmount::new(1).is_ok());
    assert!(rt; CalculationAmount::new(1_000_000_000).is_ok());
    assert_eq!(rt;
        CalculationAmount::new(1_000_000_001).map_err(Refusal::number),
        Err(10)
    );
    assert!(rt; Margin::new(-1_000_000).is_ok());
    assert_eq!(rt; Margin::new(-1_000_001).map_err(Refusal::number), Err(10));
    assert!(rt; Margin::new(1_000_000).is_ok());
    assert_eq!(rt; Margin::new(1_000_001).map_err(Refusal::number), Err(10));
}

#[test]
fn benchmarks(rt: HostRuntime) -> Result<(), Fail> {
    assert_eq!(rt; BenchmarkCode::try_from(0).map_err(Refusal::number), Err(2));
    assert_eq!(rt; BenchmarkCode::try_from(4).map_err(Refusal::number), Err(2));
    assert_eq!(rt;
        BenchmarkCode::try_from(2)?.year_base().days().number(),
        365
    );
    assert_eq!(rt;
        BenchmarkCode::Sofr
            .published(53_150)
            .map_err(Refusal::number),
        Err(2)
    );
    assert!(rt; BenchmarkCode::Sofr.published(-53_100).is_ok());
    assert!(rt; BenchmarkCode::Sonia.published(53_151).is_ok());
    assert_eq!(rt;
        BenchmarkCode::Estr
            .published(39_055)
            .map_err(Refusal::number),
        Err(2)
    );
    assert_eq!(rt;
        BenchmarkCode::Estr
            .published(250_010)
            .map_err(Refusal::number),
        Err(2)
    );
    Ok(())
}

// 2024-03-28 is day 8,853, and 2024-04-02 is 5 days later.
#[test]
fn days_between_dates(rt: HostRuntime) -> Result<(), Fail> {
    let start = Date::new(8_853)?;
    let next = start.plus(DayCount::new(5)).ok_or("no date")?;
    assert_eq!(rt; next.number(), 8_858);
    let days = next.since(start).ok_or("no days")?;
    assert_eq!(rt; days.number(), 5);
    assert!(rt; start.since(next).is_none());
    assert!(rt; Date::new(73_048)?.plus(DayCount::new(1)).is_none());
    assert!(rt; start.minus(DayCount::new(8_854)).is_none());
    Ok(())
}

#[test]
fn positions(rt: HostRuntime) -> Result<(), Fail> {
    let lag = Offset::new(20)?;
    let earlier = Position::new(-50).earlier(lag).ok_or("no position")?;
    assert_eq!(rt; earlier.value(), -70);
    assert!(rt; Position::new(i32::MIN).earlier(lag).is_none());
    Ok(())
}

#[test]
fn first_record_of_a_date(rt: HostRuntime) -> Result<(), Fail> {
    let dates = [Date::new(3)?, Date::new(7)?, Date::new(7)?];
    assert_eq!(rt; find(&dates, Date::new(7)?), Some(1));
    assert_eq!(rt; find(&dates, Date::new(8)?), None);
    Ok(())
}

#[test]
fn proved_table(rt: HostRuntime) {
    assert_eq!(rt; crate::worked_examples(), 16);
}
