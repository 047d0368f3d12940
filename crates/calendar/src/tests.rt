use crate::calendar::Calendar;
use crate::easter::easter;
use crate::holidays::HolidayList;
use crate::target::Target;
use crate::year::Year;
use quantity::date::Date;
use quantity::refusal::Refusal;
use std::test::Fail;

// The number of TARGET's good days from 2000 to 2199 and a checksum of them, as tests/target.py has them. One loop takes both.
#[test]
fn target_days_of_200_years(rt: HostRuntime) -> Result<(), Fail> {
    let mut count: u32 = 0;
    let mut checksum: u64 = 0;
    for number in 0..73_049u32 {
        let date = Date::new(number)?;
        if Target.is_good(date) {
            count = count.saturating_add(1);
            checksum = checksum.wrapping_mul(31).wrapping_add(u64::from(number));
        }
    }
    assert_eq!(rt; count, 51_205);
    assert_eq!(rt; checksum, 4_547_548_491_891_070_695);
    Ok(())
}

// 23 April 2000, 31 March 2024 and 20 April 2025, in days after 22 March.
#[test]
fn easters(rt: HostRuntime) -> Result<(), Fail> {
    for (number, days) in [(2000, 32), (2024, 9), (2025, 29)] {
        let year = Year::new(number).ok_or("no year")?;
        assert_eq!(rt; easter(year).number(), days);
    }
    assert!(rt; Year::new(1999).is_none());
    assert!(rt; Year::new(2200).is_none());
    Ok(())
}

// Day 3 is Tuesday 2000-01-04, and day 7 is a Saturday.
#[test]
fn holidays(rt: HostRuntime) -> Result<(), Fail> {
    let mut list = HolidayList::new(rt.alloc())?;
    assert_eq!(rt; list.add(73_049).map_err(Refusal::number), Err(2));
    assert_eq!(rt; list.add(3).map_err(Refusal::number), Ok(()));
    assert_eq!(rt; list.add(3).map_err(Refusal::number), Err(4));
    assert_eq!(rt; list.add(2).map_err(Refusal::number), Err(4));
    assert!(rt; !list.is_good(Date::new(3)?));
    assert!(rt; list.is_good(Date::new(4)?));
    assert!(rt; !list.is_good(Date::new(7)?));
    Ok(())
}

#[test]
fn at_most_2000_holidays(rt: HostRuntime) -> Result<(), Fail> {
    let mut list = HolidayList::new(rt.alloc())?;
    for number in 0..2_000u32 {
        assert_eq!(rt; list.add(number).map_err(Refusal::number), Ok(()));
    }
    assert_eq!(rt; list.add(2_000).map_err(Refusal::number), Err(3));
    assert_eq!(rt; list.add(73_049).map_err(Refusal::number), Err(2));
    Ok(())
}
