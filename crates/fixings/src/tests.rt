use crate::book::Book;
use crate::file::FixingFile;
use crate::fixing::Fixing;
use crate::source::{Projection, Source};
use quantity::benchmark::BenchmarkCode;
use quantity::date::Date;
use quantity::rate::Rate;
use quantity::refusal::Refusal;
use std::test::Fail;

fn fixing(date: u32, ticks: i32) -> Result<Fixing, Fail> {
    Ok(Fixing {
        date: Date::new(date)?,
        rate: Rate::new(ticks)?,
    })
}

// What a post answers, a refusal by its number.
fn post(book: &mut Book, date: u32, ticks: i32) -> Result<Result<(), u8>, Fail> {
    let fixing = fixing(date, ticks)?;
    Ok(book.post(fixing.date, fixing.rate).map_err(Refusal::number))
}

// What a restatement answers, a refusal by its number.
fn restate(book: &mut Book, date: u32, ticks: i32) -> Result<Result<(), u8>, Fail> {
    let fixing = fixing(date, ticks)?;
    Ok(
        book.restate(fixing.date, fixing.rate)
            .map_err(Refusal::number),
    )
}

// The rate of a date in ticks, or none.
fn ticks_on(source: &impl Source, date: u32) -> Result<Option<i32>, Fail> {
    Ok(source.rate(Date::new(date)?).map(Rate::ticks))
}

#[test]
fn posts_and_restates(rt: HostRuntime) -> Result<(), Fail> {
    let mut book = Book::new(BenchmarkCode::Sofr);
    assert_eq!(rt; post(&mut book, 9, 53_100)?, Ok(()));
    assert_eq!(rt; post(&mut book, 7, 53_000)?, Ok(()));
    assert_eq!(rt; post(&mut book, 8, 53_150)?, Err(2));
    assert_eq!(rt; post(&mut book, 9, 53_200)?, Err(5));
    assert_eq!(rt; restate(&mut book, 8, 53_200)?, Err(6));
    assert_eq!(rt; restate(&mut book, 9, 53_250)?, Err(2));
    assert_eq!(rt; restate(&mut book, 9, 53_200)?, Ok(()));
    assert_eq!(rt; ticks_on(&book, 9)?, Some(53_200));
    assert_eq!(rt; ticks_on(&book, 7)?, Some(53_000));
    Ok(())
}

#[test]
fn at_most_600_fixings(rt: HostRuntime) -> Result<(), Fail> {
    let mut book = Book::new(BenchmarkCode::Sonia);
    for date in 0..600u32 {
        assert_eq!(rt; post(&mut book, date, 1)?, Ok(()));
    }
    assert_eq!(rt; post(&mut book, 600, 1)?, Err(3));
    assert_eq!(rt; post(&mut book, 5, 1)?, Err(3));
    let mut area = [fixing(0, 0)?; 600];
    assert_eq!(rt; book.list(&mut area), 600);
    Ok(())
}

#[test]
fn lists_and_leaves_the_rest(rt: HostRuntime) -> Result<(), Fail> {
    let mut book = Book::new(BenchmarkCode::Estr);
    assert_eq!(rt; post(&mut book, 8_853, 39_100)?, Ok(()));
    let mut area = [fixing(1, -10)?; 600];
    assert_eq!(rt; book.list(&mut area), 1);
    assert_eq!(rt; area[0].rate.ticks(), 39_100);
    assert_eq!(rt; area[1].rate.ticks(), -10);
    assert_eq!(rt; area[599].date.number(), 1);
    Ok(())
}

#[test]
fn projects_from_a_first_date(rt: HostRuntime) -> Result<(), Fail> {
    let first = fixing(100, 39_000)?;
    let projection = Projection::new(first.date, first.rate);
    assert_eq!(rt; ticks_on(&projection, 99)?, None);
    assert_eq!(rt; ticks_on(&projection, 100)?, Some(39_000));
    assert_eq!(rt; ticks_on(&projection, 73_048)?, Some(39_000));
    Ok(())
}

// €STR, 39,100 ticks on day 8,853 and 39,050 on day 8,858.
const FILE: [u8; 31] = [
    1, 0, 1, 3, 2, 0, 8, 0, 0, 0x22, 0x95, 0, 0, 0x98, 0xbc, 2, 0, 8, 0, 0, 0x22, 0x9a, 0, 0, 0x98,
    0x8a, 9, 0, 2, 0, 2,
];

// The length of a file, or the number of its refusal with the offset of a 1.
fn read(rt: HostRuntime, bytes: &[u8]) -> Result<Result<usize, (u8, usize)>, Fail> {
    let mut file = FixingFile::new(rt.alloc())?;
    Ok(
        file.read(bytes).map_err(|refusal| match refusal {
            Refusal::Malformed(offset) => (1, offset),
            other => (other.number(), 0),
        }),
    )
}

#[test]
fn reads_a_file(rt: HostRuntime) -> Result<(), Fail> {
    let mut file = FixingFile::new(rt.alloc())?;
    assert_eq!(rt; file.read(&FILE)?, 31);
    assert_eq!(rt; file.benchmark().number(), 3);
    assert_eq!(rt; ticks_on(&file, 8_853)?, Some(39_100));
    assert_eq!(rt; ticks_on(&file, 8_858)?, Some(39_050));
    assert_eq!(rt; ticks_on(&file, 8_854)?, None);
    Ok(())
}

#[test]
fn refuses_a_file_cut_at_any_byte(rt: HostRuntime) -> Result<(), Fail> {
    for length in 0..31usize {
        assert!(rt; read(rt, &FILE[0..length])?.is_err_and(|refused| refused.0 == 1));
    }
    assert_eq!(rt; read(rt, &FILE[0..25])?, Err((1, 15)));
    Ok(())
}

// One byte changed: the benchmark, a tag, a length, a date, a rate, the count.
#[test]
fn refuses_a_damaged_file(rt: HostRuntime) -> Result<(), Fail> {
    for (at, byte, number, offset) in [
        (3, 4, 2, 0),
        (4, 3, 1, 4),
        (6, 7, 1, 4),
        (21, 0x95, 4, 0),
        (25, 0x8b, 2, 0),
        (19, 2, 2, 0),
        (30, 3, 1, 26),
    ] {
        let mut bytes = FILE;
        assert!(rt; at < 31);
        bytes[at] = byte;
        assert_eq!(rt; read(rt, &bytes)?, Err((number, offset)));
    }
    Ok(())
}

#[test]
fn refuses_the_4001st_fixing(rt: HostRuntime) -> Result<(), Fail> {
    let mut bytes = Vec::new(rt.alloc());
    bytes.extend_from_slice(&[1, 0, 1, 2])?;
    for date in 0..4_001u32 {
        let [a, b, c, d] = date.to_be_bytes();
        bytes.extend_from_slice(&[2, 0, 8, a, b, c, d, 0, 0, 0, 1])?;
    }
    assert_eq!(rt; read(rt, bytes.as_slice())?, Err((3, 0)));
    Ok(())
}
