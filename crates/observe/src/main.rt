#![tactic(auto)]

// Shows a period's observations: `observe BENCHMARK START END LAG SHIFT LOCKOUT FLOOR`, with a fixing file on standard input.
mod request;

use crate::request::{Layers, Request, arranged, request_in};
use anyhow::bail;
use calendar::holidays::HolidayList;
use fixings::file::FixingFile;
use pile::direct::Direct;
use pile::floor::Floor;
use pile::lag::Lag;
use pile::lockout::Lockout;
use pile::observations::{Observations, ObservedRate};
use pile::shift::Shift;
use quantity::fault::Fault;
use quantity::position::Position;
use quantity::refusal::Refusal;
use quantity::weight::Weight;
use schedule::schedule::Schedule;
use std::io;
use std::io::Read;

// An input of more bytes is not judged.
const LIMIT: usize = 65_536;

// The rate of a position with its observed date, and the weight; or the fault, the rate's before the weight's.
fn observation_at<P: Observations>(
    pile: &P,
    at: Position,
) -> Result<(ObservedRate, Weight), Fault> {
    Ok((pile.rate(at)?, pile.weight(at)?))
}

// Position, day, observed date, rate and weight, or the fault.
fn print_position<P: Observations>(rt: &HostRuntime, pile: &P, i: i32) -> io::Result<()> {
    let at = Position::new(i);
    let Ok(date) = pile.day(at) else {
        return Ok(());
    };
    let day = date.number();
    match observation_at(pile, at) {
        Ok((ObservedRate { rate, observed }, weight)) => {
            let observed = observed.number();
            let rate = rate.ticks();
            let weight = weight.days().number();
            println!(rt; "{i} {day} {observed} {rate} {weight}")
        }
        Err(fault) => {
            let position = fault.position.value();
            let above = fault.above;
            let refusal = Refusal::from(fault);
            println!(rt; "{i} {day} fault {refusal}, at position {position} under {above} layers")
        }
    }
}

fn print_pile<P: Observations>(rt: &HostRuntime, pile: &P) -> io::Result<()> {
    for i in 0..pile.length() {
        if let Ok(i) = i32::try_from(i) {
            print_position(rt, pile, i)?;
        }
    }
    Ok(())
}

// The layers in their order: floor over lockout over lag over shift over the direct pile.
fn print_layers(
    rt: &HostRuntime,
    schedule: &Schedule,
    file: &FixingFile,
    layers: Layers,
) -> io::Result<()> {
    let shifted = Shift::new(Direct::new(schedule, file), layers.shift);
    let lagged = Lag::new(shifted, layers.lag);
    let locked = Lockout::new(lagged, layers.lockout);
    print_pile(rt, &Floor::new(locked, layers.floor))
}

fn print_request(
    rt: &HostRuntime,
    request: Request,
    input: &[u8],
    weekdays: &HolidayList,
    file: &mut FixingFile,
) -> io::Result<()> {
    if let Err(refusal) = file.read(input) {
        return println!(rt; "refused: {refusal}");
    }
    let mut schedule = Schedule::new();
    match arranged(request, file.benchmark(), weekdays, &mut schedule) {
        Ok(layers) => print_layers(rt, &schedule, file, layers),
        Err(refusal) => println!(rt; "refused: {refusal}"),
    }
}

fn run(rt: &HostRuntime) -> anyhow::Result<()> {
    let request = request_in(rt)?;
    let mut input = Vec::new(rt.alloc());
    rt.stdin().take(LIMIT as u64 + 1).read_to_end(&mut input)?;
    if input.len() > LIMIT {
        bail!("the input is over 65,536 bytes");
    }
    let weekdays = HolidayList::new(rt.alloc())?;
    let mut file = FixingFile::new(rt.alloc())?;
    print_request(rt, request, input.as_slice(), &weekdays, &mut file)?;
    Ok(())
}

fn main(rt: HostRuntime) -> anyhow::Result<()> {
    run(&rt)
}
