// Makes a day's claim: reads the loads, claims their total at the bench, and shows the claim and its bytes.
#![tactic(auto)]

use crate::bytes::{claim_bytes, reads_back};
use crate::day::{claim_day, total};
use crate::hex::hex;
use crate::stop::Stop;
use algebra::field::Draw;
use algebra::setup::Setup;
use bench::squares::setup::bench_elements;
use loads::{Load, read_loads};
use modular::mod251::Mod251;
use std::process::ExitCode;
use std::{env, fs};

mod bytes;
mod day;
mod hex;
mod stop;

// Litres and fat points of a day's loads.
const DAY: &str = "12 41\n9 38\n15 44\n7 40\n";

// What the powers in the claim are of.
const Y: u64 = 3;

// The file that the program is given, or the built-in day.
fn input(rt: &HostRuntime) -> Result<Vec<u8>, Stop<'static>> {
    let mut args = env::args(rt)?;
    let _ = args.next();
    // No path is no error, so that there is nothing to hand on with `?`.
    let Some(path) = args.next() else {
        return Ok(DAY.as_bytes().to_vec(rt.alloc())?);
    };
    if args.next().is_some() {
        return Err(Stop::Usage);
    }
    Ok(fs::read(rt, path.as_str())?)
}

fn settle(rt: &HostRuntime, loads: &[Load]) -> Result<(), Stop<'static>> {
    let heap = rt.alloc();
    let row = bench_elements();
    let setup = Setup::new(&row)?;
    let claim = claim_day(heap, &setup, loads, Mod251::draw(Y))?;
    let bytes = claim_bytes(&claim);
    if !reads_back(&bytes, &claim) {
        return Err(Stop::Differs);
    }
    let sum = total(loads);
    let commitment = claim.commitment.value();
    let product = claim.product.value();
    let y = claim.y.value();
    let log_len = claim.log_len;
    let text = hex(heap, &bytes)?;
    println!(rt; "total {sum}, which is {product} modulo 251")?;
    println!(rt; "claim: commitment {commitment}, product {product}, y {y}, 2^{log_len} loads")?;
    println!(rt; "bytes:{text}")?;
    println!(rt; "read back: the same claim")?;
    Ok(())
}

fn run<'a>(rt: &HostRuntime, text: &'a [u8]) -> Result<(), Stop<'a>> {
    let loads = read_loads(rt.alloc(), text)?;
    for load in loads.iter() {
        let litres = load.litres;
        let fat = load.fat;
        println!(rt; "load: {litres} litres, {fat} fat points a litre")?;
    }
    settle(rt, loads.as_slice())
}

// A stop is told once, in words of its own, and ends the program with status 1.
fn told(rt: &HostRuntime, stop: &Stop) -> ExitCode {
    let _ = eprintln!(rt; "settle: {stop}");
    ExitCode::FAILURE
}

fn main(rt: HostRuntime) -> ExitCode {
    // By `match` and not in one chain: a stop of `run` borrows the text, which has to outlive it.
    let text = match input(&rt) {
        Ok(text) => text,
        Err(stop) => return told(&rt, &stop),
    };
    match run(&rt, text.as_slice()) {
        Ok(()) => ExitCode::SUCCESS,
        Err(stop) => told(&rt, &stop),
    }
}
