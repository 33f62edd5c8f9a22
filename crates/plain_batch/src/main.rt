// Runs the plain batch again and again, for bench/run, which takes the time: the first 64 retirements of its trace
// `loop` (bench/traces.rs), each run from the state that the last one left. Prints the clocks of all runs, and of the
// last retirement the clocks and the number of the cache's answer, as the last run stored them.
//
// `record` and `records` make the retirements; `run` calls `batch`, which hands each to the step by value (`step`).
#![tactic(auto)]

use profile::Profile;
use refusals::Ran;
use state::{Oep060Timing, Retirement};
use std::{array, io};
use step::Chosen;
use window::RawCount;

// Enough that the start of the program is little beside them; bench/plain.rs has the number for the Rust.
const RUNS: usize = 4000;

// A turn of the loop; the last is the branch that closes it.
const TURN: [u16; 10] = [
    0x2018, 0xD081, 0x5282, 0xB083, 0x2140, 0xE588, 0x7007, 0xC041, 0x41E8, 0x66EE,
];

// The record of this number, ten to a turn: cached, ESS, EBC and supervisor are on, and the branch is taken.
fn record(i: usize) -> Retirement {
    let place = i % 10;
    let op = TURN[place];
    let ppc = 0x1000 + 2 * (place as u32);
    if place == 9 {
        return state::retirement_of(op, 0x1F, ppc, 0x1000, RawCount(10));
    }
    state::retirement_of(op, 0x1E, ppc, ppc + 2, RawCount(8))
}

fn records() -> [Retirement; 64] {
    array::from_fn(record)
}

// The profile is the one that the Rust has.
fn run(
    all: [Retirement; 64],
    costs: &mut [u32; 64],
    answers: &mut [u8; 64],
    timing: Oep060Timing,
) -> Ran {
    let profile = Profile::Crate;
    let chosen = Chosen { timing, profile };
    batch::run_batch_of_64(all, 64, costs, answers, chosen)
}

// What was stored last is printed too: else the compiler could leave the stores out.
fn print_last(
    rt: &impl Print,
    total: u64,
    costs: &[u32; 64],
    answers: &[u8; 64],
) -> io::Result<()> {
    println!(rt; "{total} {} {}", costs[63], answers[63])
}

// The total is that of all runs, so that another number of runs shows; 256,000 costs below 2^32 do not wrap.
fn main(rt: HostRuntime) -> io::Result<()> {
    let all = records();
    let mut costs = [0u32; 64];
    let mut answers = [0u8; 64];
    let mut timing = Oep060Timing::fresh();
    let mut total: u64 = 0;
    for _ in 0..RUNS {
        let ran = run(all, &mut costs, &mut answers, timing);
        total = total.wrapping_add(ran.total);
        timing = ran.timing;
    }
    print_last(&rt, total, &costs, &answers)
}
