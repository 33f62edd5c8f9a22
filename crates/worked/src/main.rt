// Document 01's worked instructions that are run: the fallback of seven raw counts, and RTS that flowed at raw 20 and
// 24.
//
// The fallback is that of `window`; RTS is one step by value (`step`) from a fresh state.
#![tactic(auto)]

use profile::Profile;
use state::{Oep060Timing, Retirement};
use std::io;
use step::Chosen;
use window::{Controls, RawCount};

// A raw count, and the clocks that the fallback makes of it.
fn fallback(rt: &impl Print, raw: i32) -> io::Result<()> {
    let clocks = window::fallback_cycles(RawCount(raw));
    println!(rt; "fallback {raw} {}", clocks.0)
}

// One retirement of RTS that flowed, from a fresh state, its fetch not cached: the raw count, and the clocks.
fn flowed(rt: &impl Print, raw: i32) -> io::Result<()> {
    let controls = Controls {
        flowed: true,
        cached: false,
        ess: false,
        ebc: false,
        supervisor: false,
        ppc: 0,
        pc: 0,
        raw: RawCount(raw),
    };
    let rts = Retirement {
        op: 0x4E75,
        controls,
    };
    let chosen = Chosen {
        timing: Oep060Timing::fresh(),
        profile: Profile::Crate,
    };
    let stepped = step::cycles_060(chosen, rts);
    println!(rt; "flowed {raw} {}", stepped.cost.0)
}

fn main(rt: HostRuntime) -> io::Result<()> {
    for raw in [i32::MIN, -1, 7, 8, 11, 12, i32::MAX] {
        fallback(&rt, raw)?;
    }
    for raw in [20, 24] {
        flowed(&rt, raw)?;
    }
    Ok(())
}
