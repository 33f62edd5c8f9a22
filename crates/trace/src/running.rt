// One record of a run, on the numbers that are lent for the state.
ghost use Rattle.std.specs.Prelude.{◌≡◌, ◌+◌, ◌≤◌, length};
ghost use Rattle.in_place.specs.Lent.{lent};
ghost use Rattle.in_place.specs.Retire.{paid_by, retire_at_of};
ghost use Rattle.records.specs.Layout.{retirement_at};
ghost use Rattle.records.specs.Record.{read_at, Unrefused};
ghost use Rattle.trace.specs.TraceTurns.{turned, turn_of};

use class_word::F_BRANCH;
use in_place::{Decoded, Paid, WindowNumbers};
use profile::Profile;

// The turn of one record: the place after it, and what is paid where it is a retirement.
#[derive(Clone, Copy)]
pub struct Turn {
    pub next: usize,
    pub paid: Option<Paid>,
}

// Any record: what stands at `at`, its event in place. Where there is none, nothing is done.
pub fn run_record(
    trace: &[u8],
    tags: &mut [u32; 256],
    state: &mut [u8; 256],
    window: &mut WindowNumbers,
    profile: Profile,
    at: usize,
) -> Turn
    ensures { turned result (lent tags.new state.new window.new)
        ≡ turn_of profile at (lent tags.old state.old window.old) (read_at
        trace.now at) }
{
    match records::read_record(trace, at) {
        Ok(Some((e, next))) => {
            let paid = in_place::event_at(tags, state, window, profile, e);
            Turn { next, paid }
        }
        Ok(None) | Err(_) => Turn {
            next: at,
            paid: None,
        },
    }
}

// The whole retirement at `at`, with no event made of it, and its opcode looked up in the run's table: its clocks and
// what the cache predicted.
// Stays three points taken apart here and in `host`: a function of all three would stay a call (docs/SPEED.md).
fn run_whole(
    trace: &[u8],
    tags: &mut [u32; 256],
    state: &mut [u8; 256],
    window: &mut WindowNumbers,
    decoded: &mut Decoded,
    at: usize,
) -> u64
    requires at_in_bounds { at + 20 ≤ length trace.now }
    ensures window_after { paid_by result (lent tags.new state.new window.new)
        ≡ retire_at_of decoded.old.profile (lent tags.old state.old window.old)
        (retirement_at trace.now at) }
    ensures profile_after { decoded.new.profile ≡ decoded.old.profile }
{
    let r = records::retirement_at(trace, at);
    let k = r.controls;
    let instruction = decoded.look_up(tags, state, window, r.op);
    if instruction.word.has(F_BRANCH) {
        return in_place::retire_branch(tags, state, window, instruction, k);
    }
    if k.flowed {
        return in_place::retire_flow(window, k);
    }
    in_place::retire_neither(window, r.op, instruction, k)
}

// The record at `at`, which was checked: its event in place. Where there is none, nothing is done.
pub fn run_checked(
    trace: &[u8],
    tags: &mut [u32; 256],
    state: &mut [u8; 256],
    window: &mut WindowNumbers,
    decoded: &mut Decoded,
    at: usize,
) -> Turn
    requires unrefused { Unrefused trace.now at }
    ensures window_after { turned result (lent tags.new state.new window.new)
        ≡ turn_of decoded.old.profile at (lent tags.old state.old window.old) (read_at
        trace.now at) }
    ensures profile_after { decoded.new.profile ≡ decoded.old.profile }
{
    if records::whole_at(trace, at) {
        let told = run_whole(trace, tags, state, window, decoded, at);
        let cost = in_place::clocks_in(told);
        let answer = in_place::answer_in(told);
        return Turn {
            next: at + 20,
            paid: Some(Paid { cost, answer }),
        };
    }
    run_record(trace, tags, state, window, decoded.profile, at)
}
