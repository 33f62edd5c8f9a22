// Part 5 of document 01, fast: one retirement, and any event, on the numbers that are lent for a state.
//
// `windows` has the window as numbers, `by_numbers` a whole state, `ask` the branch cache asked in place, `points` the
// three points of a retirement, `decoded` the opcodes that a run has decoded, `told` the two numbers that a step hands
// back, and `events` breaks and clears. The step here equals the one by value (`step`): both are the definition's. It
// carries no state and stores at most one slot. A single step looks its opcode up; a run asks its table first.
// Stays three lent references: the C interface lends tags, slots and window apart, here and in all runs above.
#![tactic(auto)]

mod ask;
mod by_numbers;
mod decoded;
mod events;
mod points;
mod told;
mod windows;

ghost use Rattle.std.specs.Prelude.{◌≡◌, true, false, ◌%◌};
ghost use Rattle.bits.specs.Words.{meets};
ghost use Rattle.profile.specs.Profile.{profile_of, profile_at};
ghost use Rattle.state.specs.Flags.{retirement_of};
ghost use Rattle.in_place.specs.Lent.{lent};
ghost use Rattle.in_place.specs.Retire.{paid_by, retire_at_of};
ghost use Rattle.in_place.specs.Decoded.{IsEntry};
ghost use Rattle.window.specs.Raw.{raw_count};

pub use by_numbers::timing_at;
use class_word::F_BRANCH;
pub use decoded::{DECODED, Decoded};
pub use events::{Paid, clear_all_at, clear_user_at, event_at};
pub use points::{retire_branch, retire_flow, retire_neither};
use profile::Profile;
use state::Retirement;
pub use told::{answer_in, clocks_in};
use window::RawCount;
pub use windows::{WINDOW_NUMBERS, WindowNumbers, put_window, see_window, shut_window, window_at};

// The step of a number, and the one place where an opcode is looked up: the compiler lays a function so large into a
// single caller alone. It is asked by a number, of which bit 0 is the profile's: to retire, or, where bit 1 is set,
// only what the profile has of the opcode, as an entry; then the lent numbers stay.
// Stays a number, not an enum: one test in the single step for profile and entry (docs/SPEED.md).
fn step_at(
    tags: &mut [u32; 256],
    state: &mut [u8; 256],
    window: &mut WindowNumbers,
    asked: u32,
    op: u16,
    flags: u16,
    ppc: u32,
    pc: u32,
    raw: i32,
) -> u64
    ensures window_after { meets asked 2 ≡ false
        → paid_by result (lent tags.new state.new window.new)
        ≡ retire_at_of (profile_at (asked % 2)) (lent tags.old state.old window.old)
        (retirement_of op flags ppc pc (raw_count raw)) }
    ensures entry { meets asked 2 ≡ true → IsEntry result op (profile_of (profile_at (asked % 2)) op)
        × (lent tags.new state.new window.new
        ≡ lent tags.old state.old window.old) }
{
    let found = profile::instruction_060(Profile::Crate, op);
    let mut i = found;
    // One test for what is asked most: to retire by the crate's profile.
    if asked != 0 {
        let p = Profile::from(asked & 1);
        i = profile::read_in(p, op, found);
        if asked & 2 != 0 {
            return decoded::entry_of(op, i);
        }
    }
    let k = state::controls_of(flags, ppc, pc, RawCount(raw));
    if i.word.has(F_BRANCH) {
        return retire_branch(tags, state, window, i, k);
    }
    if k.flowed {
        return retire_flow(window, k);
    }
    retire_neither(window, op, i, k)
}

// The step in a profile.
// Stays a call between two: its promise landed (docs/DECISIONS.md, "What had landed stays beside the speed work").
fn retire(
    tags: &mut [u32; 256],
    state: &mut [u8; 256],
    window: &mut WindowNumbers,
    profile: Profile,
    op: u16,
    flags: u16,
    ppc: u32,
    pc: u32,
    raw: RawCount,
) -> u64
    ensures { paid_by result (lent tags.new state.new window.new)
        ≡ retire_at_of profile (lent tags.old state.old window.old)
        (retirement_of op flags ppc pc raw) }
{
    let number = u32::from(profile);
    step_at(tags, state, window, number, op, flags, ppc, pc, raw.0)
}

// One retirement of these numbers, the profile's among them: its clocks and what the cache predicted.
// Stays numbers: they go through a call in registers, where structs would go through memory (docs/SPEED.md).
pub fn retire_at(
    tags: &mut [u32; 256],
    state: &mut [u8; 256],
    window: &mut WindowNumbers,
    profile: u32,
    op: u16,
    flags: u16,
    ppc: u32,
    pc: u32,
    raw: i32,
) -> u64
    ensures { paid_by result (lent tags.new state.new window.new)
        ≡ retire_at_of (profile_at profile) (lent tags.old state.old window.old)
        (retirement_of op flags ppc pc (raw_count raw)) }
{
    let p = Profile::from(profile);
    retire(tags, state, window, p, op, flags, ppc, pc, RawCount(raw))
}

// What the profile has of an opcode, as an entry. The lent numbers stay.
#[tactic(auto, using(crate::proofs::Entries::asked_entry, crate::proofs::Entries::number_small))]
fn entry_at(
    tags: &mut [u32; 256],
    state: &mut [u8; 256],
    window: &mut WindowNumbers,
    profile: Profile,
    op: u16,
) -> u64
    ensures entry { IsEntry result op (profile_of profile op) }
    ensures window_unchanged { lent tags.new state.new window.new
        ≡ lent tags.old state.old window.old }
{
    let number = u32::from(profile);
    step_at(tags, state, window, number + 2, op, 0, 0, 0, 0)
}

// What `retire_at` does, for a caller that has the retirement as a struct.
pub fn retire_in_place(
    tags: &mut [u32; 256],
    state: &mut [u8; 256],
    window: &mut WindowNumbers,
    profile: Profile,
    r: Retirement,
) -> u64
    ensures { paid_by result (lent tags.new state.new window.new)
        ≡ retire_at_of profile (lent tags.old state.old window.old) r }
{
    let k = r.controls;
    let flags = state::control_flags(k);
    let number = u32::from(profile);
    retire_at(
        tags, state, window, number, r.op, flags, k.ppc, k.pc, k.raw.0,
    )
}
