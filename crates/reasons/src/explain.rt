// One retirement in place, and why it costs what it costs; and any event, of which only a retirement has a reason.
ghost use Rattle.std.specs.Prelude.{◌≡◌};
ghost use Rattle.in_place.specs.Lent.{lent};
ghost use Rattle.in_place.specs.Retire.{event_at_of};
ghost use Rattle.reasons.specs.Explain.{explained_at, explain_at_of, told_for};

use crate::reason::{Reason, reason_of, shared};
use class_word::Clocks;
use cost::Answer;
use in_place::WindowNumbers;
use profile::Profile;
use state::{Event, Retirement};
use window::Window;

// What a retirement comes to.
#[derive(Clone, Copy)]
pub struct Explained {
    pub cost: Clocks,
    // What the cache predicted.
    pub answer: Answer,
    pub reason: Reason,
    // The window before it.
    pub window: Window,
    // The registers that stand in the way, as a mask.
    pub registers: u16,
}

// The window is looked at before the step, and the cache is asked in it. The opcode is looked up once more, by what the
// step does not call: a second caller would cost every step its speed.
pub fn explain_in_place(
    tags: &mut [u32; 256],
    state: &mut [u8; 256],
    window: &mut WindowNumbers,
    profile: Profile,
    r: Retirement,
) -> Explained
    ensures { explained_at result (lent tags.new state.new window.new)
        ≡ explain_at_of profile (lent tags.old state.old window.old) r }
{
    let k = r.controls;
    let met = in_place::window_at(*window);
    let i = step::looked_up(profile, r.op);
    let told = in_place::retire_in_place(tags, state, window, profile, r);
    let cost = in_place::clocks_in(told);
    let answer = Answer::from(in_place::answer_in(told));
    let reason = reason_of(i, k, met, answer);
    let registers = shared(i, met);
    Explained {
        cost,
        answer,
        reason,
        window: met,
        registers,
    }
}

// One event in place: only a retirement has a reason.
// Stays beside `in_place::event_at`: were that called here too, the compiler would not lay it into the trace run.
pub fn explain_event(
    tags: &mut [u32; 256],
    state: &mut [u8; 256],
    window: &mut WindowNumbers,
    profile: Profile,
    e: Event,
) -> Option<Explained>
    ensures told { result ≡ told_for profile (lent tags.old state.old window.old) e }
    ensures window_after { lent tags.new state.new window.new
        ≡ event_at_of profile (lent tags.old state.old window.old) e }
{
    match e {
        Event::Retired(r) => return Some(explain_in_place(tags, state, window, profile, r)),
        Event::Broken => in_place::shut_window(window),
        Event::ClearedAll => in_place::clear_all_at(state, window),
        Event::ClearedUser => in_place::clear_user_at(state, window),
    }
    None
}
