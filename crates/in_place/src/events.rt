// Breaks and clears on the numbers that are lent for a state, and any event.
ghost use Rattle.std.specs.Prelude.{◌≡◌, List, ℕ};
ghost use Rattle.profile.specs.declared.Profile.{Profile};
ghost use Rattle.state.specs.declared.Event.TheVariants.{ClearedAll, ClearedUser};
ghost use Rattle.in_place.specs.Lent.{lent};
ghost use Rattle.in_place.specs.Retire.{event_at_of, paid_for};

use crate::retire_in_place;
use crate::told::{answer_in, clocks_in};
use crate::windows::{WindowNumbers, see_window, shut_window};
use branch_cache::BranchCache060;
use class_word::Clocks;
use profile::Profile;
use state::Event;

// What a retirement costs, and what the cache predicted.
// Stays a number of an answer: it is stored as it comes, a byte of a lent run; an `Answer` would be made for that.
#[derive(Clone, Copy)]
pub struct Paid {
    pub cost: Clocks,
    pub answer: u8,
}

// The tags stay, and are not lent.
pub fn clear_all_at(state: &mut [u8; 256], window: &mut WindowNumbers)
    ensures { (p : Profile) (tags : List ℕ) → lent tags state.new window.new
        ≡ event_at_of p (lent tags state.old window.old) ClearedAll }
{
    *state = [0; 256];
    see_window(window);
}

// The tags stay, and are not lent; the cache's own rule looks at none.
pub fn clear_user_at(state: &mut [u8; 256], window: &mut WindowNumbers)
    ensures { (p : Profile) (tags : List ℕ) → lent tags state.new window.new
        ≡ event_at_of p (lent tags state.old window.old) ClearedUser }
{
    let cache = BranchCache060 {
        tags: [0; 256],
        state: *state,
    };
    let bytes = cache.clear_user().state;
    *state = bytes;
    see_window(window);
}

// One event on lent numbers; only a retirement is paid.
#[tactic(auto, unfolding(state::specs::Timing::stepped_by))]
pub fn event_at(
    tags: &mut [u32; 256],
    state: &mut [u8; 256],
    window: &mut WindowNumbers,
    profile: Profile,
    e: Event,
) -> Option<Paid>
    ensures paid { result ≡ paid_for profile (lent tags.old state.old window.old) e }
    ensures window_after { lent tags.new state.new window.new
        ≡ event_at_of profile (lent tags.old state.old window.old) e }
{
    match e {
        Event::Retired(r) => {
            let told = retire_in_place(tags, state, window, profile, r);
            let cost = clocks_in(told);
            let answer = answer_in(told);
            Some(Paid { cost, answer })
        }
        Event::Broken => {
            shut_window(window);
            None
        }
        Event::ClearedAll => {
            clear_all_at(state, window);
            None
        }
        Event::ClearedUser => {
            clear_user_at(state, window);
            None
        }
    }
}
