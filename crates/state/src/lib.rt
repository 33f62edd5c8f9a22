// Part 5 of document 01: the state that a host keeps, and what can happen to it.
//
// A state is a cache and a window; here are its breaks and clears by value, and a retirement is done in `step`.
// `answers` says whether a retirement asks the cache, for `step` and `in_place`; `flags` makes a retirement of the
// numbers that a host passes, and numbers of it again.
#![tactic(auto)]

mod answers;
mod flags;

ghost use Rattle.std.specs.Prelude.{◌≡◌};
ghost use Rattle.state.specs.Timing.{seen_of, broken_of, cleared_of, user_cleared_of, fresh_of};

pub use answers::consulted;
use branch_cache::BranchCache060;
use class_word::Clocks;
use cost::Answer;
pub use flags::{control_flags, controls_of, packed_below, retirement_of};
use window::{Controls, Window};

// A retired instruction as the host passes it.
#[derive(Clone, Copy)]
pub struct Retirement {
    pub op: u16,
    pub controls: Controls,
}

// What can happen to a state.
#[derive(Clone, Copy)]
pub enum Event {
    Retired(Retirement),
    Broken,
    ClearedAll,
    ClearedUser,
}

// The timing state that a host keeps.
#[derive(Clone, Copy)]
pub struct Oep060Timing {
    // branch_cache
    pub cache: BranchCache060,
    // pending_head
    pub window: Window,
}

// The next state, what the retirement costs, and what the branch cache said of it.
#[derive(Clone, Copy)]
pub struct Stepped {
    pub timing: Oep060Timing,
    pub cost: Clocks,
    pub answer: Answer,
}

impl Oep060Timing {
    pub fn fresh() -> Self
        ensures { result ≡ fresh_of }
    {
        Oep060Timing {
            cache: BranchCache060::fresh(),
            window: Window::shut(),
        }
    }

    // As every entry point reads it: a shut window has zeros.
    pub fn seen(self) -> Self
        ensures { result ≡ seen_of self }
    {
        Oep060Timing {
            cache: self.cache,
            window: self.window.seen(),
        }
    }

    // The rule of break_060_pipeline, by value.
    pub fn broken(self) -> Self
        ensures { result ≡ broken_of self }
    {
        Oep060Timing {
            cache: self.cache,
            window: Window::shut(),
        }
    }

    pub fn clear_all(self) -> Self
        ensures { result ≡ cleared_of self }
    {
        Oep060Timing {
            cache: self.cache.clear_all(),
            window: self.window.seen(),
        }
    }

    pub fn clear_user(self) -> Self
        ensures { result ≡ user_cleared_of self }
    {
        Oep060Timing {
            cache: self.cache.clear_user(),
            window: self.window.seen(),
        }
    }
}
