// What a run gives a host, as numbers, and a state or a window stored into the numbers that it lends.
ghost use Rattle.std.specs.Prelude.{◌≡◌};
ghost use Rattle.state.specs.Timing.{fresh_of};
ghost use Rattle.in_place.specs.Lent.{lent, lent_of};
ghost use Rattle.host.specs.HostRan.{host_ran_of, lent_after};
ghost use Rattle.host.specs.HostWhy.{why_number};

use in_place::{WindowNumbers, put_window, shut_window};
use reasons::Explained;
use refusals::Verdict;
use state::Oep060Timing;

// What a run gives.
// Stays a number beside values: the C interface, a struct of four 64-bit numbers.
#[repr(C)]
#[derive(Clone, Copy)]
pub struct HostRan {
    // 0 where nothing is refused, else the refusal's number.
    pub refusal: u64,
    pub place: u64,
    pub count: u64,
    pub total: u64,
}

// A fresh state, stored.
pub fn fresh_at(tags: &mut [u32; 256], state: &mut [u8; 256], window: &mut WindowNumbers)
    ensures { lent tags.new state.new window.new ≡ lent_of fresh_of }
{
    *tags = [0; 256];
    *state = [0; 256];
    shut_window(window);
}

pub fn put_timing(
    tags: &mut [u32; 256],
    state: &mut [u8; 256],
    window: &mut WindowNumbers,
    timing: Oep060Timing,
)
    ensures { lent tags.new state.new window.new ≡ lent_of timing }
{
    let all_tags = timing.cache.tags;
    let all_state = timing.cache.state;
    *tags = all_tags;
    *state = all_state;
    put_window(window, timing.window);
}

// The next state, stored where the run was accepted; a refused one leaves every lent number as it is.
pub fn put_accepted(
    tags: &mut [u32; 256],
    state: &mut [u8; 256],
    window: &mut WindowNumbers,
    verdict: Verdict,
    timing: Oep060Timing,
)
    ensures { lent tags.new state.new window.new
        ≡ lent_after verdict (lent tags.old state.old window.old) timing }
{
    if verdict.is_ok() {
        put_timing(tags, state, window, timing);
    }
}

// A verdict, a count and a total as numbers.
pub fn host_ran(verdict: Verdict, count: usize, total: u64) -> HostRan
    ensures { result ≡ host_ran_of verdict count total }
{
    let (number, place) = match verdict {
        Ok(()) => (0, 0),
        Err(refusal) => (refusals::number(refusal), refusals::place(refusal)),
    };
    HostRan {
        refusal: u64::from(number),
        place: place as u64,
        count: count as u64,
        total,
    }
}

// An explained retirement as one number, which goes through a register.
pub fn why_number(x: Explained) -> u64
    ensures { result ≡ why_number x }
{
    let answer = u8::from(x.answer);
    let reason = u8::from(x.reason);
    u64::from(x.cost.0) + u64::from(answer) * 4294967296 + u64::from(reason) * 1099511627776
}
