// What a run gives.
ghost use Rattle.std.specs.Prelude.{◌≡◌};
ghost use Rattle.refusals.specs.Refused.{refused_of};

use crate::{Refusal, Verdict};
use state::Oep060Timing;

// What a run of a trace or a batch gives.
// Stays a verdict beside values: a refused run answers count 0, total 0 and the state that it was given.
#[derive(Clone, Copy)]
pub struct Ran {
    pub verdict: Verdict,
    // The number of retirements.
    pub count: usize,
    // The sum of their costs.
    pub total: u64,
    // The next state.
    pub timing: Oep060Timing,
}

// A refused run: nothing counted, and the state that was given, as it is read.
pub fn refused(refusal: Refusal, timing: Oep060Timing) -> Ran
    ensures { result ≡ refused_of refusal timing }
{
    Ran {
        verdict: Err(refusal),
        count: 0,
        total: 0,
        timing: timing.seen(),
    }
}
