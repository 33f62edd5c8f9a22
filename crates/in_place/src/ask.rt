// The branch cache asked in place.
ghost use Rattle.std.specs.Prelude.{◌≡◌};
ghost use Rattle.branch_cache.specs.Cache.{cache_at};
ghost use Rattle.cost.specs.Branch.{taken_of};
ghost use Rattle.state.specs.Timing.{asked, asked_of};

use cost::Answer;
use state::consulted;
use window::{Controls, Instruction};

// What the cache says of a retirement; of the arrays only the slot of its ppc is stored, and only where the cache is
// asked.
// Stays without a caller: its promise landed (docs/DECISIONS.md, "What had landed stays beside the speed work").
pub fn ask_in_place(
    tags: &mut [u32; 256],
    state: &mut [u8; 256],
    i: Instruction,
    k: Controls,
) -> Answer
    ensures { asked result (cache_at tags.new state.new)
        ≡ asked_of (cache_at tags.old state.old) i k }
{
    let taken = cost::taken(i, k);
    ask_told(tags, state, i, k, taken)
}

// The same, for a caller that knows whether the branch was taken.
#[tactic(auto, unfolding(state::specs::Events::answer_of, state::specs::Events::cache_after))]
pub fn ask_told(
    tags: &mut [u32; 256],
    state: &mut [u8; 256],
    i: Instruction,
    k: Controls,
    taken: bool,
) -> Answer
    // Each caller asks the code of `taken` first.
    requires { taken ≡ taken_of i k }
    ensures { asked result (cache_at tags.new state.new)
        ≡ asked_of (cache_at tags.old state.old) i k }
{
    if consulted(i, k) {
        let predicted = branch_cache::update_at(tags, state, k.ppc, taken, !k.supervisor);
        Answer::from(predicted)
    } else {
        Answer::NotConsulted
    }
}
