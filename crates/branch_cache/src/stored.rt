// One slot of a cache, read and stored in place: what a branch does to the cache.
ghost use Rattle.std.specs.Prelude.{◌≡◌, ◌<◌};
ghost use Rattle.branch_cache.specs.Cache.{cache_at, slot_at, cache_predict_of, cache_update_of};

use crate::BranchCache060;
use crate::slot::Slot;

// The slot of this number.
#[tactic(auto, unfolding(crate::specs::Cache::slot_at))]
pub fn slot_at(tags: &[u32; 256], state: &[u8; 256], i: usize) -> Slot
    requires { i < 256 }
    ensures { result ≡ slot_at (cache_at tags.now state.now) i }
{
    Slot {
        tag: tags[i],
        byte: state[i],
    }
}

// What the cache predicts of the branch at pc; of the arrays only the slot that pc goes to is stored.
#[tactic(auto, unfolding(crate::specs::Cache::slot_put))]
pub fn update_at(
    tags: &mut [u32; 256],
    state: &mut [u8; 256],
    pc: u32,
    taken: bool,
    user: bool,
) -> Option<bool>
    ensures value { result ≡ cache_predict_of (cache_at tags.old state.old) pc }
    ensures state_after { cache_at tags.new state.new
        ≡ cache_update_of (cache_at tags.old state.old) pc taken user }
{
    let i = BranchCache060::slot(pc);
    let slot = slot_at(tags, state, i);
    let next = slot.update(pc, taken, user);
    tags[i] = next.tag;
    state[i] = next.byte;
    slot.predict(pc)
}
