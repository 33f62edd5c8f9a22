// Part 4 of document 01: the branch cache, 256 slots of a tag and a byte.
//
// Read `slot` first: the hit, the prediction and the update of one slot. The cache here picks the slot of an address
// and asks it, by value, and has the clears. `stored` asks and updates on lent arrays, and stores that slot alone.
// `step` calls the one by value, `in_place` the one that stores.
#![tactic(auto)]

mod slot;
mod stored;

ghost use Rattle.std.specs.Prelude.{◌≡◌};
ghost use Rattle.branch_cache.specs.Cache.{
  slot_of,
  cache_predict_of,
  cache_update_of,
  cache_fresh_of,
  clear_all_of,
  clear_user_of,
};

use slot::BC_USER;
pub use slot::Slot;
use stored::slot_at;
pub use stored::update_at;

// Fixed arrays for the Rust's `Vec`s: no cache has a wrong length.
// Stays two arrays: document 01 names a u32 array and a byte array, and the C interface lends each by itself.
#[derive(Clone, Copy)]
pub struct BranchCache060 {
    pub tags: [u32; 256],
    pub state: [u8; 256],
}

impl BranchCache060 {
    // The Rust's `default`.
    pub fn fresh() -> Self
        ensures { result ≡ cache_fresh_of }
    {
        BranchCache060 {
            tags: [0; 256],
            state: [0; 256],
        }
    }

    pub fn slot(pc: u32) -> usize
        ensures { result ≡ slot_of pc }
    {
        ((pc >> 1) & 0xFF) as usize
    }

    pub fn clear_all(mut self) -> Self
        ensures { result ≡ clear_all_of self }
    {
        self.state = [0; 256];
        self
    }

    pub fn clear_user(mut self) -> Self
        ensures { result ≡ clear_user_of self }
    {
        for byte in self.state.iter_mut() {
            if *byte & BC_USER != 0 {
                *byte = 0;
            }
        }
        self
    }

    pub fn predict(self, pc: u32) -> Option<bool>
        ensures { result ≡ cache_predict_of self pc }
    {
        let i = BranchCache060::slot(pc);
        slot_at(&self.tags, &self.state, i).predict(pc)
    }

    // The next cache: its arrays are copied, and lent to what stores one slot.
    pub fn update(self, pc: u32, taken: bool, user: bool) -> Self
        ensures { result ≡ cache_update_of self pc taken user }
    {
        let mut tags = self.tags;
        let mut state = self.state;
        update_at(&mut tags, &mut state, pc, taken, user);
        BranchCache060 { tags, state }
    }
}
