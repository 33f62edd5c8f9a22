// Part 4 of document 01: one slot of the branch cache.
ghost use Rattle.std.specs.Prelude.{◌≡◌};
ghost use Rattle.branch_cache.specs.Slot.{hit_of, predict_of, counter_after_of, update_of};

// One slot: the full address of a branch (the Rust's `tags[i]`) and its byte (`state[i]`).
#[derive(Clone, Copy)]
pub struct Slot {
    pub tag: u32,
    pub byte: u8,
}

pub const BC_VALID: u8 = 1 << 2;

pub const BC_USER: u8 = 1 << 3;

const BC_COUNTER: u8 = 0x03;

// One up where taken, else one down; it stays within 0 to 3.
fn counter_after(counter: u8, taken: bool) -> u8
    ensures { result ≡ counter_after_of counter taken }
{
    if taken {
        counter.saturating_add(1).min(3)
    } else {
        counter.saturating_sub(1)
    }
}

impl Slot {
    pub fn hit(self, pc: u32) -> bool
        ensures { result ≡ hit_of self pc }
    {
        self.byte & BC_VALID != 0 && self.tag == pc
    }

    // On a hit whether it predicts taken; none on a miss.
    #[tactic(auto, unfolding(crate::specs::Slot::predict_of), using(crate::proofs::Bytes::byte_counter))]
    pub fn predict(self, pc: u32) -> Option<bool>
        ensures { result ≡ predict_of self pc }
    {
        if self.hit(pc) {
            Some(self.byte & BC_COUNTER >= 2)
        } else {
            None
        }
    }

    #[tactic(auto, unfolding(crate::specs::Slot::update_of), using(crate::proofs::Bytes::byte_steps))]
    pub fn update(self, pc: u32, taken: bool, user: bool) -> Slot
        ensures { result ≡ update_of self pc taken user }
    {
        if self.hit(pc) {
            let counter = counter_after(self.byte & BC_COUNTER, taken);
            return Slot {
                tag: self.tag,
                byte: (self.byte & !BC_COUNTER) | counter,
            };
        }
        if taken {
            let mode = if user { BC_USER } else { 0 };
            return Slot {
                tag: pc,
                byte: BC_VALID | mode | 2,
            };
        }
        self
    }
}
