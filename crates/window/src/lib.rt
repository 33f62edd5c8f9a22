// Part 5 of document 01: the pairing window, and the test that an instruction must pass to join its head.
//
// Here is the window itself. `raw` has raw counts and makes clocks of them, `dispatch` what a retirement brings and the
// dispatch test, and `lent` the break on a lent window, a thin function over the rule by value. `cost` calls the test
// and the fallback.
#![tactic(auto)]

mod dispatch;
mod lent;
mod raw;

ghost use Rattle.std.specs.Prelude.{◌≡◌};
ghost use Rattle.window.specs.Windows.{shut, seen};

pub use dispatch::{Controls, Instruction, Rule, failing, memory, soep_dispatch_test};
pub use lent::{break_060_pipeline, break_in_place};
pub use raw::{RawCount, fallback_cycles};

// The Rust's Option<PendingHead060>: `opened` says whether there is a head; the other fields are the head's. The Rust
// has no `op` and `address`: document 02's R-6 keeps them, and no cost looks at them.
// Stays a flag beside values: a shut window with other fields set is lent by hosts, and `seen` speaks of it.
#[derive(Clone, Copy)]
pub struct Window {
    pub opened: bool,
    // def_mask
    pub defs: u16,
    // defines_ccr
    pub ccr: bool,
    // accessed_mem
    pub mem: bool,
    // head_cached
    pub warm: bool,
    // the head's opcode
    pub op: u16,
    // the head's ppc
    pub address: u32,
}

impl Window {
    pub fn shut() -> Window
        ensures { result ≡ shut }
    {
        Window {
            opened: false,
            defs: 0,
            ccr: false,
            mem: false,
            warm: false,
            op: 0,
            address: 0,
        }
    }

    // A window as it is read: a shut one has zeros.
    pub fn seen(self) -> Window
        ensures { result ≡ seen self }
    {
        if self.opened { self } else { Window::shut() }
    }
}
