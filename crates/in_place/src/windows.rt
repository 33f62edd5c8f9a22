// A window as the numbers that a host lends, and what is stored into them.
ghost use Rattle.std.specs.Prelude.{◌≡◌};
ghost use Rattle.window.specs.Windows.{shut, seen};
ghost use Rattle.cost.specs.Cost.{as_head};
ghost use Rattle.in_place.specs.WindowNumbers.{window_at, numbers_of};

use class_word::F_DEFINES_CCR;
use window::{Controls, Instruction, Window};

pub const WINDOW_NUMBERS: usize = 8;

// Open; the registers that the head defines; whether it defines the CCR, accesses memory, was cached; its opcode; its
// address, the low half first.
// Stays numbers by their places: so the C interface lends them.
pub type WindowNumbers = [u16; WINDOW_NUMBERS];

pub fn window_at(ns: WindowNumbers) -> Window
    ensures { result ≡ window_at ns }
{
    Window {
        opened: ns[0] != 0,
        defs: ns[1],
        ccr: ns[2] != 0,
        mem: ns[3] != 0,
        warm: ns[4] != 0,
        op: ns[5],
        address: ns[6] as u32 + ns[7] as u32 * 65536,
    }
}

pub fn put_window(window: &mut WindowNumbers, w: Window)
    ensures { window.new ≡ numbers_of w }
{
    *window = [
        u16::from(w.opened),
        w.defs,
        u16::from(w.ccr),
        u16::from(w.mem),
        u16::from(w.warm),
        w.op,
        (w.address % 65536) as u16,
        (w.address / 65536) as u16,
    ];
}

// A shut window has zeros: what a break, a pair and a branch leave.
pub fn shut_window(window: &mut WindowNumbers)
    ensures { window.new ≡ numbers_of shut }
{
    *window = [0; WINDOW_NUMBERS];
}

// The window as every entry reads it, stored: a shut one becomes zeros.
pub fn see_window(window: &mut WindowNumbers)
    ensures { window.new ≡ numbers_of (seen (window_at window.old)) }
{
    let came = window_at(*window);
    put_window(window, came.seen());
}

// The window with this instruction as head, as numbers.
// Stays beside `put_window`, whose form it shares: no struct is made on the way, as each costs speed (docs/SPEED.md).
pub fn put_head(window: &mut WindowNumbers, op: u16, i: Instruction, k: Controls)
    ensures { window.new ≡ numbers_of (as_head op i k) }
{
    *window = [
        1,
        i.defs,
        u16::from(i.word.has(F_DEFINES_CCR)),
        u16::from(window::memory(i.word)),
        u16::from(k.cached),
        op,
        (k.ppc % 65536) as u16,
        (k.ppc / 65536) as u16,
    ];
}
