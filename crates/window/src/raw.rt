// Part 5 of document 01: raw counts.
ghost use Rattle.std.specs.Prelude.{◌≡◌};
ghost use Rattle.class_word.specs.Word.{clocks};
ghost use Rattle.window.specs.Raw.{fallback_of};

use class_word::Clocks;

// A raw 68000 count; only `fallback_cycles` makes clocks of it.
#[derive(Clone, Copy)]
pub struct RawCount(pub i32);

// Truncated toward zero, at least 1.
pub fn fallback_cycles(raw: RawCount) -> Clocks
    ensures { result ≡ clocks (fallback_of raw.0) }
{
    Clocks((raw.0 / 4).max(1) as u32)
}
