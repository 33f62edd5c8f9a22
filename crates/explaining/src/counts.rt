// How many retirements have each reason, and the lines of them.
ghost use Rattle.std.specs.Prelude.{◌≡◌, cond, [], ◌+◌, ◌≤◌, ◌<◌, length, get_or, set};
ghost use Rattle.text.specs.Written.{written, written_of};
ghost use Rattle.rule_text.specs.Each.{each_from};
ghost use Rattle.reasons.specs.Reasons.{reason_number};
ghost use Rattle.explaining.specs.WhyLines.{count_line};
ghost use Rattle.explaining.specs.Inner.{count_text};

use crate::words;
use reasons::Reason;

// In the order of their numbers.
pub const REASONS: [Reason; 14] = [
    Reason::Paired,
    Reason::WindowShut,
    Reason::EssOff,
    Reason::NotCached,
    Reason::NotSimple,
    Reason::Register,
    Reason::Ccr,
    Reason::Memory,
    Reason::Refill,
    Reason::Folded,
    Reason::Alone,
    Reason::NotTaken,
    Reason::Mispredicted,
    Reason::Static,
];

// The counts by the reasons' numbers.
pub type Counts = [u64; REASONS.len()];

pub fn count_one(counts: &mut Counts, reason: Reason)
    // The count can grow: only `put_lines` calls this, where the trace is short.
    requires { get_or counts.old (reason_number reason) 0 < 4294967295 }
    ensures { counts.new
        ≡ set counts.old (reason_number reason) (get_or counts.old (reason_number reason) 0 + 1) }
{
    counts[reason as usize] += 1;
}

#[tactic(auto, using(rule_text::proofs::Each::each), unfolding(crate::specs::WhyLines::count_line))]
fn put_count(out: &mut [u8], at: usize, reason: Reason, count: u64) -> usize
    requires { at + length (count_line reason count) ≤ length out.old }
    ensures { written result out.new ≡ written_of out.old at (count_line reason count) }
{
    let a = text::put_bytes(out, at, words::reason_word(reason));
    let b = text::put_bytes(out, a, b" ");
    let c = text::put_decimal(out, b, count);
    text::put_bytes(out, c, b"\n")
}

fn put_each(out: &mut [u8], start: usize, counts: &Counts) -> usize
    requires { start + length (each_from 0 14 (count_text counts.now)) ≤ length out.old }
    ensures { written result out.new
        ≡ written_of out.old start (each_from 0 14 (count_text counts.now)) }
{
    let mut place = start;
    for (reason, count) in REASONS.iter().zip(counts) {
        place = put_count(out, place, *reason, *count);
    }
    place
}

// A line for each reason, where they are asked for.
pub fn put_counts(out: &mut [u8], at: usize, full: bool, counts: &Counts) -> usize
    // There is room: only `put_table` calls this, where the room is known.
    requires { at + length (cond full (each_from 0 14 (count_text counts.now)) []) ≤ length out.old }
    ensures { written result out.new
        ≡ written_of out.old at (cond full (each_from 0 14 (count_text counts.now)) []) }
{
    if full {
        return put_each(out, at, counts);
    }
    at
}
