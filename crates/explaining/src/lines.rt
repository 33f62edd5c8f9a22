// The header and the line of a retirement.
ghost use Rattle.std.specs.Prelude.{◌≡◌, ◌+◌, ◌≤◌, length};
ghost use Rattle.text.specs.Written.{written, written_of};
ghost use Rattle.explaining.specs.WhyLines.{why_header, numbers_text, more_text, why_line};

use crate::{registers, words};
use reasons::Explained;

// The names of the columns.
pub fn put_header(out: &mut [u8], at: usize, full: bool) -> usize
    // There is room: only `put_table` calls this, where the room is known.
    requires { at + 55 ≤ length out.old }
    ensures { written result out.new ≡ written_of out.old at (why_header full) }
{
    if full {
        return text::put_bytes(
            out,
            at,
            b"index opcode clocks reason predicted head at registers\n",
        );
    }
    text::put_bytes(out, at, b"index opcode clocks reason predicted\n")
}

// The index, the opcode and the clocks of a retirement.
#[tactic(auto, using(rule_text::proofs::Each::each), unfolding(crate::specs::WhyLines::numbers_text))]
fn put_numbers(out: &mut [u8], at: usize, index: usize, op: u16, clocks: u32) -> usize
    requires { at + length (numbers_text index op clocks) ≤ length out.old }
    ensures { written result out.new ≡ written_of out.old at (numbers_text index op clocks) }
{
    let a = text::put_decimal(out, at, index as u64);
    let b = text::put_bytes(out, a, b" ");
    let c = text::put_hex::<4>(out, b, u32::from(op));
    let d = text::put_bytes(out, c, b" ");
    text::put_decimal(out, d, u64::from(clocks))
}

// The three columns more.
#[tactic(auto, using(rule_text::proofs::Each::each), unfolding(crate::specs::WhyLines::more_text))]
fn put_more(out: &mut [u8], at: usize, full: bool, x: Explained) -> usize
    requires { at + length (more_text full x) ≤ length out.old }
    ensures { written result out.new ≡ written_of out.old at (more_text full x) }
{
    if full {
        let a = words::put_head(out, at, x.window);
        let b = text::put_bytes(out, a, b" ");
        return registers::put_in_the_way(out, b, x.reason, x.registers);
    }
    at
}

#[tactic(auto, using(rule_text::proofs::Each::each), unfolding(crate::specs::WhyLines::why_line))]
pub fn put_line(out: &mut [u8], at: usize, full: bool, index: usize, op: u16, x: Explained) -> usize
    // There is room: only `put_lines` calls this, where the room is known.
    requires { at + length (why_line full index op x) ≤ length out.old }
    ensures { written result out.new ≡ written_of out.old at (why_line full index op x) }
{
    let a = put_numbers(out, at, index, op, x.cost.0);
    let b = words::put_words(out, a, x.reason, x.answer);
    let c = put_more(out, b, full, x);
    text::put_bytes(out, c, b"\n")
}
