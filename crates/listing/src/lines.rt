// The lines that the tools print.
#![tactic(auto, using(text::proofs::Behind::behind))]

ghost use Rattle.std.specs.Prelude.{◌≡◌, ◌++◌, ◌+◌, ◌≤◌, length};
ghost use Rattle.text.specs.Decimal.{decimal_of};
ghost use Rattle.text.specs.Written.{newline, written, written_of};
ghost use Rattle.listing.specs.Lines.{refusal_line, header_line, retirement_line, total_line};

use refusals::Refusal;

// A line of two numbers, each behind its words. A number has 20 digits at most.
#[tactic(auto, using(text::proofs::Behind::behind, crate::proofs::Lengths::digits_most))]
fn put_numbers(out: &mut [u8], at: usize, before: &[u8], a: u64, between: &[u8], b: u64) -> usize
    requires { at + length before.now + length between.now + 41 ≤ length out.old }
    ensures { written result out.new
        ≡ written_of out.old at
        (before.now ++ decimal_of a ++ between.now ++ decimal_of b ++ newline) }
{
    let p = text::put_bytes(out, at, before);
    let q = text::put_decimal(out, p, a);
    let r = text::put_bytes(out, q, between);
    let s = text::put_decimal(out, r, b);
    text::put_bytes(out, s, b"\n")
}

// `refused N at P`
pub fn put_refusal(out: &mut [u8], at: usize, refusal: Refusal) -> usize
    // There is room: only our crates call this, each where the room is known.
    requires { at + 53 ≤ length out.old }
    ensures { written result out.new ≡ written_of out.old at (refusal_line refusal) }
{
    let number = refusals::number(refusal);
    let place = refusals::place(refusal);
    put_numbers(out, at, b"refused ", number as u64, b" at ", place as u64)
}

// The index, the opcode and the clocks of a retirement.
// Stays beside the line of `explaining`: that goes on where this ends, and a function for both would be a third.
pub fn put_line(out: &mut [u8], at: usize, index: usize, op: u16, clocks: u32) -> usize
    // There is room: only `table` calls this, where the room is known.
    requires { at + length (retirement_line index op clocks) ≤ length out.old }
    ensures { written result out.new ≡ written_of out.old at (retirement_line index op clocks) }
{
    let a = text::put_decimal(out, at, index as u64);
    let b = text::put_bytes(out, a, b" ");
    let c = text::put_hex::<4>(out, b, op as u32);
    let d = text::put_bytes(out, c, b" ");
    let e = text::put_decimal(out, d, clocks as u64);
    text::put_bytes(out, e, b"\n")
}

// The names of the columns.
pub fn put_header(out: &mut [u8], at: usize) -> usize
    // There is room: only `table` calls this, where the room is known.
    requires { at + 20 ≤ length out.old }
    ensures { written result out.new ≡ written_of out.old at header_line }
{
    text::put_bytes(out, at, b"index opcode clocks\n")
}

// The number of retirements and the sum of their costs.
pub fn put_total(out: &mut [u8], at: usize, count: usize, sum: u64) -> usize
    // There is room: only `table` and `explaining` call this, where the room is known.
    requires { at + 48 ≤ length out.old }
    ensures { written result out.new ≡ written_of out.old at (total_line count sum) }
{
    put_numbers(out, at, b"total ", count as u64, b" ", sum)
}
