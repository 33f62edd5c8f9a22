// The lines that `show_trace` prints.
#![tactic(auto, using(text::proofs::Behind::behind))]

ghost use Rattle.std.specs.Prelude.{◌≡◌, cond, ◌+◌, ◌≤◌, length};
ghost use Rattle.text.specs.Written.{written, written_of};
ghost use Rattle.showing.specs.Lines.{flags_text, controls_text, retirement_text, record_text};
ghost use Rattle.showing.specs.Lines.{record_line, header_line, end_line};

use state::{Event, Retirement};
use window::Controls;

// A flag's letter, or `-` where it is off.
fn mark(on: bool, letter: u8) -> u8
    ensures { result ≡ cond on letter 45 }
{
    if on { letter } else { b'-' }
}

#[tactic(auto, unfolding(crate::specs::Lines::flags_text))]
fn flag_letters(k: Controls) -> [u8; 5]
    ensures { result ≡ flags_text k }
{
    [
        mark(k.flowed, b'f'),
        mark(k.cached, b'c'),
        mark(k.ess, b'e'),
        mark(k.ebc, b'b'),
        mark(k.supervisor, b's'),
    ]
}

// The flags, the two addresses and the raw count.
#[tactic(auto, using(text::proofs::Behind::behind), unfolding(crate::specs::Lines::controls_text))]
fn put_controls(out: &mut [u8], at: usize, k: Controls) -> usize
    requires { at + length (controls_text k) ≤ length out.old }
    ensures { written result out.new ≡ written_of out.old at (controls_text k) }
{
    let a = text::put_bytes(out, at, &flag_letters(k));
    let b = text::put_bytes(out, a, b" ");
    let c = text::put_hex::<8>(out, b, k.ppc);
    let d = text::put_bytes(out, c, b" ");
    let e = text::put_hex::<8>(out, d, k.pc);
    let f = text::put_bytes(out, e, b" ");
    text::put_signed(out, f, k.raw.0)
}

fn put_retirement(out: &mut [u8], at: usize, r: Retirement) -> usize
    requires { at + length (retirement_text r) ≤ length out.old }
    ensures { written result out.new ≡ written_of out.old at (retirement_text r) }
{
    let a = text::put_bytes(out, at, b"retirement ");
    let b = text::put_hex::<4>(out, a, r.op as u32);
    let c = text::put_bytes(out, b, b" ");
    put_controls(out, c, r.controls)
}

// What is printed of a record behind its place.
fn put_text(out: &mut [u8], at: usize, e: Event) -> usize
    requires { at + length (record_text e) ≤ length out.old }
    ensures { written result out.new ≡ written_of out.old at (record_text e) }
{
    match e {
        Event::Retired(r) => put_retirement(out, at, r),
        Event::Broken => text::put_bytes(out, at, b"break"),
        Event::ClearedAll => text::put_bytes(out, at, b"clear-all"),
        Event::ClearedUser => text::put_bytes(out, at, b"clear-user"),
    }
}

// The line of the record at a place of the trace.
pub fn put_record(out: &mut [u8], at: usize, place: usize, e: Event) -> usize
    // There is room: only `put_lines` calls this, where the room is known.
    requires { at + length (record_line place e) ≤ length out.old }
    ensures { written result out.new ≡ written_of out.old at (record_line place e) }
{
    let a = text::put_decimal(out, at, place as u64);
    let b = text::put_bytes(out, a, b" ");
    let c = put_text(out, b, e);
    text::put_bytes(out, c, b"\n")
}

// The names of the columns.
pub fn put_header(out: &mut [u8], at: usize) -> usize
    // There is room: only `put_shown` calls this, where the room is known.
    requires { at + 37 ≤ length out.old }
    ensures { written result out.new ≡ written_of out.old at header_line }
{
    text::put_bytes(out, at, b"place record opcode flags ppc pc raw\n")
}

// The size of the trace.
pub fn put_end(out: &mut [u8], at: usize, size: usize) -> usize
    // There is room: only `put_shown` calls this, where the room is known.
    requires { at + length (end_line size) ≤ length out.old }
    ensures { written result out.new ≡ written_of out.old at (end_line size) }
{
    let a = text::put_bytes(out, at, b"end ");
    let b = text::put_decimal(out, a, size as u64);
    text::put_bytes(out, b, b"\n")
}
