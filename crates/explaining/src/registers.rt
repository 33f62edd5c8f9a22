// The registers that stand in the way, put into lent bytes.
ghost use Rattle.std.specs.Prelude.{◌≡◌, ◌+◌, ◌≤◌, ◌<◌, length};
ghost use Rattle.text.specs.Written.{written, written_of};
ghost use Rattle.explaining.specs.Words.{register_name, comma, register_text, registers_of, in_the_way};

use reasons::Reason;

const REGISTERS: u32 = 16;

// D0 to D7, then A0 to A7.
#[tactic(auto, using(rule_text::proofs::Each::each), unfolding(crate::specs::Words::register_name))]
fn put_name(out: &mut [u8], at: usize, n: u32) -> usize
    requires { at + length (register_name n) ≤ length out.old }
    ensures { written result out.new ≡ written_of out.old at (register_name n) }
{
    if n < 8 {
        let a = text::put_bytes(out, at, b"D");
        return text::put_decimal(out, a, u64::from(n));
    }
    let b = text::put_bytes(out, at, b"A");
    text::put_decimal(out, b, u64::from(n - 8))
}

// The mask below the register's bit has those that stand before it.
#[tactic(auto, using(rule_text::proofs::Each::each), unfolding(crate::specs::Words::comma))]
fn put_comma(out: &mut [u8], at: usize, mask: u16, n: u32) -> usize
    requires n_bound { n < 16 }
    requires n_in_bounds { at + length (comma mask n) ≤ length out.old }
    ensures { written result out.new ≡ written_of out.old at (comma mask n) }
{
    if mask % (1 << n) == 0 {
        return at;
    }
    text::put_bytes(out, at, b",")
}

#[tactic(auto, using(rule_text::proofs::Each::each), unfolding(crate::specs::Words::register_text))]
fn put_register(out: &mut [u8], at: usize, mask: u16, n: u32) -> usize
    requires n_bound { n < 16 }
    requires n_in_bounds { at + length (register_text mask n) ≤ length out.old }
    ensures { written result out.new ≡ written_of out.old at (register_text mask n) }
{
    if (mask >> n) % 2 == 1 {
        let a = put_comma(out, at, mask, n);
        return put_name(out, a, n);
    }
    at
}

fn put_registers(out: &mut [u8], start: usize, mask: u16) -> usize
    requires { start + length (registers_of mask) ≤ length out.old }
    ensures { written result out.new ≡ written_of out.old start (registers_of mask) }
{
    let mut place = start;
    for n in 0..REGISTERS {
        place = put_register(out, place, mask, n);
    }
    place
}

// Registers stand in the way of the reason `register` alone.
pub fn put_in_the_way(out: &mut [u8], at: usize, reason: Reason, mask: u16) -> usize
    // There is room: only `put_more` calls this, where the room is known.
    requires { at + length (in_the_way reason mask) ≤ length out.old }
    ensures { written result out.new ≡ written_of out.old at (in_the_way reason mask) }
{
    if reason == Reason::Register {
        return put_registers(out, at, mask);
    }
    text::put_bytes(out, at, b"-")
}
