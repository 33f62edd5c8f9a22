// Numbers as the tools print them, put into lent bytes.
//
// `hex` makes digits. Each function here puts some bytes at a place and answers the place behind them, so that a line
// is a chain of calls; the caller knows the room. All tools call them.
// Stays `out` and `at`, here and above: of a struct with both each contract would say too that it holds these bytes.
#![tactic(auto)]

mod hex;

ghost use Rattle.std.specs.Prelude.{◌≡◌, ◌+◌, ◌≤◌, length};
ghost use Rattle.text.specs.Hex.{hex_digits};
ghost use Rattle.text.specs.Decimal.{decimal_of};
ghost use Rattle.text.specs.Signed.{signed_decimal_of};
ghost use Rattle.text.specs.Written.{written, written_of};

pub use hex::hex_digits;

// Puts bytes at a place, and answers the place behind them.
pub fn put_bytes(out: &mut [u8], at: usize, s: &[u8]) -> usize
    // There is room: only our crates call this, each where the room is known.
    requires { at + length s.now ≤ length out.old }
    ensures { written result out.new ≡ written_of out.old at s.now }
{
    let end = at + s.len();
    out[at..end].copy_from_slice(s);
    end
}

// So many of a number's hexadecimal digits: two of a byte, four of a word, eight of a number of 32 bits.
pub fn put_hex<const DIGITS: usize>(out: &mut [u8], at: usize, n: u32) -> usize
    // There is room: only our crates call this, each where the room is known.
    requires { at + DIGITS ≤ length out.old }
    ensures { written result out.new ≡ written_of out.old at (hex_digits DIGITS n) }
{
    put_bytes(out, at, &hex_digits::<DIGITS>(n))
}

// The digits before the last are those of a tenth.
// Stays printed by hand, as `hex`: what a `write!` wrote is known where it answers `Ok` alone, and none here may fail.
pub fn put_decimal(out: &mut [u8], at: usize, n: u64) -> usize
    // There is room: only our crates call this, each where the room is known.
    requires { at + length (decimal_of n) ≤ length out.old }
    ensures { written result out.new ≡ written_of out.old at (decimal_of n) }
{
    if n < 10 {
        out[at] = b'0' + n as u8;
        return at + 1;
    }
    let next = put_decimal(out, at, n / 10);
    out[next] = b'0' + (n % 10) as u8;
    next + 1
}

// A number below 0 stands behind its sign.
pub fn put_signed(out: &mut [u8], at: usize, n: i32) -> usize
    // There is room: only our crates call this, each where the room is known.
    requires { at + length (signed_decimal_of n) ≤ length out.old }
    ensures { written result out.new ≡ written_of out.old at (signed_decimal_of n) }
{
    let size = n.unsigned_abs() as u64;
    if n < 0 {
        out[at] = b'-';
        return put_decimal(out, at + 1, size);
    }
    put_decimal(out, at, size)
}
