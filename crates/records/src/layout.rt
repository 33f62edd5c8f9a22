// The bytes of a record: the retirement in its payload.
ghost use Rattle.std.specs.Prelude.{◌≡◌, ◌+◌, ◌≤◌, length};
ghost use Rattle.records.specs.Layout.{retirement_at};

use state::Retirement;
use window::RawCount;

// The retirement in the payload of the record at `at`, all of which is there.
pub fn retirement_at(trace: &[u8], at: usize) -> Retirement
    // The bytes are there: only our crates call this, each after a test of the length.
    requires { at + 20 ≤ length trace.now }
    ensures { result ≡ retirement_at trace.now at }
{
    let op = little_endian::u16_at(trace, at + 4);
    let flags = little_endian::u16_at(trace, at + 6);
    let ppc = little_endian::u32_at(trace, at + 8);
    let pc = little_endian::u32_at(trace, at + 12);
    let raw = RawCount(little_endian::i32_of(little_endian::u32_at(trace, at + 16)));
    state::retirement_of(op, flags, ppc, pc, raw)
}
