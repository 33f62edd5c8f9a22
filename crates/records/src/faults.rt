// Part 6 of document 01: what is wrong with a record of a trace, whose kind is known.
ghost use Rattle.std.specs.Prelude.{◌≡◌, ◌+◌, ◌≤◌, length};
ghost use Rattle.records.specs.Faults.{fault_at};

use crate::kinds::Kind;
use refusals::{Refusal, Verdict};

// Flag bits 0 to 4, all set.
pub const ALL_FLAGS: u16 = 31;

// The verdict on the record of this kind at `at`, whose head is there.
#[tactic(auto, unfolding(crate::specs::Faults::fault_at))]
pub fn fault_at(trace: &[u8], at: usize, kind: Kind) -> Verdict
    requires { at + 4 ≤ length trace.now }
    ensures { result ≡ fault_at trace.now at kind }
{
    let want = crate::kinds::payload_length(kind);
    let next = at + 4 + usize::from(want);
    let len = little_endian::u16_at(trace, at);
    if len != want {
        return Err(Refusal::WrongLength(at));
    }
    if trace.len() < next {
        return Err(Refusal::Cut(at));
    }
    // Only a retirement has flags.
    if kind == Kind::Retirement && ALL_FLAGS < little_endian::u16_at(trace, at + 6) {
        return Err(Refusal::Flag(at));
    }
    Ok(())
}
