// A retirement as the numbers that a host passes, its flags as one.
ghost use Rattle.std.specs.Prelude.{◌≡◌, ◌+◌, ◌*◌, ◌%◌, ◌<◌};
ghost use Rattle.bits.specs.Words.{num, bit};
ghost use Rattle.state.specs.Flags.{controls_of, control_flags_of, retirement_of};

use crate::Retirement;
use window::{Controls, RawCount};

fn flag(flags: u16, n: u16) -> bool
    requires { n < 16 }
    ensures { result ≡ bit n flags }
{
    (flags >> n) & 1 == 1
}

// The controls of these numbers.
pub fn controls_of(flags: u16, ppc: u32, pc: u32, raw: RawCount) -> Controls
    ensures { result ≡ controls_of flags ppc pc raw }
{
    Controls {
        flowed: flag(flags, 0),
        cached: flag(flags, 1),
        ess: flag(flags, 2),
        ebc: flag(flags, 3),
        supervisor: flag(flags, 4),
        ppc,
        pc,
        raw,
    }
}

// A yes or no below the bits of a number, of which 15 have room.
pub fn packed_below(b: bool, above: u16) -> u16
    ensures { result ≡ num b + 2 * (above % 32768) }
{
    above << 1 | u16::from(b)
}

pub fn control_flags(k: Controls) -> u16
    ensures { result ≡ control_flags_of k }
{
    let from_supervisor = packed_below(k.supervisor, 0);
    let from_ebc = packed_below(k.ebc, from_supervisor);
    let from_ess = packed_below(k.ess, from_ebc);
    let from_cached = packed_below(k.cached, from_ess);
    packed_below(k.flowed, from_cached)
}

// The retirement of these numbers.
pub fn retirement_of(op: u16, flags: u16, ppc: u32, pc: u32, raw: RawCount) -> Retirement
    ensures { result ≡ retirement_of op flags ppc pc raw }
{
    let controls = controls_of(flags, ppc, pc, raw);
    Retirement { op, controls }
}
