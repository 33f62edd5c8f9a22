// The fields of an opcode, which parts 2 and 3 of document 01 read.
//
// `mode_of` and `reg_of` name the operand in the low six bits, `dst_mode_of` and `dst_reg_of` the two fields above it:
// the destination of MOVE, elsewhere the opmode and a register. `classifier` and `masks` call them. The patterns, rows
// and words that are defined in specs/ serve the specs of all crates.
#![tactic(auto)]

ghost use Rattle.std.specs.Prelude.{◌≡◌};
ghost use Rattle.bits.specs.Fields.{mode_of, reg_of, dst_mode_of, dst_reg_of};

pub fn mode_of(op: u16) -> u16
    ensures { result ≡ mode_of op }
{
    (op >> 3) & 7
}

pub fn reg_of(op: u16) -> u16
    ensures { result ≡ reg_of op }
{
    op & 7
}

pub fn dst_mode_of(op: u16) -> u16
    ensures { result ≡ dst_mode_of op }
{
    (op >> 6) & 7
}

pub fn dst_reg_of(op: u16) -> u16
    ensures { result ≡ dst_reg_of op }
{
    (op >> 9) & 7
}
