// Part 3 of document 01: the registers that an instruction of group 4 uses and defines.
ghost use Rattle.std.specs.Prelude.{◌≡◌};
ghost use Rattle.masks.specs.Operands.{mask_pair};
ghost use Rattle.masks.specs.GroupFour.{group4_sets};

use crate::registers::{RegMasks060, full, operand_masks};

pub fn group4_masks(op: u16) -> RegMasks060
    ensures { result ≡ mask_pair (group4_sets op) }
{
    if (op & 0x01C0) == 0x01C0 {
        let an = bits::dst_reg_of(op);
        let ea = operand_masks(op);
        RegMasks060 {
            uses: ea.uses,
            defs: 1 << (8 + an),
        }
    } else if (op & 0x0F00) < 0x0700 || (op & 0x0F00) == 0x0A00 {
        let mode = bits::mode_of(op);
        let reg = bits::reg_of(op);
        let ea = operand_masks(op);
        let operand_def = if mode == 0 { 1 << reg } else { 0 };
        RegMasks060 {
            uses: ea.uses,
            defs: ea.defs | operand_def,
        }
    } else {
        full()
    }
}
