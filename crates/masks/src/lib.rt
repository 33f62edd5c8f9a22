// Part 3 of document 01: the registers that an instruction uses and defines.
//
// `registers` has the pair of masks, what reaching an operand gives, and the groups that are all operands; `groups` has
// group 4. Here are the groups that are left, and `reg_masks_060`, which matches on the top four bits. `profile` calls
// the groups from a match of its own.
#![tactic(auto)]

mod groups;
mod registers;

ghost use Rattle.std.specs.Prelude.{◌≡◌};
ghost use Rattle.masks.specs.Operands.{mask_pair};
ghost use Rattle.masks.specs.Masks.{moveq_sets, dyadic_sets, shift_sets, masks_of};

pub use groups::group4_masks;
pub use registers::{RegMasks060, full, move_masks, quick_masks};
use registers::{operand_masks, select};

pub fn moveq_masks(op: u16) -> RegMasks060
    ensures { result ≡ mask_pair (moveq_sets op) }
{
    let dn = bits::dst_reg_of(op);
    RegMasks060 {
        uses: 0,
        defs: 1 << dn,
    }
}

pub fn dyadic_masks(op: u16) -> RegMasks060
    ensures { result ≡ mask_pair (dyadic_sets op) }
{
    let opmode = bits::dst_mode_of(op);
    let dn = bits::dst_reg_of(op);
    let ea = operand_masks(op);
    let own = select((opmode & 3) == 3, 1 << (8 + dn), 1 << dn); // An for 3 and 7
    let kept = select(opmode < 7, 0, own);
    let defined = select(opmode < 4, own, kept);
    RegMasks060 {
        uses: ea.uses | own,
        defs: ea.defs | defined,
    }
}

pub fn shift_masks(op: u16) -> RegMasks060
    ensures { result ≡ mask_pair (shift_sets op) }
{
    if (op & 0x00C0) != 0x00C0 {
        let dn = bits::reg_of(op);
        let count_use = if (op & 0x0020) != 0 {
            1 << bits::dst_reg_of(op)
        } else {
            0
        };
        RegMasks060 {
            uses: (1 << dn) | count_use,
            defs: 1 << dn,
        }
    } else {
        full()
    }
}

pub fn reg_masks_060(op: u16) -> RegMasks060
    ensures { result ≡ masks_of op }
{
    match op >> 12 {
        0x1..=0x3 => move_masks(op),
        0x7 => moveq_masks(op),
        0x8 | 0x9 | 0xB | 0xC | 0xD => dyadic_masks(op),
        0x5 => quick_masks(op),
        0xE => shift_masks(op),
        0x4 => group4_masks(op),
        _ => full(),
    }
}
