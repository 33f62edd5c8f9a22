// Part 2 of document 01: the class words of groups 8 to 14, but for group 10, which has no rows.
//
// Each group is one public function, whose tests are its rows in the order of the definition; groups 9 and 13 share
// `add_sub`. The words come from `operand`. `classify_by_group` and `profile` choose the group.
ghost use Rattle.std.specs.Prelude.{◌≡◌, true, ◌+◌};
ghost use Rattle.bits.specs.Fields.{mode_of, reg_of};
ghost use Rattle.bits.specs.Rows.{rows_after};
ghost use Rattle.class_word.specs.Word.{info, DEFINES_CCR, USES_CCR_LATE};
ghost use Rattle.class_word.specs.declared.OepClass.TheVariants.{PoepOnly};
ghost use Rattle.classifier.specs.Entry.{ea, entry, entry_word, packed};
ghost use Rattle.classifier.specs.HighGroups.{group8, add_sub, group11, group12, group14};

use crate::operand::{alu, alu_of, operand_flags, poep_only, unclassified};
use class_word::{
    F_DEFINES_CCR, F_READS_MEM, F_USES_CCR_LATE, F_VARIABLE, F_WRITES_MEM, Info060, OepClass,
};

// The flags of a division, of SBCD, ABCD and PACK; of MULL and DIVL too, where a rule finishes them.
pub const DECIMAL: u16 = F_DEFINES_CCR | F_VARIABLE;

// The flags of ADDX and SUBX, and of ROXL and ROXR.
pub const EXTENDED: u16 = F_DEFINES_CCR | F_USES_CCR_LATE;

pub const MEMORY_SHIFT: u16 = F_DEFINES_CCR | F_READS_MEM | F_WRITES_MEM; // never F_EA_INDEXED

// The last two rows of groups 8, 9, B, C and D: bit 8 says whether the operand is modified.
fn read_or_modified(op: u16) -> Info060
    ensures { result ≡ packed (rows_after 1 (group11 op)) }
{
    alu_of(op, true, (op & 0x0100) == 0x0100)
}

pub fn group8(op: u16) -> Info060
    ensures { result ≡ packed (group8 op) }
{
    if (op & 0x00C0) == 0x00C0 {
        poep_only(2, DECIMAL)
    } else {
        match op & 0x01F0 {
            0x0100 | 0x0140 => poep_only(2, DECIMAL),
            _ => read_or_modified(op),
        }
    }
}

fn addx_subx(op: u16) -> Info060
    ensures { result
        ≡ info (entry_word (entry PoepOnly 1 (DEFINES_CCR + USES_CCR_LATE)
        (ea (mode_of op) (reg_of op) true true))) }
{
    poep_only(1, EXTENDED | operand_flags(op, true, true))
}

pub fn add_sub(op: u16) -> Info060
    ensures { result ≡ packed (add_sub op) }
{
    if (op & 0x0130) == 0x0100 {
        addx_subx(op)
    } else if (op & 0x00C0) == 0x00C0 {
        alu_of(op, true, false)
    } else {
        read_or_modified(op)
    }
}

pub fn group11(op: u16) -> Info060
    ensures { result ≡ packed (group11 op) }
{
    if (op & 0x00C0) == 0x00C0 {
        alu_of(op, true, false)
    } else {
        read_or_modified(op)
    }
}

pub fn group12(op: u16) -> Info060
    ensures { result ≡ packed (group12 op) }
{
    if (op & 0x00C0) == 0x00C0 {
        poep_only(2, F_DEFINES_CCR)
    } else if (op & 0x01F0) == 0x0100 {
        poep_only(2, DECIMAL)
    } else {
        match op & 0x01F8 {
            0x0140 | 0x0148 | 0x0188 => poep_only(1, 0),
            _ => read_or_modified(op),
        }
    }
}

pub fn group14(op: u16) -> Info060
    ensures { result ≡ packed (group14 op) }
{
    if (op & 0x08C0) == 0x08C0 {
        unclassified()
    } else if (op & 0x00C0) == 0x00C0 {
        Info060::new(OepClass::PoepSoep, 1, MEMORY_SHIFT)
    } else if (op & 0x0018) == 0x0010 {
        poep_only(1, EXTENDED)
    } else {
        alu(0)
    }
}
