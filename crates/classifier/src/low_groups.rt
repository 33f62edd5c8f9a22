// Part 2 of document 01: the class words of groups 0 to 7, but for group 4.
//
// Each group is one public function, whose tests are its rows in the order of the definition; groups 1 to 3 share
// `move_060`. The words come from `operand`. `classify_by_group` and `profile` choose the group.
ghost use Rattle.std.specs.Prelude.{◌≡◌, true, false};
ghost use Rattle.bits.specs.Fields.{mode_of, reg_of};
ghost use Rattle.bits.specs.Rows.{rows_after};
ghost use Rattle.class_word.specs.Word.{info, DEFINES_CCR, USES_CCR_LATE};
ghost use Rattle.class_word.specs.declared.OepClass.TheVariants.{PoepSoep, PoepOnly};
ghost use Rattle.classifier.specs.Entry.{ea, entry, entry_word, packed};
ghost use Rattle.classifier.specs.LowGroups.{bit_operation, group0, move, group5, group6, group7};

use crate::operand::{alu, alu_of, destination_flags, operand_flags, poep_only, unclassified};
use class_word::{F_BRANCH, F_DBCC, F_DEFINES_CCR, F_USES_CCR_LATE, F_VARIABLE, Info060, OepClass};

pub const DBCC: u16 = F_BRANCH | F_DBCC | F_USES_CCR_LATE;

// A bit operation: BTST only reads its operand, the others write it too.
pub fn bit_entry(op: u16, write: bool) -> Info060
    ensures { result ≡ info (entry_word (entry PoepOnly 1 DEFINES_CCR (ea (mode_of op) (reg_of op) true write))) }
{
    poep_only(1, F_DEFINES_CCR | operand_flags(op, true, write))
}

fn bit_operation(op: u16) -> Info060
    ensures { result ≡ info (entry_word (bit_operation op)) }
{
    bit_entry(op, (op & 0x00C0) != 0x0000)
}

pub fn group0(op: u16) -> Info060
    ensures { result ≡ packed (group0 op) }
{
    if (op & 0x0100) == 0x0100 {
        bit_operation(op)
    } else if (op & 0x0F00) == 0x0800 {
        bit_operation(op)
    } else if (op & 0x0FC0) == 0x00C0 {
        unclassified()
    } else if (op & 0x09C0) == 0x08C0 {
        unclassified()
    } else {
        immediate_060(op)
    }
}

// The rows after the bit operations, CMP2 and CAS.
fn immediate_060(op: u16) -> Info060
    ensures { result ≡ packed (rows_after 4 (group0 op)) }
{
    if (op & 0x003F) == 0x003C {
        poep_only(1, F_VARIABLE)
    } else if (op & 0x0F00) == 0x0C00 {
        alu_of(op, true, false)
    } else {
        alu_of(op, true, true)
    }
}

pub fn move_060(op: u16) -> Info060
    ensures { result ≡ packed (move op) }
{
    let source = operand_flags(op, true, false);
    let destination = destination_flags(op);
    alu(source | destination)
}

pub fn scc(op: u16) -> Info060
    ensures { result ≡ info (entry_word (entry PoepSoep 1 USES_CCR_LATE (ea (mode_of op) (reg_of op) false true))) }
{
    Info060::new(
        OepClass::PoepSoep,
        1,
        F_USES_CCR_LATE | operand_flags(op, false, true),
    )
}

pub fn group5(op: u16) -> Info060
    ensures { result ≡ packed (group5 op) }
{
    if (op & 0x00F8) == 0x00C8 {
        poep_only(3, DBCC)
    } else if (op & 0x00C0) == 0x00C0 {
        scc(op)
    } else {
        alu_of(op, true, true)
    }
}

pub fn group6(op: u16) -> Info060
    ensures { result ≡ packed (group6 op) }
{
    if (op & 0x0F00) == 0 {
        poep_only(7, F_BRANCH)
    } else {
        poep_only(7, F_BRANCH | F_USES_CCR_LATE)
    }
}

// Stays with an argument that it does not read: its clause names the opcode, as that of each group does.
pub fn group7(_op: u16) -> Info060
    ensures { result ≡ packed (group7 _op) }
{
    alu(0)
}
