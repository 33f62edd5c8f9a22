// Part 2 of document 01: the class words of group 4.
//
// The rows are many and their order counts, so each function takes some of them and hands on what is left: `group4`,
// `group4_middle`, `group4_rest`, `group4_last`. The words come from `operand`. `classify_by_group` and `profile` call
// `group4`.
ghost use Rattle.std.specs.Prelude.{◌≡◌, false, not, ◌&&◌};
ghost use Rattle.bits.specs.Pattern.{matches};
ghost use Rattle.bits.specs.Instructions.{data_register, size01, movem, nbcd_ext};
ghost use Rattle.bits.specs.Fields.{mode_of, reg_of};
ghost use Rattle.bits.specs.Rows.{rows_after};
ghost use Rattle.class_word.specs.Word.{info};
ghost use Rattle.class_word.specs.declared.OepClass.TheVariants.{PoepSoep};
ghost use Rattle.classifier.specs.Entry.{ea, entry, entry_word, packed};
ghost use Rattle.classifier.specs.Group4.{group4};

use crate::operand::{alu, alu_of, operand_flags, poep_only};
use class_word::{F_DEFINES_CCR, F_READS_MEM, F_VARIABLE, F_WRITES_MEM, Info060, OepClass};

pub const MOVEM: u16 = F_VARIABLE | F_READS_MEM | F_WRITES_MEM;

pub const TAS: u16 = F_DEFINES_CCR | F_READS_MEM | F_WRITES_MEM;

const MULL_DIVL: u16 = F_DEFINES_CCR | F_VARIABLE;

pub fn lea_060(op: u16) -> Info060
    ensures { result ≡ info (entry_word (entry PoepSoep 1 0 (ea (mode_of op) (reg_of op) false false))) }
{
    Info060::new(OepClass::PoepSoep, 1, operand_flags(op, false, false))
}

pub fn group4(op: u16) -> Info060
    ensures { result ≡ packed (group4 op) }
{
    match op & 0x0FC0 {
        0x00C0 | 0x02C0 | 0x04C0 | 0x06C0 => poep_only(1, F_VARIABLE),
        _ => group4_middle(op),
    }
}

// The rows after the moves from and to SR and CCR.
fn group4_middle(op: u16) -> Info060
    ensures { result ≡ packed (rows_after 4 (group4 op)) }
{
    if is_movem(op) {
        return Info060::new(OepClass::PoepUntilLast, 2, MOVEM);
    }
    if (op & 0x0FC0) == 0x0AC0 {
        return poep_only(2, TAS);
    }
    if (op & 0x0F80) == 0x0C00 {
        return poep_only(2, MULL_DIVL);
    }
    if (op & 0x0FF8) == 0x0840 {
        return alu(0);
    }
    if is_nbcd_or_ext(op) {
        return alu_of(op, true, true);
    }
    group4_rest(op)
}

// Stays two functions, this and the next: one for both would take four masks and values, in no order that reads.
fn is_movem(op: u16) -> bool
    ensures { result ≡ (matches movem op && not (matches data_register op)) }
{
    (op & 0x0B80) == 0x0880 && (op & 0x0038) != 0x0000
}

fn is_nbcd_or_ext(op: u16) -> bool
    ensures { result ≡ (matches nbcd_ext op && not (matches size01 op)) }
{
    (op & 0x0E00) == 0x0800 && (op & 0x00C0) != 0x0040
}

fn group4_rest(op: u16) -> Info060
    ensures { result ≡ packed (rows_after 9 (group4 op)) }
{
    match op & 0x0F00 {
        0x0200 | 0x0000 | 0x0400 | 0x0600 => alu_of(op, true, true),
        _ => group4_last(op),
    }
}

// The rows after CLR, NEGX, NEG and NOT.
fn group4_last(op: u16) -> Info060
    ensures { result ≡ packed (rows_after 13 (group4 op)) }
{
    if (op & 0x01C0) == 0x01C0 {
        return lea_060(op);
    }
    if (op & 0x01C0) == 0x0180 {
        return poep_only(2, F_VARIABLE);
    }
    if (op & 0x0F00) == 0x0A00 {
        return alu_of(op, true, false);
    }
    poep_only(1, F_VARIABLE)
}
