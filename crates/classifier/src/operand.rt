// Part 2 of document 01: what an operand gives, and the entries that are made of it.
//
// `operand_flags` and `destination_flags` look an operand up in two tables of bits; `alu`, `alu_of`, `unclassified`
// and `poep_only` pack the entries that many rows share. The groups and `rules` are written over these.
ghost use Rattle.std.specs.Prelude.{◌≡◌, true, false, ◌*◌, ◌/◌, ◌%◌, ◌<◌};
ghost use Rattle.std.specs.Int.Bits.{bit_or};
ghost use Rattle.bits.specs.Words.{num};
ghost use Rattle.bits.specs.Fields.{mode_of, reg_of, dst_mode_of, dst_reg_of};
ghost use Rattle.class_word.specs.Word.{new_of, info, DEFINES_CCR};
ghost use Rattle.classifier.specs.Entry.{is_memory, is_indexed, ea, access_flags, alu, entry_word, unclassified};

use bits::{dst_mode_of, dst_reg_of};
use class_word::{
    F_DEFINES_CCR, F_EA_INDEXED, F_READS_MEM, F_UNCLASSIFIED, F_VARIABLE, F_WRITES_MEM, Info060,
    OepClass,
};

// Two tables of one bit for each mode and reg, the six bits of an operand: a shift costs less than a chain of tests.
const MEMORY: u64 = 0xEFFF_FFFF_FFFF_0000;

const INDEXED: u64 = 0x08FF_0000_0000_0000;

// Stays a bound in three contracts, here and below: a type of six bits would be made and taken apart at each call.
fn is_memory(six: u16) -> bool
    requires { six < 64 }
    ensures { result ≡ is_memory (six / 8) (six % 8) }
{
    (MEMORY >> six) & 1 == 1
}

fn is_indexed(six: u16) -> bool
    requires { six < 64 }
    ensures { result ≡ is_indexed (six / 8) (six % 8) }
{
    (INDEXED >> six) & 1 == 1
}

// The flag where it is on, and none where it is off.
fn flag_if(on: bool, flag: u16) -> u16
    ensures { result ≡ num on * flag }
{
    if on { flag } else { 0 }
}

fn ea_flags(six: u16, read: bool, write: bool) -> u16
    requires { six < 64 }
    ensures { result ≡ access_flags (ea (six / 8) (six % 8) read write) }
{
    let is_mem = is_memory(six);
    let index = is_indexed(six);
    flag_if(is_mem & read, F_READS_MEM)
        | flag_if(is_mem & write, F_WRITES_MEM)
        | flag_if(index, F_EA_INDEXED)
}

// The flags of the operand in the low six bits.
pub fn operand_flags(op: u16, read: bool, write: bool) -> u16
    ensures { result ≡ access_flags (ea (mode_of op) (reg_of op) read write) }
{
    ea_flags(op & 63, read, write)
}

// The flags of MOVE's destination, whose register stands above its mode.
pub fn destination_flags(op: u16) -> u16
    ensures { result ≡ access_flags (ea (dst_mode_of op) (dst_reg_of op) false true) }
{
    let mode = dst_mode_of(op);
    let reg = dst_reg_of(op);
    ea_flags(mode << 3 | reg, false, true)
}

// An entry of class 0 and one clock, with these flags beside DEFINES_CCR.
pub fn alu(flags: u16) -> Info060
    ensures { result ≡ info (new_of 0 1 (bit_or DEFINES_CCR flags)) }
{
    Info060::new(OepClass::PoepSoep, 1, F_DEFINES_CCR | flags)
}

pub fn alu_of(op: u16, read: bool, write: bool) -> Info060
    ensures { result ≡ info (entry_word (alu (ea (mode_of op) (reg_of op) read write))) }
{
    alu(operand_flags(op, read, write))
}

pub fn unclassified() -> Info060
    ensures { result ≡ info (entry_word unclassified) }
{
    Info060::new(OepClass::PoepOnly, 1, F_UNCLASSIFIED | F_VARIABLE)
}

// An entry of class 1.
pub fn poep_only(cycles: u16, flags: u16) -> Info060
    ensures { result ≡ info (new_of 1 cycles flags) }
{
    Info060::new(OepClass::PoepOnly, cycles, flags)
}
