// The rules of the table: what the low six bits of an opcode give.
//
// `finish` has an arm for each rule, in the order of their numbers, and one with a guard before it where the rule has a
// test; the words come from `operand` and the groups. `classify_060_opcode` and the page of the rules call it.
ghost use Rattle.std.specs.Prelude.{◌≡◌};
ghost use Rattle.class_word.specs.Word.{info};
ghost use Rattle.classifier.specs.Rules.{finish_of};

use crate::group_four::{MOVEM, TAS, lea_060};
use crate::high_groups::{DECIMAL, EXTENDED, MEMORY_SHIFT};
use crate::low_groups::{DBCC, bit_entry, scc};
use crate::operand::{alu, alu_of, operand_flags, poep_only, unclassified};
use class_word::{
    F_BRANCH, F_DEFINES_CCR, F_EA_INDEXED, F_USES_CCR_LATE, F_VARIABLE, F_WRITES_MEM, Info060,
    OepClass,
};

// The class word that the low six bits finish by a rule.
// Stays a match on numbers: document 02's table names the rules by number, and `finish_of` speaks of every number.
pub fn finish(rule: u8, six: u16) -> Info060
    ensures { result ≡ info (finish_of rule six) }
{
    let at_dn = (six & 0x0038) == 0x0000;
    let at_an = (six & 0x0038) == 0x0008;
    let at_register = (six & 0x0030) == 0x0000;
    let at_immediate = (six & 0x003F) == 0x003C;
    let is_rox = (six & 0x0018) == 0x0010;
    match rule {
        0 if at_immediate => poep_only(1, F_VARIABLE),
        0 => alu_of(six, true, true),
        1 => unclassified(),
        2 => bit_entry(six, false),
        3 => bit_entry(six, true),
        4 if at_immediate => poep_only(1, F_VARIABLE),
        4 => alu_of(six, true, false),
        5 => alu_of(six, true, false),
        6 => alu(operand_flags(six, true, false) | F_WRITES_MEM),
        7 => alu(operand_flags(six, true, false) | (F_EA_INDEXED | F_WRITES_MEM)),
        8 => alu_of(six, true, true),
        9 => poep_only(1, F_VARIABLE),
        10 => poep_only(2, F_VARIABLE),
        11 => lea_060(six),
        12 if at_dn => alu(0),
        12 => poep_only(1, F_VARIABLE),
        13 if at_dn => alu(0),
        13 => Info060::new(OepClass::PoepUntilLast, 2, MOVEM),
        14 => poep_only(2, TAS),
        15 => poep_only(2, DECIMAL),
        16 if at_dn => poep_only(1, F_VARIABLE),
        16 => Info060::new(OepClass::PoepUntilLast, 2, MOVEM),
        17 if at_an => poep_only(3, DBCC),
        17 => scc(six),
        18 => poep_only(7, F_BRANCH),
        19 => poep_only(7, F_BRANCH | F_USES_CCR_LATE),
        20 => alu(0),
        21 if at_register => poep_only(2, DECIMAL),
        21 => alu_of(six, true, true),
        22 if at_register => poep_only(1, EXTENDED),
        22 => alu_of(six, true, true),
        23 if at_register => poep_only(1, EXTENDED),
        23 => alu_of(six, true, false),
        24 => poep_only(2, F_DEFINES_CCR),
        25 if at_register => poep_only(1, 0),
        25 => alu_of(six, true, true),
        26 if at_an => poep_only(1, 0),
        26 => alu_of(six, true, true),
        27 if is_rox => poep_only(1, EXTENDED),
        27 => alu(0),
        _ => Info060::new(OepClass::PoepSoep, 1, MEMORY_SHIFT),
    }
}
