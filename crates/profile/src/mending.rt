// Document 02, R-4: the rows of the mended profile over what the crate's has of an opcode.
//
// `mended_060` has the rows that change masks, `reclassed` those that change the class word alone, both in document
// 02's order. The words of PACK, and of CHK on the other registers, stand here, since a second caller of a group's
// function would make of it a call in the fast step; LEA's is `lea_060`'s.
ghost use Rattle.std.specs.Prelude.{◌≡◌, not, ◌&&◌, eqb};
ghost use Rattle.std.specs.Int.Bits.{bit_and};
ghost use Rattle.bits.specs.Pattern.{matches};
ghost use Rattle.bits.specs.Instructions.{size11};
ghost use Rattle.bits.specs.Rows.{first, rows_after};
ghost use Rattle.class_word.specs.Word.{info};
ghost use Rattle.classifier.specs.Entry.{entry_word};
ghost use Rattle.masks.specs.Registers.{mask_of_regs};
ghost use Rattle.profile.specs.Mending.{from◌to◌, on_register, unpk, chk_on_4};
ghost use Rattle.profile.specs.Mending.{classed_as, both_addresses, mended_rows};
ghost use Rattle.profile.specs.Inner.{chk_entry};

use class_word::{F_DEFINES_CCR, F_READS_MEM, F_VARIABLE, Info060, OepClass};
use window::Instruction;

const EOR_OF_REGISTERS: u16 = 0xB100;

const CMPM: u16 = 0xB108;

// Stays a function: its clause is the definition's `from to`, which the clauses of `contains` do not name.
fn within(op: u16, low: u16, high: u16) -> bool
    ensures { result ≡ (from low to high) op }
{
    (low..=high).contains(&op)
}

// The same opcode with register 0 in bits 9 to 11.
fn on_register_0(op: u16) -> u16
    ensures { result ≡ on_register 0 op }
{
    op - bits::dst_reg_of(op) * 512
}

// EOR or CMPM by the kind's bits, and of a size that is not 11.
fn is_of_kind(op: u16, kind: u16) -> bool
    ensures { result ≡ (eqb (bit_and op 0xF138) kind && not (matches size11 op)) }
{
    (op & 0xF138) == kind && (op & 0x00C0) != 0x00C0
}

fn is_unpk(op: u16) -> bool
    ensures { result ≡ unpk op }
{
    within(on_register_0(op), 0x8180, 0x818F)
}

fn is_chk_on_4(op: u16) -> bool
    ensures { result ≡ chk_on_4 op }
{
    within(op, 0x4900, 0x493F) || within(op, 0x4980, 0x49BF)
}

// The two address registers of CMPM.
fn both_addresses(op: u16) -> u16
    ensures { result ≡ mask_of_regs (both_addresses op) }
{
    (1 << (8 + bits::dst_reg_of(op))) | (1 << (8 + bits::reg_of(op)))
}

pub fn mended_060(op: u16, i: Instruction) -> Instruction
    ensures { result ≡ first (mended_rows op i) }
{
    let word = i.word;
    if is_of_kind(op, EOR_OF_REGISTERS) {
        return Instruction {
            word,
            uses: i.uses,
            defs: i.defs | (1 << bits::reg_of(op)),
        };
    }
    if within(op, 0x49C0, 0x49C7) {
        let own = 1 << bits::reg_of(op);
        return Instruction {
            word,
            uses: own,
            defs: own,
        };
    }
    if is_of_kind(op, CMPM) {
        let both = both_addresses(op);
        return Instruction {
            word: Info060(word.0 | F_READS_MEM),
            uses: both,
            defs: both,
        };
    }
    reclassed(op, i)
}

fn classed_as(word: Info060, i: Instruction) -> Instruction
    ensures { result ≡ classed_as word.0 i }
{
    Instruction {
        word,
        uses: i.uses,
        defs: i.defs,
    }
}

// CHK on the other registers: of longs 1 clock, as for what the classifier has no row, and of words 2.
fn chk_060(op: u16) -> Info060
    ensures { result ≡ info (entry_word (chk_entry op)) }
{
    if op < 0x4980 {
        return Info060::new(OepClass::PoepOnly, 1, F_VARIABLE);
    }
    Info060::new(OepClass::PoepOnly, 2, F_VARIABLE)
}

// The rows from the fourth on, which change the class word alone.
fn reclassed(op: u16, i: Instruction) -> Instruction
    ensures { result ≡ first (rows_after 3 (mended_rows op i)) }
{
    if within(op, 0x0E00, 0x0EBF) {
        return classed_as(classifier::unclassified(), i);
    }
    if is_unpk(op) {
        let pack = Info060::new(OepClass::PoepOnly, 2, F_DEFINES_CCR | F_VARIABLE);
        return classed_as(pack, i);
    }
    if is_chk_on_4(op) {
        return classed_as(chk_060(op), i);
    }
    if within(op, 0x49C8, 0x49FF) {
        return classed_as(classifier::lea_060(op), i);
    }
    i
}
