// A class word as text: itself, its class, its clocks and its flags by name.
ghost use Rattle.std.specs.Prelude.{◌≡◌, ◌+◌, ◌≤◌, length};
ghost use Rattle.text.specs.Written.{written, written_of};
ghost use Rattle.rule_text.specs.Names.{none_text, flag_text, flags_text};
ghost use Rattle.rule_text.specs.Lines.{word_text};

use class_word::{
    F_BRANCH, F_DBCC, F_DEFINES_CCR, F_EA_INDEXED, F_READS_MEM, F_UNCLASSIFIED, F_USES_CCR_LATE,
    F_VARIABLE, F_WRITES_MEM, Info060,
};

// In the order of document 01.
const FLAGS: [(u16, &[u8]); 9] = [
    (F_BRANCH, b" BRANCH"),
    (F_DBCC, b" DBCC"),
    (F_VARIABLE, b" VARIABLE"),
    (F_DEFINES_CCR, b" DEFINES_CCR"),
    (F_USES_CCR_LATE, b" USES_CCR_LATE"),
    (F_EA_INDEXED, b" EA_INDEXED"),
    (F_UNCLASSIFIED, b" UNCLASSIFIED"),
    (F_READS_MEM, b" READS_MEM"),
    (F_WRITES_MEM, b" WRITES_MEM"),
];

// BRANCH is the lowest flag: a word below it has none.
#[tactic(auto, using(crate::proofs::Each::each), unfolding(crate::specs::Names::none_text))]
fn put_none(out: &mut [u8], at: usize, word: Info060) -> usize
    requires { at + length (none_text word.0) ≤ length out.old }
    ensures { written result out.new ≡ written_of out.old at (none_text word.0) }
{
    if word.0 < F_BRANCH {
        return text::put_bytes(out, at, b" none");
    }
    at
}

#[tactic(auto, using(crate::proofs::Each::each), unfolding(crate::specs::Names::flag_text))]
fn put_flag(out: &mut [u8], at: usize, word: Info060, flag: u16, name: &[u8]) -> usize
    requires { at + length (flag_text word.0 flag name.now) ≤ length out.old }
    ensures { written result out.new
        ≡ written_of out.old at (flag_text word.0 flag name.now) }
{
    if word.has(flag) {
        return text::put_bytes(out, at, name);
    }
    at
}

fn put_flags(out: &mut [u8], at: usize, word: Info060) -> usize
    requires { at + length (flags_text word.0) ≤ length out.old }
    ensures { written result out.new ≡ written_of out.old at (flags_text word.0) }
{
    let mut place = put_none(out, at, word);
    for (flag, name) in FLAGS {
        place = put_flag(out, place, word, flag, name);
    }
    place
}

#[tactic(auto, using(crate::proofs::Each::each), unfolding(crate::specs::Lines::word_text))]
pub fn put_word(out: &mut [u8], at: usize, word: Info060) -> usize
    // There is room: only the lines of the page call this, where the room is known.
    requires { at + length (word_text word.0) ≤ length out.old }
    ensures { written result out.new ≡ written_of out.old at (word_text word.0) }
{
    let class = u16::from(word.class());
    let clocks = word.cycles();
    let a = text::put_hex::<4>(out, at, u32::from(word.0));
    let b = text::put_bytes(out, a, b" class ");
    let c = text::put_decimal(out, b, u64::from(class));
    let d = text::put_bytes(out, c, b" clocks ");
    let e = text::put_decimal(out, d, u64::from(clocks.0));
    put_flags(out, e, word)
}
