// Part 2 of document 01: the class word of every opcode.
//
// `classify_060_opcode` looks the rule of the opcode's row up in `table` and lets it finish (`rules`): `step` and
// `host` ask through `info_060`, and the page of the rules prints the table. `classify_by_group` is the same word by
// one match on the top four bits, over the rows of `low_groups`, `group_four` and `high_groups`, and lays no table out:
// for the fast step `profile` has the same arms, joined with those of the masks. `operand` makes the words that rows
// share; `lea_060` is handed on for the mended profile.
#![tactic(auto)]

mod group_four;
mod high_groups;
mod low_groups;
mod operand;
mod rules;
mod table;

ghost use Rattle.std.specs.Prelude.{◌≡◌};
ghost use Rattle.class_word.specs.Word.{info};
ghost use Rattle.classifier.specs.Classify.{classify_of};

use class_word::Info060;
pub use group_four::{group4, lea_060};
pub use high_groups::{add_sub, group8, group11, group12, group14};
pub use low_groups::{group0, group5, group6, group7, move_060};
pub use operand::unclassified;
pub use rules::finish;
pub use table::rule_of;

pub fn classify_060_opcode(op: u16) -> Info060
    ensures { result ≡ info (classify_of op) }
{
    rules::finish(table::rule_of(op), op & 63)
}

// The same by the groups.
// Stays without a caller here: document 01 names a match on the top four bits, and docs/PROMISES.md has its promise.
pub fn classify_by_group(op: u16) -> Info060
    ensures { result ≡ info (classify_of op) }
{
    match op >> 12 {
        0x0 => low_groups::group0(op),
        0x1..=0x3 => low_groups::move_060(op),
        0x4 => group_four::group4(op),
        0x5 => low_groups::group5(op),
        0x6 => low_groups::group6(op),
        0x7 => low_groups::group7(op),
        0x8 => high_groups::group8(op),
        0x9 | 0xD => high_groups::add_sub(op),
        0xB => high_groups::group11(op),
        0xC => high_groups::group12(op),
        0xE => high_groups::group14(op),
        _ => unclassified(),
    }
}

// The Rust's table of 65,536 words becomes a call of the classifier.
// Stays a second name: it is the Rust's, and README and docs/PROMISES.md name both.
pub fn info_060(op: u16) -> Info060
    ensures { result ≡ info (classify_of op) }
{
    classify_060_opcode(op)
}
