// What an opcode is to the pairing window: parts 2 and 3 of document 01 joined, in the profile that is chosen at start.
//
// `crate_060` calls the groups of the classifier and of `masks` from one match, and equals the two functions that
// `step` calls apart; `mending` has the rows of document 02's mended profile. `in_place` calls `instruction_060`, since
// it is faster.
#![tactic(auto)]

mod mending;

ghost use Rattle.std.specs.Prelude.{◌≡◌};
ghost use Rattle.profile.specs.Profile.{joined_of, crate_profile, read_in, profile_of, profile_at, number_of};

use class_word::Info060;
use masks::RegMasks060;
use window::Instruction;

// Chosen at start: document 000's, or document 02's.
#[derive(Clone, Copy, PartialEq, Eq)]
pub enum Profile {
    Crate = 0,
    Mended = 1,
}

// The profile of a number that a host passes: a number that is neither's is the crate's, the default.
impl From<u32> for Profile {
    ghost from_gives = { λ number profile. profile ≡ profile_at number };

    fn from(number: u32) -> Profile {
        if number == 1 {
            Profile::Mended
        } else {
            Profile::Crate
        }
    }
}

impl From<Profile> for u32 {
    ghost from_gives = { λ profile number. number ≡ number_of profile };

    fn from(profile: Profile) -> u32 {
        profile as u32
    }
}

fn joined(word: Info060, masks: RegMasks060) -> Instruction
    ensures { result ≡ joined_of word masks }
{
    Instruction {
        word,
        uses: masks.uses,
        defs: masks.defs,
    }
}

// The class word and the masks in one match: the group is looked at once.
// Stays beside `classify_by_group` and `reg_masks_060`: one match for both is the faster (docs/SPEED.md).
fn crate_060(op: u16) -> Instruction
    ensures { result ≡ crate_profile op }
{
    match op >> 12 {
        0x0 => joined(classifier::group0(op), masks::full()),
        0x1..=0x3 => joined(classifier::move_060(op), masks::move_masks(op)),
        0x4 => joined(classifier::group4(op), masks::group4_masks(op)),
        0x5 => joined(classifier::group5(op), masks::quick_masks(op)),
        0x6 => joined(classifier::group6(op), masks::full()),
        0x7 => joined(classifier::group7(op), masks::moveq_masks(op)),
        0x8 => joined(classifier::group8(op), masks::dyadic_masks(op)),
        0x9 | 0xD => joined(classifier::add_sub(op), masks::dyadic_masks(op)),
        0xB => joined(classifier::group11(op), masks::dyadic_masks(op)),
        0xC => joined(classifier::group12(op), masks::dyadic_masks(op)),
        0xE => joined(classifier::group14(op), masks::shift_masks(op)),
        _ => joined(classifier::unclassified(), masks::full()),
    }
}

// What a profile has of an opcode of which the crate's has `i`.
pub fn read_in(profile: Profile, op: u16, i: Instruction) -> Instruction
    ensures { result ≡ read_in profile op i }
{
    match profile {
        Profile::Crate => i,
        Profile::Mended => mending::mended_060(op, i),
    }
}

pub fn instruction_060(profile: Profile, op: u16) -> Instruction
    ensures { result ≡ profile_of profile op }
{
    read_in(profile, op, crate_060(op))
}
