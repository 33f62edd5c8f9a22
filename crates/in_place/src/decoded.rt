// Opcodes decoded once a run: what a profile has of each, kept in a table that the run makes anew.
//
// An entry is one number: the opcode, its class word and its two masks. Entries are 0 at first. A run asks its table,
// which answers as its profile does, and stores what it had to look up.
// Stays numbers of 64 bits: an entry is compared and taken apart in registers (docs/SPEED.md).
ghost use Rattle.std.specs.Prelude.{◌≡◌, replicate};
ghost use Rattle.profile.specs.Profile.{profile_of};
ghost use Rattle.in_place.specs.Lent.{lent};
ghost use Rattle.in_place.specs.Decoded.{slot_of, IsEntry, instruction_in, is_of, Known, kept_of};

use crate::windows::WindowNumbers;
use class_word::Info060;
use profile::Profile;
use window::Instruction;

// A run of few retirements pays for clearing it, and one of many opcodes for those that share a slot: docs/SPEED.md.
pub const DECODED: usize = 1024;

// The table of a run: each entry is 0, or says of its opcode what the profile says. It is large, and a run lends it.
#[derive(Clone, Copy)]
pub struct Decoded {
    pub profile: Profile,
    pub entries: [u64; DECODED],
    pub ghost known: { Known profile entries },
}

fn slot_of(op: u16) -> usize
    ensures { result ≡ slot_of op }
{
    ((op ^ op >> 6) & 1023) as usize
}

pub fn entry_of(op: u16, i: Instruction) -> u64
    ensures { IsEntry result op i }
{
    op as u64
        + i.word.0 as u64 * 65536
        + i.uses as u64 * 4294967296
        + i.defs as u64 * 281474976710656
}

fn instruction_in(e: u64) -> Instruction
    ensures { result ≡ instruction_in e }
{
    Instruction {
        word: Info060((e / 65536 % 65536) as u16),
        uses: (e / 4294967296 % 65536) as u16,
        defs: (e / 281474976710656) as u16,
    }
}

// Whether an entry is this opcode's.
fn is_of(e: u64, op: u16) -> bool
    ensures { result ≡ is_of op e }
{
    e != 0 && (e % 65536) as u16 == op
}

impl Decoded {
    // A table that has no opcode yet.
    pub fn new(profile: Profile) -> Self
        ensures of_profile { result.profile ≡ profile }
        ensures empty { result.entries ≡ replicate DECODED 0 }
    {
        Decoded {
            profile,
            entries: [0; DECODED],
        }
    }

    // What the profile has of an opcode, from the table or stored into it. The lent numbers go to the step, which alone
    // looks an opcode up, and stay.
    pub fn look_up(
        &mut self,
        tags: &mut [u32; 256],
        state: &mut [u8; 256],
        window: &mut WindowNumbers,
        op: u16,
    ) -> Instruction
        ensures value { result ≡ profile_of self.old.profile op }
        ensures window_unchanged { lent tags.new state.new window.new
            ≡ lent tags.old state.old window.old }
        ensures profile_after { self.new.profile ≡ self.old.profile }
        ensures entries_after { self.new.entries
            ≡ kept_of self.old.profile op self.old.entries }
    {
        let at = slot_of(op);
        let e = self.entries[at];
        if is_of(e, op) {
            return instruction_in(e);
        }
        let found = crate::entry_at(tags, state, window, self.profile, op);
        self.entries[at] = found;
        instruction_in(found)
    }
}
