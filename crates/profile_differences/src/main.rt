// Prints the opcodes of which the two profiles say something else: OPCODE WORD USE DEF WORD USE DEF, the crate's and
// then the mended profile's, a line each in rising order, in upper-case hexadecimal; and how many there are.
//
// `profile` is asked twice of each opcode; `tell` compares, `line` spells with `text`.
#![tactic(auto)]

ghost use Rattle.std.specs.Prelude.{◌≡◌, IfOk};
ghost use Rattle.profile.specs.Profile.{profile_of};
ghost use Rattle.profile.specs.declared.Profile.TheVariants.{Crate, Mended};
ghost use Rattle.profile_differences.specs.Difference.{differ_of, difference_line};

use profile::Profile;
use std::io;
use window::Instruction;

// One line, 35 bytes with its end: seven words, a blank before each but the first.
// Stays seven calls: a loop would say each place by an invariant, and the clause names each word.
fn line(op: u16, own: Instruction, mended: Instruction) -> [u8; 35]
    ensures { result ≡ difference_line op own mended }
{
    let mut line = [b' '; 35];
    line[0..4].copy_from_slice(&text::hex_digits::<4>(op as u32));
    line[5..9].copy_from_slice(&text::hex_digits::<4>(own.word.0 as u32));
    line[10..14].copy_from_slice(&text::hex_digits::<4>(own.uses as u32));
    line[15..19].copy_from_slice(&text::hex_digits::<4>(own.defs as u32));
    line[20..24].copy_from_slice(&text::hex_digits::<4>(mended.word.0 as u32));
    line[25..29].copy_from_slice(&text::hex_digits::<4>(mended.uses as u32));
    line[30..34].copy_from_slice(&text::hex_digits::<4>(mended.defs as u32));
    line[34] = b'\n';
    line
}

// Prints the line of an opcode where the profiles differ, and answers whether they do.
fn tell(rt: &impl Print, op: u16) -> io::Result<bool>
    ensures { IfOk result (λ different. different ≡ differ_of (profile_of Crate op) (profile_of Mended op)) }
{
    let own = profile::instruction_060(Profile::Crate, op);
    let mended = profile::instruction_060(Profile::Mended, op);
    let different = own != mended;
    if different {
        rt.write_all(&line(op, own, mended))?;
    }
    Ok(different)
}

fn main(rt: HostRuntime) -> io::Result<()> {
    let mut count: u32 = 0;
    for op in 0..=u16::MAX {
        // Where a line cannot be written, no other can, and the program ends without a word.
        let Ok(different) = tell(&rt, op) else {
            return Ok(());
        };
        count += u32::from(different);
    }
    println!(rt; "differ {count}")
}
