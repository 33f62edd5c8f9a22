// Prints OPCODE WORD USE DEF of all 65,536 opcodes, a line each, in upper-case hexadecimal.
//
// `line` asks `classifier` and `masks` and spells with `text`; `page` has the lines of 256 opcodes, written at once.
#![tactic(auto)]

ghost use Rattle.std.specs.Prelude.{◌<◌};

use std::io;

// One line, 20 bytes with its end.
fn line(op: u16) -> [u8; 20] {
    let masks = masks::reg_masks_060(op);
    let o = text::hex_digits::<4>(op as u32);
    let w = text::hex_digits::<4>(classifier::info_060(op).0 as u32);
    let u = text::hex_digits::<4>(masks.uses as u32);
    let d = text::hex_digits::<4>(masks.defs as u32);
    [
        o[0], o[1], o[2], o[3], b' ', w[0], w[1], w[2], w[3], b' ', u[0], u[1], u[2], u[3], b' ',
        d[0], d[1], d[2], d[3], b'\n',
    ]
}

// The lines of the 256 opcodes with these upper eight bits.
fn page(high: u16) -> [[u8; 20]; 256]
    requires { high < 256 }
{
    let mut page = [[0u8; 20]; 256];
    for low in 0..256 {
        page[low as usize] = line(high * 256 + low);
    }
    page
}

fn main(rt: HostRuntime) -> io::Result<()> {
    for high in 0..256 {
        rt.write_all(page(high).as_flattened())?;
    }
    Ok(())
}
